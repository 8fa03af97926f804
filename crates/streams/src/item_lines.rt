//! The lines of a list.

ghost use Rattle.std.specs.Prelude.{◌≡◌, ◌+◌, ◌*◌, ◌<◌};
ghost use Rattle.std.specs.Prelude.{◌≤◌, ◌^◌, ◌++◌};
ghost use Rattle.arrayvec.specs.ArrayVec.{array_vec_len};
ghost use Rattle.streams.specs.ItemTexts.{ephemeris_text, issue_text, list_item};
ghost use Rattle.streams.specs.ItemTexts.{named_text, satellite_text};

use nav_eph::{NavItem, Sat, System};
use one_run::{Text, append, append_decimal};

/// Appends a satellite: the letter of its system, and two digits.
pub fn append_satellite(text: &mut Text, sat: Sat)
    requires { array_vec_len text.old + 3 ≤ 640 }
    ensures items { text.new.items ≡ text.old.items ++ satellite_text sat }
    ensures len { array_vec_len text.new ≡ array_vec_len text.old + 3 }
{
    let letter = match sat.system() {
        System::Gps => b'G',
        System::Gal => b'E',
    };
    let number = sat.number();
    append(text, &[letter, b'0' + number / 10, b'0' + number % 10]);
}

/// Appends a satellite and the issue of data of its ephemeris.
pub fn append_issue(text: &mut Text, sat: Sat, issue: u64)
    requires { array_vec_len text.old + 48 ≤ 640 }
    ensures items { text.new.items ≡ text.old.items ++ issue_text sat issue }
    ensures short { array_vec_len text.new ≤ array_vec_len text.old + 48 }
{
    append(text, b"EPH ");
    append_satellite(text, sat);
    append(text, b" ");
    append_decimal(text, issue);
}

// Appends an ephemeris: satellite, issue of data, week of toe, and toe in seconds.
fn append_ephemeris(text: &mut Text, sat: Sat, issue: u64, week: u32, second: u64)
    requires { array_vec_len text.old + 130 ≤ 640 }
    ensures items { text.new.items ≡ text.old.items ++ ephemeris_text sat issue week second }
    ensures short { array_vec_len text.new ≤ array_vec_len text.old + 130 }
{
    append_issue(text, sat, issue);
    append(text, b" ");
    append_decimal(text, u64::from(week));
    append(text, b" ");
    append_decimal(text, second);
}

// Appends the description of an item.
fn append_named(text: &mut Text, item: &NavItem)
    requires { array_vec_len text.old + 130 ≤ 640 }
    ensures items { text.new.items ≡ text.old.items ++ named_text item.now }
    ensures short { array_vec_len text.new ≤ array_vec_len text.old + 130 }
{
    match item {
        NavItem::Gps(e) => append_ephemeris(
            text,
            e.sat,
            e.a.iode.value(),
            e.toe_week.value(),
            16 * e.a.toe.value(),
        ),
        NavItem::Gal(e) => append_ephemeris(
            text,
            e.sat,
            e.w1.iodnav.value(),
            e.toe_week.value(),
            60 * e.w1.toe.value(),
        ),
        NavItem::Ion(e) => {
            append(text, b"ION ");
            append_satellite(text, e.sat);
        }
    }
}

/// The line of an item in a list, with the line number of its record: `<line> EPH <satellite>
/// <issue> <week of toe> <toe in seconds>`, or `<line> ION <satellite>`, and LF. The issue is IODE
/// or IODnav.
#[tactic(auto, unfolding(crate::specs::ItemTexts::list_item))]
pub fn item_line(line: u64, item: &NavItem) -> Text
    ensures { result.items ≡ list_item line item.now }
{
    let mut text = Text::new();
    append_decimal(&mut text, line);
    append(&mut text, b" ");
    append_named(&mut text, item);
    append(&mut text, b"\n");
    text
}

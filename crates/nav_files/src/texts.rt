//! The lines of differences.

ghost use Rattle.std.specs.Prelude.{◌≡◌, ◌≤◌, ◌+◌, ◌++◌, ◌∷◌, length, map, true};
ghost use Rattle.std.specs.Prelude.{codes};
ghost use Rattle.std.specs.Fmt.{signed_decimal};
ghost use Rattle.arrayvec.specs.ArrayVec.{array_vec_len};
ghost use Rattle.nav_io.specs.Writes.{Writes};
ghost use Rattle.nav_files.specs.Differences.{class_text, date_text, item_text};
ghost use Rattle.nav_files.specs.Differences.{number_line, number_text};
ghost use Rattle.nav_files.specs.Differences.{difference_text, numbers_text, two_digits};
ghost use Rattle.nav_files.specs.DiffMirrors.{are_short};

use crate::difference::Difference;
use crate::names::names;
use crate::numbers::{moment, numbers, satellite};
use itoa::Buffer;
use nav_eph::{Civil, NavItem, civil};
use nav_io::{Failed, Sink};
use one_run::{Text, append, append_decimal};
use streams::append_satellite;

// Appends a separator and two digits.
fn append_two(text: &mut Text, separator: u8, number: u8)
    requires { array_vec_len text.old + 3 ≤ 640 }
    ensures items { text.new.items ≡ text.old.items ++ separator ∷ two_digits number }
    ensures len { array_vec_len text.new ≡ array_vec_len text.old + 3 }
{
    append(text, &[separator, b'0' + number / 10, b'0' + number % 10]);
}

// Appends a date.
#[tactic(auto, unfolding(crate::specs::Differences::date_text))]
fn append_date(text: &mut Text, date: &Civil)
    requires { array_vec_len text.old + 55 ≤ 640 }
    ensures items { text.new.items ≡ text.old.items ++ date_text date.now }
    ensures short { array_vec_len text.new ≤ array_vec_len text.old + 55 }
{
    append_decimal(text, u64::from(date.year));
    append_two(text, b'-', date.month);
    append_two(text, b'-', date.day);
    append_two(text, b' ', date.hour);
    append_two(text, b':', date.minute);
    append_two(text, b':', date.second);
}

// The class of an ionosphere.
fn class_text(item: &NavItem) -> &'static [u8]
    ensures text { result.now ≡ class_text item.now }
    ensures short { length result.now ≤ 4 }
{
    match item {
        NavItem::Gps(_) => b"",
        NavItem::Gal(_) => b"",
        NavItem::Ion(_) => b" ION",
    }
}

// Appends an item by satellite and GPS time.
fn append_item(text: &mut Text, item: &NavItem)
    requires { array_vec_len text.old + 63 ≤ 640 }
    ensures items { text.new.items ≡ text.old.items ++ item_text item.now }
    ensures short { array_vec_len text.new ≤ array_vec_len text.old + 63 }
{
    append_satellite(text, satellite(item));
    append(text, b" ");
    append_date(text, &civil(moment(item)));
    append(text, class_text(item));
}

// Appends a number with its sign.
fn append_signed(text: &mut Text, number: i64)
    requires { array_vec_len text.old + 40 ≤ 640 }
    ensures items { text.new.items ≡ text.old.items ++ signed_decimal number }
    ensures short { array_vec_len text.new ≤ array_vec_len text.old + 40 }
{
    let mut digits = Buffer::new();
    append(text, digits.format(number).as_bytes());
}

// The start of the lines of an item: what is said of it, its satellite and its time.
fn headed(said: &[u8], item: &NavItem) -> Text
    requires { length said.now ≤ 20 }
    ensures items { result.items ≡ said.now ++ item_text item.now }
    ensures short { array_vec_len result ≤ 83 }
{
    let mut text = Text::new();
    append(&mut text, said);
    append_item(&mut text, item);
    text
}

// The line of an item that only one file has.
fn only_line(said: &[u8], item: &NavItem) -> Text
    requires { length said.now ≤ 20 }
    ensures { result.items ≡ (said.now ++ item_text item.now) ++ codes "\n" }
{
    let mut text = headed(said, item);
    append(&mut text, b"\n");
    text
}

// The line of a number that differs.
fn number_line(head: &[u8], name: &[u8], a: i64, b: i64) -> Text
    requires head { length head.now ≤ 83 }
    requires name { length name.now ≤ 20 }
    ensures { result.items ≡ number_line head.now name.now a b }
{
    let mut text = Text::new();
    append(&mut text, head);
    append(&mut text, b" ");
    append(&mut text, name);
    append(&mut text, b" ");
    append_signed(&mut text, a);
    append(&mut text, b" ");
    append_signed(&mut text, b);
    append(&mut text, b"\n");
    text
}

// Writes the line of a number, if it differs and has a name.
fn write_number<T: Sink>(
    head: &[u8],
    name: &[u8],
    a: &i64,
    b: &i64,
    out: &mut T,
) -> Result<(), Failed>
    requires head { length head.now ≤ 83 }
    requires name { length name.now ≤ 20 }
    ensures { Writes (T.written out.old) (T.written out.new) (T.faults out.old) (T.faults out.new)
        result (number_text head.now name.now a.now b.now) }
{
    if *a == *b || name.is_empty() {
        return Ok(());
    }
    out.write(number_line(head, name, *a, *b).as_slice())
}

// Writes the lines of the numbers that differ.
fn write_numbers<T: Sink>(
    head: &[u8],
    names: &[&str],
    a: &[i64],
    b: &[i64],
    out: &mut T,
) -> Result<(), Failed>
    requires head { length head.now ≤ 83 }
    requires names { are_short (map (λ n. n.now) names.now) ≡ true }
    ensures { Writes (T.written out.old) (T.written out.new) (T.faults out.old) (T.faults out.new)
        result (numbers_text head.now (map (λ n. n.now) names.now) a.now b.now) }
{
    let count = names.len().min(a.len()).min(b.len());
    let mut place = 0;
    'numbers: while place < count {
        write_number(head, names[place].as_bytes(), &a[place], &b[place], out)?;
        place += 1;
    }
    Ok(())
}

/// Writes the lines of a difference.
pub(crate) fn write_difference<T: Sink>(difference: &Difference, out: &mut T) -> Result<(), Failed>
    ensures { Writes (T.written out.old) (T.written out.new) (T.faults out.old) (T.faults out.new)
        result (difference_text difference.now) }
{
    match difference {
        Difference::OnlyFirst(item) => out.write(only_line(b"only in A: ", item).as_slice()),
        Difference::OnlySecond(item) => out.write(only_line(b"only in B: ", item).as_slice()),
        Difference::Both(first, second) => write_numbers(
            headed(b"differs: ", first).as_slice(),
            names(first),
            numbers(first).as_slice(),
            numbers(second).as_slice(),
            out,
        ),
    }
}

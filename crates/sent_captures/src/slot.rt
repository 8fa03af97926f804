//! An ephemeris in its slot.

ghost use Rattle.std.specs.Prelude.{◌≡◌, ◌+◌, ◌/◌, ◌^◌};
ghost use Rattle.std.specs.Prelude.{◌<◌, ◌≤◌, ◌++◌, [], None};
ghost use Rattle.arrayvec.specs.ArrayVec.{array_vec_len};
ghost use Rattle.nav_io.specs.Writes.{Writes};
ghost use Rattle.nav_eph.specs.Ranges.{IsItem};
ghost use Rattle.nav_eph.specs.declared.sat.System.TheVariants.{Gal, Gps};
ghost use Rattle.sent_captures.specs.Sendable.{IsEphemeris, send_fault};
ghost use Rattle.sent_captures.specs.Slots.{count_of, galileo_items, galileo_second};
ghost use Rattle.sent_captures.specs.Slots.{galileo_week_number};
ghost use Rattle.sent_captures.specs.Slots.{gps_items, gps_transmission, gps_week_number, items_at};
ghost use Rattle.sent_captures.specs.Slots.{no_ionosphere, slot_text, text_of_items};

use crate::lines::{SlotText, push_page, push_subframe};
use inav::{write_word1, write_word2, write_word3, write_word4, write_word5};
use lnav_subframe::SubframeOut;
use nav_bits::{S, U};
use nav_eph::{GalEph, GalIon, GpsEph, NavItem, RefWeek, Second};
use nav_io::{Failed, Sink};

// The length of a slot in seconds.
const SLOT_SECONDS: u32 = 21_600;

// The TOW counts of a week, one every 6 s.
const COUNTS: u32 = 100_800;

// The 6 s intervals from the start of the week to the first GPS subframe.
fn first_tow_count(e: &GpsEph) -> u32
    ensures same { result ≡ gps_transmission e.now / 6 }
    ensures week { result < 100800 }
{
    16 * e.a.toe.value() as u32 / 6
}

// The TOW count of a subframe, which is the time of the start of the next one.
fn tow_count(e: &GpsEph, number: u32) -> u32
    requires { number ≤ 3 }
    ensures same { result ≡ count_of e.now number }
    ensures week { result < 100800 }
{
    (first_tow_count(e) + number) % COUNTS
}

// Appends the lines of subframes 1, 2 and 3.
fn push_gps(stamp: u32, e: &GpsEph, text: &mut SlotText)
    requires system { e.now.sat.system ≡ Gps }
    requires stamp { stamp + 12 < 2 ^ 32 }
    requires empty { text.old.items ≡ [] }
    ensures { text.new.items ≡ text_of_items (gps_items stamp e.now) }
{
    let clock = SubframeOut::Clock {
        clock: e.clock,
        side: e.side,
        wn: U::from_bits(u64::from(e.toe_week.value() % 1024)),
    };
    let a = SubframeOut::OrbitA {
        orbit: e.a,
        fit: e.fit,
    };
    let b = SubframeOut::OrbitB { orbit: e.b };
    push_subframe(stamp, e.sat, &clock, tow_count(e, 1), text);
    push_subframe(stamp + 6, e.sat, &a, tow_count(e, 2), text);
    push_subframe(stamp + 12, e.sat, &b, tow_count(e, 3), text);
}

// Ionosphere parameters and disturbance flags that are all 0.
fn nothing_stated() -> GalIon
    ensures { result ≡ no_ionosphere }
{
    GalIon {
        ai0: U::from_bits(0),
        ai1: S::from_bits(0),
        ai2: S::from_bits(0),
        regions: U::from_bits(0),
    }
}

// toe as a second of the week.
fn toe_second(e: &GalEph) -> Second
    ensures { result ≡ galileo_second e.now }
{
    Second::from_number(60 * e.w1.toe.value() as u32)
}

// The week of toe as Galileo's 12-bit week number.
fn week_number(e: &GalEph) -> U<12>
    ensures { result ≡ galileo_week_number e.now }
{
    U::from_bits(u64::from((e.toe_week.value() + 3072) % 4096))
}

// Appends the lines of the pages of word types 1 to 5.
fn push_galileo(stamp: u32, e: &GalEph, text: &mut SlotText)
    requires system { e.now.sat.system ≡ Gal }
    requires stamp { stamp + 12 < 2 ^ 32 }
    requires empty { text.old.items ≡ [] }
    ensures { text.new.items ≡ text_of_items (galileo_items stamp e.now) }
{
    push_page(stamp, e.sat, &write_word1(&e.w1), text);
    push_page(stamp + 2, e.sat, &write_word2(&e.w2), text);
    push_page(stamp + 4, e.sat, &write_word3(&e.w3), text);
    push_page(stamp + 6, e.sat, &write_word4(&e.w4, e.sat), text);
    let word = write_word5(&e.health, &nothing_stated(), week_number(e), toe_second(e));
    push_page(stamp + 8, e.sat, &word, text);
}

// The lines of an ephemeris sent from a stamp on.
fn slot_lines(stamp: u32, item: &NavItem) -> SlotText
    requires whole { IsItem item.now }
    requires stamp { stamp + 12 < 2 ^ 32 }
    ensures { result.items ≡ text_of_items (items_at stamp item.now) }
{
    let mut text = SlotText::new();
    match item {
        NavItem::Gps(e) => push_gps(stamp, e, &mut text),
        NavItem::Gal(e) => push_galileo(stamp, e, &mut text),
        NavItem::Ion(_) => {}
    }
    text
}

/// Writes the lines of an ephemeris in its slot. Slot `slot` begins at time tag
/// 21,600 times its number.
///
/// GPS: subframes 1, 2 and 3, one every six seconds; subframe 1 begins at toe rounded down to a
/// multiple of 6 s, and its TOW count is the start of subframe 2 (IS-GPS-200, 20.3.3.2). Galileo:
/// the even and odd page parts of word types 1 to 5, one every second; word type 5 has the health,
/// the week and second of toe, and ionosphere parameters that are 0 (OS SIS ICD, 4.3.5). The line
/// format is that of [`write_lnav`](capture_lines::write_lnav) and
/// [`write_half_line`](capture_lines::write_half_line).
///
/// No memory is allocated.
///
/// # Errors
///
/// `Failed` only if the sink's count of errors rose in this call or is at its maximum; a prefix of
/// the lines was appended then.
#[tactic(auto, unfolding(crate::specs::Slots::slot_text))]
pub fn send_item<T: Sink>(item: &NavItem, r: RefWeek, slot: u32, out: &mut T) -> Result<(), Failed>
    requires ephemeris { IsEphemeris item.now }
    requires whole { IsItem item.now }
    requires may { send_fault r item.now slot ≡ None }
    ensures { Writes (T.written out.old) (T.written out.new) (T.faults out.old) (T.faults out.new)
        result (slot_text slot item.now) }
{
    let text = slot_lines(SLOT_SECONDS * slot, item);
    out.write(text.as_slice())
}

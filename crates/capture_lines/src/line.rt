//! Reading a line.

ghost use Rattle.std.specs.Prelude.{◌≡◌, ◌≤◌, ◌==◌};
ghost use Rattle.std.specs.Prelude.{◌&&◌, length, nat_eq, slice_index};
ghost use Rattle.std.specs.List.{list_all, starts_with};
ghost use Rattle.capture_lines.specs.Reading.{form_in, frame_in, half_in, is_passed, item_of};
ghost use Rattle.capture_lines.specs.Reading.{lnav_in, satellite_in, signal_in};
ghost use Rattle.capture_lines.specs.Spellings.{StandsFor};
ghost use Rattle.capture_lines.specs.declared.item.LineItem.TheVariants.{Frame, Half, Lnav};

use crate::digits::decode;
use crate::item::{LONGEST_FRAME, LineItem};
use crate::numbers::{decimal_number, digit_count};
use arrayvec::ArrayVec;
use nav_bits::Bits;
use nav_eph::{Sat, Signal, System};

// The least and greatest number of hexadecimal digits of a frame.
const FEWEST_DIGITS: usize = 12;

const MOST_DIGITS: usize = 2058;

// The greatest length of a skipped line in bytes.
const LONGEST_COMMENT: usize = 2200;

/// Reads a line of a capture, without its line end.
///
/// A line is `stamp L G05 hex` (LNAV subframe, 76 digits), `stamp P E11 B hex` (I/NAV page part, 30
/// digits; `B` for E1-B, `5` for E5b) or `stamp R hex` (RTCM frame, 12 to 2,058 digits, an even
/// number), its words separated by one space. The time tag has one to ten decimal digits and is at
/// most 4,294,967,295; hexadecimal digits are of either case. A line of at most 2,200 bytes that
/// begins with `#`, is empty or has only spaces is `Pass`; every other line is `Malformed`.
pub fn read_line(line: &[u8]) -> LineItem
    ensures item { result ≡ item_of line.now }
    ensures stands { StandsFor result line.now }
{
    let mut item = LineItem::Malformed;
    read_line_into(line, &mut item);
    item
}

/// [`read_line`] into an item of the caller's, whatever it was before. An item holds a complete
/// frame, so this saves a move of that size.
#[tactic(auto, unfolding(crate::specs::Reading::item_of))]
pub fn read_line_into(line: &[u8], item: &mut LineItem)
    ensures item { item.new ≡ item_of line.now }
    ensures stands { StandsFor item.new line.now }
{
    if is_passed_line(line) {
        *item = LineItem::Pass;
        return;
    }
    let count = digit_count(line);
    match decimal_number(line, count) {
        Some(stamp) => read_form(stamp, &line[count..], item),
        None => *item = LineItem::Malformed,
    }
}

// Whether the line is skipped.
fn is_passed_line(line: &[u8]) -> bool
    ensures { result ≡ is_passed line.now }
{
    line.len() <= LONGEST_COMMENT && (begins_comment(line) || has_blanks_alone(line))
}

// Whether the line has only spaces.
fn has_blanks_alone(line: &[u8]) -> bool
    ensures { result ≡ list_all (λ c. c == 32) line.now }
{
    line.iter().all(|byte| *byte == b' ')
}

// Whether the line begins with `#`.
fn begins_comment(line: &[u8]) -> bool
    ensures { result ≡ (slice_index line.now 0 == 35) }
{
    !line.is_empty() && line[0] == b'#'
}

// Whether the first four bytes are the other four.
fn are_four(a: u8, b: u8, c: u8, d: u8, e: u8, f: u8, g: u8, h: u8) -> bool
    ensures { result ≡ (nat_eq a e && (nat_eq b f && (nat_eq c g && nat_eq d h))) }
{
    if a != e {
        return false;
    }
    if b != f {
        return false;
    }
    if c != g {
        return false;
    }
    d == h
}

// Whether the text begins with these bytes; four are compared one by one, without a call.
fn begins(text: &[u8], prefix: &[u8]) -> bool
    ensures { result ≡ starts_with nat_eq text.now prefix.now }
{
    match (text, prefix) {
        ([a, b, c, d, ..], [e, f, g, h]) => are_four(*a, *b, *c, *d, *e, *f, *g, *h),
        _ => text.starts_with(prefix),
    }
}

// Reads what follows the stamp.
#[tactic(auto, unfolding(crate::specs::Reading::form_in))]
fn read_form(stamp: u32, rest: &[u8], item: &mut LineItem)
    ensures { item.new ≡ form_in stamp rest.now }
{
    if begins(rest, b" L G") {
        read_lnav(stamp, rest, item);
    } else if begins(rest, b" P E") {
        read_half_line(stamp, rest, item);
    } else if begins(rest, b" R ") {
        read_frame(stamp, &rest[3..], item);
    } else {
        *item = LineItem::Malformed;
    }
}

// The satellite with a number of two digits; `None` where it is out of range.
#[tactic(auto, unfolding(crate::specs::Reading::satellite_in))]
fn satellite(system: System, tens: u8, units: u8) -> Option<Sat>
    ensures { result ≡ satellite_in system tens units }
{
    if !tens.is_ascii_digit() || !units.is_ascii_digit() {
        return None;
    }
    Sat::new(system, (tens - b'0') * 10 + (units - b'0'))
}

// The signal of its letter.
#[tactic(auto, unfolding(crate::specs::Reading::signal_in))]
fn signal_of(letter: u8) -> Option<Signal>
    ensures { result ≡ signal_in letter }
{
    match letter {
        b'B' => Some(Signal::E1b),
        b'5' => Some(Signal::E5b),
        _ => None,
    }
}

// Reads an LNAV subframe.
#[tactic(auto, unfolding(crate::specs::Reading::lnav_in))]
fn read_lnav(stamp: u32, rest: &[u8], item: &mut LineItem)
    ensures { item.new ≡ lnav_in stamp rest.now }
{
    if rest.len() < 7 || rest[6] != b' ' {
        *item = LineItem::Malformed;
        return;
    }
    let Some(sat) = satellite(System::Gps, rest[4], rest[5]) else {
        *item = LineItem::Malformed;
        return;
    };
    let mut bytes = [0u8; 38];
    if !decode(&rest[7..], &mut bytes) {
        *item = LineItem::Malformed;
        return;
    }
    put_lnav(stamp, sat, Bits::from_bytes(bytes), item);
}

// Stores a subframe. A newly written item is cleared to its full size, so where the item is a
// subframe already only its fields are changed.
fn put_lnav(stamp: u32, sat: Sat, bits: Bits<38>, item: &mut LineItem)
    ensures { item.new ≡ Lnav stamp sat bits }
{
    if let LineItem::Lnav {
        stamp: own_stamp,
        sat: own_sat,
        bits: own_bits,
    } = item
    {
        *own_stamp = stamp;
        *own_sat = sat;
        *own_bits = bits;
    } else {
        *item = LineItem::Lnav { stamp, sat, bits };
    }
}

// Reads an I/NAV page part.
#[tactic(auto, unfolding(crate::specs::Reading::half_in))]
fn read_half_line(stamp: u32, rest: &[u8], item: &mut LineItem)
    ensures { item.new ≡ half_in stamp rest.now }
{
    if rest.len() < 9 || rest[6] != b' ' || rest[8] != b' ' {
        *item = LineItem::Malformed;
        return;
    }
    let Some(sat) = satellite(System::Gal, rest[4], rest[5]) else {
        *item = LineItem::Malformed;
        return;
    };
    let Some(signal) = signal_of(rest[7]) else {
        *item = LineItem::Malformed;
        return;
    };
    let mut bytes = [0u8; 15];
    if !decode(&rest[9..], &mut bytes) {
        *item = LineItem::Malformed;
        return;
    }
    put_half(stamp, sat, signal, Bits::from_bytes(bytes), item);
}

// Stores a page part, in the same way.
fn put_half(stamp: u32, sat: Sat, signal: Signal, bits: Bits<15>, item: &mut LineItem)
    ensures { item.new ≡ Half stamp sat signal bits }
{
    if let LineItem::Half {
        stamp: own_stamp,
        sat: own_sat,
        signal: own_signal,
        bits: own_bits,
    } = item
    {
        *own_stamp = stamp;
        *own_sat = sat;
        *own_signal = signal;
        *own_bits = bits;
    } else {
        *item = LineItem::Half {
            stamp,
            sat,
            signal,
            bits,
        };
    }
}

// Reads a frame from its hexadecimal digits.
#[tactic(auto, unfolding(crate::specs::Reading::frame_in))]
fn read_frame(stamp: u32, digits: &[u8], item: &mut LineItem)
    ensures { item.new ≡ frame_in stamp digits.now }
{
    if digits.len() < FEWEST_DIGITS || digits.len() > MOST_DIGITS {
        *item = LineItem::Malformed;
        return;
    }
    let mut room = [0u8; LONGEST_FRAME];
    let count = digits.len() / 2;
    if !decode(digits, &mut room[..count]) {
        *item = LineItem::Malformed;
        return;
    }
    put_frame(stamp, &room[..count], item);
}

// Stores a frame, in the same way.
fn put_frame(stamp: u32, bytes: &[u8], item: &mut LineItem)
    requires { length bytes.now ≤ 1029 }
    ensures { item.new ≡ Frame stamp (record { items = bytes.now }) }
{
    if let LineItem::Frame {
        stamp: own_stamp,
        bytes: own_bytes,
    } = item
    {
        *own_stamp = stamp;
        refill(own_bytes, bytes);
    } else {
        *item = LineItem::Frame {
            stamp,
            bytes: copied(bytes),
        };
    }
}

// Replaces the bytes.
fn refill(into: &mut ArrayVec<u8, LONGEST_FRAME>, bytes: &[u8])
    requires { length bytes.now ≤ 1029 }
    ensures { into.new.items ≡ bytes.now }
{
    into.clear();
    if into.try_extend_from_slice(bytes).is_err() {
        unreachable!();
    }
}

// A copy of the bytes.
fn copied(bytes: &[u8]) -> ArrayVec<u8, LONGEST_FRAME>
    requires { length bytes.now ≤ 1029 }
    ensures { result.items ≡ bytes.now }
{
    let mut copy = ArrayVec::new();
    refill(&mut copy, bytes);
    copy
}

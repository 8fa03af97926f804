//! Writing a line.

ghost use Rattle.std.specs.Prelude.{◌≡◌, ◌+◌, ◌*◌, ◌<◌};
ghost use Rattle.std.specs.Prelude.{◌≤◌, [], ◌++◌, length, decimal};
ghost use Rattle.arrayvec.specs.ArrayVec.{array_vec_len};
ghost use Rattle.hex.specs.Hex.{IsBytes, encode_lower};
ghost use Rattle.nav_eph.specs.declared.sat.System.TheVariants.{Gps, Gal};
ghost use Rattle.capture_lines.specs.Texts.{frame_text, half_text, lnav_text, signal_letter};
ghost use Rattle.capture_lines.specs.Texts.{two_digits};
ghost use Rattle.capture_lines.specs.Spellings.{IsFrameLine, IsHalfLine, IsEnded, IsLnavLine};

use crate::numbers::push_decimal;
use arrayvec::ArrayVec;
use hex::encode_to_slice;
use nav_bits::Bits;
use nav_eph::{Sat, Signal};

/// A buffer for a line and its line end.
pub type LineText = ArrayVec<u8, 2201>;

/// Writes the line of a subframe of a GPS satellite, received at a time tag in seconds of the
/// logger's clock, into an empty buffer: `stamp L G05 hex` and LF. The time tag has no leading
/// zeros, the 76 hexadecimal digits are in lower case.
pub fn write_lnav(stamp: u32, sat: Sat, bits: &Bits<38>, into: &mut LineText)
    requires empty { into.old.items ≡ [] }
    requires system { sat.system ≡ Gps }
    ensures text { into.new.items ≡ lnav_text stamp sat bits.now }
    ensures line { IsEnded (IsLnavLine stamp sat bits.now) into.new.items }
{
    begin(stamp, into);
    push_text(b" L G", into);
    push_two_digits(sat.number(), into);
    into.push(b' ');
    push_hex::<76>(bits.bytes(), into);
    into.push(b'\n');
}

/// Writes the line of a page part of a Galileo satellite into an empty buffer: `stamp P E11 B hex`
/// and LF, with `B` for E1-B and `5` for E5b. The time tag has no leading zeros, the 30 hexadecimal
/// digits are in lower case.
pub fn write_half_line(stamp: u32, sat: Sat, signal: Signal, bits: &Bits<15>, into: &mut LineText)
    requires empty { into.old.items ≡ [] }
    requires system { sat.system ≡ Gal }
    ensures text { into.new.items ≡ half_text stamp sat signal bits.now }
    ensures line { IsEnded (IsHalfLine stamp sat signal bits.now) into.new.items }
{
    begin(stamp, into);
    push_text(b" P E", into);
    push_two_digits(sat.number(), into);
    into.push(b' ');
    into.push(letter_of(signal));
    into.push(b' ');
    push_hex::<30>(bits.bytes(), into);
    into.push(b'\n');
}

/// Writes the line of a frame of 6 to 1,029 bytes into an empty buffer: `stamp R hex` and LF. The
/// time tag has no leading zeros, the hexadecimal digits, two for each byte, are in lower case.
pub fn write_rtcm(stamp: u32, frame: &[u8], into: &mut LineText)
    requires empty { into.old.items ≡ [] }
    requires shortest { 6 ≤ length frame.now }
    requires longest { length frame.now ≤ 1029 }
    ensures text { into.new.items ≡ frame_text stamp frame.now }
    ensures line { IsEnded (IsFrameLine stamp frame.now) into.new.items }
{
    begin(stamp, into);
    push_text(b" R ", into);
    push_hex::<2058>(frame, into);
    into.push(b'\n');
}

// Writes the digits of the stamp into an empty buffer.
#[tactic(auto, using(crate::proofs::Decimals::ten_digits))]
fn begin(stamp: u32, into: &mut LineText)
    requires { into.old.items ≡ [] }
    ensures text { into.new.items ≡ decimal stamp }
    ensures short { array_vec_len into.new ≤ 10 }
{
    push_decimal(stamp, into);
}

// The letter of a signal.
fn letter_of(signal: Signal) -> u8
    ensures { result ≡ signal_letter signal }
{
    match signal {
        Signal::E1b => b'B',
        Signal::E5b => b'5',
    }
}

// Appends some bytes.
pub(crate) fn push_text(text: &[u8], into: &mut LineText)
    requires { array_vec_len into.old + length text.now ≤ 2201 }
    ensures text { into.new.items ≡ into.old.items ++ text.now }
    ensures len { array_vec_len into.new ≡ array_vec_len into.old + length text.now }
{
    if into.try_extend_from_slice(text).is_err() {
        unreachable!();
    }
}

// Appends a number below 100 in two digits.
fn push_two_digits(number: u8, into: &mut LineText)
    requires room { array_vec_len into.old + 2 ≤ 2201 }
    requires fits { number < 100 }
    ensures text { into.new.items ≡ into.old.items ++ two_digits number }
    ensures len { array_vec_len into.new ≡ array_vec_len into.old + 2 }
{
    into.push(b'0' + number / 10);
    into.push(b'0' + number % 10);
}

// Appends the hexadecimal digits of bytes, N at most.
fn push_hex<const N: usize>(bytes: &[u8], into: &mut LineText)
    requires size { N ≤ 2058 }
    requires few { 2 * length bytes.now ≤ N }
    requires room { array_vec_len into.old + 2 * length bytes.now ≤ 2201 }
    ensures text { into.new.items ≡ into.old.items ++ encode_lower bytes.now }
    ensures len { array_vec_len into.new ≡ array_vec_len into.old + 2 * length bytes.now }
    ensures bytes { IsBytes bytes.now }
{
    let mut digits = [0u8; N];
    let used = 2 * bytes.len();
    if encode_to_slice(bytes, &mut digits[..used]).is_err() {
        unreachable!();
    }
    push_text(&digits[..used], into);
}

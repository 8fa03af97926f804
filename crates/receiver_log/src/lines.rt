//! LineBuffer that wait to be written.

ghost use Rattle.std.specs.Prelude.{◌≡◌, ◌+◌, ◌*◌, ◌<◌};
ghost use Rattle.std.specs.Prelude.{◌≤◌, ◌++◌, length, decimal};
ghost use Rattle.arrayvec.specs.ArrayVec.{array_vec_len};
ghost use Rattle.nav_eph.specs.declared.sat.System.TheVariants.{Gps, Gal};
ghost use Rattle.capture_lines.specs.Texts.{half_text, lnav_text};
ghost use Rattle.receiver_log.specs.Log.{head_line};

use arrayvec::ArrayVec;
use capture_lines::{LineText, write_half_line, write_lnav};
use nav_bits::Bits;
use nav_eph::{Sat, Signal};
use one_run::{Text, append, append_decimal};

/// A buffer of lines.
pub type LineBuffer = ArrayVec<u8, 16_384>;

// Appends a piece, for which there is room.
pub fn append_lines(lines: &mut LineBuffer, piece: &[u8])
    requires { array_vec_len lines.old + length piece.now ≤ 16384 }
    ensures items { lines.new.items ≡ lines.old.items ++ piece.now }
    ensures len { array_vec_len lines.new ≡ array_vec_len lines.old + length piece.now }
{
    if lines.try_extend_from_slice(piece).is_err() {
        unreachable!();
    }
}

// Appends the first line of a capture, with this week.
pub fn append_head(lines: &mut LineBuffer, week: u32)
    requires { array_vec_len lines.old + 640 ≤ 16384 }
    ensures items { lines.new.items ≡ lines.old.items ++ head_line week }
    ensures short { array_vec_len lines.new ≤ array_vec_len lines.old + 640 }
{
    let mut text = Text::new();
    append(&mut text, b"NAVCAP 2 ");
    append_decimal(&mut text, u64::from(week));
    append(&mut text, b" 7200\n");
    append_lines(lines, text.as_slice());
}

// Appends the line of a subframe.
pub fn append_subframe(lines: &mut LineBuffer, stamp: u32, sat: Sat, bits: &Bits<38>)
    requires room { array_vec_len lines.old + 2201 ≤ 16384 }
    requires system { sat.system ≡ Gps }
    ensures items { lines.new.items ≡ lines.old.items ++ lnav_text stamp sat bits.now }
    ensures short { array_vec_len lines.new ≤ array_vec_len lines.old + 2201 }
{
    let mut line = LineText::new();
    write_lnav(stamp, sat, bits, &mut line);
    append_lines(lines, line.as_slice());
}

// Appends the line of a page part.
pub fn append_half(lines: &mut LineBuffer, stamp: u32, sat: Sat, signal: Signal, bits: &Bits<15>)
    requires room { array_vec_len lines.old + 2201 ≤ 16384 }
    requires system { sat.system ≡ Gal }
    ensures items { lines.new.items ≡ lines.old.items ++ half_text stamp sat signal bits.now }
    ensures short { array_vec_len lines.new ≤ array_vec_len lines.old + 2201 }
{
    let mut line = LineText::new();
    write_half_line(stamp, sat, signal, bits, &mut line);
    append_lines(lines, line.as_slice());
}

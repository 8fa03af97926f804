//! The lines of a slot, in one text.

ghost use Rattle.std.specs.Prelude.{◌≡◌, ◌+◌, ◌^◌, ◌<◌, ◌≤◌, ◌++◌};
ghost use Rattle.arrayvec.specs.ArrayVec.{array_vec_len};
ghost use Rattle.nav_eph.specs.declared.sat.System.TheVariants.{Gal, Gps};
ghost use Rattle.lnav_subframe.specs.Writing.{IsWritable};
ghost use Rattle.sent_captures.specs.Slots.{half_item, page_items, subframe_item, text_of_item};
ghost use Rattle.sent_captures.specs.Slots.{text_of_items};

use arrayvec::ArrayVec;
use capture_lines::{LineText, write_half_line, write_lnav};
use inav::{Half, split, write_half};
use lnav_subframe::{SubframeOut, write_subframe};
use nav_bits::{Bits, U};
use nav_eph::{Sat, Signal};

/// Memory for the lines of a slot: three of at most 94 bytes, or ten of at most 50.
pub(crate) type SlotText = ArrayVec<u8, 500>;

// Appends a line.
fn push_line(line: &LineText, text: &mut SlotText)
    requires { array_vec_len text.old + array_vec_len line.now ≤ 500 }
    ensures text { text.new.items ≡ text.old.items ++ line.now.items }
    ensures len { array_vec_len text.new ≡ array_vec_len text.old + array_vec_len line.now }
{
    if text.try_extend_from_slice(line.as_slice()).is_err() {
        unreachable!();
    }
}

// Appends the line of a subframe.
#[tactic(auto, using(crate::proofs::Lengths::lnav_short), unfolding(crate::specs::Slots::subframe_item))]
pub(crate) fn push_subframe(
    stamp: u32,
    sat: Sat,
    body: &SubframeOut,
    tow_count: u32,
    text: &mut SlotText,
)
    requires system { sat.system ≡ Gps }
    requires week { tow_count < 100800 }
    requires page { IsWritable body.now }
    requires room { array_vec_len text.old + 94 ≤ 500 }
    ensures text { text.new.items
        ≡ text.old.items ++ text_of_item (subframe_item stamp sat body.now tow_count) }
    ensures len { array_vec_len text.new ≤ array_vec_len text.old + 94 }
{
    let bits = write_subframe(body, U::from_bits(u64::from(tow_count)));
    bits.are_bytes();
    let mut line = LineText::new();
    write_lnav(stamp, sat, &bits, &mut line);
    push_line(&line, text);
}

// Appends the line of a page part on E1-B.
fn push_half(stamp: u32, sat: Sat, half: &Half, text: &mut SlotText)
    requires system { sat.system ≡ Gal }
    requires room { array_vec_len text.old + 50 ≤ 500 }
    ensures text { text.new.items ≡ text.old.items ++ text_of_item (half_item stamp sat half.now) }
    ensures len { array_vec_len text.new ≤ array_vec_len text.old + 50 }
{
    let bits = write_half(half);
    bits.are_bytes();
    let mut line = LineText::new();
    write_half_line(stamp, sat, Signal::E1b, &bits, &mut line);
    push_line(&line, text);
}

// Appends the lines of the page of a word on E1-B: the even part at the stamp, the odd part one
// second later.
pub(crate) fn push_page(stamp: u32, sat: Sat, word: &Bits<16>, text: &mut SlotText)
    requires system { sat.system ≡ Gal }
    requires stamp { stamp + 1 < 2 ^ 32 }
    requires room { array_vec_len text.old + 100 ≤ 500 }
    ensures text { text.new.items
        ≡ text.old.items ++ text_of_items (page_items stamp sat word.now) }
    ensures len { array_vec_len text.new ≤ array_vec_len text.old + 100 }
{
    let (even, odd) = split(word);
    push_half(stamp, sat, &even, text);
    push_half(stamp + 1, sat, &odd, text);
}

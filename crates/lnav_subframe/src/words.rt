ghost use Rattle.std.specs.Prelude.{◌≡◌, ◌+◌, ◌%◌, ◌^◌};
ghost use Rattle.std.specs.Prelude.{◌<◌, ◌≤◌, IfErr, IfOk};
ghost use Rattle.nav_bits.specs.Bits.{Puts, number_at};
ghost use Rattle.lnav_subframe.specs.Words.{AreGood, AreSource, IsFirstBad, IsWord, complement};
ghost use Rattle.lnav_subframe.specs.Writing.{AreWords};

use crate::{check_word, make_solved, make_word};
use nav_bits::{Bits, U};

// Inverts all bits.
pub(crate) fn inverted(bits: &Bits<38>) -> Bits<38>
    ensures { result ≡ complement bits.now }
{
    let mut bytes = *bits.bytes();
    for byte in bytes.iter_mut() {
        *byte = 255 - *byte;
    }
    Bits::from_bytes(bytes)
}

// Writes the source bits of a word where D30* of the word before is 1; else the bits that stand
// there are they.
fn put_source(source: &mut Bits<38>, at: usize, last: u64, value: u64)
    requires inside { at + 24 ≤ 304 }
    requires fits { value < 2 ^ 24 }
    requires upright { last % 2 ≡ 0 → number_at source.old at 24 ≡ value }
    ensures { Puts source.old source.new at 24 value }
{
    if last % 2 == 1 {
        source.put(at, 24, value);
    }
}

// The source bits of the ten words, each at its bit offset in the subframe, or the number (from 1)
// of the first word whose parity is wrong. What stands between is of no use.
pub(crate) fn source_of(bits: &Bits<38>) -> Result<Bits<38>, u8>
    ensures good { IfOk result (λ source. AreGood bits.now 10) }
    ensures source { IfOk result (λ source. AreSource bits.now source 10) }
    ensures fault { IfErr result (IsFirstBad bits.now) }
{
    let mut source = *bits;
    let mut last = 0;
    for k in 0..10usize {
        let word = bits.get(30 * k, 30);
        match check_word(U::from_bits(word), U::from_bits(last)) {
            Some(found) => put_source(&mut source, 30 * k, last, found.value()),
            None => return Err(k as u8 + 1),
        }
        last = word % 4;
    }
    Ok(source)
}

// The word at an index, from its data bits and the last two bits of the previous word.
fn word_at(k: usize, bits: u64, last: u64) -> u64
    requires bits { bits < 2 ^ 24 }
    requires last { last < 4 }
    ensures fits { result < 2 ^ 30 }
    ensures word { IsWord k result last bits }
{
    let last2: U<2> = U::from_bits(last);
    match k {
        1 => make_solved(U::from_bits(bits / 4), last2).value(),
        9 => make_solved(U::from_bits(bits / 4), last2).value(),
        _ => make_word(U::from_bits(bits), last2).value(),
    }
}

// The ten words of the data bits.
pub(crate) fn words_of(source: &Bits<38>) -> Bits<38>
    ensures { AreWords result source.now }
{
    let mut bits = Bits::<38>::zero();
    let mut before = 0;
    for k in 0..10usize {
        let word = word_at(k, source.get(30 * k, 24), before);
        bits.put(30 * k, 30, word);
        before = word % 4;
    }
    bits
}

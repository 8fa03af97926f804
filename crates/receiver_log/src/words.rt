//! The words of a subframe, in whichever of three ways the receiver logged them.

ghost use Rattle.std.specs.Prelude.{◌≡◌, ◌+◌, ◌%◌, ◌^◌, ◌<◌};
ghost use Rattle.std.specs.Prelude.{◌≤◌, ◌==◌, if◌then◌else◌, length};
ghost use Rattle.std.specs.Prelude.{bit_xor};
ghost use Rattle.lnav_subframe.specs.ParityFunctions.{is_good};
ghost use Rattle.receiver_log.specs.Words.{are_good as all_good};
ghost use Rattle.receiver_log.specs.Words.{has_good_reading, is_inverted};
ghost use Rattle.receiver_log.specs.Words.{read_words as read_of, reading as reading_by};
ghost use Rattle.receiver_log.specs.Words.{subframe_bytes, word_at, words_at};

use crate::numbers::four;
use lnav_subframe::check_word;
use nav_bits::{Bits, U, packed_are_the_only, put_numbers};

// Masks of the 24 data bits and of all 30 bits of a word.
const DATA: u64 = 0x3FFF_FFC0;

const WHOLE: u64 = 0x3FFF_FFFF;

/// The words of a subframe, as read.
#[derive(Clone, Copy, PartialEq, Eq)]
pub struct ReadWords {
    /// The ten words as sent; as logged if no reading has right parity.
    pub words: [U<30>; 10],
    /// Whether all ten have right parity.
    pub is_good: bool,
    /// Whether data bits had to be inverted back.
    pub is_inverted: bool,
}

/// The words of a subframe as sent: the one of three readings in which all ten have right parity
/// (IS-GPS-200, 20.3.5.2), or the words as logged if there is none.
#[tactic(auto, unfolding(crate::specs::Words::read_words, crate::specs::Words::has_good_reading, crate::specs::Words::is_inverted))]
pub fn read_words(words: &[U<30>; 10]) -> ReadWords
    ensures words { result.words ≡ read_of words.now }
    ensures good { result.is_good ≡ has_good_reading words.now }
    ensures inverted { result.is_inverted ≡ is_inverted words.now }
{
    if are_good(words) {
        return ReadWords {
            words: *words,
            is_good: true,
            is_inverted: false,
        };
    }
    let data = reading(words, DATA);
    if are_good(&data) {
        return ReadWords {
            words: data,
            is_good: true,
            is_inverted: true,
        };
    }
    let whole = reading(words, WHOLE);
    if are_good(&whole) {
        return ReadWords {
            words: whole,
            is_good: true,
            is_inverted: true,
        };
    }
    ReadWords {
        words: *words,
        is_good: false,
        is_inverted: false,
    }
}

// The first word as logged, and each further one XOR the mask where the word before it, as read,
// ends in 1 (D30*).
fn reading(words: &[U<30>; 10], mask: u64) -> [U<30>; 10]
    requires { mask < 2 ^ 30 }
    ensures { result ≡ reading_by mask words.now }
{
    let mut read = *words;
    let mut last = 0;
    for i in 0..10 {
        last = inverted(words[i].value(), last, mask);
        read[i] = U::from_bits(last);
    }
    read
}

// A word XOR the mask where the word before it ends in 1.
fn inverted(word: u64, last: u64, mask: u64) -> u64
    requires word { word < 2 ^ 30 }
    requires mask { mask < 2 ^ 30 }
    ensures value { result ≡ (if last % 2 == 1 then bit_xor word mask else word) }
    ensures fits { result < 2 ^ 30 }
{
    if last % 2 == 1 { word ^ mask } else { word }
}

// Whether all words have right parity.
fn are_good(words: &[U<30>; 10]) -> bool
    ensures { result ≡ all_good words.now }
{
    let mut last = 0;
    for word in words {
        if !has_parity(*word, last) {
            return false;
        }
        last = word.value();
    }
    true
}

// Whether a word has right parity after a word that ends in the two low bits of `last`.
fn has_parity(word: U<30>, last: u64) -> bool
    ensures { result ≡ is_good word (last % 4) }
{
    check_word(word, U::from_bits(last % 4)).is_some()
}

// The word at byte offset `at`: the lower 30 of 32 bits.
fn word(bytes: &[u8], at: usize) -> U<30>
    requires { at + 4 ≤ length bytes.now }
    ensures { result ≡ word_at bytes.now at }
{
    U::from_bits(u64::from(four(bytes, at) % (1 << 30)))
}

/// The ten words of a subframe at byte offset `at`.
pub fn words_from(bytes: &[u8], at: usize) -> [U<30>; 10]
    requires { at + 40 ≤ length bytes.now }
    ensures { result ≡ words_at bytes.now at }
{
    [
        word(bytes, at),
        word(bytes, at + 4),
        word(bytes, at + 8),
        word(bytes, at + 12),
        word(bytes, at + 16),
        word(bytes, at + 20),
        word(bytes, at + 24),
        word(bytes, at + 28),
        word(bytes, at + 32),
        word(bytes, at + 36),
    ]
}

/// The 300 bits of ten words, and four bits 0.
#[tactic(auto, unfolding(crate::specs::Words::subframe_bytes))]
pub fn subframe_bits(words: &[U<30>; 10]) -> Bits<38>
    ensures { result ≡ subframe_bytes words.now }
{
    let mut bytes = [0u8; 38];
    put_numbers(
        &mut bytes,
        0,
        &[
            (30, words[0].value()),
            (30, words[1].value()),
            (30, words[2].value()),
            (30, words[3].value()),
            (30, words[4].value()),
            (30, words[5].value()),
            (30, words[6].value()),
            (30, words[7].value()),
            (30, words[8].value()),
            (30, words[9].value()),
            (4, 0),
        ],
    );
    packed_are_the_only();
    let bits = Bits::from_bytes(bytes);
    bits.are_bytes();
    bits
}

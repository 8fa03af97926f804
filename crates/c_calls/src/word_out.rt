//! The content of a word to be written.

ghost use Rattle.std.specs.Prelude.{◌≡◌, ◌↔◌, IsSome, IfSome, Some};
ghost use Rattle.nav_eph.specs.declared.sat.System.TheVariants.{Gal};
ghost use Rattle.c_calls.specs.Pages.{IsContent, content_in, word_bytes};

use crate::page_raw::WordRaw;
use inav::{write_word1, write_word2, write_word3, write_word4, write_word5};
use nav_bits::{Bits, U};
use nav_eph::{GalHealth, GalIon, GalWord1, GalWord2, GalWord3, GalWord4, Sat, Second};
use raw_values::{gal_ion_of, health_of, word1_of, word2_of, word3_of, word4_of};

/// The content of an I/NAV word of types 1 to 5.
#[derive(Clone, Copy)]
pub enum WordOut {
    /// Word type 1.
    One(GalWord1),
    /// Word type 2.
    Two(GalWord2),
    /// Word type 3.
    Three(GalWord3),
    /// Word type 4.
    Four(GalWord4),
    /// Word type 5: health, ionosphere, week number modulo 4096 and time of week.
    Five(GalHealth, GalIon, U<12>, Second),
}

// Word type 5 of these numbers.
fn content_5(raw: &WordRaw) -> Option<WordOut>
    requires { raw.now.number ≡ 5 }
    ensures exactly { IsSome result ↔ IsContent (content_in raw.now) }
    ensures same { IfSome result (λ content. content_in raw.now ≡ Some content) }
{
    let health = health_of(&raw.health)?;
    let ion = gal_ion_of(&raw.ion)?;
    let wn = U::<12>::new(u64::from(raw.wn))?;
    let second = Second::new(raw.second)?;
    Some(WordOut::Five(health, ion, wn, second))
}

// The content of these numbers; `None` where there is no such word, or one is out of its range.
pub(crate) fn content_of(raw: &WordRaw) -> Option<WordOut>
    ensures exactly { IsSome result ↔ IsContent (content_in raw.now) }
    ensures same { IfSome result (λ content. content_in raw.now ≡ Some content) }
{
    match raw.number {
        1 => Some(WordOut::One(word1_of(&raw.w1)?)),
        2 => Some(WordOut::Two(word2_of(&raw.w2)?)),
        3 => Some(WordOut::Three(word3_of(&raw.w3)?)),
        4 => Some(WordOut::Four(word4_of(&raw.w4)?)),
        5 => content_5(raw),
        _ => None,
    }
}

// The 128 bits of the word, sent by that satellite.
pub(crate) fn bits_of(content: &WordOut, sat: Sat) -> Bits<16>
    requires { sat.system ≡ Gal }
    ensures { result ≡ word_bytes content.now sat.number }
{
    match content {
        WordOut::One(w) => write_word1(w),
        WordOut::Two(w) => write_word2(w),
        WordOut::Three(w) => write_word3(w),
        WordOut::Four(w) => write_word4(w, sat),
        WordOut::Five(health, ion, wn, second) => write_word5(health, ion, *wn, *second),
    }
}

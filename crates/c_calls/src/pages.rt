//! I/NAV pages, read and written.

ghost use Rattle.std.specs.Prelude.{◌≡◌, ◌↔◌, IsTrue};
ghost use Rattle.nav_eph.specs.Satellite.{IsSat};
ghost use Rattle.nav_eph.specs.declared.sat.System.TheVariants.{Gal};
ghost use Rattle.inav.specs.Pages.{HasRightCrc, bytes_of_half};
ghost use Rattle.inav.specs.Pages.{even_of, kind_of, odd_of, word_of};
ghost use Rattle.inav.specs.declared.half.HalfKind.TheVariants.{Even, Odd};
ghost use Rattle.inav.specs.Reading.{reading_of};
ghost use Rattle.c_calls.specs.Pages.{ArePair, BelongTogether, IsAlert, IsContent, IsPageOf};
ghost use Rattle.c_calls.specs.Pages.{PutsWord, content_in, page_bits, raw_body, raw_second};
ghost use Rattle.c_calls.specs.Pages.{word_read, word_status};

use crate::page_raw::{PageBits, WordRaw};
use crate::tags::{second_of, wn_of};
use crate::word_out::{bits_of, content_of};
use inav::{Half, HalfKind, WordFault, WordParts, join, read_half, read_word, split, write_half};
use nav_bits::Bits;
use nav_eph::{Body, Sat, System};
use raw_values::reasons::{ALERT, NO_ITEM, NO_SATELLITE};
use raw_values::{raw_gal_ion, raw_health, raw_word1, raw_word2, raw_word3, raw_word4, sat_of};

// The parts are not an even one and an odd one.
const NO_PAIR: u32 = 66;

// The CRC is not that of the page.
const CHECKSUM: u32 = 67;

// The number of a fault.
fn status_of(fault: &WordFault) -> u32
    ensures { result ≡ word_status fault.now }
{
    match fault {
        WordFault::OtherWord { number: _ } => 68,
        WordFault::WrongSat => 69,
        WordFault::BadTime => 70,
        WordFault::SpareSisa => 71,
    }
}

// Puts the numbers of a body.
fn put_body(body: &Body, into: &mut WordRaw)
    ensures { into.new ≡ raw_body body.now into.old }
{
    match body {
        Body::GalW1(w) => {
            into.number = 1;
            into.w1 = raw_word1(w);
        }
        Body::GalW2(w) => {
            into.number = 2;
            into.w2 = raw_word2(w);
        }
        Body::GalW3(w) => {
            into.number = 3;
            into.w3 = raw_word3(w);
        }
        Body::GalW4(w) => {
            into.number = 4;
            into.w4 = raw_word4(w);
        }
        Body::GalHealth(health, tag) => {
            into.number = 5;
            into.wn = wn_of(tag);
            into.second = second_of(tag);
            into.health = raw_health(health);
        }
        Body::GalIon(ion, _, _) => into.ion = raw_gal_ion(ion),
        _ => {}
    }
}

// Puts the numbers of a word.
fn put_parts(parts: &WordParts, into: &mut WordRaw)
    ensures { into.new ≡ raw_second parts.now.second (raw_body parts.now.first.body into.old) }
{
    put_body(&parts.first.body, into);
    if let Some(part) = &parts.second {
        put_body(&part.body, into);
    }
}

// Whether the parts are an even one and an odd one.
fn are_pair(even: &Half, odd: &Half) -> bool
    ensures { IsTrue result ↔ ((kind_of even.now ≡ Even) × (kind_of odd.now ≡ Odd)) }
{
    even.kind() == HalfKind::Even && odd.kind() == HalfKind::Odd
}

// Puts the word of two page parts.
fn put_word(even: &Half, odd: &Half, sat: Sat, into: &mut WordRaw) -> u32
    requires system { sat.system ≡ Gal }
    requires even { kind_of even.now ≡ Even }
    requires odd { kind_of odd.now ≡ Odd }
    ensures checksum { (HasRightCrc even.now odd.now → ⊥) →
        (result ≡ 67) × (into.new ≡ into.old) }
    ensures word { HasRightCrc even.now odd.now →
        PutsWord (reading_of (word_of even.now odd.now) sat 0) into.old into.new result }
{
    let word = match join(even, odd) {
        Some(word) => word,
        None => return CHECKSUM,
    };
    match read_word(&word, sat, 0) {
        Ok(parts) => {
            put_parts(&parts, into);
            0
        }
        Err(fault) => status_of(&fault),
    }
}

/// Puts the content of the word of a page received from that Galileo satellite, 1 to 36 (Galileo OS
/// SIS ICD, 4.3.2.3 and 4.3.5).
///
/// 0; or 62 if there is no such satellite, 65 for an alert page, 66 if the parts are not an even
/// one and an odd one, 67 if the CRC is wrong, or the number of the word's first error, 68 to 71;
/// and then nothing is put.
pub fn read_page(page: &PageBits, satellite: u32, into: &mut WordRaw) -> u32
    ensures satellite { (IsSat Gal satellite → ⊥) → (result ≡ 62) × (into.new ≡ into.old) }
    ensures alert { IsSat Gal satellite → IsAlert page.now →
        (result ≡ 65) × (into.new ≡ into.old) }
    ensures pair { IsSat Gal satellite → (IsAlert page.now → ⊥) → (ArePair page.now → ⊥) →
        (result ≡ 66) × (into.new ≡ into.old) }
    ensures checksum { IsSat Gal satellite → (IsAlert page.now → ⊥) → ArePair page.now →
        (BelongTogether page.now → ⊥) → (result ≡ 67) × (into.new ≡ into.old) }
    ensures word { IsSat Gal satellite → (IsAlert page.now → ⊥) → ArePair page.now →
        BelongTogether page.now →
        PutsWord (word_read page.now (record { system = Gal; number = satellite }))
        into.old into.new result }
{
    let sat = match sat_of(System::Gal, satellite) {
        Some(sat) => sat,
        None => return NO_SATELLITE,
    };
    let even = match read_half(&Bits::from_bytes(page.even)) {
        Ok(even) => even,
        Err(_) => return ALERT,
    };
    let odd = match read_half(&Bits::from_bytes(page.odd)) {
        Ok(odd) => odd,
        Err(_) => return ALERT,
    };
    if !are_pair(&even, &odd) {
        return NO_PAIR;
    }
    put_word(&even, &odd, sat, into)
}

// The page of a word.
fn page_of(word: &Bits<16>) -> PageBits
    ensures { result ≡ page_bits word.now }
{
    let (even, odd) = split(word);
    PageBits {
        even: *write_half(&even).bytes(),
        odd: *write_half(&odd).bytes(),
    }
}

/// Puts the page of a word with this content, sent by that Galileo satellite, 1 to 36.
///
/// 0; or 62 if there is no such satellite, or 23 if the numbers encode no word, and then nothing is
/// put.
pub fn write_page(raw: &WordRaw, satellite: u32, into: &mut PageBits) -> u32
    ensures satellite { (IsSat Gal satellite → ⊥) → (result ≡ 62) × (into.new ≡ into.old) }
    ensures none { IsSat Gal satellite → (IsContent (content_in raw.now) → ⊥) →
        (result ≡ 23) × (into.new ≡ into.old) }
    ensures written { IsSat Gal satellite → IsContent (content_in raw.now) →
        (result ≡ 0) × IsPageOf (content_in raw.now) satellite into.new }
{
    let sat = match sat_of(System::Gal, satellite) {
        Some(sat) => sat,
        None => return NO_SATELLITE,
    };
    match content_of(raw) {
        Some(content) => {
            *into = page_of(&bits_of(&content, sat));
            0
        }
        None => NO_ITEM,
    }
}

//! The pages that the Galileo satellites send.

ghost use Rattle.std.specs.Prelude.{◌≡◌, ℕ, ◌+◌, ◌-◌, ◌*◌, ◌/◌};
ghost use Rattle.std.specs.Prelude.{◌%◌, ◌<◌, ◌≤◌, IfOk, length};
ghost use Rattle.std.specs.Prelude.{slice_index_or};
ghost use Rattle.nav_eph.specs.declared.sat.System.TheVariants.{Gal};
ghost use Rattle.std.specs.List.{HoldsAt};
ghost use Rattle.nav_eph.specs.Weeks.{IsReference};
ghost use Rattle.sent_captures.specs.declared.values.GalValues.{GalValues as GalValuesOf};
ghost use Rattle.sent_captures.specs.Lines.{AreHalves, IsWordOf};
ghost use Rattle.sent_captures.specs.Mirrors.{IsEmptyPage, IsPageIn};

use crate::values::GalValues;
use inav::{split, write_half, write_word1, write_word2, write_word3, write_word4, write_word5};
use nav_bits::{Bits, U};
use nav_eph::{GalIon, RefWeek, Sat, Second, System};
use std::alloc::{AllocError, Global};

/// The even and odd part of a page.
#[derive(Clone, Copy)]
pub struct Page {
    /// The even part.
    pub even: Bits<15>,
    /// The odd part.
    pub odd: Bits<15>,
}

// The number of a satellite's pages that are not empty: four of word types 1 to 4, and one of word
// type 5 for each I/NAV subframe of 15 pages (30 s).
pub(crate) const PAGES: usize = 124;

// The Galileo satellite with that number.
pub(crate) fn gal_sat(number: u8) -> Sat
    requires low { 1 ≤ number }
    requires high { number ≤ 32 }
    ensures { result ≡ record { system = Gal; number = number } }
{
    let Some(sat) = Sat::new(System::Gal, number) else {
        unreachable!();
    };
    sat
}

// The two parts of the page of a word.
fn halves_of(word: &Bits<16>) -> Page
    ensures { AreHalves word.now result.even result.odd }
{
    let (even, odd) = split(word);
    Page {
        even: write_half(&even),
        odd: write_half(&odd),
    }
}

// The page whose word has only 0 bits.
pub(crate) fn empty_page() -> Page
    ensures { IsEmptyPage result }
{
    let word = Bits::<16>::zero();
    word.are_bytes();
    halves_of(&word)
}

// Word type `place` + 1 of the satellite with that number.
fn word_of(
    values: &GalValues,
    ion: &GalIon,
    number: u8,
    wn: U<12>,
    second: Second,
    place: usize,
) -> Bits<16>
    requires low { 1 ≤ number }
    requires high { number ≤ 32 }
    requires place { place ≤ 4 }
    ensures { IsWordOf values.now ion.now number wn second place result }
{
    match place {
        0 => write_word1(&values.w1),
        1 => write_word2(&values.w2),
        2 => write_word3(&values.w3),
        3 => write_word4(&values.w4, gal_sat(number)),
        _ => write_word5(&values.health, ion, wn, second),
    }
}

// The Galileo week number, modulo 4096.
fn galileo_week(week: RefWeek) -> U<12>
    ensures { result ≡ (week - 1024) % 4096 }
{
    U::from_bits(u64::from((week.value() - 1024) % 4096))
}

// The page at an index of the table.
fn page_in(values: &GalValues, ion: &GalIon, week: RefWeek, place: usize) -> Page
    requires { place < 124 * 32 }
    ensures { IsPageIn values.now ion.now week place result }
{
    let slot = place % PAGES;
    let second = Second::from_number(30 * (slot.saturating_sub(4) as u32) + 8);
    let number = (place / PAGES) as u8 + 1;
    let word = word_of(values, ion, number, galileo_week(week), second, slot.min(4));
    word.are_bytes();
    halves_of(&word)
}

// The pages that are not empty, by satellite.
pub(crate) fn pages_of(
    alloc: Global,
    values: &[GalValues],
    ion: &GalIon,
    week: RefWeek,
) -> Result<Vec<Page>, AllocError>
    requires { length values.now ≤ 32 }
    ensures count { IfOk result (λ pages. length pages.items ≡ 124 * length values.now) }
    ensures pages { IfOk result (λ pages. (q : ℕ) (v : GalValuesOf) → q < 124 * length values.now →
        HoldsAt (IsPageIn (slice_index_or values.now (q / 124) v) ion.now week q) pages.items q) }
{
    let mut pages = Vec::new(alloc);
    'places: for place in 0..PAGES * values.len() {
        pages.push(page_in(&values[place / PAGES], ion, week, place))?;
    }
    Ok(pages)
}

//! Parts of Galileo I/NAV pages that wait for their partners (Galileo OS SIS ICD, 4.3.2).

ghost use Rattle.std.specs.Prelude.{◌≡◌, [], drop};
ghost use Rattle.c_calls.specs.Pages.{page_bits};
ghost use Rattle.c_calls.specs.PagePairs.{GivesPage, IsEmpty, TakesBits, signal_in};

use crate::PageBits;
use inav::{Halves, Joined, read_half, split, write_half};
use nav_bits::Bits;
use nav_eph::{Signal, System};
use raw_values::reasons::{ALERT, NO_MEMORY, NO_SATELLITE};
use raw_values::sat_of;
use std::alloc::{AllocError, Global};
use std::marker::Model;

// There is no signal with this number.
const NO_SIGNAL: u32 = 72;

/// The 120 bits of a page part (Galileo OS SIS ICD, 4.3.2.3), most significant bit first.
#[repr(C)]
#[derive(Clone, Copy)]
pub struct PartBits {
    /// The bytes.
    pub bytes: [u8; 15],
}

/// The page of two parts that belong together.
#[repr(C)]
#[derive(Clone, Copy)]
pub struct JoinedPage {
    /// Its parts; reserved and tail bits are 0.
    pub page: PageBits,
    /// The time tag of its odd part, in seconds.
    pub stamp: u32,
}

/// Page parts that wait for their partners, and the words that the last one made.
#[derive(Drop)]
pub struct PagePairs {
    alloc: Global,
    halves: Halves,
    joined: Option<Joined>,
    given: usize,
}

impl Model for PagePairs {
    ghost use Rattle.c_calls.specs.PagePairs.{PagesState};
    ghost use Rattle.c_calls.specs.Waiting.{stamp_in, words_in};

    ghost Value = { PagesState };

    ghost view = { λ p. record {
      halves = p.halves;
      words = words_in p.joined p.given;
      stamp = stamp_in p.joined;
    } };
}

/// No page part was taken. A part is retained while its time tag is at most the window and one
/// second below the greatest; a window below 60 seconds is taken as 60, and above 14,400 as 14,400.
pub fn new(alloc: Global, window: u32) -> PagePairs
    ensures { IsEmpty result window }
{
    PagePairs {
        alloc,
        halves: Halves::new(alloc, window.clamp(60, 14_400)),
        joined: None,
        given: 0,
    }
}

// The signal with this number.
fn signal_of(number: u32) -> Option<Signal>
    ensures { result ≡ signal_in number }
{
    match number {
        1 => Some(Signal::E1b),
        2 => Some(Signal::E5b),
        _ => None,
    }
}

/// Takes a page part of 120 bits, received from a Galileo satellite on signal 1 (E1-B) or 2 (E5b-I)
/// at a time tag in seconds, and returns 0: `next` then gives the words that it makes.
///
/// 6 if out of memory, 62 if there is no such satellite, 65 for a part of an alert page, 72 if
/// there is no such signal, and then nothing is changed.
pub fn take(state: &mut PagePairs, part: &PartBits, stamp: u32, satellite: u32, signal: u32) -> u32
    ensures { TakesBits state.old state.new part.now.bytes stamp satellite signal result }
{
    let sat = match sat_of(System::Gal, satellite) {
        Some(sat) => sat,
        None => return NO_SATELLITE,
    };
    let half = match read_half(&Bits::from_bytes(part.bytes)) {
        Ok(half) => half,
        Err(_) => return ALERT,
    };
    let signal = match signal_of(signal) {
        Some(signal) => signal,
        None => return NO_SIGNAL,
    };
    match state.halves.take(stamp, sat, signal, &half) {
        Ok(joined) => {
            state.joined = Some(joined);
            state.given = 0;
            0
        }
        Err(AllocError) => NO_MEMORY,
    }
}

// The page of a word.
fn page_of(word: &Bits<16>) -> PageBits
    ensures { result ≡ page_bits word.now }
{
    let (even, odd) = split(word);
    PageBits {
        even: *write_half(&even).bytes(),
        odd: *write_half(&odd).bytes(),
    }
}

/// Puts the page of the next word that the last part made, and returns 1; 0 if there is none.
pub fn next(state: &mut PagePairs, page: &mut JoinedPage) -> u32
    ensures { GivesPage state.old state.new page.old page.new state.old.words result }
{
    let joined = match &state.joined {
        Some(joined) => joined,
        None => return 0,
    };
    if joined.len() <= state.given {
        return 0;
    }
    *page = JoinedPage {
        page: page_of(joined.word(state.given)),
        stamp: joined.stamp(),
    };
    state.given += 1;
    1
}

/// Releases all memory: no part is retained, and the window is of 60 seconds.
pub fn close(state: &mut PagePairs)
    ensures { IsEmpty state.new 60 }
{
    *state = new(state.alloc, 60);
}

//! Parts of Galileo I/NAV pages that wait for their partners, in memory that C hands in (Galileo OS
//! SIS ICD, 4.3.2).

ghost use Rattle.std.specs.Prelude.{◌≡◌, ◌≤◌};
ghost use Rattle.std.specs.Borrow.{sem};
ghost use Rattle.c_calls.specs.PagePairs.{GivesPage, IsEmpty, PagesState, TakesBits};
ghost use Rattle.c_calls.specs.Places.{HasPagesRoom, HoldsPages, HoldsPagesThat, pages_size};

use c_calls::{JoinedPage, PagePairs, PartBits, state_pages as pages};
use std::alloc::Global;

/// How many bytes they take, at most 1,024.
#[unsafe(no_mangle)]
pub extern "C" fn nb_pages_size() -> usize
    ensures size { result ≡ pages_size }
    ensures most { result ≤ 1024 }
{
    std::mem::size_of::<PagePairs>()
}

/// Makes page parts of this memory, whatever it held: none was taken. A part is retained while its
/// time tag is at most the window and one second below the greatest; a window below 60 seconds is
/// taken as 60, and above 14,400 as 14,400.
#[unsafe(no_mangle)]
pub unsafe extern "C" fn nb_pages_init(at: *mut u8, alloc: Global, window: u32)
    requires* { sem 𝓛 (HasPagesRoom at) }
    ensures* { sem 𝓛 (HoldsPagesThat at (λ new. IsEmpty new window)) }
{
    let place = at as *mut PagePairs;
    std::ptr::write(place, pages::new(alloc, window));
}

/// Takes a page part of 120 bits, received from that Galileo satellite on signal 1 (E1-B) or 2
/// (E5b-I) at a time tag in seconds: 0; 6 if out of memory, 62 if there is no such satellite, 65
/// for a part of an alert page, 72 if there is no such signal.
#[unsafe(no_mangle)]
pub unsafe extern "C" fn nb_pages_take(
    at: *mut u8,
    part: &PartBits,
    stamp: u32,
    satellite: u32,
    signal: u32,
) -> u32
    ghost old: { PagesState }
    requires* { sem 𝓛 (HoldsPages at old) }
    ensures* { sem 𝓛 (HoldsPagesThat at
        (λ new. TakesBits old new part.now.bytes stamp satellite signal result)) }
{
    let place = at as *mut PagePairs;
    pages::take(&mut *place, part, stamp, satellite, signal)
}

/// Puts the page of the next word that the last part made with its partners, and returns 1; 0 if
/// there is none.
#[unsafe(no_mangle)]
pub unsafe extern "C" fn nb_pages_next(at: *mut u8, page: &mut JoinedPage) -> u32
    ghost old: { PagesState }
    requires* { sem 𝓛 (HoldsPages at old) }
    ensures* { sem 𝓛 (HoldsPagesThat at
        (λ new. GivesPage old new page.old page.new old.words result)) }
{
    let place = at as *mut PagePairs;
    pages::next(&mut *place, page)
}

/// Releases all memory that the page parts took; none is retained, and the window is of 60 seconds.
#[unsafe(no_mangle)]
pub unsafe extern "C" fn nb_pages_close(at: *mut u8)
    ghost old: { PagesState }
    requires* { sem 𝓛 (HoldsPages at old) }
    ensures* { sem 𝓛 (HoldsPagesThat at (λ new. IsEmpty new 60)) }
{
    let place = at as *mut PagePairs;
    pages::close(&mut *place);
}

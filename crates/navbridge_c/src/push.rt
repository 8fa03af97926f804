//! Conversions whose input is pushed in pieces, in memory that C hands in.
//!
//! Contracts see the memory at `at` as a conversion in some state: that is theirs for the call, and
//! afterwards in a state as the contract states.

ghost use Rattle.std.specs.Prelude.{◌≡◌, ◌≤◌, map};
ghost use Rattle.std.specs.Borrow.{sem};
ghost use Rattle.c_calls.specs.Places.{HasPushRoom, HoldsPush, HoldsPushThat, push_size};
ghost use Rattle.c_calls.specs.Pushes.{Finishes, Opens, PushState, Pushes, Takes};
ghost use Rattle.c_calls.specs.Pushes.{closed, taken_more, reported_more};

use c_calls::{PushedJob, push};
use std::alloc::Global;

/// How many bytes a conversion takes, at most 65,536.
#[unsafe(no_mangle)]
pub extern "C" fn nb_push_size() -> usize
    ensures size { result ≡ push_size }
    ensures most { result ≤ 65536 }
{
    std::mem::size_of::<PushedJob>()
}

/// Makes a conversion of this memory, whatever it held, and opens the conversion that the arguments
/// name: 0; 2 if they give none, 6 if out of memory, 9 if an argument is not UTF-8, and 10 if the
/// input of their conversion cannot be pushed.
#[unsafe(no_mangle)]
pub unsafe extern "C" fn nb_push_open(at: *mut u8, alloc: Global, words: &[&[u8]]) -> u32
    requires* { sem 𝓛 (HasPushRoom at) }
    ensures* { sem 𝓛 (HoldsPushThat at
        (λ new. Opens (map (λ word. word.now) words.now) new result)) }
{
    let place = at as *mut PushedJob;
    std::ptr::write(place, push::new(alloc));
    push::open(&mut *place, words)
}

/// Pushes a piece of the input: 0; 5 if the first line of a capture is rejected, 6 if out of
/// memory, 8 if a capture has 2^32 bytes, or a stream 2^64. Each return but 0 is that of each
/// further call.
#[unsafe(no_mangle)]
pub unsafe extern "C" fn nb_push(at: *mut u8, bytes: &[u8]) -> u32
    ghost old: { PushState }
    requires* { sem 𝓛 (HoldsPush at old) }
    ensures* { sem 𝓛 (HoldsPushThat at (λ new. Pushes old bytes.now new result)) }
{
    let place = at as *mut PushedJob;
    push::push(&mut *place, bytes)
}

/// Ends the input: 0; 5, 6 or 8 as `nb_push`.
#[unsafe(no_mangle)]
pub unsafe extern "C" fn nb_push_finish(at: *mut u8) -> u32
    ghost old: { PushState }
    requires* { sem 𝓛 (HoldsPush at old) }
    ensures* { sem 𝓛 (HoldsPushThat at (λ new. Finishes old new result)) }
{
    let place = at as *mut PushedJob;
    push::finish(&mut *place)
}

/// Puts pending output, as many bytes as fit, and returns how many. What was taken is released: at
/// most twice what waits is retained.
#[unsafe(no_mangle)]
pub unsafe extern "C" fn nb_push_take(at: *mut u8, room: &mut [u8]) -> usize
    ghost old: { PushState }
    requires* { sem 𝓛 (HoldsPush at old) }
    ensures* holds { sem 𝓛 (HoldsPush at (taken_more old result)) }
    ensures takes { Takes old.output old.taken room.old room.new result }
{
    let place = at as *mut PushedJob;
    push::take(&mut *place, room)
}

/// Puts the pending report, as many bytes as fit, and returns how many.
#[unsafe(no_mangle)]
pub unsafe extern "C" fn nb_push_take_report(at: *mut u8, room: &mut [u8]) -> usize
    ghost old: { PushState }
    requires* { sem 𝓛 (HoldsPush at old) }
    ensures* holds { sem 𝓛 (HoldsPush at (reported_more old result)) }
    ensures takes { Takes old.report old.told room.old room.new result }
{
    let place = at as *mut PushedJob;
    push::take_report(&mut *place, room)
}

/// Releases all memory that the conversion took; no conversion is open then.
#[unsafe(no_mangle)]
pub unsafe extern "C" fn nb_push_close(at: *mut u8)
    ghost old: { PushState }
    requires* { sem 𝓛 (HoldsPush at old) }
    ensures* { sem 𝓛 (HoldsPush at closed) }
{
    let place = at as *mut PushedJob;
    push::close(&mut *place);
}

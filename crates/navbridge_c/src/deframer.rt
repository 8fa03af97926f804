//! A deframer in memory that C hands in (RTCM 10403.3, the transport layer).
//!
//! Contracts see the memory at `at` as a deframer in some state: that is theirs for the call, and
//! afterwards in the state that the contract names.

ghost use Rattle.std.specs.Prelude.{◌≡◌, ◌≤◌, take};
ghost use Rattle.std.specs.Borrow.{sem};
ghost use Rattle.framing.specs.State.{DeframerState};
ghost use Rattle.c_calls.specs.Deframers.{Feeds, Gives, HasRoom, HoldsDeframer, deframer_size};
ghost use Rattle.c_calls.specs.Deframers.{ended, fed, fresh, left};

use c_calls::deframer;
use framing::Deframer;

/// How many bytes a deframer takes, at most 24,576.
#[unsafe(no_mangle)]
pub extern "C" fn nb_deframer_size() -> usize
    ensures size { result ≡ deframer_size }
    ensures most { result ≤ 24576 }
{
    std::mem::size_of::<Deframer>()
}

/// Makes a deframer of this memory, whatever it held: no byte was fed.
#[unsafe(no_mangle)]
pub unsafe extern "C" fn nb_deframer_init(at: *mut u8)
    requires* { sem 𝓛 (HasRoom at) }
    ensures* { sem 𝓛 (HoldsDeframer at fresh) }
{
    let place = at as *mut Deframer;
    std::ptr::write(place, deframer::new());
}

/// Feeds bytes from the start of a piece, and returns how many: at least one, but none if the piece
/// is empty, a frame is decided that `nb_deframer_next` was not asked for, or `nb_deframer_finish`
/// was called.
#[unsafe(no_mangle)]
pub unsafe extern "C" fn nb_deframer_feed(at: *mut u8, bytes: &[u8]) -> usize
    ghost old: { DeframerState }
    requires* { sem 𝓛 (HoldsDeframer at old) }
    ensures* holds { sem 𝓛 (HoldsDeframer at (fed old (take result bytes.now))) }
    ensures feeds { Feeds old bytes.now result }
{
    let place = at as *mut Deframer;
    deframer::feed(&mut *place, bytes)
}

/// Puts the prefix that fits of the next frame, and returns its size; 0 if no frame is decided, and
/// after `nb_deframer_finish` if there is none.
#[unsafe(no_mangle)]
pub unsafe extern "C" fn nb_deframer_next(at: *mut u8, frame: &mut [u8]) -> usize
    ghost old: { DeframerState }
    requires* { sem 𝓛 (HoldsDeframer at old) }
    ensures* holds { sem 𝓛 (HoldsDeframer at (left old result)) }
    ensures gives { Gives old frame.old frame.new result }
{
    let place = at as *mut Deframer;
    deframer::next(&mut *place, frame)
}

/// Ends the input: no byte follows.
#[unsafe(no_mangle)]
pub unsafe extern "C" fn nb_deframer_finish(at: *mut u8)
    ghost old: { DeframerState }
    requires* { sem 𝓛 (HoldsDeframer at old) }
    ensures* { sem 𝓛 (HoldsDeframer at (ended old)) }
{
    let place = at as *mut Deframer;
    deframer::finish(&mut *place);
}

//! The steps of a deframer (RTCM 10403.3, the transport layer, section 4).

ghost use Rattle.std.specs.Prelude.{◌≡◌, take};
ghost use Rattle.c_calls.specs.Deframers.{Feeds, Gives, ended, fed, fresh, left};

use framing::Deframer;
use raw_values::put;

/// A deframer that has been fed no byte.
pub fn new() -> Deframer
    ensures { result ≡ fresh }
{
    Deframer::new()
}

/// Feeds bytes from the start of a piece, as many as fit, and returns how many: at least one, but
/// none if the piece is empty, a frame is decided that was not taken, or `finish` was called.
pub fn feed(state: &mut Deframer, piece: &[u8]) -> usize
    ensures fed { state.new ≡ fed state.old (take result piece.now) }
    ensures feeds { Feeds state.old piece.now result }
{
    if piece.is_empty() || !state.may_feed() {
        return 0;
    }
    state.feed_some(piece)
}

/// Puts the prefix that fits of the next frame, consumes the bytes up to its end, and returns its
/// size, 6 to 1,029; 0 if no frame is decided, and after `finish` if there is none.
pub fn next(state: &mut Deframer, frame: &mut [u8]) -> usize
    ensures left { state.new ≡ left state.old result }
    ensures gives { Gives state.old frame.old frame.new result }
{
    match state.next_frame() {
        Some(whole) => put(whole.bytes(), frame),
        None => 0,
    }
}

/// Ends the input: no byte follows.
pub fn finish(state: &mut Deframer)
    ensures { state.new ≡ ended state.old }
{
    state.finish();
}

//! Frames of RTCM 10403.3 (the transport layer, section 4).

ghost use Rattle.std.specs.Prelude.{◌≡◌, ◌<◌, ◌≤◌, ◌↔◌, length, IsTrue};
ghost use Rattle.framing.specs.Writing.{frame_bytes};
ghost use Rattle.raw_values.specs.Rooms.{IsLeft, StandsIn};
ghost use Rattle.c_calls.specs.Messages.{IsFrame};

use arrayvec::ArrayVec;
use framing::{frame_of, write_frame};
use raw_values::put;

/// Whether these bytes are one complete frame with a right checksum, and nothing else.
pub fn is_frame(bytes: &[u8]) -> bool
    ensures { IsTrue result ↔ IsFrame bytes.now }
{
    frame_of(bytes).is_some()
}

/// Puts the frame of a payload of at most 1,023 bytes, and returns its size; 0 exactly if the
/// payload is longer.
pub fn make_frame(payload: &[u8], into: &mut [u8]) -> usize
    ensures frame { length payload.now ≤ 1023 →
        StandsIn into.old into.new result (frame_bytes payload.now) }
    ensures long { 1023 < length payload.now → IsLeft into.old into.new result }
{
    if payload.len() > 1023 {
        return 0;
    }
    let mut frame: ArrayVec<u8, 1029> = ArrayVec::new();
    write_frame(payload, &mut frame);
    put(frame.as_slice(), into)
}

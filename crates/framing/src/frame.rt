//! One complete frame.

ghost use Rattle.std.specs.Prelude.{◌≡◌, ◌<◌, ◌≤◌};
ghost use Rattle.std.specs.Prelude.{◌↔◌, [], length, IsSome, IfSome};
ghost use Rattle.framing.specs.Frames.{frame_size};
ghost use Rattle.framing.specs.State.{payload_of};

use crate::form::{LONGEST, size_of_frame};
use arrayvec::ArrayVec;
use std::marker::Model;

/// One complete frame with a right checksum (RTCM 10403.3, the transport layer). Contracts see the
/// list of its bytes, of which there are at least 6.
#[derive(Drop)]
pub struct Frame {
    bytes: ArrayVec<u8, LONGEST>,
}

impl Model for Frame {
    ghost use Rattle.std.specs.Prelude.{◌≤◌, List, ℕ, length};

    ghost Value = { List ℕ };

    ghost view = { λ f. f.bytes.items };

    ghost invariant = { λ f. 6 ≤ length f.bytes.items };
}

impl Frame {
    // The frame with these bytes.
    pub(crate) fn new(bytes: &[u8]) -> Self
        requires shortest { 6 ≤ length bytes.now }
        requires longest { length bytes.now ≤ 1029 }
        ensures { result ≡ bytes.now }
    {
        let mut frame = ArrayVec::new();
        if frame.try_extend_from_slice(bytes).is_err() {
            unreachable!();
        }
        Frame { bytes: frame }
    }

    // Replaces it by the frame with these bytes.
    pub(crate) fn set(&mut self, bytes: &[u8])
        requires shortest { 6 ≤ length bytes.now }
        requires longest { length bytes.now ≤ 1029 }
        ensures { self.new ≡ bytes.now }
    {
        self.bytes.clear();
        if self.bytes.try_extend_from_slice(bytes).is_err() {
            unreachable!();
        }
    }

    /// A frame without payload, as memory for one that is given ([`crate::Deframer::next_into`]).
    pub fn without_payload() -> Self
        ensures { payload_of result ≡ [] }
    {
        Frame::new(&[0xD3, 0, 0, 0x47, 0xEA, 0x4B])
    }

    /// The bytes of the complete frame, from the preamble to the checksum.
    pub fn bytes(&self) -> &[u8]
        ensures { result.now ≡ self.now }
    {
        self.bytes.as_slice()
    }

    /// The payload, 0 to 1,023 bytes, between header and checksum.
    pub fn payload(&self) -> &[u8]
        ensures value { result.now ≡ payload_of self.now }
        ensures longest { length result.now ≤ 1023 }
    {
        let bytes = self.bytes.as_slice();
        &bytes[3..bytes.len() - 3]
    }
}

/// The frame that these bytes are. `None` exactly if they are not one complete frame with a right
/// checksum and nothing after it.
#[tactic(auto, using(crate::proofs::Takes::sizes))]
pub fn frame_of(bytes: &[u8]) -> Option<Frame>
    ensures whole { IsSome result ↔
        ((0 < length bytes.now) × (frame_size bytes.now ≡ length bytes.now)) }
    ensures frame { IfSome result (λ frame. frame ≡ bytes.now) }
{
    let size = size_of_frame(bytes);
    if size == 0 || size != bytes.len() {
        return None;
    }
    Some(Frame::new(bytes))
}

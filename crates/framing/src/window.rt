//! The bytes that a deframer holds.

ghost use Rattle.std.specs.Prelude.{◌≡◌, ◌+◌, ◌<◌, ◌≤◌, []};
ghost use Rattle.std.specs.Prelude.{◌∷◌, ◌++◌, length, take, drop};
ghost use Rattle.framing.specs.Frames.{frame_size, is_right};

use crate::body_mover::BodyMover;
use crate::form::{announced_within, has_right_checksum};
use crate::states::{begin_states, cut_states, extend, has_right_checksum_by};
use arrayvec::ArrayVec;
use std::marker::Model;

// The capacity of a window in bytes.
const CAPACITY: usize = 4096;

// The bytes, and CRC registers beside them. The registers are computed only as far as a checksum
// was wrong: good frames cost no registers, and no byte is processed twice.
#[derive(Drop)]
pub struct Window {
    bytes: ArrayVec<u8, CAPACITY>,
    // the register before each byte, up to some byte
    states: ArrayVec<u32, 4097>,
    // advances registers over the bodies of frames
    mover: BodyMover,
}

impl Model for Window {
    ghost use Rattle.std.specs.Prelude.{List, ℕ};
    ghost use Rattle.framing.specs.States.{AreStates};

    ghost Value = { List ℕ };

    ghost view = { λ w. w.bytes.items };

    ghost invariant = { λ w. AreStates w.bytes.items w.states.items };
}

impl Window {
    // An empty window.
    pub fn new() -> Self
        ensures { result ≡ [] }
    {
        let mut states = ArrayVec::new();
        begin_states(&mut states);
        Window {
            bytes: ArrayVec::new(),
            states,
            mover: BodyMover::new(),
        }
    }

    // How many bytes it holds.
    pub fn len(&self) -> usize
        ensures value { result ≡ length self.now }
        ensures most { result ≤ 4096 }
    {
        self.bytes.len()
    }

    // The bytes.
    pub fn bytes(&self) -> &[u8]
        ensures { result.now ≡ self.now }
    {
        self.bytes.as_slice()
    }

    // Appends a byte.
    pub fn push(&mut self, byte: u8)
        requires { length self.old < 4096 }
        ensures { self.new ≡ self.old ++ byte ∷ [] }
    {
        self.bytes.push(byte);
    }

    // Appends bytes; there must be room for them.
    pub fn append(&mut self, piece: &[u8])
        requires { length self.old + length piece.now ≤ 4096 }
        ensures { self.new ≡ self.old ++ piece.now }
    {
        if self.bytes.try_extend_from_slice(piece).is_err() {
            unreachable!();
        }
    }

    // Removes the first `count` bytes.
    pub fn cut_prefix(&mut self, count: usize)
        requires { count ≤ length self.old }
        ensures { self.new ≡ drop count self.old }
    {
        self.bytes.drain(..count);
        cut_states(&mut self.states, count);
    }

    // Removes all bytes.
    pub fn clear(&mut self)
        ensures { self.new ≡ [] }
    {
        self.bytes.clear();
        begin_states(&mut self.states);
    }

    // Whether the last three of the `size` bytes at this offset are the checksum of those before
    // them.
    pub fn is_right_at(&mut self, place: usize, size: usize) -> bool
        requires inside { place + size ≤ length self.old }
        requires shortest { 3 ≤ size }
        requires longest { size ≤ 1029 }
        ensures value { result ≡ is_right (take size (drop place self.old)) }
        ensures same { self.new ≡ self.old }
    {
        if self.states.len() - 1 <= place
            && has_right_checksum(&self.bytes.as_slice()[place..place + size])
        {
            return true;
        }
        extend(self.bytes.as_slice(), &mut self.states, place + size - 3);
        let before = self.states.as_slice()[place];
        let after = self.states.as_slice()[place + size - 3];
        let frame = &self.bytes.as_slice()[place..place + size];
        has_right_checksum_by(&mut self.mover, before, after, frame)
    }

    // The size of the frame with right checksum at this offset, or 0 where there is none.
    pub fn size_at(&mut self, place: usize) -> usize
        requires { place ≤ length self.old }
        ensures value { result ≡ frame_size (drop place self.old) }
        ensures same { self.new ≡ self.old }
    {
        let size = announced_within(&self.bytes()[place..]);
        if size == 0 {
            return 0;
        }
        if self.is_right_at(place, size) {
            size
        } else {
            0
        }
    }
}

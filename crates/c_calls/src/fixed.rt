//! A sink of fixed size.

ghost use Rattle.std.specs.Prelude.{◌≡◌, ◌+◌, ◌<◌, ◌≤◌, ◌++◌, [], length};

use arrayvec::ArrayVec;
use nav_io::{Failed, Sink};
use std::marker::Model;

// The room in bytes.
const ROOM: usize = 1024;

/// What was written, at most 1,024 bytes. A write that exceeds them fills the room, and fails.
#[derive(Drop)]
pub struct Fixed {
    bytes: ArrayVec<u8, ROOM>,
    faults: u64,
}

impl Model for Fixed {
    ghost use Rattle.std.specs.Prelude.{◌<◌, ◌≤◌, length};
    ghost use Rattle.c_calls.specs.Fixed.{FixedState};

    ghost Value = { FixedState };

    ghost view = { λ s. record { bytes = s.bytes.items; faults = s.faults } };

    ghost invariant = { λ s. 0 < s.faults → 1024 ≤ length s.bytes.items };
}

// Appends a piece that there is room for.
fn append(bytes: &mut ArrayVec<u8, ROOM>, piece: &[u8])
    requires { length bytes.old.items + length piece.now ≤ 1024 }
    ensures { bytes.new.items ≡ bytes.old.items ++ piece.now }
{
    if bytes.try_extend_from_slice(piece).is_err() {
        unreachable!();
    }
}

impl Fixed {
    /// Nothing was written.
    pub fn new() -> Fixed
        ensures bytes { result.bytes ≡ [] }
        ensures faults { result.faults ≡ 0 }
    {
        Fixed {
            bytes: ArrayVec::new(),
            faults: 0,
        }
    }

    /// The bytes so far. After an error there are 1,024.
    pub fn bytes(&self) -> &[u8]
        ensures bytes { result.now ≡ self.now.bytes }
        ensures full { 0 < self.now.faults → 1024 ≤ length self.now.bytes }
    {
        self.bytes.as_slice()
    }
}

impl Sink for Fixed {
    ghost use Rattle.std.specs.Prelude.{Some};

    ghost written = { λ s. Some s.bytes };

    ghost faults = { λ s. s.faults };

    /// Appends the complete piece, or the prefix that fits, and fails.
    #[tactic(auto, using(crate::proofs::Prefixes::appended_whole))]
    fn write(&mut self, piece: &[u8]) -> Result<(), Failed> {
        let count = piece.len().min(ROOM - self.bytes.len());
        append(&mut self.bytes, &piece[..count]);
        if count == piece.len() {
            return Ok(());
        }
        self.faults = self.faults.saturating_add(1);
        Err(Failed)
    }
}

//! A sink that retains what was not taken of it.

ghost use Rattle.std.specs.Prelude.{◌≡◌, ◌≤◌, ◌+◌, [], drop, length};
ghost use Rattle.c_calls.specs.Pending.{all_of, released_by};

use crate::released::Released;
use nav_io::{Failed, Sink};
use std::alloc::Global;

/// What was written. It fails only if out of memory.
#[derive(Drop)]
pub struct Pending {
    /// The bytes that are retained.
    pub bytes: Vec<u8>,
    /// Those before them.
    pub released: Released,
    /// How many writes failed.
    pub faults: u64,
}

// Removes the first bytes.
fn remove_front(bytes: &mut Vec<u8>, count: usize)
    requires { count ≤ length bytes.old.items }
    ensures { bytes.new.items ≡ drop count bytes.old.items }
{
    bytes.drain(..count);
}

impl Pending {
    /// Nothing was written.
    pub fn new(alloc: Global) -> Pending
        ensures bytes { result.bytes.items ≡ [] }
        ensures released { result.released.text ≡ [] }
        ensures faults { result.faults ≡ 0 }
    {
        let bytes = Vec::new(alloc);
        let released = Released::none();
        Pending {
            bytes,
            released,
            faults: 0,
        }
    }

    /// Releases the bytes that were taken, the first `taken` of those that are retained, unless
    /// more wait. Returns how many of those that are retained then were taken.
    pub fn release(&mut self, taken: usize) -> usize
        ensures same { all_of self.new ≡ all_of self.old }
        ensures taken { length self.new.released.text + result
            ≡ length self.old.released.text + taken }
        ensures released { length self.new.released.text ≡ released_by (length (all_of self.old))
            (length self.old.released.text + taken) (length self.old.released.text) }
    {
        let count = taken.min(self.bytes.len());
        if self.bytes.len() - count > taken {
            return taken;
        }
        self.released = self.released.and(&self.bytes[..count]);
        remove_front(&mut self.bytes, count);
        taken - count
    }
}

impl Sink for Pending {
    ghost use Rattle.std.specs.Prelude.{Some};
    ghost use Rattle.c_calls.specs.Pending.{marked_text};

    ghost written = { λ s. Some (marked_text s) };

    ghost faults = { λ s. s.faults };

    /// Appends the complete piece, or fails and appends nothing.
    fn write(&mut self, piece: &[u8]) -> Result<(), Failed> {
        if self.bytes.extend_from_slice(piece).is_ok() {
            return Ok(());
        }
        self.faults = self.faults.saturating_add(1);
        Err(Failed)
    }
}

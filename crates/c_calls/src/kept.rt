//! A sink that keeps what is written.

ghost use Rattle.std.specs.Prelude.{◌≡◌, []};

use nav_io::{Failed, Sink};
use std::alloc::Global;

/// What was written. It fails only if out of memory.
#[derive(Drop)]
pub struct GrowingSink {
    /// The bytes that were written.
    pub bytes: Vec<u8>,
    /// How many writes failed.
    pub faults: u64,
}

impl GrowingSink {
    /// Nothing was written.
    pub fn new(alloc: Global) -> GrowingSink
        ensures bytes { result.bytes.items ≡ [] }
        ensures faults { result.faults ≡ 0 }
    {
        let bytes = Vec::new(alloc);
        GrowingSink { bytes, faults: 0 }
    }
}

impl Sink for GrowingSink {
    ghost use Rattle.std.specs.Prelude.{Some};

    ghost written = { λ s. Some s.bytes.items };

    ghost faults = { λ s. s.faults };

    /// Appends the complete piece, or fails and appends nothing.
    fn write(&mut self, piece: &[u8]) -> Result<(), Failed> {
        if self.bytes.extend_from_slice(piece).is_ok() {
            return Ok(());
        }
        self.faults = self.faults.saturating_add(1);
        Err(Failed)
    }
}

//! The text that is held back until all records are read.

ghost use Rattle.std.specs.Prelude.{MatchResult, Some};
ghost use Rattle.std.specs.Io.KnownBytes.{Appends};
ghost use Rattle.nav_io.specs.Causes.{HasCause};
ghost use Rattle.nav_io.specs.Prefix.{AppendsPrefix};

use nav_io::{Failed, Sink};
use std::alloc::AllocError;

// Text in memory; a write fails for want of memory.
#[derive(Drop)]
pub(crate) struct Held {
    pub(crate) bytes: Vec<u8>,
    pub(crate) faults: u64,
}

impl Sink for Held {
    ghost use Rattle.std.specs.Prelude.{Some};

    ghost written = { λ s. Some s.bytes.items };

    ghost faults = { λ s. s.faults };

    fn write(&mut self, piece: &[u8]) -> Result<(), Failed>
        ensures bytes { MatchResult result
            (λ _. Appends (Some self.old.bytes.items) (Some self.new.bytes.items) piece.now)
            (λ _. AppendsPrefix (Some self.old.bytes.items) (Some self.new.bytes.items)
            piece.now) }
        ensures cause { HasCause self.old.faults self.new.faults result }
    {
        match self.bytes.extend_from_slice(piece) {
            Ok(()) => Ok(()),
            Err(AllocError) => {
                self.faults = self.faults.saturating_add(1);
                Err(Failed)
            }
        }
    }
}

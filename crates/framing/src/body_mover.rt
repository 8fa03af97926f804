//! Advances a CRC register over the body of a frame, by tables for a size that comes repeatedly.

ghost use Rattle.std.specs.Prelude.{◌≡◌, ◌*◌, ◌^◌, ◌<◌};
ghost use Rattle.nav_bits.specs.Register.{shift};

use nav_bits::{Mover, shifted};

// After how many occurrences of a size in a row its tables are made. Making them costs about as
// much as twenty moves without tables.
const OFTEN: u32 = 64;

// Advances registers over bodies of any size. A stream of one repeated byte announces the same size
// at each offset; with tables made for that size a move is cheaper than the general one.
#[derive(Drop)]
pub struct BodyMover {
    mover: Mover,
    // the last size without tables, and how often it was repeated in a row
    last: usize,
    times: u32,
}

impl BodyMover {
    // A mover without tables.
    pub fn new() -> Self {
        BodyMover {
            mover: Mover::new(0),
            last: 0,
            times: 0,
        }
    }

    // The register after this many further zero bytes.
    pub fn moved(&mut self, state: u32, count: usize) -> u32
        requires state { state < 2 ^ 24 }
        requires count { count < 1029 }
        ensures { result ≡ shift (8 * count) state }
    {
        if self.mover.count() == count {
            return self.mover.moved(state);
        }
        self.note(count);
        shifted(state, count)
    }

    // Counts this size, and makes its tables when it came often in a row.
    fn note(&mut self, count: usize)
        requires { count < 1029 }
    {
        if self.last != count {
            self.last = count;
            self.times = 0;
            return;
        }
        self.times = self.times.saturating_add(1);
        if self.times >= OFTEN {
            self.mover.set_count(count);
            self.times = 0;
        }
    }
}

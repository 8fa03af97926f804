//! What a conversion that is done has counted.

ghost use Rattle.std.specs.Prelude.{◌≡◌};
ghost use Rattle.file_conversion.specs.Counted.{times_in};

use all_systems::{SystemCounts, SystemMergeCounts};
use streams::{StreamCounts, Times};

/// What a conversion that is done has counted.
#[derive(Clone, Copy)]
pub enum Done {
    /// A conversion of `navbridge`.
    Job(bridge_engine::Done),
    /// The ephemerides of all systems in a stream.
    Stream(StreamCounts),
    /// Those in a navigation file.
    File(SystemCounts),
    /// Those in several that were merged.
    Merged(SystemMergeCounts),
}

impl Done {
    /// The first and the last epoch of the ephemerides among the items, as of
    /// [`bridge_engine::Done::times`].
    pub fn times(&self) -> Option<Times>
        ensures { result ≡ times_in self.now }
    {
        match self {
            Done::Job(done) => done.times(),
            Done::Stream(counts) => counts.times,
            Done::File(counts) => counts.times,
            Done::Merged(counts) => counts.times,
        }
    }
}

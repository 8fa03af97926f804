//! What a conversion that is done has counted.

ghost use Rattle.std.specs.Prelude.{◌≡◌, Err, IsOkAnd, MatchResult};
ghost use Rattle.bridge_engine.specs.Counts.{made_of, refused_of, times_in};
ghost use Rattle.bridge_engine.specs.declared.done.Done.TheVariants as dones;

use captures::{CaptureCounts, SeedCounts};
use nav_files::{MergeCounts, RinexCounts};
use one_run::BridgeFault;
use streams::{FrameCounts, StreamCounts, Times};

/// What a conversion that is done has counted.
#[derive(Clone, Copy)]
pub enum Done {
    /// The frames of a stream.
    Frames(FrameCounts),
    /// A capture.
    Capture(CaptureCounts),
    /// The ephemerides of a stream.
    Stream(StreamCounts),
    /// A navigation file.
    File(RinexCounts),
    /// A navigation file whose ephemerides are sent.
    Sent(RinexCounts),
    /// Navigation files that are merged.
    Merged(MergeCounts),
    /// Navigation files whose times are listed.
    Covered(RinexCounts),
    /// A generated capture.
    Generated(SeedCounts),
}

impl Done {
    /// How many items were made: complete periods, items, or those in a merged file; `None` of
    /// frames, and of a generated capture that was written.
    pub fn made(&self) -> Option<u64>
        ensures { result ≡ made_of self.now }
    {
        match self {
            Done::Frames(_) => None,
            Done::Capture(counts) => Some(counts.whole),
            Done::Stream(counts) => Some(counts.items),
            Done::File(counts) => Some(counts.items),
            Done::Sent(counts) => Some(counts.items),
            Done::Merged(counts) => Some(counts.kept),
            Done::Covered(counts) => Some(counts.items),
            Done::Generated(SeedCounts::Written { .. }) => None,
            Done::Generated(SeedCounts::Counted(counts)) => Some(counts.whole),
        }
    }

    /// How many frames, lines or records were rejected; `None` as of [`Done::made`].
    pub fn refused(&self) -> Option<u64>
        ensures { result ≡ refused_of self.now }
    {
        match self {
            Done::Frames(_) => None,
            Done::Capture(counts) => Some(counts.refused),
            Done::Stream(counts) => Some(counts.refused),
            Done::File(counts) => Some(counts.refused),
            Done::Sent(counts) => Some(counts.refused),
            Done::Merged(counts) => Some(counts.refused),
            Done::Covered(counts) => Some(counts.refused),
            Done::Generated(SeedCounts::Written { .. }) => None,
            Done::Generated(SeedCounts::Counted(counts)) => Some(counts.refused),
        }
    }

    /// The first and the last epoch of the ephemerides among the items; `None` if there is no
    /// ephemeris, of a file that is sent, and as of [`Done::made`].
    pub fn times(&self) -> Option<Times>
        ensures { result ≡ times_in self.now }
    {
        match self {
            Done::Frames(_) => None,
            Done::Capture(counts) => counts.times,
            Done::Stream(counts) => counts.times,
            Done::File(counts) => counts.times,
            Done::Sent(counts) => counts.times,
            Done::Merged(counts) => counts.times,
            Done::Covered(counts) => counts.times,
            Done::Generated(SeedCounts::Written { .. }) => None,
            Done::Generated(SeedCounts::Counted(counts)) => counts.times,
        }
    }
}

// How a run to frames ended.
pub(crate) fn frames(ended: Result<FrameCounts, BridgeFault>) -> Result<Done, BridgeFault>
    ensures { MatchResult ended (λ counts. IsOkAnd result (λ done. done ≡ dones.Frames counts))
        (λ fault. result ≡ Err fault) }
{
    match ended {
        Ok(counts) => Ok(Done::Frames(counts)),
        Err(fault) => Err(fault),
    }
}

// How a run over a capture ended.
pub(crate) fn capture(ended: Result<CaptureCounts, BridgeFault>) -> Result<Done, BridgeFault>
    ensures { MatchResult ended (λ counts. IsOkAnd result (λ done. done ≡ dones.Capture counts))
        (λ fault. result ≡ Err fault) }
{
    match ended {
        Ok(counts) => Ok(Done::Capture(counts)),
        Err(fault) => Err(fault),
    }
}

// How a run over a stream ended.
pub(crate) fn stream(ended: Result<StreamCounts, BridgeFault>) -> Result<Done, BridgeFault>
    ensures { MatchResult ended (λ counts. IsOkAnd result (λ done. done ≡ dones.Stream counts))
        (λ fault. result ≡ Err fault) }
{
    match ended {
        Ok(counts) => Ok(Done::Stream(counts)),
        Err(fault) => Err(fault),
    }
}

// How a run over a navigation file ended.
pub(crate) fn file(ended: Result<RinexCounts, BridgeFault>) -> Result<Done, BridgeFault>
    ensures { MatchResult ended (λ counts. IsOkAnd result (λ done. done ≡ dones.File counts))
        (λ fault. result ≡ Err fault) }
{
    match ended {
        Ok(counts) => Ok(Done::File(counts)),
        Err(fault) => Err(fault),
    }
}

// How a run that sends a navigation file ended.
pub(crate) fn sent(ended: Result<RinexCounts, BridgeFault>) -> Result<Done, BridgeFault>
    ensures { MatchResult ended (λ counts. IsOkAnd result (λ done. done ≡ dones.Sent counts))
        (λ fault. result ≡ Err fault) }
{
    match ended {
        Ok(counts) => Ok(Done::Sent(counts)),
        Err(fault) => Err(fault),
    }
}

// How a run that merges ended.
pub(crate) fn merged(ended: Result<MergeCounts, BridgeFault>) -> Result<Done, BridgeFault>
    ensures { MatchResult ended (λ counts. IsOkAnd result (λ done. done ≡ dones.Merged counts))
        (λ fault. result ≡ Err fault) }
{
    match ended {
        Ok(counts) => Ok(Done::Merged(counts)),
        Err(fault) => Err(fault),
    }
}

// How a run that lists times ended.
pub(crate) fn covered(ended: Result<RinexCounts, BridgeFault>) -> Result<Done, BridgeFault>
    ensures { MatchResult ended (λ counts. IsOkAnd result (λ done. done ≡ dones.Covered counts))
        (λ fault. result ≡ Err fault) }
{
    match ended {
        Ok(counts) => Ok(Done::Covered(counts)),
        Err(fault) => Err(fault),
    }
}

// How a run that generates a capture ended.
pub(crate) fn generated(ended: Result<SeedCounts, BridgeFault>) -> Result<Done, BridgeFault>
    ensures { MatchResult ended (λ counts. IsOkAnd result (λ done. done ≡ dones.Generated counts))
        (λ fault. result ≡ Err fault) }
{
    match ended {
        Ok(counts) => Ok(Done::Generated(counts)),
        Err(fault) => Err(fault),
    }
}

use crate::counts::CaptureCounts;

/// What a generated capture is converted to.
#[derive(Clone, Copy)]
pub enum SeedTo {
    /// The capture itself.
    Capture,
    /// The counts.
    Count,
}

/// What a run over a generated capture counts.
#[derive(Clone, Copy, PartialEq, Eq)]
pub enum SeedCounts {
    /// The capture was written.
    Written {
        /// The bytes of the capture.
        bytes: u64,
    },
    /// It was converted to these counts.
    Counted(CaptureCounts),
}

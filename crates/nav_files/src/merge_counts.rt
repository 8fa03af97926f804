//! What a merge counts.

use streams::Times;

/// What a run that merges navigation files counts.
#[derive(Clone, Copy, PartialEq, Eq)]
pub struct MergeCounts {
    /// The records.
    pub records: u64,
    /// The records that were rejected.
    pub refused: u64,
    /// The records of other kinds, which were skipped.
    pub passed: u64,
    /// The items that were read, repeats included.
    pub items: u64,
    /// The items that were written.
    pub kept: u64,
    /// The first and the last epoch of the items that were written.
    pub times: Option<Times>,
}

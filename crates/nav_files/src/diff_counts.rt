/// The records of a file that are not compared, or not always.
#[derive(Clone, Copy, PartialEq, Eq)]
pub struct ReadCounts {
    /// The records that were rejected.
    pub refused: u64,
    /// The records of other kinds, which were skipped.
    pub passed: u64,
    /// The ionosphere records.
    pub ionospheres: u64,
}

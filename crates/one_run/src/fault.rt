use thiserror::Error;

/// Why a run ended before it was done.
#[derive(Clone, Copy, PartialEq, Eq, Debug, Error)]
pub enum BridgeFault {
    /// The input failed: its count of errors rose in the run or is at its maximum.
    #[error("ReadFault")]
    ReadFault,
    /// The output failed: its count of errors rose in the run or is at its maximum.
    #[error("WriteFault")]
    WriteFault,
    /// The report failed: its count of errors rose in the run or is at its maximum.
    #[error("ReportFault")]
    ReportFault,
    /// The input does not begin as its format requires.
    #[error("NotThisForm")]
    NotThisForm,
    /// The input has at least as many bytes as the run's limit: 4,294,967,296 for the conversions
    /// of navbridge.
    #[error("TooLong")]
    TooLong,
    /// Memory could not be allocated.
    #[error("NoMemory")]
    NoMemory,
}

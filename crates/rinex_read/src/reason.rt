use thiserror::Error;

/// Why a record is rejected: the first of these that holds, in the order in which a record is
/// judged.
#[derive(Clone, Copy, PartialEq, Eq, Debug, Error)]
pub enum RecordFault {
    /// The title names no satellite of the system, or the second line names another one.
    #[error("satellite")]
    BadSat,
    /// The record has fewer lines than its kind.
    #[error("short")]
    Short,
    /// A number or a part of the date is not a number.
    #[error("number")]
    NotANumber,
    /// A column is blank that must not be.
    #[error("blank")]
    Blank,
    /// A number is out of the range of its field.
    #[error("range")]
    OutOfRange,
    /// The calendar has no such day, or the clock no such time.
    #[error("date")]
    NoSuchDate,
    /// The date is before 1980-01-06 or, of an ionosphere record, not in GPS weeks 1 to 16382.
    #[error("week")]
    Week,
    /// The fit interval is 2 or 3 hours, to which no flag corresponds.
    #[error("fit")]
    Fit,
    /// The second of the week of the clock's epoch is not a multiple of the step of toc (16 s for
    /// GPS, 60 s for Galileo).
    #[error("step")]
    EpochStep,
    /// The epoch is not within half a week of toe.
    #[error("far")]
    EpochFar,
}

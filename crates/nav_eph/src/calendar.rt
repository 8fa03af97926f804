use thiserror::Error;

/// A date of the proleptic Gregorian calendar, with a time of day.
#[derive(Clone, Copy, PartialEq, Eq, PartialOrd, Ord, Hash)]
pub struct Civil {
    /// The year, which may be 0.
    pub year: u16,
    /// The month, from 1.
    pub month: u8,
    /// The day of the month, from 1.
    pub day: u8,
    /// The hour of the day, 0 to 23.
    pub hour: u8,
    /// The minute of the hour, 0 to 59.
    pub minute: u8,
    /// The second of the minute, 0 to 59 (GPS time has no leap seconds).
    pub second: u8,
}

/// Why a date has no GPS time.
#[derive(Clone, Copy, PartialEq, Eq, Debug, Error)]
pub enum WeekFault {
    /// The calendar has no such day, or the clock no such time of day.
    #[error("no such date or time of day")]
    NoSuchDate,
    /// The day is before 1980-01-06.
    #[error("the date is before 1980-01-06")]
    BeforeEpoch,
    /// The day is in week 16384 or later: it is 2294-01-07 or after it.
    #[error("the date is after 2294-01-06")]
    TooFar,
}

//! Subframes and pages as they were received.

use crate::LogContent;
use nav_eph::Moment;

/// A subframe or a page of a log, or the reason why a message gives none.
#[derive(Clone, Copy, PartialEq, Eq)]
pub struct Reception {
    /// The number of its message in the log, from 1.
    pub number: u64,
    /// Its time of reception; `None` if that is not known.
    pub time: Option<Moment>,
    /// The subframe or the page.
    pub content: LogContent,
}

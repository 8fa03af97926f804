//! The week and the date of the clock.

use nav_eph::{Civil, Moment, RefWeek, civil};
use std::alloc::{AllocError, Global};
use std::rt::Clock;

// The seconds from 1970-01-01 to 1980-01-06, with which the weeks of GPS begin.
const FIRST_SECOND: u64 = 315_964_800;

/// The GPS time of the clock; the first one if it is before that, or cannot be read.
pub(crate) fn now(rt: &HostRuntime) -> Moment {
    let seconds = match rt.since_1970() {
        Ok(since) => since.as_secs().saturating_sub(FIRST_SECOND),
        Err(_) => 0,
    };
    match Moment::new(seconds) {
        Some(moment) => moment,
        None => Moment::from_seconds(0),
    }
}

/// The reference week nearest to a GPS time.
pub(crate) fn week_of(moment: Moment) -> Option<RefWeek> {
    RefWeek::new(moment.week().clamp(1024, 8191))
}

/// The date of a GPS time, as the header of a navigation file has it.
pub(crate) fn date_of(alloc: Global, moment: Moment) -> Result<String, AllocError> {
    let Civil {
        year,
        month,
        day,
        hour,
        minute,
        second,
    } = civil(moment);
    format!(in alloc; "{year:04}{month:02}{day:02} {hour:02}{minute:02}{second:02} UTC")
}

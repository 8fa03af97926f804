//! Epochs in week 2295.

use nav_eph::Moment;
use streams::Times;

// Times from one second of the week to another.
pub(crate) fn times_from(first: u32, last: u32) -> Option<Times> {
    let week = 2295 * 604_800;
    Some(Times {
        first: Moment::new(week + u64::from(first))?,
        last: Moment::new(week + u64::from(last))?,
    })
}

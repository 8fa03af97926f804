//! The times of ephemerides.

ghost use Rattle.std.specs.Prelude.{◌≡◌, Some, min, max};
ghost use Rattle.streams.specs.Times.{times_with, with_item, with_time};

use nav_eph::{Moment, NavItem};
use rinex_write::epoch_of;

/// The first and the last of the epochs of ephemerides, in GPS time.
#[derive(Clone, Copy, PartialEq, Eq)]
pub struct Times {
    /// The first epoch.
    pub first: Moment,
    /// The last epoch.
    pub last: Moment,
}

/// The times together with one more.
pub fn with_time(times: Option<Times>, epoch: Moment) -> Option<Times>
    ensures { result ≡ with_time times (Some epoch) }
{
    match times {
        None => Some(Times {
            first: epoch,
            last: epoch,
        }),
        Some(times) => Some(Times {
            first: earlier(times.first, epoch),
            last: later(times.last, epoch),
        }),
    }
}

/// The times together with the epoch of an item, if it is an ephemeris.
pub fn with_item(times: Option<Times>, item: &NavItem) -> Option<Times>
    ensures { result ≡ with_item times item.now }
{
    match epoch_of(item) {
        None => times,
        Some(epoch) => with_time(times, epoch),
    }
}

/// The times together with the epochs of items.
pub fn with_items(times: Option<Times>, items: &[NavItem]) -> Option<Times>
    ensures { result ≡ times_with times items.now }
{
    let mut all = times;
    'items: for item in items {
        all = with_item(all, item);
    }
    all
}

// The earlier of two times.
fn earlier(a: Moment, b: Moment) -> Moment
    ensures { result ≡ min a b }
{
    if b.value() < a.value() { b } else { a }
}

// The later of two times.
fn later(a: Moment, b: Moment) -> Moment
    ensures { result ≡ max a b }
{
    if a.value() < b.value() { b } else { a }
}

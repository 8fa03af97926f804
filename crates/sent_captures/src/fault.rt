//! Whether an ephemeris may be sent.

ghost use Rattle.std.specs.Prelude.{◌≡◌, ◌↔◌, None, Some, IsOk, IfErr};
ghost use Rattle.sent_captures.specs.Sendable.{IsEphemeris, has_other_issue, is_far, is_full};
ghost use Rattle.sent_captures.specs.Sendable.{send_fault};

use nav_eph::{NavItem, RefWeek, is_near_galileo, is_near_gps};
use thiserror::Error;

/// Why an ephemeris may not be sent: the first of these that holds, in this order.
#[derive(Clone, Copy, PartialEq, Eq, Debug, Error)]
pub enum SendFault {
    /// The clock and orbit of GPS are of different issues of data: the low eight bits of IODC
    /// differ from IODE (IS-GPS-200, 20.3.4.4).
    #[error("issue")]
    Issue,
    /// The transmitted week number would be resolved to another week than that of toe.
    #[error("week")]
    Week,
    /// No slot is left: the time tags of 198,842 slots fit in 32 bits.
    #[error("room")]
    Room,
}

// The number of slots whose stamps fit in 32 bits.
const SLOTS: u32 = 198_842;

// Whether IODC and IODE of a GPS ephemeris are of different issues.
fn has_two_issues(item: &NavItem) -> bool
    ensures { result ≡ has_other_issue item.now }
{
    match item {
        NavItem::Gps(e) => e.clock.iodc.value() % 256 != e.a.iode.value(),
        NavItem::Gal(_) => false,
        NavItem::Ion(_) => false,
    }
}

// Whether the transmitted week number does not resolve to the week of toe.
fn is_far_from(item: &NavItem, r: RefWeek) -> bool
    ensures { result ≡ is_far r item.now }
{
    match item {
        NavItem::Gps(e) => !is_near_gps(r, e.toe_week),
        NavItem::Gal(e) => !is_near_galileo(r, e.toe_week),
        NavItem::Ion(_) => false,
    }
}

// Whether the slot's stamps do not fit in 32 bits.
fn is_past_the_last(slot: u32) -> bool
    ensures { result ≡ is_full slot }
{
    slot >= SLOTS
}

/// Whether an ephemeris may be sent in a slot, counted from 0, to a receiver that resolves week
/// numbers near the week `r`.
///
/// # Errors
///
/// The first of these that holds, in this order:
///
/// - `Issue`: a GPS ephemeris if the low eight bits of IODC differ from IODE;
/// - `Week`: the week of toe is not one that the transmitted number resolves to near `r`: for GPS
///   the 1024 weeks from `r` - 512 on, for Galileo the 4096 weeks from `r` - 2048 or 1024 on,
///   whichever is later;
/// - `Room`: the slot is 198,842 or more.
pub fn can_send(item: &NavItem, r: RefWeek, slot: u32) -> Result<(), SendFault>
    requires ephemeris { IsEphemeris item.now }
    ensures ok { IsOk result ↔ (send_fault r item.now slot ≡ None) }
    ensures fault { IfErr result (λ fault. send_fault r item.now slot ≡ Some fault) }
{
    if has_two_issues(item) {
        return Err(SendFault::Issue);
    }
    if is_far_from(item, r) {
        return Err(SendFault::Week);
    }
    if is_past_the_last(slot) {
        return Err(SendFault::Room);
    }
    Ok(())
}

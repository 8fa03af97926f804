//! The ends of a key among parts.

ghost use Rattle.std.specs.Prelude.{◌≡◌, ◌<◌, None, nat_lt};
ghost use Rattle.periods.specs.Mirrors.{best_among, best_with, is_better};
ghost use Rattle.periods.specs.PeriodsOf.{quiet_at, quiet, end_below, end_before, stamp_of};

use crate::key::PeriodKey;
use crate::order::{is_part_of, stamp_in};
use nav_eph::Part;

// The part is not a part of the key in the window after the stamp `end`.
fn is_quiet_at(window: u32, key: &PeriodKey, end: u32, part: &Part) -> bool
    ensures { result ≡ quiet_at window key.now end part.now }
{
    !is_part_of(key, part)
        || (part.stamp <= end || end as u64 + (window as u64) < part.stamp as u64)
}

/// No part of the key has a time tag in the window after `end`.
pub fn is_quiet(parts: &[Part], window: u32, key: &PeriodKey, end: u32) -> bool
    ensures { result ≡ quiet parts.now window key.now end }
{
    parts.iter().all(|part| is_quiet_at(window, key, end, part))
}

// There is no stamp so far, or this one is later.
pub(crate) fn is_later(best: Option<u32>, stamp: u32) -> bool
    ensures { result ≡ is_better (λ a b. nat_lt b a) best stamp }
{
    match best {
        None => true,
        Some(b) => b < stamp,
    }
}

// The later of `best` and a further stamp that is an end of the key below `end`.
fn end_with(
    best: Option<u32>,
    stamp: Option<u32>,
    parts: &[Part],
    window: u32,
    key: &PeriodKey,
    end: u32,
) -> Option<u32>
    ensures { result
        ≡ best_with (end_below parts.now window key.now end) (λ a b. nat_lt b a) best stamp }
{
    match stamp {
        None => best,
        Some(s) => {
            if s < end && is_quiet(parts, window, key, s) && is_later(best, s) {
                Some(s)
            } else {
                best
            }
        }
    }
}

// The key's last end below `end`.
pub(crate) fn last_end_before(parts: &[Part], window: u32, key: &PeriodKey, end: u32) -> Option<u32>
    ensures { result ≡ end_before parts.now window key.now end }
{
    let mut best: Option<u32> = None;
    for part in parts {
        best = end_with(best, stamp_in(key, part), parts, window, key, end);
    }
    best
}

ghost use Rattle.std.specs.Prelude.{◌≡◌, None};
ghost use Rattle.periods.specs.Parts.{HealthOf, health_numbers};
ghost use Rattle.periods.specs.Readings.{reading};
ghost use Rattle.periods.specs.DigestsOf.{health_at};
ghost use Rattle.periods.specs.Mirrors.{behind_end, best_among, best_with, earlier};
ghost use Rattle.periods.specs.DigestsOf.{satellite_health};
ghost use Rattle.periods.specs.Mirrors.{is_better, later, up_to_end};

use crate::key::PeriodKey;
use crate::order::is_same_sat;
use nav_eph::{Body, GalHealth, Part, Sat, SentTag};

// The health of a satellite in a part, with its stamp and time tag.
fn read_health(part: &Part, sat: Sat) -> Option<(u32, GalHealth, SentTag)>
    ensures { result ≡ reading (HealthOf sat) part.now }
{
    match part.body {
        Body::GalHealth(health, tag) => {
            if is_same_sat(&part.sat, &sat) {
                Some((part.stamp, health, tag))
            } else {
                None
            }
        }
        _ => None,
    }
}

// One health is before another: by stamp, then by the number that its bits and those of its tag
// form.
fn is_earlier(one: &(u32, GalHealth, SentTag), other: &(u32, GalHealth, SentTag)) -> bool
    ensures { result ≡ earlier health_numbers one.now other.now }
{
    let number = one.1.number_with(&one.2);
    one.0 < other.0 || (one.0 == other.0 && number < other.1.number_with(&other.2))
}

// There is no best so far, or this health is later.
fn is_last(best: &Option<(u32, GalHealth, SentTag)>, health: &(u32, GalHealth, SentTag)) -> bool
    ensures { result ≡ is_better (later health_numbers) best.now health.now }
{
    match best {
        None => true,
        Some(b) => is_earlier(b, health),
    }
}

// There is no best so far, or this health is earlier.
fn is_first(best: &Option<(u32, GalHealth, SentTag)>, health: &(u32, GalHealth, SentTag)) -> bool
    ensures { result ≡ is_better (earlier health_numbers) best.now health.now }
{
    match best {
        None => true,
        Some(b) => is_earlier(health, b),
    }
}

// The later of `best` and a further health that lies within the window up to the end.
fn last_with(
    best: Option<(u32, GalHealth, SentTag)>,
    health: Option<(u32, GalHealth, SentTag)>,
    window: u32,
    end: u32,
) -> Option<(u32, GalHealth, SentTag)>
    ensures { result ≡ best_with (up_to_end window end) (later health_numbers) best health }
{
    match health {
        None => best,
        Some(h) => {
            let is_near = h.0 <= end && end as u64 <= h.0 as u64 + window as u64;
            if is_near && is_last(&best, &h) {
                Some(h)
            } else {
                best
            }
        }
    }
}

// The earlier of `best` and a further health that lies within the window after the end.
fn first_with(
    best: Option<(u32, GalHealth, SentTag)>,
    health: Option<(u32, GalHealth, SentTag)>,
    window: u32,
    end: u32,
) -> Option<(u32, GalHealth, SentTag)>
    ensures { result ≡ best_with (behind_end window end) (earlier health_numbers) best health }
{
    match health {
        None => best,
        Some(h) => {
            let is_near = end < h.0 && h.0 as u64 <= end as u64 + window as u64;
            if is_near && is_first(&best, &h) {
                Some(h)
            } else {
                best
            }
        }
    }
}

// The satellite's last health in the window up to the end.
fn last_up_to(parts: &[Part], window: u32, sat: Sat, end: u32) -> Option<(u32, GalHealth, SentTag)>
    ensures { result
        ≡ best_among (reading (HealthOf sat)) (up_to_end window end)
        (later health_numbers) parts.now None }
{
    let mut best: Option<(u32, GalHealth, SentTag)> = None;
    for part in parts {
        best = last_with(best, read_health(part, sat), window, end);
    }
    best
}

// The satellite's first health in the window after the end.
pub(crate) fn first_behind(
    parts: &[Part],
    window: u32,
    sat: Sat,
    end: u32,
) -> Option<(u32, GalHealth, SentTag)>
    ensures { result ≡ best_among (reading (HealthOf sat)) (behind_end window end)
        (earlier health_numbers) parts.now None }
{
    let mut best: Option<(u32, GalHealth, SentTag)> = None;
    for part in parts {
        best = first_with(best, read_health(part, sat), window, end);
    }
    best
}

// The satellite's last health up to the end or, where there is none, the first one after it.
fn sat_health(parts: &[Part], window: u32, sat: Sat, end: u32) -> Option<(u32, GalHealth, SentTag)>
    ensures { result ≡ satellite_health window parts.now sat end }
{
    match last_up_to(parts, window, sat, end) {
        Some(health) => Some(health),
        None => first_behind(parts, window, sat, end),
    }
}

// The health that a period of the key with that end takes: its satellite's, for a Galileo
// ephemeris, with stamp and time tag; `None` for any other key.
pub(crate) fn health_near(
    parts: &[Part],
    window: u32,
    key: PeriodKey,
    end: u32,
) -> Option<(u32, GalHealth, SentTag)>
    ensures { result ≡ health_at window parts.now key end }
{
    match key {
        PeriodKey::Gal(sat, _) => sat_health(parts, window, sat, end),
        _ => None,
    }
}

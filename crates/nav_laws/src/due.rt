//! The first period that is due among stored parts.

ghost use Rattle.std.specs.Prelude.{◌≡◌, ◌<◌, None};
ghost use Rattle.periods.specs.Mirrors.{best_among, best_with, is_better};
ghost use Rattle.periods.specs.PeriodsOf.{place_at, is_before};
ghost use Rattle.nav_laws.specs.Plain.{is_after, due};

use nav_eph::Part;
use periods::{PeriodId, comes_before, is_quiet, place_of_part};

// Whether the place comes after the last one given.
fn is_behind(last: &Option<PeriodId>, place: &PeriodId) -> bool
    ensures { result ≡ is_after last.now place.now }
{
    match last {
        None => true,
        Some(given) => comes_before(given, place),
    }
}

// Whether no place was found yet, or this one comes before it.
fn is_sooner(best: &Option<PeriodId>, place: &PeriodId) -> bool
    ensures { result ≡ is_better is_before best.now place.now }
{
    match best {
        None => true,
        Some(b) => comes_before(place, b),
    }
}

// Whether the place is that of a period that is closed at the watermark and was not given.
fn is_due(
    parts: &[Part],
    window: u32,
    watermark: u64,
    last: &Option<PeriodId>,
    place: &PeriodId,
) -> bool
    ensures { result ≡ due parts.now window watermark last.now place.now }
{
    place.end as u64 + (window as u64) < watermark
        && (is_behind(last, place) && is_quiet(parts, window, &place.key, place.end))
}

// The first due place so far, after one more place was looked at.
fn place_with(
    best: Option<PeriodId>,
    place: Option<PeriodId>,
    parts: &[Part],
    window: u32,
    watermark: u64,
    last: &Option<PeriodId>,
) -> Option<PeriodId>
    ensures { result ≡ best_with (due parts.now window watermark last.now) is_before best place }
{
    match place {
        None => best,
        Some(q) => {
            if is_sooner(&best, &q) && is_due(parts, window, watermark, last, &q) {
                Some(q)
            } else {
                best
            }
        }
    }
}

// The first place that is due.
pub(crate) fn first_due(
    parts: &[Part],
    window: u32,
    watermark: u64,
    last: &Option<PeriodId>,
) -> Option<PeriodId>
    ensures { result
        ≡ best_among place_at (due parts.now window watermark last.now) is_before parts.now None }
{
    let mut best: Option<PeriodId> = None;
    for part in parts {
        best = place_with(best, place_of_part(part), parts, window, watermark, last);
    }
    best
}

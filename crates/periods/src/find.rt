//! The finding and the verdict of a period among stored parts.

ghost use Rattle.std.specs.Prelude.{◌≡◌, None, if◌then◌else◌, nat_lt};
ghost use Rattle.periods.specs.DigestsOf.{digest_of, is_complete, item_of};
ghost use Rattle.periods.specs.Mirrors.{best_with};
ghost use Rattle.periods.specs.DigestsOf.{verdict_of};
ghost use Rattle.periods.specs.PeriodsOf.{complete_before, complete_below, finding_at};
ghost use Rattle.periods.specs.PeriodsOf.{is_above, is_member, item_before, join_some};
ghost use Rattle.periods.specs.PeriodsOf.{last_item, members_digest, verdict_at};

use crate::closed::{Finding, Verdict};
use crate::digest::Digest;
use crate::health::health_near;
use crate::key::{PeriodId, PeriodKey};
use crate::order::{is_part_of, stamp_in};
use crate::search::{is_later, is_quiet, last_end_before};
use nav_eph::{NavItem, Part, RefWeek};

// The stamp is after the key's previous end, if there is one.
fn is_behind_end(before: Option<u32>, stamp: u32) -> bool
    ensures { result ≡ is_above before stamp }
{
    match before {
        None => true,
        Some(end) => end < stamp,
    }
}

// The part is of the key, after its previous end and up to its end.
fn belongs(key: &PeriodKey, end: u32, before: Option<u32>, part: &Part) -> bool
    ensures { result ≡ is_member key.now end before part.now }
{
    is_part_of(key, part) && (is_behind_end(before, part.stamp) && part.stamp <= end)
}

// The union of two digests.
fn joined(all: Option<Digest>, one: Option<Digest>) -> Option<Digest>
    ensures { result ≡ join_some all one }
{
    match (all, one) {
        (all, None) => all,
        (None, Some(d)) => Some(d),
        (Some(x), Some(y)) => Some(x.join(y)),
    }
}

// The digest so far, with that of the part where it is a member.
fn joined_with(
    all: Option<Digest>,
    part: &Part,
    key: &PeriodKey,
    end: u32,
    before: Option<u32>,
) -> Option<Digest>
    ensures { result ≡ (if is_member key.now end before part.now
        then join_some all (digest_of part.now) else all) }
{
    if belongs(key, end, before, part) {
        joined(all, Digest::of(part))
    } else {
        all
    }
}

// The digest of the members of the period.
fn digest_members(parts: &[Part], key: &PeriodKey, end: u32, before: Option<u32>) -> Option<Digest>
    ensures { result ≡ members_digest key.now end before parts.now None }
{
    let mut all: Option<Digest> = None;
    for part in parts {
        all = joined_with(all, part, key, end, before);
    }
    all
}

/// What the period at a place comes to by itself; week numbers are resolved near the reference week
/// `r`.
pub fn finding_on(parts: &[Part], r: RefWeek, window: u32, place: &PeriodId) -> Finding
    ensures { result ≡ finding_at r window parts.now place.now }
{
    let before = last_end_before(parts, window, &place.key, place.end);
    match digest_members(parts, &place.key, place.end, before) {
        None => Finding::Misses,
        Some(digest) => digest.finding(
            r,
            place.key,
            health_near(parts, window, place.key, place.end),
        ),
    }
}

/// The verdict on a finding; `before` is the item of the last complete period of the same key,
/// `None` for an ionosphere.
pub fn judge(before: Option<NavItem>, finding: Finding) -> Verdict
    ensures { result ≡ verdict_of before finding }
{
    match finding {
        Finding::Differs => Verdict::Contradicted,
        Finding::Misses => Verdict::Partial,
        Finding::LacksHealth => Verdict::NoHealth,
        Finding::Complete(item) => match before {
            None => Verdict::Whole(item),
            Some(known) => {
                if known.is_alike(&item) {
                    Verdict::Again
                } else {
                    Verdict::Whole(item)
                }
            }
        },
    }
}

// The period is complete and its parts agree.
fn is_whole(finding: &Finding) -> bool
    ensures { result ≡ is_complete finding.now }
{
    match finding {
        Finding::Differs => false,
        Finding::Misses => false,
        Finding::LacksHealth => false,
        Finding::Complete(_) => true,
    }
}

// The item of a complete period.
fn item_found(finding: Finding) -> Option<NavItem>
    ensures { result ≡ item_of finding }
{
    match finding {
        Finding::Differs => None,
        Finding::Misses => None,
        Finding::LacksHealth => None,
        Finding::Complete(item) => Some(item),
    }
}

// The stamp is below `end` and ends a complete period of the key.
fn is_complete_below(
    parts: &[Part],
    r: RefWeek,
    window: u32,
    key: &PeriodKey,
    end: u32,
    stamp: u32,
) -> bool
    ensures { result ≡ complete_below r window parts.now key.now end stamp }
{
    let place = PeriodId {
        end: stamp,
        key: *key,
    };
    (stamp < end && is_quiet(parts, window, key, stamp))
        && is_whole(&finding_on(parts, r, window, &place))
}

// The later of `best` and a further stamp that ends a complete period of the key below `end`.
fn complete_with(
    best: Option<u32>,
    stamp: Option<u32>,
    parts: &[Part],
    r: RefWeek,
    window: u32,
    key: &PeriodKey,
    end: u32,
) -> Option<u32>
    ensures { result
        ≡ best_with (complete_below r window parts.now key.now end)
        (λ a b. nat_lt b a) best stamp }
{
    match stamp {
        None => best,
        Some(s) => {
            if is_later(best, s) && is_complete_below(parts, r, window, key, end, s) {
                Some(s)
            } else {
                best
            }
        }
    }
}

// The end of the key's last complete period below `end`.
fn last_complete(parts: &[Part], r: RefWeek, window: u32, key: &PeriodKey, end: u32) -> Option<u32>
    ensures { result ≡ complete_before r window parts.now key.now end }
{
    let mut best: Option<u32> = None;
    for part in parts {
        best = complete_with(best, stamp_in(key, part), parts, r, window, key, end);
    }
    best
}

// The item of the key's last complete period below `end`.
fn last_known(parts: &[Part], r: RefWeek, window: u32, key: &PeriodKey, end: u32) -> Option<NavItem>
    ensures { result ≡ last_item r window parts.now key.now end }
{
    match last_complete(parts, r, window, key, end) {
        None => None,
        Some(stamp) => {
            let place = PeriodId {
                end: stamp,
                key: *key,
            };
            item_found(finding_on(parts, r, window, &place))
        }
    }
}

// The earlier item that the period's item is compared with; `None` for an ionosphere.
fn known_before(parts: &[Part], r: RefWeek, window: u32, place: &PeriodId) -> Option<NavItem>
    ensures { result ≡ item_before r window parts.now place.now.key place.now.end }
{
    match place.key {
        PeriodKey::Gps(_, _) => last_known(parts, r, window, &place.key, place.end),
        PeriodKey::Gal(_, _) => last_known(parts, r, window, &place.key, place.end),
        PeriodKey::GpsIon(_) => None,
        PeriodKey::GalIon(_) => None,
    }
}

/// The verdict on the period at a place; week numbers are resolved near the reference week `r`.
pub fn verdict_on(parts: &[Part], r: RefWeek, window: u32, place: &PeriodId) -> Verdict
    ensures { result ≡ verdict_at r window parts.now place.now }
{
    let finding = finding_on(parts, r, window, place);
    judge(known_before(parts, r, window, place), finding)
}

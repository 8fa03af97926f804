//! Ephemerides of GPS subframes 1 to 3 and of Galileo words 1 to 5, dated as the issues of a
//! capture are.

ghost use Rattle.std.specs.Prelude.{◌≡◌, ◌↔◌, ◌%◌, ◌<◌, ◌^◌, IsTrue, IfNone, IfSome, IsSome};
ghost use Rattle.nav_eph.specs.Weeks.{IsReference, IsSecond};
ghost use Rattle.nav_eph.specs.Satellite.{IsSat};
ghost use Rattle.nav_eph.specs.declared.sat.System.TheVariants.{Gal, Gps};
ghost use Rattle.nav_eph.specs.declared.items.NavItem.TheVariants.{Gal as GalItem, Gps as GpsItem};
ghost use Rattle.periods.specs.declared.closed.Finding.TheVariants.{Complete};
ghost use Rattle.raw_values.specs.Items.{raw_item};
ghost use Rattle.c_calls.specs.Joins.{AreOfIssue, AreWords, gal_dated, gal_joined, gal_tag};
ghost use Rattle.c_calls.specs.Joins.{gal_undated, gps_dated, gps_joined, gps_tag, gps_undated};

use crate::page_raw::WordsRaw;
use crate::subframe_raw::SubframesRaw;
use nav_bits::U;
use nav_eph::{GalEph, GpsEph, NavItem, RefWeek, Second, SentTag, System};
use periods::{Digest, Finding, GalDigest, GpsDigest, PeriodKey, Seen};
use raw_values::reasons::{NO_ITEM, NO_SATELLITE, NO_WEEK};
use raw_values::{GalRaw, GpsRaw, ItemRaw, SentRaw, gal_of, gps_of, put_item, sat_of};

// A transmission time that is not known.
const UNKNOWN: SentRaw = SentRaw {
    is_known: 0,
    second: 0,
};

// The ephemeris of a satellite whose parts these are, of any week.
fn gps_undated(satellite: u32, raw: &SubframesRaw) -> GpsRaw
    ensures { result ≡ gps_undated satellite raw.now }
{
    GpsRaw {
        satellite,
        toe_week: 1,
        sent: UNKNOWN,
        clock: raw.one.clock,
        side: raw.one.side,
        a: raw.two.a,
        b: raw.three.b,
        fit: raw.two.fit,
    }
}

// The same of words.
fn gal_undated(satellite: u32, raw: &WordsRaw) -> GalRaw
    ensures { result ≡ gal_undated satellite raw.now }
{
    GalRaw {
        satellite,
        toe_week: 1,
        sent: UNKNOWN,
        w1: raw.one.w1,
        w2: raw.two.w2,
        w3: raw.three.w3,
        w4: raw.four.w4,
        health: raw.five.health,
    }
}

// An ephemeris with the week of its toe and its transmission time.
fn gps_dated(reference: RefWeek, tag: SentTag, e: &GpsEph) -> Finding
    ensures { result ≡ Complete (GpsItem (gps_dated reference tag e.now)) }
{
    let digest = Digest::Gps(GpsDigest {
        clock: Seen::One(e.clock),
        a: Seen::One(e.a),
        b: Seen::One(e.b),
        side: Some((0, e.side)),
        fit: Some((0, e.fit)),
        sent: Some((0, tag)),
        toe: None,
    });
    digest.finding(reference, PeriodKey::Gps(e.sat, e.a.iode), None)
}

// The same of Galileo.
fn gal_dated(reference: RefWeek, tag: SentTag, e: &GalEph) -> Finding
    ensures { result ≡ Complete (GalItem (gal_dated reference tag e.now)) }
{
    let digest = Digest::Gal(GalDigest {
        w1: Seen::One(e.w1),
        w2: Seen::One(e.w2),
        w3: Seen::One(e.w3),
        w4: Seen::One(e.w4),
    });
    digest.finding(
        reference,
        PeriodKey::Gal(e.sat, e.w1.iodnav),
        Some((0, e.health, tag)),
    )
}

// Subframe 1 to 3, of one issue.
fn are_subframes(raw: &SubframesRaw) -> bool
    ensures { IsTrue result ↔ ((raw.now.one.number ≡ 1) × (raw.now.two.number ≡ 2)
        × (raw.now.three.number ≡ 3) × (raw.now.one.clock.iodc % 256 ≡ raw.now.two.a.iode)) }
{
    if raw.one.number != 1 || raw.two.number != 2 || raw.three.number != 3 {
        return false;
    }
    raw.one.clock.iodc % 256 == raw.two.a.iode
}

// Words 1 to 5.
fn are_words(raw: &WordsRaw) -> bool
    ensures { IsTrue result ↔ ((raw.now.one.number ≡ 1) × (raw.now.two.number ≡ 2)
        × (raw.now.three.number ≡ 3) × (raw.now.four.number ≡ 4) × (raw.now.five.number ≡ 5)) }
{
    if raw.one.number != 1 || raw.two.number != 2 || raw.three.number != 3 {
        return false;
    }
    raw.four.number == 4 && raw.five.number == 5
}

// The time at which subframe 1 was sent.
fn gps_tag(raw: &SubframesRaw) -> Option<SentTag>
    ensures exactly { IsSome result ↔ ((raw.now.one.wn < 2 ^ 10) × IsSecond raw.now.one.second) }
    ensures same { IfSome result (λ tag. tag ≡ gps_tag raw.now) }
{
    let wn = U::<10>::new(u64::from(raw.one.wn))?;
    let second = Second::new(raw.one.second)?;
    Some(SentTag::Sent {
        wn: U::from_bits(wn.value()),
        second,
    })
}

// The time at which word 5 was sent.
fn gal_tag(raw: &WordsRaw) -> Option<SentTag>
    ensures exactly { IsSome result ↔ ((raw.now.five.wn < 2 ^ 12) × IsSecond raw.now.five.second) }
    ensures same { IfSome result (λ tag. tag ≡ gal_tag raw.now) }
{
    let wn = U::<12>::new(u64::from(raw.five.wn))?;
    let second = Second::new(raw.five.second)?;
    Some(SentTag::Sent { wn, second })
}

// The ephemeris of subframes 1 to 3.
fn gps_joined(reference: RefWeek, satellite: u32, raw: &SubframesRaw) -> Option<NavItem>
    ensures exactly { IsSome result ↔ AreOfIssue satellite raw.now }
    ensures same { IfSome result (λ item. item ≡ GpsItem (gps_joined reference satellite raw.now)) }
{
    if !are_subframes(raw) {
        return None;
    }
    let tag = gps_tag(raw)?;
    let undated = gps_of(&gps_undated(satellite, raw))?;
    match gps_dated(reference, tag, &undated) {
        Finding::Complete(item) => Some(item),
        _ => None,
    }
}

// The ephemeris of words 1 to 5.
fn gal_joined(reference: RefWeek, satellite: u32, raw: &WordsRaw) -> Option<NavItem>
    ensures exactly { IsSome result ↔ AreWords satellite raw.now }
    ensures same { IfSome result (λ item. item ≡ GalItem (gal_joined reference satellite raw.now)) }
{
    if !are_words(raw) {
        return None;
    }
    let tag = gal_tag(raw)?;
    let undated = gal_of(&gal_undated(satellite, raw))?;
    match gal_dated(reference, tag, &undated) {
        Finding::Complete(item) => Some(item),
        _ => None,
    }
}

/// Puts the ephemeris of subframes 1, 2 and 3 of a GPS satellite, of one issue. Week and
/// transmission time are those of subframe 1, near a reference week, 1024 to 8191; the week of toe
/// is that in which toe is nearest to it.
///
/// 0; or 22 if there is no such week, 62 if there is no such satellite, 23 if these are not
/// subframes 1 to 3 of one issue with each field in its range, and then nothing is put.
pub fn join_subframes(raw: &SubframesRaw, satellite: u32, week: u32, into: &mut ItemRaw) -> u32
    ensures joined { IsReference week → IsSat Gps satellite → AreOfIssue satellite raw.now →
        (result ≡ 0)
        × (into.new ≡ raw_item (GpsItem (gps_joined week satellite raw.now)) into.old) }
    ensures none { IsReference week → IsSat Gps satellite → (AreOfIssue satellite raw.now → ⊥) →
        (result ≡ 23) × (into.new ≡ into.old) }
    ensures satellite { IsReference week → (IsSat Gps satellite → ⊥) →
        (result ≡ 62) × (into.new ≡ into.old) }
    ensures week { (IsReference week → ⊥) → (result ≡ 22) × (into.new ≡ into.old) }
{
    let Some(reference) = RefWeek::new(week) else {
        return NO_WEEK;
    };
    let Some(_sat) = sat_of(System::Gps, satellite) else {
        return NO_SATELLITE;
    };
    put_joined(gps_joined(reference, satellite, raw), into)
}

/// Puts the ephemeris of words 1 to 5 of a Galileo satellite, of which 1 to 4 are of one issue.
/// Week and transmission time are those of word 5, near a reference week, 1024 to 8191; the week of
/// toe is that in which toe is nearest to it.
///
/// 0; or 22, 62 and 23 as [`join_subframes`].
pub fn join_words(raw: &WordsRaw, satellite: u32, week: u32, into: &mut ItemRaw) -> u32
    ensures joined { IsReference week → IsSat Gal satellite → AreWords satellite raw.now →
        (result ≡ 0)
        × (into.new ≡ raw_item (GalItem (gal_joined week satellite raw.now)) into.old) }
    ensures none { IsReference week → IsSat Gal satellite → (AreWords satellite raw.now → ⊥) →
        (result ≡ 23) × (into.new ≡ into.old) }
    ensures satellite { IsReference week → (IsSat Gal satellite → ⊥) →
        (result ≡ 62) × (into.new ≡ into.old) }
    ensures week { (IsReference week → ⊥) → (result ≡ 22) × (into.new ≡ into.old) }
{
    let Some(reference) = RefWeek::new(week) else {
        return NO_WEEK;
    };
    let Some(_sat) = sat_of(System::Gal, satellite) else {
        return NO_SATELLITE;
    };
    put_joined(gal_joined(reference, satellite, raw), into)
}

// Puts an item, where there is one.
fn put_joined(joined: Option<NavItem>, into: &mut ItemRaw) -> u32
    ensures some { IfSome joined (λ item. (result ≡ 0) × (into.new ≡ raw_item item into.old)) }
    ensures none { IfNone joined ((result ≡ 23) × (into.new ≡ into.old)) }
{
    match joined {
        Some(item) => {
            put_item(&item, into);
            0
        }
        None => NO_ITEM,
    }
}

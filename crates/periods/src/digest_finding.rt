ghost use Rattle.std.specs.Prelude.{◌≡◌, ◌+◌, ◌*◌, ◌≤◌, ℕ, Option};
ghost use Rattle.std.specs.Prelude.{pos, ◌-ℤ◌, None, Some, true};
ghost use Rattle.nav_eph.specs.Functions.{galileo_week_to};
ghost use Rattle.nav_eph.specs.Weeks.{week_of};
ghost use Rattle.periods.specs.Items.{gps_ion_moment, gps_moment, sent_second, tag_second};
ghost use Rattle.periods.specs.Items.{toe_week_of};
ghost use Rattle.periods.specs.DigestsOf.{digest_finding, gal_finding, gal_item, gps_finding};
ghost use Rattle.periods.specs.DigestsOf.{gps_item};
ghost use Rattle.periods.specs.Mirrors.{gal_lacks, gps_lacks, or_else, seen_differs};
ghost use Rattle.periods.specs.Mirrors.{seen_nothing, seen_only};
ghost use Rattle.periods.specs.declared.key.PeriodKey.{PeriodKey};
ghost use Rattle.periods.specs.declared.closed.Finding.TheVariants.{Misses};
ghost use Rattle.nav_eph.specs.declared.galileo.GalHealth.{GalHealth};
ghost use Rattle.nav_eph.specs.declared.tag.SentTag.{SentTag};
ghost use Rattle.periods.specs.declared.digest.Digest.TheVariants.{Ion as IonForm};
ghost use Rattle.periods.specs.declared.key.PeriodKey.TheVariants.{GpsIon as OfGpsIon};
ghost use Rattle.periods.specs.declared.key.PeriodKey.TheVariants.{GalIon as OfGalIon};
ghost use Rattle.nav_eph.specs.Conditions.{wn_of};

use crate::closed::Finding;
use crate::digest::{Digest, GalDigest, GpsDigest, Seen};
use crate::key::{PeriodKey, Transmission};
use nav_bits::U;
use nav_eph::{
    GalEph, GalHealth, GalIon, GalWord1, GalWord2, GalWord3, GalWord4, GpsClock, GpsEph, GpsIon,
    GpsOrbitA, GpsOrbitB, GpsSide, IonContent, IonEph, Moment, NavItem, RefWeek, Sat, Second,
    SentSecond, SentTag, Week, gal_week, gps_week, nearest_moment,
};

// Seconds in a week.
const WEEK: u64 = 604_800;

// The week number of a tag.
fn tag_wn(tag: &SentTag) -> U<12>
    ensures { result ≡ wn_of tag.now }
{
    match tag {
        SentTag::Sent { wn, second: _ } => *wn,
        SentTag::Toe { wn, second: _ } => *wn,
    }
}

// The second of the week of a tag.
fn second_of_tag(tag: &SentTag) -> Second
    ensures { result ≡ tag_second tag.now }
{
    match tag {
        SentTag::Sent { wn: _, second } => *second,
        SentTag::Toe { wn: _, second } => *second,
    }
}

// The GPS time of a GPS tag; its 10-bit week number is resolved near the reference week `r`.
fn gps_moment_near(r: RefWeek, tag: &SentTag) -> Moment
    ensures same { result ≡ gps_moment r tag.now }
    ensures low { 2 ≤ week_of result }
    ensures high { week_of result ≤ 16381 }
{
    let week = gps_week(r, U::from_bits(tag_wn(tag).value() % 1_024));
    let second = second_of_tag(tag);
    Moment::from_seconds(WEEK * week.value() as u64 + second.value() as u64)
}

// The GPS time of a second of the Galileo week `wn` (12 bits), resolved near the reference week
// `r`.
fn gal_moment_at(r: RefWeek, wn: U<12>, second: Second) -> Moment
    ensures same { result ≡ 604800 * galileo_week_to r wn + second }
    ensures low { 2 ≤ week_of result }
    ensures high { week_of result ≤ 16381 }
{
    let week = gal_week(r, wn);
    Moment::from_seconds(WEEK * week.value() as u64 + second.value() as u64)
}

// Seconds from the start of the week of toe; negative before it.
fn seconds_from(week: Week, moment: Moment) -> i32
    requires near { 604800 * week ≤ moment + 302400 }
    requires close { moment ≤ 604800 * week + 907199 }
    ensures { result ≡ (pos moment -ℤ pos (604800 * week)) }
{
    (moment.value() as i64 - (WEEK * week.value() as u64) as i64) as i32
}

// The week of toe nearest to the tag's time, and the transmission time counted from its start.
fn toe_and_sent(tag: SentTag, moment: Moment, toe_second: Second) -> (Week, SentSecond)
    requires low { 2 ≤ week_of moment }
    requires high { week_of moment ≤ 16381 }
    ensures week { result.0 ≡ toe_week_of moment toe_second }
    ensures sent { result.1 ≡ sent_second tag moment result.0 }
{
    let week = Week::from_number(nearest_moment(moment, toe_second).week());
    let seconds = seconds_from(week, moment);
    match tag {
        SentTag::Sent { wn: _, second: _ } => (week, SentSecond::At(seconds)),
        SentTag::Toe { wn: _, second: _ } => (week, SentSecond::Unknown),
    }
}

// toe of GPS in seconds of the week; the scale factor is 2^4.
fn gps_toe(a: &GpsOrbitA) -> Second
    ensures { result ≡ 16 * a.now.toe }
{
    Second::from_number(16 * a.toe.value() as u32)
}

// toe of Galileo in seconds of the week; the scale factor is 60.
fn gal_toe(word: &GalWord1) -> Second
    ensures { result ≡ 60 * word.now.toe }
{
    Second::from_number(60 * word.toe.value() as u32)
}

impl<T: Copy> Seen<T> {
    // Two contents differ.
    fn differs(&self) -> bool
        ensures { result ≡ seen_differs self.now }
    {
        match self {
            Seen::Nothing => false,
            Seen::One(_) => false,
            Seen::Different => true,
        }
    }

    // There is none.
    fn is_nothing(&self) -> bool
        ensures { result ≡ seen_nothing self.now }
    {
        match self {
            Seen::Nothing => true,
            Seen::One(_) => false,
            Seen::Different => false,
        }
    }

    // The content, where there is exactly one.
    fn only(&self) -> Option<T>
        ensures { result ≡ seen_only self.now }
    {
        match self {
            Seen::Nothing => None,
            Seen::One(x) => Some(*x),
            Seen::Different => None,
        }
    }
}

// The first option that is not `None`.
fn either(one: Option<(u32, SentTag)>, other: Option<(u32, SentTag)>) -> Option<(u32, SentTag)>
    ensures { result ≡ or_else one other }
{
    match one {
        Some(x) => Some(x),
        None => other,
    }
}

// The finding of a GPS period with all its parts.
fn complete_gps(
    r: RefWeek,
    sat: Sat,
    clock: GpsClock,
    a: GpsOrbitA,
    b: GpsOrbitB,
    side: (u32, GpsSide),
    fit: (u32, U<1>),
    tag: (u32, SentTag),
) -> Finding
    ensures { result
        ≡ gps_item r sat (Some clock) (Some a) (Some b) (Some side) (Some fit) (Some tag) }
{
    let (toe_week, sent) = toe_and_sent(tag.1, gps_moment_near(r, &tag.1), gps_toe(&a));
    Finding::Complete(NavItem::Gps(GpsEph {
        sat,
        clock,
        side: side.1,
        a,
        fit: fit.1,
        b,
        toe_week,
        sent,
    }))
}

// The finding of a Galileo period with all its parts and health.
fn complete_gal(
    r: RefWeek,
    sat: Sat,
    w1: GalWord1,
    w2: GalWord2,
    w3: GalWord3,
    w4: GalWord4,
    health: (u32, GalHealth, SentTag),
) -> Finding
    ensures { result ≡ gal_item r sat (Some w1) (Some w2) (Some w3) (Some w4) (Some health) }
{
    let moment = gal_moment_at(r, tag_wn(&health.2), second_of_tag(&health.2));
    let (toe_week, sent) = toe_and_sent(health.2, moment, gal_toe(&w1));
    Finding::Complete(NavItem::Gal(GalEph {
        sat,
        w1,
        w2,
        w3,
        w4,
        health: health.1,
        toe_week,
        sent,
    }))
}

// The finding of a GPS digest.
fn find_gps(r: RefWeek, sat: Sat, d: GpsDigest) -> Finding
    ensures { result ≡ gps_finding r sat d }
{
    if d.clock.differs() || (d.a.differs() || d.b.differs()) {
        return Finding::Differs;
    }
    let tag = either(d.sent, d.toe);
    match (d.clock.only(), d.a.only(), d.b.only(), d.side, d.fit, tag) {
        (Some(clock), Some(a), Some(b), Some(side), Some(fit), Some(tag)) => {
            complete_gps(r, sat, clock, a, b, side, fit, tag)
        }
        _ => Finding::Misses,
    }
}

// The finding of a Galileo digest and the health near the end.
fn find_gal(
    r: RefWeek,
    sat: Sat,
    d: GalDigest,
    health: Option<(u32, GalHealth, SentTag)>,
) -> Finding
    ensures { result ≡ gal_finding r sat d health }
{
    if d.w1.differs() || (d.w2.differs() || (d.w3.differs() || d.w4.differs())) {
        return Finding::Differs;
    }
    match (d.w1.only(), d.w2.only(), d.w3.only(), d.w4.only(), health) {
        (Some(w1), Some(w2), Some(w3), Some(w4), Some(h)) => {
            complete_gal(r, sat, w1, w2, w3, w4, h)
        }
        (Some(_), Some(_), Some(_), Some(_), None) => Finding::LacksHealth,
        _ => Finding::Misses,
    }
}

// A kind of part of a GPS ephemeris is missing, and none differs.
fn lacks_gps(d: &GpsDigest) -> bool
    ensures { result ≡ gps_lacks d.now }
{
    if d.clock.differs() || (d.a.differs() || d.b.differs()) {
        return false;
    }
    d.clock.is_nothing() || (d.a.is_nothing() || d.b.is_nothing())
}

// A word of a Galileo ephemeris is missing, and none differs.
fn lacks_gal(d: &GalDigest) -> bool
    ensures { result ≡ gal_lacks d.now }
{
    if d.w1.differs() || (d.w2.differs() || (d.w3.differs() || d.w4.differs())) {
        return false;
    }
    d.w1.is_nothing() || (d.w2.is_nothing() || (d.w3.is_nothing() || d.w4.is_nothing()))
}

// The GPS time at which GPS sent an ionosphere: the one nearest to the stamp, taken as seconds from
// the start of the reference week `r`.
fn gps_ion_moment_near(r: RefWeek, transmission: &Transmission) -> Moment
    ensures { result ≡ gps_ion_moment r transmission.now }
{
    let near = Moment::from_seconds(WEEK * r.value() as u64 + transmission.stamp as u64);
    nearest_moment(near, transmission.second)
}

// The ionosphere of GPS, with its earliest transmission.
fn gps_ionosphere(r: RefWeek, transmission: Transmission, content: GpsIon) -> Finding
    ensures { result ≡ digest_finding r (OfGpsIon content) (IonForm transmission) None }
{
    Finding::Complete(NavItem::Ion(IonEph {
        sat: transmission.sat,
        moment: gps_ion_moment_near(r, &transmission),
        content: IonContent::Gps(content),
    }))
}

// The ionosphere of Galileo, with its earliest transmission.
fn gal_ionosphere(r: RefWeek, transmission: Transmission, content: GalIon) -> Finding
    ensures { result ≡ digest_finding r (OfGalIon content) (IonForm transmission) None }
{
    Finding::Complete(NavItem::Ion(IonEph {
        sat: transmission.sat,
        moment: gal_moment_at(r, transmission.wn, transmission.second),
        content: IonContent::Gal(content),
    }))
}

impl Digest {
    /// A kind of part is missing and none differs: the finding is `Misses`, whatever the health. It
    /// costs less than the finding itself.
    pub fn lacks_parts(&self) -> bool
        ensures { result ≡ true
            → (r : ℕ) (key : PeriodKey) (health : Option (ℕ × GalHealth × SentTag))
            → digest_finding r key self.now health ≡ Misses }
    {
        match self {
            Digest::Gps(d) => lacks_gps(d),
            Digest::Gal(d) => lacks_gal(d),
            Digest::Ion(_) => false,
        }
    }

    /// The finding of a period from the digest of its members and the health near its end; week
    /// numbers are resolved near the reference week `r`. `Misses` if the key is of another kind
    /// than the digest.
    pub fn finding(
        self,
        r: RefWeek,
        key: PeriodKey,
        health: Option<(u32, GalHealth, SentTag)>,
    ) -> Finding
        ensures { result ≡ digest_finding r key self health }
    {
        match self {
            Digest::Gps(d) => match key {
                PeriodKey::Gps(sat, _) => find_gps(r, sat, d),
                _ => Finding::Misses,
            },
            Digest::Gal(d) => match key {
                PeriodKey::Gal(sat, _) => find_gal(r, sat, d, health),
                _ => Finding::Misses,
            },
            Digest::Ion(transmission) => match key {
                PeriodKey::GpsIon(content) => gps_ionosphere(r, transmission, content),
                PeriodKey::GalIon(content) => gal_ionosphere(r, transmission, content),
                _ => Finding::Misses,
            },
        }
    }
}

ghost use Rattle.std.specs.Prelude.{◌≡◌, [], ◌∷◌, if◌then◌else◌};
ghost use Rattle.periods.specs.Parts.{fit_numbers, transmission_numbers, side_numbers, tag_numbers};
ghost use Rattle.periods.specs.DigestsOf.{digest_join, gal_join, gps_join};
ghost use Rattle.periods.specs.Mirrors.{best_join, earlier};
ghost use Rattle.periods.specs.Mirrors.{is_below, later, seen_join};

use crate::digest::{Digest, GalDigest, GpsDigest, Seen};
use crate::key::Transmission;
use crate::order::system_number;
use nav_bits::U;
use nav_eph::{GpsSide, SentTag, gal_transmission_number};

impl<T: PartialEq + Copy> Seen<T> {
    // The contents of one kind in the union of two sets.
    fn join(self, other: Seen<T>) -> Seen<T>
        ensures { result ≡ seen_join T.eq self other }
    {
        match (self, other) {
            (Seen::Nothing, b) => b,
            (Seen::One(x), Seen::Nothing) => Seen::One(x),
            (Seen::One(x), Seen::One(y)) => {
                if x == y {
                    Seen::One(x)
                } else {
                    Seen::Different
                }
            }
            (Seen::One(_), Seen::Different) => Seen::Different,
            (Seen::Different, _) => Seen::Different,
        }
    }
}

// Lexicographic order of stamp and number.
fn is_before(stamp: u32, number: u64, other_stamp: u32, other_number: u64) -> bool
    ensures { result ≡ is_below (stamp ∷ number ∷ []) (other_stamp ∷ other_number ∷ []) }
{
    stamp < other_stamp || (stamp == other_stamp && number < other_number)
}

// The later of two SV statuses.
pub(crate) fn later_side(
    one: Option<(u32, GpsSide)>,
    other: Option<(u32, GpsSide)>,
) -> Option<(u32, GpsSide)>
    ensures { result ≡ best_join (later side_numbers) one other }
{
    match (one, other) {
        (None, y) => y,
        (Some(x), None) => Some(x),
        (Some(x), Some(y)) => {
            if is_before(x.0, x.1.number(), y.0, y.1.number()) {
                Some(y)
            } else {
                Some(x)
            }
        }
    }
}

// The later of two fit interval flags.
pub(crate) fn later_fit(one: Option<(u32, U<1>)>, other: Option<(u32, U<1>)>) -> Option<(u32, U<1>)>
    ensures { result ≡ best_join (later fit_numbers) one other }
{
    match (one, other) {
        (None, y) => y,
        (Some(x), None) => Some(x),
        (Some(x), Some(y)) => {
            if is_before(x.0, x.1.value(), y.0, y.1.value()) {
                Some(y)
            } else {
                Some(x)
            }
        }
    }
}

// The earlier of two tags.
pub(crate) fn earlier_tag(
    one: Option<(u32, SentTag)>,
    other: Option<(u32, SentTag)>,
) -> Option<(u32, SentTag)>
    ensures { result ≡ best_join (earlier tag_numbers) one other }
{
    match (one, other) {
        (None, y) => y,
        (Some(x), None) => Some(x),
        (Some(x), Some(y)) => {
            if is_before(y.0, y.1.number(), x.0, x.1.number()) {
                Some(y)
            } else {
                Some(x)
            }
        }
    }
}

// One transmission is before another: by stamp, then satellite, then time of transmission.
pub(crate) fn is_earlier_transmission(one: &Transmission, other: &Transmission) -> bool
    ensures { result ≡ earlier transmission_numbers one.now other.now }
{
    if one.stamp != other.stamp {
        return one.stamp < other.stamp;
    }
    let system = system_number(one.sat.system());
    let other_system = system_number(other.sat.system());
    if system != other_system {
        return system < other_system;
    }
    if one.sat.number() != other.sat.number() {
        return one.sat.number() < other.sat.number();
    }
    gal_transmission_number(one.wn, one.second) < gal_transmission_number(other.wn, other.second)
}

// The earlier of two transmissions.
fn earlier_transmission(one: Transmission, other: Transmission) -> Transmission
    ensures { result ≡ (if earlier transmission_numbers other one then other else one) }
{
    if is_earlier_transmission(&other, &one) {
        other
    } else {
        one
    }
}

// The digest of the union of two sets of parts of a GPS key.
fn join_gps(one: GpsDigest, other: GpsDigest) -> GpsDigest
    ensures { result ≡ gps_join one other }
{
    GpsDigest {
        clock: one.clock.join(other.clock),
        a: one.a.join(other.a),
        b: one.b.join(other.b),
        side: later_side(one.side, other.side),
        fit: later_fit(one.fit, other.fit),
        sent: earlier_tag(one.sent, other.sent),
        toe: earlier_tag(one.toe, other.toe),
    }
}

// The digest of the union of two sets of parts of a Galileo key.
fn join_gal(one: GalDigest, other: GalDigest) -> GalDigest
    ensures { result ≡ gal_join one other }
{
    GalDigest {
        w1: one.w1.join(other.w1),
        w2: one.w2.join(other.w2),
        w3: one.w3.join(other.w3),
        w4: one.w4.join(other.w4),
    }
}

impl Digest {
    /// The digest of the union of two sets of parts of one key.
    pub fn join(self, other: Digest) -> Digest
        ensures { result ≡ digest_join self other }
    {
        match (self, other) {
            (Digest::Gps(x), Digest::Gps(y)) => Digest::Gps(join_gps(x, y)),
            (Digest::Gal(x), Digest::Gal(y)) => Digest::Gal(join_gal(x, y)),
            (Digest::Ion(x), Digest::Ion(y)) => Digest::Ion(earlier_transmission(x, y)),
            (x, _) => x,
        }
    }
}

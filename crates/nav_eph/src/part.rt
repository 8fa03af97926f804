ghost use Rattle.std.specs.Prelude.{◌≡◌, ℕ, ◌<◌, ◌↔◌, IsSome, IfSome, IsTrue};
ghost use Rattle.nav_eph.specs.Conditions.{HasGpsWeek, IsPart, same_part, system_of};

use crate::Second;
use crate::galileo::{GalHealth, GalWord1, GalWord2, GalWord3, GalWord4};
use crate::gps::{GpsClock, GpsOrbitA, GpsOrbitB, GpsSide};
use crate::ion::{GalIon, GpsIon};
use crate::same::{same_body, same_sat};
use crate::sat::{Sat, System};
use crate::tag::SentTag;
use nav_bits::U;

/// The content of one subframe, word or message.
#[derive(Clone, Copy, PartialEq, Eq)]
pub enum Body {
    /// GPS clock correction, SV status and transmission time (subframe 1).
    GpsClock(GpsClock, GpsSide, SentTag),
    /// GPS subframe 2, and the fit interval flag.
    GpsA(GpsOrbitA, U<1>),
    /// GPS subframe 3.
    GpsB(GpsOrbitB),
    /// I/NAV word type 1.
    GalW1(GalWord1),
    /// I/NAV word type 2.
    GalW2(GalWord2),
    /// I/NAV word type 3.
    GalW3(GalWord3),
    /// I/NAV word type 4.
    GalW4(GalWord4),
    /// Galileo group delays and health, and their transmission time (word type 5).
    GalHealth(GalHealth, SentTag),
    /// GPS ionospheric parameters, and their transmission time as time of week.
    GpsIon(GpsIon, Second),
    /// Galileo ionospheric parameters, and their transmission time as week number and time of week.
    GalIon(GalIon, U<12>, Second),
}

impl Body {
    /// The system that broadcasts it.
    pub fn system(&self) -> System
        ensures { result ≡ system_of self.now }
    {
        match self {
            Body::GpsClock(_, _, _) => System::Gps,
            Body::GpsA(_, _) => System::Gps,
            Body::GpsB(_) => System::Gps,
            Body::GalW1(_) => System::Gal,
            Body::GalW2(_) => System::Gal,
            Body::GalW3(_) => System::Gal,
            Body::GalW4(_) => System::Gal,
            Body::GalHealth(_, _) => System::Gal,
            Body::GpsIon(_, _) => System::Gps,
            Body::GalIon(_, _, _) => System::Gal,
        }
    }
}

/// A part of an ephemeris or ionospheric parameters, as received.
#[derive(Clone, Copy, PartialEq, Eq)]
pub struct Part {
    /// The second of reception, as the receiver's log counts.
    pub stamp: u32,
    /// The satellite that sent it.
    pub sat: Sat,
    /// Its content.
    pub body: Body,
}

// Whether the week number of a GPS tag has at most ten bits.
fn has_gps_week(body: &Body) -> bool
    ensures { IsTrue result ↔ HasGpsWeek body.now }
{
    match body {
        Body::GpsClock(_, _, SentTag::Sent { wn, second: _ }) => wn.value() < 1_024,
        Body::GpsClock(_, _, SentTag::Toe { wn, second: _ }) => wn.value() < 1_024,
        _ => true,
    }
}

impl Part {
    /// The part received at that second; `None` if the satellite is not of the body's system, or
    /// the week number of a GPS tag has more than ten bits.
    pub fn new(stamp: u32, sat: Sat, body: Body) -> Option<Self>
        ensures exactly { IsSome result ↔ IsPart sat body }
        ensures same { IfSome result (λ p. p ≡ record { stamp = stamp; sat = sat; body = body }) }
    {
        if sat.system() != body.system() {
            return None;
        }
        if !has_gps_week(&body) {
            return None;
        }
        Some(Part { stamp, sat, body })
    }

    // Whether it equals another in every field.
    fn equals(&self, other: &Part) -> bool
        ensures { IsTrue result ↔ (self.now ≡ other.now) }
    {
        if self.stamp != other.stamp {
            return false;
        }
        if !same_sat(&self.sat, &other.sat) {
            return false;
        }
        same_body(&self.body, &other.body)
    }

    /// Whether it equals another in every field.
    pub fn is_same(&self, other: &Part) -> bool
        ensures exactly { IsTrue result ↔ (self.now ≡ other.now) }
        ensures answer { result ≡ same_part self.now other.now }
    {
        self.equals(other)
    }
}

//! Complete ephemerides.

use crate::galileo::{HealthNumbers, Word1Numbers, Word2Numbers, Word3Numbers, Word4Numbers};
use crate::sample_gps::{ClockNumbers, OrbitANumbers, OrbitBNumbers, SideNumbers};
use nav_eph::{GalEph, GpsEph, System};

/// The numbers of an ephemeris of GPS, but for its transmission time.
#[derive(Clone, Copy)]
pub struct GpsNumbers {
    /// The satellite.
    pub sat: u8,
    /// The week of toe.
    pub week: u32,
    /// The clock.
    pub clock: ClockNumbers,
    /// What subframe 1 has next to the clock.
    pub side: SideNumbers,
    /// The first half of the orbit.
    pub a: OrbitANumbers,
    /// The fit interval flag.
    pub fit: u64,
    /// The second half of the orbit.
    pub b: OrbitBNumbers,
}

/// The numbers of an ephemeris of Galileo, but for its transmission time.
#[derive(Clone, Copy)]
pub struct GalNumbers {
    /// The satellite.
    pub sat: u8,
    /// The week of toe.
    pub week: u32,
    /// Word 1.
    pub w1: Word1Numbers,
    /// Word 2.
    pub w2: Word2Numbers,
    /// Word 3.
    pub w3: Word3Numbers,
    /// Word 4.
    pub w4: Word4Numbers,
    /// The group delays and the health.
    pub health: HealthNumbers,
}

impl GpsNumbers {
    /// Whether the ephemeris has them.
    pub fn are_of(&self, eph: &GpsEph) -> bool {
        (eph.sat.system() == System::Gps)
            & (eph.sat.number() == self.sat)
            & (eph.toe_week.value() == self.week)
            & self.clock.are_of(&eph.clock)
            & self.side.are_of(&eph.side)
            & self.a.are_of(&eph.a)
            & (eph.fit.value() == self.fit)
            & self.b.are_of(&eph.b)
    }
}

impl GalNumbers {
    /// Whether the ephemeris has them.
    pub fn are_of(&self, eph: &GalEph) -> bool {
        (eph.sat.system() == System::Gal)
            & (eph.sat.number() == self.sat)
            & (eph.toe_week.value() == self.week)
            & self.w1.are_of(&eph.w1)
            & self.w2.are_of(&eph.w2)
            & self.w3.are_of(&eph.w3)
            & self.w4.are_of(&eph.w4)
            & self.health.are_of(&eph.health)
    }
}

ghost use Rattle.std.specs.Prelude.{◌≡◌, ℕ};

use crate::steps::Step16;
use nav_bits::{S, U};

/// The clock correction of subframe 1 (IS-GPS-200, table 20-I).
#[derive(Clone, Copy, PartialEq, Eq)]
pub struct GpsClock {
    /// Issue of data, clock.
    pub iodc: U<10>,
    /// Clock data reference time, in steps of 16 s.
    pub toc: Step16,
    /// Clock drift rate correction, in 2^-55 s/s².
    pub af2: S<8>,
    /// Clock drift correction, in 2^-43 s/s.
    pub af1: S<16>,
    /// Clock bias correction, in 2^-31 s.
    pub af0: S<22>,
    /// Group delay differential, in 2^-31 s.
    pub tgd: S<8>,
}

/// SV status: the fields of subframe 1 other than the clock correction (IS-GPS-200, 20.3.3.3.1).
#[derive(Clone, Copy, PartialEq, Eq)]
pub struct GpsSide {
    /// Codes on the L2 channel.
    pub l2_code: U<2>,
    /// User range accuracy (URA), an index.
    pub ura: U<4>,
    /// SV health.
    pub health: U<6>,
    /// L2 P data flag: 1 if the navigation data stream on the L2 P-code is off.
    pub l2p: U<1>,
}

/// The ephemeris parameters of subframe 2 (IS-GPS-200, table 20-III).
#[derive(Clone, Copy, PartialEq, Eq)]
pub struct GpsOrbitA {
    /// Issue of data, ephemeris.
    pub iode: U<8>,
    /// Sine harmonic correction to the orbit radius, in 2^-5 m.
    pub crs: S<16>,
    /// Mean motion difference, in 2^-43 semicircles/s.
    pub delta_n: S<16>,
    /// Mean anomaly at the reference time, in 2^-31 semicircles.
    pub m0: S<32>,
    /// Cosine harmonic correction to the argument of latitude, in 2^-29 rad.
    pub cuc: S<16>,
    /// Eccentricity, in 2^-33.
    pub e: U<32>,
    /// Sine harmonic correction to the argument of latitude, in 2^-29 rad.
    pub cus: S<16>,
    /// Square root of the semi-major axis, in 2^-19 √m.
    pub root_a: U<32>,
    /// Ephemeris reference time, in steps of 16 s.
    pub toe: Step16,
}

/// The ephemeris parameters of subframe 3 (IS-GPS-200, table 20-III).
#[derive(Clone, Copy, PartialEq, Eq)]
pub struct GpsOrbitB {
    /// Issue of data, ephemeris.
    pub iode: U<8>,
    /// Cosine harmonic correction to the inclination, in 2^-29 rad.
    pub cic: S<16>,
    /// Longitude of the ascending node at the weekly epoch, in 2^-31 semicircles.
    pub omega0: S<32>,
    /// Sine harmonic correction to the inclination, in 2^-29 rad.
    pub cis: S<16>,
    /// Inclination at the reference time, in 2^-31 semicircles.
    pub i0: S<32>,
    /// Cosine harmonic correction to the orbit radius, in 2^-5 m.
    pub crc: S<16>,
    /// Argument of perigee, in 2^-31 semicircles.
    pub omega: S<32>,
    /// Rate of change of the right ascension, in 2^-43 semicircles/s.
    pub omega_dot: S<24>,
    /// Rate of change of the inclination, in 2^-43 semicircles/s.
    pub idot: S<14>,
}

impl GpsSide {
    ghost use Rattle.nav_eph.specs.Numbers.{side_number};
    ghost use Rattle.nav_eph.specs.Bodies.{IsGpsSide};

    /// Its 13 bits, concatenated in the order of its fields, as one number; used to choose among
    /// values.
    pub fn number(&self) -> u64
        ensures value { result ≡ side_number self.now }
        ensures fits { IsGpsSide self.now }
    {
        let number = self.l2_code.value() * 16 + self.ura.value();
        (number * 64 + self.health.value()) * 2 + self.l2p.value()
    }
}

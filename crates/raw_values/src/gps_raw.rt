//! A GPS ephemeris as raw integers.

use crate::sent_raw::SentRaw;

/// The clock of a GPS satellite, of subframe 1 (IS-GPS-200, table 20-I).
#[repr(C)]
#[derive(Clone, Copy)]
pub struct GpsClockRaw {
    /// Issue of data, clock: 10 bits.
    pub iodc: u32,
    /// The time of the clock's data, in steps of 16 s: 0 to 37,799.
    pub toc: u32,
    /// Clock drift rate, in 2^-55 s/s²: 8 bits.
    pub af2: i32,
    /// Clock drift, in 2^-43 s/s: 16 bits.
    pub af1: i32,
    /// Clock bias, in 2^-31 s: 22 bits.
    pub af0: i32,
    /// Group delay, in 2^-31 s: 8 bits.
    pub tgd: i32,
}

/// What subframe 1 has next to the clock (IS-GPS-200, 20.3.3.3.1).
#[repr(C)]
#[derive(Clone, Copy)]
pub struct GpsSideRaw {
    /// The codes on L2: 2 bits.
    pub l2_code: u32,
    /// User range accuracy, an index: 4 bits.
    pub ura: u32,
    /// The health of the satellite: 6 bits.
    pub health: u32,
    /// Whether the P code on L2 bears no data: 1 bit.
    pub l2p: u32,
}

/// The first half of the orbit of a GPS satellite, of subframe 2 (IS-GPS-200, table 20-III).
#[repr(C)]
#[derive(Clone, Copy)]
pub struct GpsOrbitARaw {
    /// Issue of data, ephemeris: 8 bits.
    pub iode: u32,
    /// Sine correction to the orbit's radius, in 2^-5 m: 16 bits.
    pub crs: i32,
    /// Correction to the mean motion, in 2^-43 semicircles/s: 16 bits.
    pub delta_n: i32,
    /// Mean anomaly at the time of the ephemeris, in 2^-31 semicircles.
    pub m0: i32,
    /// Cosine correction to the argument of latitude, in 2^-29 rad: 16 bits.
    pub cuc: i32,
    /// Eccentricity, in 2^-33.
    pub e: u32,
    /// Sine correction to the argument of latitude, in 2^-29 rad: 16 bits.
    pub cus: i32,
    /// Square root of the semi-major axis, in 2^-19 √m.
    pub root_a: u32,
    /// The time of the ephemeris, in steps of 16 s: 0 to 37,799.
    pub toe: u32,
}

/// The second half of the orbit of a GPS satellite, of subframe 3 (IS-GPS-200, table 20-III).
#[repr(C)]
#[derive(Clone, Copy)]
pub struct GpsOrbitBRaw {
    /// Issue of data, ephemeris: 8 bits.
    pub iode: u32,
    /// Cosine correction to the inclination, in 2^-29 rad: 16 bits.
    pub cic: i32,
    /// Longitude of the ascending node at the start of the week, in 2^-31 semicircles.
    pub omega0: i32,
    /// Sine correction to the inclination, in 2^-29 rad: 16 bits.
    pub cis: i32,
    /// Inclination at the time of the ephemeris, in 2^-31 semicircles.
    pub i0: i32,
    /// Cosine correction to the orbit's radius, in 2^-5 m: 16 bits.
    pub crc: i32,
    /// Argument of perigee, in 2^-31 semicircles.
    pub omega: i32,
    /// Rate of the right ascension, in 2^-43 semicircles/s: 24 bits.
    pub omega_dot: i32,
    /// Rate of the inclination, in 2^-43 semicircles/s: 14 bits.
    pub idot: i32,
}

/// An ephemeris of GPS.
#[repr(C)]
#[derive(Clone, Copy)]
pub struct GpsRaw {
    /// The number of the satellite, 1 to 32.
    pub satellite: u32,
    /// The week of toe, counted from 1980-01-06: 1 to 16,382.
    pub toe_week: u32,
    /// When it was sent.
    pub sent: SentRaw,
    /// Its clock.
    pub clock: GpsClockRaw,
    /// What subframe 1 has next to the clock.
    pub side: GpsSideRaw,
    /// The first half of its orbit.
    pub a: GpsOrbitARaw,
    /// The second half of its orbit, of the same issue.
    pub b: GpsOrbitBRaw,
    /// The fit interval flag (IS-GPS-200, 20.3.3.4.3.1).
    pub fit: u32,
}

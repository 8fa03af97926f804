//! A Galileo ephemeris as raw integers.

use crate::sent_raw::SentRaw;

/// The first part of the orbit of a Galileo satellite, of I/NAV word 1 (Galileo OS SIS ICD, 5.1.1).
#[repr(C)]
#[derive(Clone, Copy)]
pub struct GalWord1Raw {
    /// Issue of data: 10 bits.
    pub iodnav: u32,
    /// The time of the ephemeris, in steps of 60 s: 0 to 10,079.
    pub toe: u32,
    /// Mean anomaly at the time of the ephemeris, in 2^-31 semicircles.
    pub m0: i32,
    /// Eccentricity, in 2^-33.
    pub e: u32,
    /// Square root of the semi-major axis, in 2^-19 √m.
    pub root_a: u32,
}

/// The second part of the orbit, of I/NAV word 2 (Galileo OS SIS ICD, 5.1.1).
#[repr(C)]
#[derive(Clone, Copy)]
pub struct GalWord2Raw {
    /// Issue of data: 10 bits.
    pub iodnav: u32,
    /// Longitude of the ascending node at the start of the week, in 2^-31 semicircles.
    pub omega0: i32,
    /// Inclination at the time of the ephemeris, in 2^-31 semicircles.
    pub i0: i32,
    /// Argument of perigee, in 2^-31 semicircles.
    pub omega: i32,
    /// Rate of the inclination, in 2^-43 semicircles/s: 14 bits.
    pub idot: i32,
}

/// The third part of the orbit, with the accuracy, of I/NAV word 3 (Galileo OS SIS ICD, 5.1.1 and
/// 5.1.12).
#[repr(C)]
#[derive(Clone, Copy)]
pub struct GalWord3Raw {
    /// Issue of data: 10 bits.
    pub iodnav: u32,
    /// Rate of the right ascension, in 2^-43 semicircles/s: 24 bits.
    pub omega_dot: i32,
    /// Correction to the mean motion, in 2^-43 semicircles/s: 16 bits.
    pub delta_n: i32,
    /// Cosine correction to the argument of latitude, in 2^-29 rad: 16 bits.
    pub cuc: i32,
    /// Sine correction to the argument of latitude, in 2^-29 rad: 16 bits.
    pub cus: i32,
    /// Cosine correction to the orbit's radius, in 2^-5 m: 16 bits.
    pub crc: i32,
    /// Sine correction to the orbit's radius, in 2^-5 m: 16 bits.
    pub crs: i32,
    /// The accuracy of signal in space, an index: 0 to 125, or 255.
    pub sisa: u32,
}

/// The last part of the orbit, with the clock, of I/NAV word 4 (Galileo OS SIS ICD, 5.1.1 and
/// 5.1.3).
#[repr(C)]
#[derive(Clone, Copy)]
pub struct GalWord4Raw {
    /// Issue of data: 10 bits.
    pub iodnav: u32,
    /// Cosine correction to the inclination, in 2^-29 rad: 16 bits.
    pub cic: i32,
    /// Sine correction to the inclination, in 2^-29 rad: 16 bits.
    pub cis: i32,
    /// The time of the clock's data, in steps of 60 s: 0 to 10,079.
    pub toc: u32,
    /// Clock bias, in 2^-34 s: 31 bits.
    pub af0: i32,
    /// Clock drift, in 2^-46 s/s: 21 bits.
    pub af1: i32,
    /// Clock drift rate, in 2^-59 s/s²: 6 bits.
    pub af2: i32,
}

/// Group delays and health of a Galileo satellite, of I/NAV word 5 (Galileo OS SIS ICD, 5.1.5 and
/// 5.1.9).
#[repr(C)]
#[derive(Clone, Copy)]
pub struct GalHealthRaw {
    /// Group delay between E1 and E5a, in 2^-32 s: 10 bits.
    pub bgd_a: i32,
    /// Group delay between E1 and E5b, in 2^-32 s: 10 bits.
    pub bgd_b: i32,
    /// The health of the signal E5b: 2 bits.
    pub hs_e5b: u32,
    /// The health of the signal E1-B: 2 bits.
    pub hs_e1b: u32,
    /// Whether the data of E5b are without guarantee: 1 bit.
    pub dvs_e5b: u32,
    /// Whether the data of E1-B are without guarantee: 1 bit.
    pub dvs_e1b: u32,
}

/// An ephemeris of Galileo.
#[repr(C)]
#[derive(Clone, Copy)]
pub struct GalRaw {
    /// The number of the satellite, 1 to 36.
    pub satellite: u32,
    /// The week of toe, counted from 1980-01-06: 1 to 16,382.
    pub toe_week: u32,
    /// When it was sent.
    pub sent: SentRaw,
    /// The first part of its orbit.
    pub w1: GalWord1Raw,
    /// The second part, of the same issue.
    pub w2: GalWord2Raw,
    /// The third part, of the same issue.
    pub w3: GalWord3Raw,
    /// The last part and the clock, of the same issue.
    pub w4: GalWord4Raw,
    /// Its delays and health.
    pub health: GalHealthRaw,
}

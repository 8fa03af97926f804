//! What satellites send, with all numbers 0 but for those that are given.

ghost use Rattle.std.specs.Prelude.{◌≡◌};

use nav_bits::{S, U};
use nav_eph::{
    GalHealth, GalWord1, GalWord2, GalWord3, GalWord4, GpsClock, GpsIon, GpsOrbitA, GpsOrbitB,
    GpsSide, Sisa, Step16, Step60,
};

/// A clock of GPS of an issue and a toc.
pub fn gps_clock(issue: U<10>, toc: Step16) -> GpsClock
    ensures { result.iodc ≡ issue × result.toc ≡ toc }
{
    GpsClock {
        iodc: issue,
        toc,
        af2: S::from_bits(0),
        af1: S::from_bits(0),
        af0: S::from_bits(0),
        tgd: S::from_bits(0),
    }
}

/// The SV status of GPS of an accuracy and a health.
pub fn gps_side(ura: U<4>, health: U<6>) -> GpsSide
    ensures { result.ura ≡ ura × result.health ≡ health }
{
    GpsSide {
        l2_code: U::from_bits(0),
        ura,
        health,
        l2p: U::from_bits(0),
    }
}

/// Subframe 2 of an issue, a mean anomaly and a toe.
pub fn gps_orbit_a(issue: U<8>, m0: S<32>, toe: Step16) -> GpsOrbitA
    ensures { result.iode ≡ issue × result.m0 ≡ m0 × result.toe ≡ toe }
{
    GpsOrbitA {
        iode: issue,
        crs: S::from_bits(0),
        delta_n: S::from_bits(0),
        m0,
        cuc: S::from_bits(0),
        e: U::from_bits(0),
        cus: S::from_bits(0),
        root_a: U::from_bits(0),
        toe,
    }
}

/// Subframe 3 of an issue.
pub fn gps_orbit_b(issue: U<8>) -> GpsOrbitB
    ensures { result.iode ≡ issue }
{
    GpsOrbitB {
        iode: issue,
        cic: S::from_bits(0),
        omega0: S::from_bits(0),
        cis: S::from_bits(0),
        i0: S::from_bits(0),
        crc: S::from_bits(0),
        omega: S::from_bits(0),
        omega_dot: S::from_bits(0),
        idot: S::from_bits(0),
    }
}

/// The ionosphere of GPS of a first alpha and a first beta.
pub fn gps_ionosphere(alpha0: S<8>, beta0: S<8>) -> GpsIon
    ensures { result.alpha0 ≡ alpha0 × result.beta0 ≡ beta0 }
{
    GpsIon {
        alpha0,
        alpha1: S::from_bits(0),
        alpha2: S::from_bits(0),
        alpha3: S::from_bits(0),
        beta0,
        beta1: S::from_bits(0),
        beta2: S::from_bits(0),
        beta3: S::from_bits(0),
    }
}

/// Word 1 of an issue and a toe.
pub fn galileo_word1(issue: U<10>, toe: Step60) -> GalWord1
    ensures { result.iodnav ≡ issue × result.toe ≡ toe }
{
    GalWord1 {
        iodnav: issue,
        toe,
        m0: S::from_bits(0),
        e: U::from_bits(0),
        root_a: U::from_bits(0),
    }
}

/// Word 2 of an issue.
pub fn galileo_word2(issue: U<10>) -> GalWord2
    ensures { result.iodnav ≡ issue }
{
    GalWord2 {
        iodnav: issue,
        omega0: S::from_bits(0),
        i0: S::from_bits(0),
        omega: S::from_bits(0),
        idot: S::from_bits(0),
    }
}

/// Word 3 of an issue and an accuracy.
pub fn galileo_word3(issue: U<10>, sisa: Sisa) -> GalWord3
    ensures { result.iodnav ≡ issue × result.sisa ≡ sisa }
{
    GalWord3 {
        iodnav: issue,
        omega_dot: S::from_bits(0),
        delta_n: S::from_bits(0),
        cuc: S::from_bits(0),
        cus: S::from_bits(0),
        crc: S::from_bits(0),
        crs: S::from_bits(0),
        sisa,
    }
}

/// Word 4 of an issue and a toc.
pub fn galileo_word4(issue: U<10>, toc: Step60) -> GalWord4
    ensures { result.iodnav ≡ issue × result.toc ≡ toc }
{
    GalWord4 {
        iodnav: issue,
        cic: S::from_bits(0),
        cis: S::from_bits(0),
        toc,
        af0: S::from_bits(0),
        af1: S::from_bits(0),
        af2: S::from_bits(0),
    }
}

/// The group delays and the health of word 5, with a health of E1-B.
pub fn galileo_health(hs_e1b: U<2>) -> GalHealth
    ensures { result.hs_e1b ≡ hs_e1b }
{
    GalHealth {
        bgd_a: S::from_bits(0),
        bgd_b: S::from_bits(0),
        hs_e5b: U::from_bits(0),
        hs_e1b,
        dvs_e5b: U::from_bits(0),
        dvs_e1b: U::from_bits(0),
    }
}

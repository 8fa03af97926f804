//! The broadcast values of the satellites, random field by field.

ghost use Rattle.std.specs.Prelude.{◌≡◌};
ghost use Rattle.sent_captures.specs.Draws.{state_after};
ghost use Rattle.sent_captures.specs.Values.{gal_ion, gal_values, gps_ion, gps_values};

use crate::generator::{draw, draw_signed};
use nav_bits::U;
use nav_eph::{
    GalHealth, GalIon, GalWord1, GalWord2, GalWord3, GalWord4, GpsClock, GpsIon, GpsOrbitA,
    GpsOrbitB, GpsSide, Sisa, Step16, Step60,
};

/// The ephemeris of a GPS satellite.
#[derive(Clone, Copy)]
pub struct GpsValues {
    /// The clock parameters of subframe 1.
    pub clock: GpsClock,
    /// The SV status of subframe 1.
    pub side: GpsSide,
    /// The orbit parameters of subframe 2.
    pub a: GpsOrbitA,
    /// The fit interval flag: 1 if the curve fit interval is longer than 4 hours.
    pub fit: U<1>,
    /// The orbit parameters of subframe 3.
    pub b: GpsOrbitB,
}

/// The ephemeris of a Galileo satellite.
#[derive(Clone, Copy)]
pub struct GalValues {
    /// Word type 1.
    pub w1: GalWord1,
    /// Word type 2.
    pub w2: GalWord2,
    /// Word type 3.
    pub w3: GalWord3,
    /// Word type 4.
    pub w4: GalWord4,
    /// BGD and health of word type 5.
    pub health: GalHealth,
}

// 7,200 s in units of 16 s.
fn gps_time() -> Step16
    ensures { result ≡ 450 }
{
    let Some(steps) = Step16::new(450) else {
        unreachable!();
    };
    steps
}

// 7,200 s in units of 60 s.
fn gal_time() -> Step60
    ensures { result ≡ 120 }
{
    let Some(steps) = Step60::new(120) else {
        unreachable!();
    };
    steps
}

// The SISA index 107.
fn accuracy() -> Sisa
    ensures { result ≡ 107 }
{
    let Some(sisa) = Sisa::new(107) else {
        unreachable!();
    };
    sisa
}

// Draws the values of a GPS satellite.
#[tactic(auto, unfolding(crate::specs::Values::gps_values, crate::specs::Draws::draw, crate::specs::Draws::state_after))]
pub(crate) fn draw_gps(state: &mut u64) -> GpsValues
    ensures values { result ≡ gps_values state.old }
    ensures after { state.new ≡ state_after state.old 24 }
{
    let ura = draw(state);
    let l2_code = draw(state);
    let idot = draw_signed(state);
    let af2 = draw_signed(state);
    let af1 = draw_signed(state);
    let af0 = draw_signed(state);
    let iodc: U<10> = draw(state);
    let crs = draw_signed(state);
    let delta_n = draw_signed(state);
    let m0 = draw_signed(state);
    let cuc = draw_signed(state);
    let e = draw(state);
    let cus = draw_signed(state);
    let root_a = draw(state);
    let cic = draw_signed(state);
    let omega0 = draw_signed(state);
    let cis = draw_signed(state);
    let i0 = draw_signed(state);
    let crc = draw_signed(state);
    let omega = draw_signed(state);
    let omega_dot = draw_signed(state);
    let tgd = draw_signed(state);
    let l2p = draw(state);
    let fit = draw(state);
    let iode = U::from_bits(iodc.value() % 256);
    let toe = gps_time();
    GpsValues {
        clock: GpsClock {
            iodc,
            toc: toe,
            af2,
            af1,
            af0,
            tgd,
        },
        side: GpsSide {
            l2_code,
            ura,
            health: U::from_bits(0),
            l2p,
        },
        a: GpsOrbitA {
            iode,
            crs,
            delta_n,
            m0,
            cuc,
            e,
            cus,
            root_a,
            toe,
        },
        fit,
        b: GpsOrbitB {
            iode,
            cic,
            omega0,
            cis,
            i0,
            crc,
            omega,
            omega_dot,
            idot,
        },
    }
}

// Draws the values of a Galileo satellite.
#[tactic(auto, unfolding(crate::specs::Values::gal_values, crate::specs::Draws::draw, crate::specs::Draws::state_after))]
pub(crate) fn draw_gal(state: &mut u64) -> GalValues
    ensures values { result ≡ gal_values state.old }
    ensures after { state.new ≡ state_after state.old 21 }
{
    let iodnav = draw(state);
    let idot = draw_signed(state);
    let af2 = draw_signed(state);
    let af1 = draw_signed(state);
    let af0 = draw_signed(state);
    let crs = draw_signed(state);
    let delta_n = draw_signed(state);
    let m0 = draw_signed(state);
    let cuc = draw_signed(state);
    let e = draw(state);
    let cus = draw_signed(state);
    let root_a = draw(state);
    let cic = draw_signed(state);
    let omega0 = draw_signed(state);
    let cis = draw_signed(state);
    let i0 = draw_signed(state);
    let crc = draw_signed(state);
    let omega = draw_signed(state);
    let omega_dot = draw_signed(state);
    let bgd_a = draw_signed(state);
    let bgd_b = draw_signed(state);
    let toe = gal_time();
    GalValues {
        w1: GalWord1 {
            iodnav,
            toe,
            m0,
            e,
            root_a,
        },
        w2: GalWord2 {
            iodnav,
            omega0,
            i0,
            omega,
            idot,
        },
        w3: GalWord3 {
            iodnav,
            omega_dot,
            delta_n,
            cuc,
            cus,
            crc,
            crs,
            sisa: accuracy(),
        },
        w4: GalWord4 {
            iodnav,
            cic,
            cis,
            toc: toe,
            af0,
            af1,
            af2,
        },
        health: GalHealth {
            bgd_a,
            bgd_b,
            hs_e5b: U::from_bits(0),
            hs_e1b: U::from_bits(0),
            dvs_e5b: U::from_bits(0),
            dvs_e1b: U::from_bits(0),
        },
    }
}

// Draws the ionosphere of GPS.
#[tactic(auto, unfolding(crate::specs::Values::gps_ion, crate::specs::Draws::draw, crate::specs::Draws::state_after))]
pub(crate) fn draw_gps_ion(state: &mut u64) -> GpsIon
    ensures values { result ≡ gps_ion state.old }
    ensures after { state.new ≡ state_after state.old 8 }
{
    let alpha0 = draw_signed(state);
    let alpha1 = draw_signed(state);
    let alpha2 = draw_signed(state);
    let alpha3 = draw_signed(state);
    let beta0 = draw_signed(state);
    let beta1 = draw_signed(state);
    let beta2 = draw_signed(state);
    let beta3 = draw_signed(state);
    GpsIon {
        alpha0,
        alpha1,
        alpha2,
        alpha3,
        beta0,
        beta1,
        beta2,
        beta3,
    }
}

// Draws the ionosphere of Galileo.
#[tactic(auto, unfolding(crate::specs::Values::gal_ion, crate::specs::Draws::draw, crate::specs::Draws::state_after))]
pub(crate) fn draw_gal_ion(state: &mut u64) -> GalIon
    ensures { result ≡ gal_ion state.old }
{
    let ai0 = draw(state);
    let ai1 = draw_signed(state);
    let ai2 = draw_signed(state);
    let regions = draw(state);
    GalIon {
        ai0,
        ai1,
        ai2,
        regions,
    }
}

//! The fields of items as arrays of numbers, in the order in which they are compared.

ghost use Rattle.std.specs.Prelude.{◌≡◌, pos, [], ◌∷◌};
ghost use Rattle.nav_eph.specs.Ranks.{clock_rank, gal_ion_rank, gps_ion_rank, health_rank};
ghost use Rattle.nav_eph.specs.Ranks.{orbit_a_rank, orbit_b_rank, sat_rank, side_rank};
ghost use Rattle.nav_eph.specs.Ranks.{word1_rank, word2_rank, word3_rank, word4_rank};

use nav_bits::U;
use nav_eph::{
    GalHealth, GalIon, GalWord1, GalWord2, GalWord3, GalWord4, GpsClock, GpsIon, GpsOrbitA,
    GpsOrbitB, GpsSide, Sat, System, Week,
};

pub(crate) fn sat_numbers(sat: Sat) -> [i64; 2]
    ensures { result ≡ sat_rank sat }
{
    let system = match sat.system() {
        System::Gps => 0,
        System::Gal => 1,
    };
    [system, sat.number() as i64]
}

pub(crate) fn clock_numbers(x: &GpsClock) -> [i64; 6]
    ensures { result ≡ clock_rank x.now }
{
    [
        x.iodc.value() as i64,
        x.toc.value() as i64,
        x.af2.value(),
        x.af1.value(),
        x.af0.value(),
        x.tgd.value(),
    ]
}

pub(crate) fn side_numbers(x: &GpsSide) -> [i64; 4]
    ensures { result ≡ side_rank x.now }
{
    [
        x.l2_code.value() as i64,
        x.ura.value() as i64,
        x.health.value() as i64,
        x.l2p.value() as i64,
    ]
}

pub(crate) fn orbit_a_numbers(x: &GpsOrbitA) -> [i64; 9]
    ensures { result ≡ orbit_a_rank x.now }
{
    [
        x.iode.value() as i64,
        x.crs.value(),
        x.delta_n.value(),
        x.m0.value(),
        x.cuc.value(),
        x.e.value() as i64,
        x.cus.value(),
        x.root_a.value() as i64,
        x.toe.value() as i64,
    ]
}

pub(crate) fn orbit_b_numbers(x: &GpsOrbitB) -> [i64; 9]
    ensures { result ≡ orbit_b_rank x.now }
{
    [
        x.iode.value() as i64,
        x.cic.value(),
        x.omega0.value(),
        x.cis.value(),
        x.i0.value(),
        x.crc.value(),
        x.omega.value(),
        x.omega_dot.value(),
        x.idot.value(),
    ]
}

pub(crate) fn word1_numbers(x: &GalWord1) -> [i64; 5]
    ensures { result ≡ word1_rank x.now }
{
    [
        x.iodnav.value() as i64,
        x.toe.value() as i64,
        x.m0.value(),
        x.e.value() as i64,
        x.root_a.value() as i64,
    ]
}

pub(crate) fn word2_numbers(x: &GalWord2) -> [i64; 5]
    ensures { result ≡ word2_rank x.now }
{
    [
        x.iodnav.value() as i64,
        x.omega0.value(),
        x.i0.value(),
        x.omega.value(),
        x.idot.value(),
    ]
}

pub(crate) fn word3_numbers(x: &GalWord3) -> [i64; 8]
    ensures { result ≡ word3_rank x.now }
{
    [
        x.iodnav.value() as i64,
        x.omega_dot.value(),
        x.delta_n.value(),
        x.cuc.value(),
        x.cus.value(),
        x.crc.value(),
        x.crs.value(),
        x.sisa.value() as i64,
    ]
}

pub(crate) fn word4_numbers(x: &GalWord4) -> [i64; 7]
    ensures { result ≡ word4_rank x.now }
{
    [
        x.iodnav.value() as i64,
        x.cic.value(),
        x.cis.value(),
        x.toc.value() as i64,
        x.af0.value(),
        x.af1.value(),
        x.af2.value(),
    ]
}

pub(crate) fn health_numbers(x: &GalHealth) -> [i64; 6]
    ensures { result ≡ health_rank x.now }
{
    [
        x.bgd_a.value(),
        x.bgd_b.value(),
        x.hs_e5b.value() as i64,
        x.hs_e1b.value() as i64,
        x.dvs_e5b.value() as i64,
        x.dvs_e1b.value() as i64,
    ]
}

pub(crate) fn gps_ion_numbers(x: &GpsIon) -> [i64; 8]
    ensures { result ≡ gps_ion_rank x.now }
{
    [
        x.alpha0.value(),
        x.alpha1.value(),
        x.alpha2.value(),
        x.alpha3.value(),
        x.beta0.value(),
        x.beta1.value(),
        x.beta2.value(),
        x.beta3.value(),
    ]
}

pub(crate) fn gal_ion_numbers(x: &GalIon) -> [i64; 4]
    ensures { result ≡ gal_ion_rank x.now }
{
    [
        x.ai0.value() as i64,
        x.ai1.value(),
        x.ai2.value(),
        x.regions.value() as i64,
    ]
}

pub(crate) fn fit_and_week(fit: &U<1>, week: &Week) -> [i64; 2]
    ensures { result ≡ pos fit.now ∷ pos week.now ∷ [] }
{
    [fit.value() as i64, week.value() as i64]
}

pub(crate) fn week_number(week: &Week) -> [i64; 1]
    ensures { result ≡ pos week.now ∷ [] }
{
    [week.value() as i64]
}

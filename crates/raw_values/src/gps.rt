//! GPS ephemerides, from and to raw integers.

ghost use Rattle.std.specs.Prelude.{◌≡◌, ◌↔◌, IsSome, IfSome};
ghost use Rattle.nav_eph.specs.Bodies.{IsGpsSide};
ghost use Rattle.nav_eph.specs.Ranges.{IsGpsClock, IsGpsItem, IsGpsOrbitA, IsGpsOrbitB};
ghost use Rattle.raw_values.specs.Gps.{clock_in, side_in, orbit_a_in, orbit_b_in, gps_in};
ghost use Rattle.raw_values.specs.Gps.{raw_clock, raw_side, raw_orbit_a, raw_orbit_b, raw_gps};

use crate::gps_raw::{GpsClockRaw, GpsOrbitARaw, GpsOrbitBRaw, GpsRaw, GpsSideRaw};
use crate::numbers::{raw_signed, raw_unsigned, signed, step16, unsigned};
use crate::sat::sat_of;
use crate::sent::{raw_sent, sent_of};
use nav_eph::{GpsClock, GpsEph, GpsOrbitA, GpsOrbitB, GpsSide, System, Week};

/// The value of these numbers; `None` if one is out of its range.
pub fn clock_of(raw: &GpsClockRaw) -> Option<GpsClock>
    ensures exactly { IsSome result ↔ IsGpsClock (clock_in raw.now) }
    ensures same { IfSome result (λ value. value ≡ clock_in raw.now) }
{
    let iodc = unsigned::<10>(raw.iodc)?;
    let toc = step16(raw.toc)?;
    let af2 = signed::<8>(&raw.af2)?;
    let af1 = signed::<16>(&raw.af1)?;
    let af0 = signed::<22>(&raw.af0)?;
    let tgd = signed::<8>(&raw.tgd)?;
    Some(GpsClock {
        iodc,
        toc,
        af2,
        af1,
        af0,
        tgd,
    })
}

/// Its numbers.
pub fn raw_clock(value: &GpsClock) -> GpsClockRaw
    ensures { result ≡ raw_clock value.now }
{
    GpsClockRaw {
        iodc: raw_unsigned(&value.iodc),
        toc: value.toc.value() as u32,
        af2: raw_signed(&value.af2),
        af1: raw_signed(&value.af1),
        af0: raw_signed(&value.af0),
        tgd: raw_signed(&value.tgd),
    }
}

/// The value of these numbers; `None` if one is out of its range.
pub fn side_of(raw: &GpsSideRaw) -> Option<GpsSide>
    ensures exactly { IsSome result ↔ IsGpsSide (side_in raw.now) }
    ensures same { IfSome result (λ value. value ≡ side_in raw.now) }
{
    let l2_code = unsigned::<2>(raw.l2_code)?;
    let ura = unsigned::<4>(raw.ura)?;
    let health = unsigned::<6>(raw.health)?;
    let l2p = unsigned::<1>(raw.l2p)?;
    Some(GpsSide {
        l2_code,
        ura,
        health,
        l2p,
    })
}

/// Its numbers.
pub fn raw_side(value: &GpsSide) -> GpsSideRaw
    ensures { result ≡ raw_side value.now }
{
    GpsSideRaw {
        l2_code: raw_unsigned(&value.l2_code),
        ura: raw_unsigned(&value.ura),
        health: raw_unsigned(&value.health),
        l2p: raw_unsigned(&value.l2p),
    }
}

/// The value of these numbers; `None` if one is out of its range.
pub fn orbit_a_of(raw: &GpsOrbitARaw) -> Option<GpsOrbitA>
    ensures exactly { IsSome result ↔ IsGpsOrbitA (orbit_a_in raw.now) }
    ensures same { IfSome result (λ value. value ≡ orbit_a_in raw.now) }
{
    let iode = unsigned::<8>(raw.iode)?;
    let crs = signed::<16>(&raw.crs)?;
    let delta_n = signed::<16>(&raw.delta_n)?;
    let m0 = signed::<32>(&raw.m0)?;
    let cuc = signed::<16>(&raw.cuc)?;
    let e = unsigned::<32>(raw.e)?;
    let cus = signed::<16>(&raw.cus)?;
    let root_a = unsigned::<32>(raw.root_a)?;
    let toe = step16(raw.toe)?;
    Some(GpsOrbitA {
        iode,
        crs,
        delta_n,
        m0,
        cuc,
        e,
        cus,
        root_a,
        toe,
    })
}

/// Its numbers.
pub fn raw_orbit_a(value: &GpsOrbitA) -> GpsOrbitARaw
    ensures { result ≡ raw_orbit_a value.now }
{
    GpsOrbitARaw {
        iode: raw_unsigned(&value.iode),
        crs: raw_signed(&value.crs),
        delta_n: raw_signed(&value.delta_n),
        m0: raw_signed(&value.m0),
        cuc: raw_signed(&value.cuc),
        e: raw_unsigned(&value.e),
        cus: raw_signed(&value.cus),
        root_a: raw_unsigned(&value.root_a),
        toe: value.toe.value() as u32,
    }
}

/// The value of these numbers; `None` if one is out of its range.
pub fn orbit_b_of(raw: &GpsOrbitBRaw) -> Option<GpsOrbitB>
    ensures exactly { IsSome result ↔ IsGpsOrbitB (orbit_b_in raw.now) }
    ensures same { IfSome result (λ value. value ≡ orbit_b_in raw.now) }
{
    let iode = unsigned::<8>(raw.iode)?;
    let cic = signed::<16>(&raw.cic)?;
    let omega0 = signed::<32>(&raw.omega0)?;
    let cis = signed::<16>(&raw.cis)?;
    let i0 = signed::<32>(&raw.i0)?;
    let crc = signed::<16>(&raw.crc)?;
    let omega = signed::<32>(&raw.omega)?;
    let omega_dot = signed::<24>(&raw.omega_dot)?;
    let idot = signed::<14>(&raw.idot)?;
    Some(GpsOrbitB {
        iode,
        cic,
        omega0,
        cis,
        i0,
        crc,
        omega,
        omega_dot,
        idot,
    })
}

/// Its numbers.
pub fn raw_orbit_b(value: &GpsOrbitB) -> GpsOrbitBRaw
    ensures { result ≡ raw_orbit_b value.now }
{
    GpsOrbitBRaw {
        iode: raw_unsigned(&value.iode),
        cic: raw_signed(&value.cic),
        omega0: raw_signed(&value.omega0),
        cis: raw_signed(&value.cis),
        i0: raw_signed(&value.i0),
        crc: raw_signed(&value.crc),
        omega: raw_signed(&value.omega),
        omega_dot: raw_signed(&value.omega_dot),
        idot: raw_signed(&value.idot),
    }
}

/// The ephemeris of these numbers; `None` if one is out of its range, or they are inconsistent.
pub fn gps_of(raw: &GpsRaw) -> Option<GpsEph>
    ensures exactly { IsSome result ↔ IsGpsItem (gps_in raw.now) }
    ensures same { IfSome result (λ value. value ≡ gps_in raw.now) }
{
    let sat = sat_of(System::Gps, raw.satellite)?;
    let clock = clock_of(&raw.clock)?;
    let side = side_of(&raw.side)?;
    let a = orbit_a_of(&raw.a)?;
    let fit = unsigned::<1>(raw.fit)?;
    let b = orbit_b_of(&raw.b)?;
    let toe_week = Week::new(raw.toe_week)?;
    GpsEph::new(sat, clock, side, a, fit, b, toe_week, sent_of(&raw.sent))
}

/// The numbers of an ephemeris.
pub fn raw_gps(value: &GpsEph) -> GpsRaw
    ensures { result ≡ raw_gps value.now }
{
    GpsRaw {
        satellite: u32::from(value.sat.number()),
        toe_week: value.toe_week.value(),
        sent: raw_sent(&value.sent),
        clock: raw_clock(&value.clock),
        side: raw_side(&value.side),
        a: raw_orbit_a(&value.a),
        b: raw_orbit_b(&value.b),
        fit: raw_unsigned(&value.fit),
    }
}

ghost use Rattle.std.specs.Prelude.{◌≡◌, ℕ, ◌<◌, Ok, Err, IfOk};
ghost use Rattle.nav_eph.specs.Satellite.{IsSat};
ghost use Rattle.nav_eph.specs.declared.sat.System.TheVariants.{Gps};
ghost use Rattle.rtcm_eph.specs.Reading.{IsOfSystem, content_1019, judged_1019};
ghost use Rattle.rtcm_eph.specs.Writing.{message_1019};

use crate::content::{EphemerisMessage, GpsContent};
use crate::fault::MessageFault;
use crate::message1019::Message1019;
use crate::satellite::{sat_number, satellite_of};
use nav_bits::U;
use nav_eph::{GpsClock, GpsEph, GpsOrbitA, GpsOrbitB, GpsSide, Sat, Step16, System};

// The clock parameters of message 1019.
fn clock(m: &Message1019, toc: Step16) -> GpsClock
    requires { toc ≡ m.now.toc }
    ensures { result ≡ (content_1019 m.now).clock }
{
    GpsClock {
        iodc: m.iodc,
        toc,
        af2: m.af2,
        af1: m.af1,
        af0: m.af0,
        tgd: m.tgd,
    }
}

// Code on L2, URA, health and L2 P data flag.
fn side(m: &Message1019) -> GpsSide
    ensures { result ≡ (content_1019 m.now).side }
{
    GpsSide {
        l2_code: m.l2_code,
        ura: m.ura,
        health: m.health,
        l2p: m.l2p,
    }
}

// The orbit parameters of subframe 2.
fn orbit_a(m: &Message1019, toe: Step16) -> GpsOrbitA
    requires { toe ≡ m.now.toe }
    ensures { result ≡ (content_1019 m.now).a }
{
    GpsOrbitA {
        iode: m.iode,
        crs: m.crs,
        delta_n: m.delta_n,
        m0: m.m0,
        cuc: m.cuc,
        e: m.e,
        cus: m.cus,
        root_a: m.root_a,
        toe,
    }
}

// The orbit parameters of subframe 3.
fn orbit_b(m: &Message1019) -> GpsOrbitB
    ensures { result ≡ (content_1019 m.now).b }
{
    GpsOrbitB {
        iode: m.iode,
        cic: m.cic,
        omega0: m.omega0,
        cis: m.cis,
        i0: m.i0,
        crc: m.crc,
        omega: m.omega,
        omega_dot: m.omega_dot,
        idot: m.idot,
    }
}

// What message 1019 carries, or its first fault.
pub(crate) fn judge_1019(m: &Message1019) -> Result<EphemerisMessage, MessageFault>
    ensures judged { result ≡ judged_1019 m.now }
    ensures system { IfOk result IsOfSystem }
{
    let sat = match satellite_of(System::Gps, m.satellite) {
        Some(sat) => sat,
        None => return Err(MessageFault::BadSat),
    };
    let toe = match Step16::new(m.toe.value()) {
        Some(toe) => toe,
        None => return Err(MessageFault::BadTime),
    };
    let toc = match Step16::new(m.toc.value()) {
        Some(toc) => toc,
        None => return Err(MessageFault::BadTime),
    };
    Ok(EphemerisMessage::Gps(GpsContent {
        sat,
        week: m.week,
        clock: clock(m, toc),
        side: side(m),
        a: orbit_a(m, toe),
        fit: m.fit,
        b: orbit_b(m),
    }))
}

// The fields of message 1019 for an ephemeris.
pub(crate) fn message_of(eph: &GpsEph) -> Message1019
    ensures { result ≡ message_1019 eph.now }
{
    Message1019 {
        satellite: sat_number(&eph.sat),
        week: U::from_bits((eph.toe_week.value() % 1024) as u64),
        ura: eph.side.ura,
        l2_code: eph.side.l2_code,
        idot: eph.b.idot,
        iode: eph.a.iode,
        toc: U::from_bits(eph.clock.toc.value()),
        af2: eph.clock.af2,
        af1: eph.clock.af1,
        af0: eph.clock.af0,
        iodc: eph.clock.iodc,
        crs: eph.a.crs,
        delta_n: eph.a.delta_n,
        m0: eph.a.m0,
        cuc: eph.a.cuc,
        e: eph.a.e,
        cus: eph.a.cus,
        root_a: eph.a.root_a,
        toe: U::from_bits(eph.a.toe.value()),
        cic: eph.b.cic,
        omega0: eph.b.omega0,
        cis: eph.b.cis,
        i0: eph.b.i0,
        crc: eph.b.crc,
        omega: eph.b.omega,
        omega_dot: eph.b.omega_dot,
        tgd: eph.clock.tgd,
        health: eph.side.health,
        l2p: eph.side.l2p,
        fit: eph.fit,
    }
}

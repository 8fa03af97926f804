ghost use Rattle.std.specs.Prelude.{◌≡◌, ℕ, ◌<◌, Ok, Err, IfOk};
ghost use Rattle.nav_eph.specs.Satellite.{IsSat};
ghost use Rattle.nav_eph.specs.declared.sat.System.TheVariants.{Gal};
ghost use Rattle.rtcm_eph.specs.Reading.{IsOfSystem, content_1046, judged_1046};
ghost use Rattle.rtcm_eph.specs.Writing.{message_1046};

use crate::content::{EphemerisMessage, GalContent};
use crate::fault::MessageFault;
use crate::message1046::Message1046;
use crate::satellite::{accuracy_of, index_of, sat_number, satellite_of};
use nav_bits::U;
use nav_eph::{GalEph, GalHealth, GalWord1, GalWord2, GalWord3, GalWord4, Sisa, Step60, System};

// Word type 1 by message 1046.
fn word1(m: &Message1046, toe: Step60) -> GalWord1
    requires { toe ≡ m.now.toe }
    ensures { result ≡ (content_1046 m.now).w1 }
{
    GalWord1 {
        iodnav: m.iodnav,
        toe,
        m0: m.m0,
        e: m.e,
        root_a: m.root_a,
    }
}

// Word type 2.
fn word2(m: &Message1046) -> GalWord2
    ensures { result ≡ (content_1046 m.now).w2 }
{
    GalWord2 {
        iodnav: m.iodnav,
        omega0: m.omega0,
        i0: m.i0,
        omega: m.omega,
        idot: m.idot,
    }
}

// Word type 3.
fn word3(m: &Message1046, sisa: Sisa) -> GalWord3
    requires { sisa ≡ m.now.sisa }
    ensures { result ≡ (content_1046 m.now).w3 }
{
    GalWord3 {
        iodnav: m.iodnav,
        omega_dot: m.omega_dot,
        delta_n: m.delta_n,
        cuc: m.cuc,
        cus: m.cus,
        crc: m.crc,
        crs: m.crs,
        sisa,
    }
}

// Word type 4.
fn word4(m: &Message1046, toc: Step60) -> GalWord4
    requires { toc ≡ m.now.toc }
    ensures { result ≡ (content_1046 m.now).w4 }
{
    GalWord4 {
        iodnav: m.iodnav,
        cic: m.cic,
        cis: m.cis,
        toc,
        af0: m.af0,
        af1: m.af1,
        af2: m.af2,
    }
}

// Group delays, signal health and data validity status.
fn health(m: &Message1046) -> GalHealth
    ensures { result ≡ (content_1046 m.now).health }
{
    GalHealth {
        bgd_a: m.bgd_a,
        bgd_b: m.bgd_b,
        hs_e5b: m.hs_e5b,
        hs_e1b: m.hs_e1b,
        dvs_e5b: m.dvs_e5b,
        dvs_e1b: m.dvs_e1b,
    }
}

// What message 1046 carries, or its first fault.
pub(crate) fn judge_1046(m: &Message1046) -> Result<EphemerisMessage, MessageFault>
    ensures judged { result ≡ judged_1046 m.now }
    ensures system { IfOk result IsOfSystem }
{
    let sat = match satellite_of(System::Gal, m.satellite) {
        Some(sat) => sat,
        None => return Err(MessageFault::BadSat),
    };
    let toe = match Step60::new(m.toe.value()) {
        Some(toe) => toe,
        None => return Err(MessageFault::BadTime),
    };
    let toc = match Step60::new(m.toc.value()) {
        Some(toc) => toc,
        None => return Err(MessageFault::BadTime),
    };
    let sisa = match accuracy_of(m.sisa) {
        Some(sisa) => sisa,
        None => return Err(MessageFault::SpareSisa),
    };
    Ok(EphemerisMessage::Gal(GalContent {
        sat,
        week: m.week,
        w1: word1(m, toe),
        w2: word2(m),
        w3: word3(m, sisa),
        w4: word4(m, toc),
        health: health(m),
    }))
}

// The fields of message 1046 for an ephemeris.
pub(crate) fn message_of(eph: &GalEph) -> Message1046
    ensures { result ≡ message_1046 eph.now }
{
    Message1046 {
        satellite: sat_number(&eph.sat),
        week: U::from_bits(((eph.toe_week.value() + 3072) % 4096) as u64),
        iodnav: eph.w1.iodnav,
        sisa: index_of(&eph.w3.sisa),
        idot: eph.w2.idot,
        toc: U::from_bits(eph.w4.toc.value()),
        af2: eph.w4.af2,
        af1: eph.w4.af1,
        af0: eph.w4.af0,
        crs: eph.w3.crs,
        delta_n: eph.w3.delta_n,
        m0: eph.w1.m0,
        cuc: eph.w3.cuc,
        e: eph.w1.e,
        cus: eph.w3.cus,
        root_a: eph.w1.root_a,
        toe: U::from_bits(eph.w1.toe.value()),
        cic: eph.w4.cic,
        omega0: eph.w2.omega0,
        cis: eph.w4.cis,
        i0: eph.w2.i0,
        crc: eph.w3.crc,
        omega: eph.w2.omega,
        omega_dot: eph.w3.omega_dot,
        bgd_a: eph.health.bgd_a,
        bgd_b: eph.health.bgd_b,
        hs_e5b: eph.health.hs_e5b,
        dvs_e5b: eph.health.dvs_e5b,
        hs_e1b: eph.health.hs_e1b,
        dvs_e1b: eph.health.dvs_e1b,
    }
}

//! Items from the fields of records.

ghost use Rattle.std.specs.Prelude.{◌≡◌, ◌+◌, ◌*◌, ◌^◌, ◌<◌, ◌≤◌, IfOk};
ghost use Rattle.nav_eph.specs.Steps.{IsStep16, IsStep60};
ghost use Rattle.nav_eph.specs.Weeks.{IsWeek};
ghost use Rattle.rinex_read.specs.Judging.{field, galileo_ionosphere_item};
ghost use Rattle.rinex_read.specs.Judging.{galileo_ionosphere_of, galileo_item, galileo_of};
ghost use Rattle.rinex_read.specs.Judging.{gps_ionosphere_item, gps_ionosphere_of, gps_clock_of};
ghost use Rattle.rinex_read.specs.Judging.{gps_item, gps_of, gps_orbit_a_of, gps_orbit_b_of};
ghost use Rattle.rinex_read.specs.Judging.{gps_side_of, health_stated, natural, sent_of, toc_of};
ghost use Rattle.rinex_read.specs.Judging.{galileo_word1_of, galileo_word2_of};
ghost use Rattle.rinex_read.specs.Judging.{galileo_word3_of, galileo_word4_of};
ghost use Rattle.rinex_read.specs.Mirrors.{AreGalileoFields, AreGalileoIonosphereFields};
ghost use Rattle.rinex_read.specs.Mirrors.{AreGpsFields, AreGpsIonosphereFields, IsBelowAt};
ghost use Rattle.rinex_read.specs.Mirrors.{IsSentAt, IsSignedAt, IsSisaAt, IsUnsignedAt, IsWeekAt};

use crate::reason::RecordFault;
use nav_bits::{S, U};
use nav_eph::{
    GalEph, GalHealth, GalIon, GalWord1, GalWord2, GalWord3, GalWord4, GpsClock, GpsEph, GpsIon,
    GpsOrbitA, GpsOrbitB, GpsSide, IonContent, IonEph, Moment, NavItem, Sat, SentSecond, Sisa,
    Step16, Step60, Week,
};

// Field k as an unsigned number, and in two's complement.
fn unsigned<const W: u32>(fields: &[i64], k: usize) -> U<W>
    requires few { W ≤ 32 }
    requires field { IsUnsignedAt W fields.now k }
    ensures { result ≡ natural fields.now k }
{
    U::from_bits(fields[k] as u64)
}

fn signed<const W: u32>(fields: &[i64], k: usize) -> S<W>
    requires { IsSignedAt W fields.now k }
    ensures { result ≡ field fields.now k }
{
    match S::new(fields[k]) {
        Some(number) => number,
        None => unreachable!(),
    }
}

// Steps of 16 s and of 60 s in a week.
fn step16(steps: u64) -> Step16
    requires { IsStep16 steps }
    ensures { result ≡ steps }
{
    match Step16::new(steps) {
        Some(time) => time,
        None => unreachable!(),
    }
}

fn step60(steps: u64) -> Step60
    requires { IsStep60 steps }
    ensures { result ≡ steps }
{
    match Step60::new(steps) {
        Some(time) => time,
        None => unreachable!(),
    }
}

// The same of field k.
fn step16_at(fields: &[i64], k: usize) -> Step16
    requires { IsBelowAt 37800 fields.now k }
    ensures { result ≡ natural fields.now k }
{
    step16(fields[k] as u64)
}

fn step60_at(fields: &[i64], k: usize) -> Step60
    requires { IsBelowAt 10080 fields.now k }
    ensures { result ≡ natural fields.now k }
{
    step60(fields[k] as u64)
}

// The week of field k.
fn week(fields: &[i64], k: usize) -> Week
    requires { IsWeekAt fields.now k }
    ensures { result ≡ natural fields.now k }
{
    Week::from_number(fields[k] as u32)
}

// The SISA index of field k.
fn sisa(fields: &[i64], k: usize) -> Sisa
    requires { IsSisaAt fields.now k }
    ensures { result ≡ natural fields.now k }
{
    match Sisa::new(fields[k] as u64) {
        Some(accuracy) => accuracy,
        None => unreachable!(),
    }
}

// The transmission time of field k.
fn sent(fields: &[i64], k: usize) -> SentSecond
    requires { IsSentAt fields.now k }
    ensures { result ≡ sent_of (field fields.now k) }
{
    let second = fields[k];
    if second <= 907_199 {
        SentSecond::At(second as i32)
    } else {
        SentSecond::Unknown
    }
}

// toc in steps of the week, from the epoch.
fn toc_of(step: u64, moment: Moment, toe_week: u64, toe: u64) -> Result<u64, RecordFault>
    requires step { 1 ≤ step }
    requires small { step ≤ 60 }
    requires week { IsWeek toe_week }
    requires toe { toe < 37800 }
    ensures toc { result ≡ toc_of step moment toe_week toe }
    ensures within { IfOk result (λ toc. step * toc < 604800) }
{
    let second = moment.value() % 604_800;
    if second % step != 0 {
        return Err(RecordFault::EpochStep);
    }
    let near = 604_800 * toe_week + step * toe;
    if near >= moment.value() + 302_400 {
        return Err(RecordFault::EpochFar);
    }
    if moment.value() > near + 302_400 {
        return Err(RecordFault::EpochFar);
    }
    Ok(second / step)
}

// The parts of a GPS ephemeris from its fields.
#[tactic(auto, unfolding(crate::specs::Judging::gps_clock_of))]
fn gps_clock_of(toc: u64, fields: &[i64]) -> GpsClock
    requires toc { IsStep16 toc }
    requires fields { AreGpsFields fields.now }
    ensures { result ≡ gps_clock_of toc fields.now }
{
    GpsClock {
        iodc: unsigned(fields, 26),
        toc: step16(toc),
        af2: signed(fields, 2),
        af1: signed(fields, 1),
        af0: signed(fields, 0),
        tgd: signed(fields, 25),
    }
}

#[tactic(auto, unfolding(crate::specs::Judging::gps_side_of))]
fn gps_side_of(fields: &[i64]) -> GpsSide
    requires { AreGpsFields fields.now }
    ensures { result ≡ gps_side_of fields.now }
{
    GpsSide {
        l2_code: unsigned(fields, 20),
        ura: unsigned(fields, 23),
        health: unsigned(fields, 24),
        l2p: unsigned(fields, 22),
    }
}

#[tactic(auto, unfolding(crate::specs::Judging::gps_orbit_a_of))]
fn gps_orbit_a_of(fields: &[i64]) -> GpsOrbitA
    requires { AreGpsFields fields.now }
    ensures { result ≡ gps_orbit_a_of fields.now }
{
    GpsOrbitA {
        iode: unsigned(fields, 3),
        crs: signed(fields, 4),
        delta_n: signed(fields, 5),
        m0: signed(fields, 6),
        cuc: signed(fields, 7),
        e: unsigned(fields, 8),
        cus: signed(fields, 9),
        root_a: unsigned(fields, 10),
        toe: step16_at(fields, 11),
    }
}

#[tactic(auto, unfolding(crate::specs::Judging::gps_orbit_b_of))]
fn gps_orbit_b_of(fields: &[i64]) -> GpsOrbitB
    requires { AreGpsFields fields.now }
    ensures { result ≡ gps_orbit_b_of fields.now }
{
    GpsOrbitB {
        iode: unsigned(fields, 3),
        cic: signed(fields, 12),
        omega0: signed(fields, 13),
        cis: signed(fields, 14),
        i0: signed(fields, 15),
        crc: signed(fields, 16),
        omega: signed(fields, 17),
        omega_dot: signed(fields, 18),
        idot: signed(fields, 19),
    }
}

// The GPS ephemeris of these fields.
#[tactic(auto, unfolding(crate::specs::Judging::gps_of))]
fn gps_of(sat: Sat, toc: u64, fields: &[i64]) -> GpsEph
    requires toc { IsStep16 toc }
    requires fields { AreGpsFields fields.now }
    ensures { result ≡ gps_of sat toc fields.now }
{
    GpsEph {
        sat,
        clock: gps_clock_of(toc, fields),
        side: gps_side_of(fields),
        a: gps_orbit_a_of(fields),
        fit: unsigned(fields, 28),
        b: gps_orbit_b_of(fields),
        toe_week: week(fields, 21),
        sent: sent(fields, 27),
    }
}

// The parts of a Galileo ephemeris from its fields.
#[tactic(auto, unfolding(crate::specs::Judging::galileo_word1_of))]
fn galileo_word1_of(fields: &[i64]) -> GalWord1
    requires { AreGalileoFields fields.now }
    ensures { result ≡ galileo_word1_of fields.now }
{
    GalWord1 {
        iodnav: unsigned(fields, 3),
        toe: step60_at(fields, 11),
        m0: signed(fields, 6),
        e: unsigned(fields, 8),
        root_a: unsigned(fields, 10),
    }
}

#[tactic(auto, unfolding(crate::specs::Judging::galileo_word2_of))]
fn galileo_word2_of(fields: &[i64]) -> GalWord2
    requires { AreGalileoFields fields.now }
    ensures { result ≡ galileo_word2_of fields.now }
{
    GalWord2 {
        iodnav: unsigned(fields, 3),
        omega0: signed(fields, 13),
        i0: signed(fields, 15),
        omega: signed(fields, 17),
        idot: signed(fields, 19),
    }
}

#[tactic(auto, unfolding(crate::specs::Judging::galileo_word3_of))]
fn galileo_word3_of(fields: &[i64]) -> GalWord3
    requires { AreGalileoFields fields.now }
    ensures { result ≡ galileo_word3_of fields.now }
{
    GalWord3 {
        iodnav: unsigned(fields, 3),
        omega_dot: signed(fields, 18),
        delta_n: signed(fields, 5),
        cuc: signed(fields, 7),
        cus: signed(fields, 9),
        crc: signed(fields, 16),
        crs: signed(fields, 4),
        sisa: sisa(fields, 22),
    }
}

#[tactic(auto, unfolding(crate::specs::Judging::galileo_word4_of))]
fn galileo_word4_of(toc: u64, fields: &[i64]) -> GalWord4
    requires toc { IsStep60 toc }
    requires fields { AreGalileoFields fields.now }
    ensures { result ≡ galileo_word4_of toc fields.now }
{
    GalWord4 {
        iodnav: unsigned(fields, 3),
        cic: signed(fields, 12),
        cis: signed(fields, 14),
        toc: step60(toc),
        af0: signed(fields, 0),
        af1: signed(fields, 1),
        af2: signed(fields, 2),
    }
}

// The health of a Galileo satellite.
fn health_stated(fields: &[i64]) -> GalHealth
    requires { AreGalileoFields fields.now }
    ensures { result ≡ health_stated (field fields.now 24) (field fields.now 25)
        (natural fields.now 23) }
{
    let number: U<9> = unsigned(fields, 23);
    let number = number.value();
    GalHealth {
        bgd_a: signed(fields, 24),
        bgd_b: signed(fields, 25),
        hs_e5b: U::from_bits(number / 128 % 4),
        hs_e1b: U::from_bits(number / 2 % 4),
        dvs_e5b: U::from_bits(number / 64 % 2),
        dvs_e1b: U::from_bits(number % 2),
    }
}

// The Galileo ephemeris of these fields.
#[tactic(auto, unfolding(crate::specs::Judging::galileo_of))]
fn galileo_of(sat: Sat, toc: u64, fields: &[i64]) -> GalEph
    requires toc { IsStep60 toc }
    requires fields { AreGalileoFields fields.now }
    ensures { result ≡ galileo_of sat toc fields.now }
{
    GalEph {
        sat,
        w1: galileo_word1_of(fields),
        w2: galileo_word2_of(fields),
        w3: galileo_word3_of(fields),
        w4: galileo_word4_of(toc, fields),
        health: health_stated(fields),
        toe_week: week(fields, 21),
        sent: sent(fields, 26),
    }
}

// The ionosphere parameters of these fields.
#[tactic(auto, unfolding(crate::specs::Judging::gps_ionosphere_of))]
fn gps_ionosphere_of(fields: &[i64]) -> GpsIon
    requires { AreGpsIonosphereFields fields.now }
    ensures { result ≡ gps_ionosphere_of fields.now }
{
    GpsIon {
        alpha0: signed(fields, 0),
        alpha1: signed(fields, 1),
        alpha2: signed(fields, 2),
        alpha3: signed(fields, 3),
        beta0: signed(fields, 4),
        beta1: signed(fields, 5),
        beta2: signed(fields, 6),
        beta3: signed(fields, 7),
    }
}

#[tactic(auto, unfolding(crate::specs::Judging::galileo_ionosphere_of))]
fn galileo_ionosphere_of(fields: &[i64]) -> GalIon
    requires { AreGalileoIonosphereFields fields.now }
    ensures { result ≡ galileo_ionosphere_of fields.now }
{
    GalIon {
        ai0: unsigned(fields, 0),
        ai1: signed(fields, 1),
        ai2: signed(fields, 2),
        regions: unsigned(fields, 3),
    }
}

/// The GPS ephemeris of a satellite with this epoch and these fields.
pub(crate) fn gps_item(sat: Sat, moment: Moment, fields: &[i64]) -> Result<NavItem, RecordFault>
    requires { AreGpsFields fields.now }
    ensures { result ≡ gps_item (record { sat = sat; moment = moment; fields = fields.now }) }
{
    let toe_week = week(fields, 21);
    let toe = step16_at(fields, 11);
    let toc = toc_of(16, moment, u64::from(toe_week.value()), toe.value())?;
    Ok(NavItem::Gps(gps_of(sat, toc, fields)))
}

/// The Galileo ephemeris of a satellite with this epoch and these fields.
pub(crate) fn galileo_item(sat: Sat, moment: Moment, fields: &[i64]) -> Result<NavItem, RecordFault>
    requires { AreGalileoFields fields.now }
    ensures { result ≡ galileo_item (record { sat = sat; moment = moment; fields = fields.now }) }
{
    let toe_week = week(fields, 21);
    let toe = step60_at(fields, 11);
    let toc = toc_of(60, moment, u64::from(toe_week.value()), toe.value())?;
    Ok(NavItem::Gal(galileo_of(sat, toc, fields)))
}

/// The GPS ionosphere parameters of a satellite with this transmission time and these fields.
pub(crate) fn gps_ionosphere_item(
    sat: Sat,
    moment: Moment,
    fields: &[i64],
) -> Result<NavItem, RecordFault>
    requires { AreGpsIonosphereFields fields.now }
    ensures { result ≡ gps_ionosphere_item
        (record { sat = sat; moment = moment; fields = fields.now }) }
{
    let content = IonContent::Gps(gps_ionosphere_of(fields));
    Ok(NavItem::Ion(IonEph {
        sat,
        moment,
        content,
    }))
}

/// The Galileo ionosphere parameters of a satellite with this transmission time and these fields.
pub(crate) fn galileo_ionosphere_item(
    sat: Sat,
    moment: Moment,
    fields: &[i64],
) -> Result<NavItem, RecordFault>
    requires { AreGalileoIonosphereFields fields.now }
    ensures { result ≡ galileo_ionosphere_item
        (record { sat = sat; moment = moment; fields = fields.now }) }
{
    let content = IonContent::Gal(galileo_ionosphere_of(fields));
    Ok(NavItem::Ion(IonEph {
        sat,
        moment,
        content,
    }))
}

//! Galileo ephemerides, from and to raw integers.

ghost use Rattle.std.specs.Prelude.{◌≡◌, ◌↔◌, IsSome, IfSome};
ghost use Rattle.nav_eph.specs.Bodies.{IsGalHealth};
ghost use Rattle.nav_eph.specs.Ranges.{IsGalItem, IsGalWord1, IsGalWord2, IsGalWord3, IsGalWord4};
ghost use Rattle.raw_values.specs.Gal.{word1_in, word2_in, word3_in, word4_in, health_in, gal_in};
ghost use Rattle.raw_values.specs.Gal.{raw_word1, raw_word2, raw_word3};
ghost use Rattle.raw_values.specs.Gal.{raw_word4, raw_health, raw_gal};

use crate::gal_raw::{GalHealthRaw, GalRaw, GalWord1Raw, GalWord2Raw, GalWord3Raw, GalWord4Raw};
use crate::numbers::{raw_signed, raw_unsigned, signed, sisa, step60, unsigned};
use crate::sat::sat_of;
use crate::sent::{raw_sent, sent_of};
use nav_eph::{GalEph, GalHealth, GalWord1, GalWord2, GalWord3, GalWord4, System, Week};

/// The value of these numbers; `None` if one is out of its range.
pub fn word1_of(raw: &GalWord1Raw) -> Option<GalWord1>
    ensures exactly { IsSome result ↔ IsGalWord1 (word1_in raw.now) }
    ensures same { IfSome result (λ value. value ≡ word1_in raw.now) }
{
    let iodnav = unsigned::<10>(raw.iodnav)?;
    let toe = step60(raw.toe)?;
    let m0 = signed::<32>(&raw.m0)?;
    let e = unsigned::<32>(raw.e)?;
    let root_a = unsigned::<32>(raw.root_a)?;
    Some(GalWord1 {
        iodnav,
        toe,
        m0,
        e,
        root_a,
    })
}

/// Its numbers.
pub fn raw_word1(value: &GalWord1) -> GalWord1Raw
    ensures { result ≡ raw_word1 value.now }
{
    GalWord1Raw {
        iodnav: raw_unsigned(&value.iodnav),
        toe: value.toe.value() as u32,
        m0: raw_signed(&value.m0),
        e: raw_unsigned(&value.e),
        root_a: raw_unsigned(&value.root_a),
    }
}

/// The value of these numbers; `None` if one is out of its range.
pub fn word2_of(raw: &GalWord2Raw) -> Option<GalWord2>
    ensures exactly { IsSome result ↔ IsGalWord2 (word2_in raw.now) }
    ensures same { IfSome result (λ value. value ≡ word2_in raw.now) }
{
    let iodnav = unsigned::<10>(raw.iodnav)?;
    let omega0 = signed::<32>(&raw.omega0)?;
    let i0 = signed::<32>(&raw.i0)?;
    let omega = signed::<32>(&raw.omega)?;
    let idot = signed::<14>(&raw.idot)?;
    Some(GalWord2 {
        iodnav,
        omega0,
        i0,
        omega,
        idot,
    })
}

/// Its numbers.
pub fn raw_word2(value: &GalWord2) -> GalWord2Raw
    ensures { result ≡ raw_word2 value.now }
{
    GalWord2Raw {
        iodnav: raw_unsigned(&value.iodnav),
        omega0: raw_signed(&value.omega0),
        i0: raw_signed(&value.i0),
        omega: raw_signed(&value.omega),
        idot: raw_signed(&value.idot),
    }
}

/// The value of these numbers; `None` if one is out of its range.
pub fn word3_of(raw: &GalWord3Raw) -> Option<GalWord3>
    ensures exactly { IsSome result ↔ IsGalWord3 (word3_in raw.now) }
    ensures same { IfSome result (λ value. value ≡ word3_in raw.now) }
{
    let iodnav = unsigned::<10>(raw.iodnav)?;
    let omega_dot = signed::<24>(&raw.omega_dot)?;
    let delta_n = signed::<16>(&raw.delta_n)?;
    let cuc = signed::<16>(&raw.cuc)?;
    let cus = signed::<16>(&raw.cus)?;
    let crc = signed::<16>(&raw.crc)?;
    let crs = signed::<16>(&raw.crs)?;
    let sisa = sisa(raw.sisa)?;
    Some(GalWord3 {
        iodnav,
        omega_dot,
        delta_n,
        cuc,
        cus,
        crc,
        crs,
        sisa,
    })
}

/// Its numbers.
pub fn raw_word3(value: &GalWord3) -> GalWord3Raw
    ensures { result ≡ raw_word3 value.now }
{
    GalWord3Raw {
        iodnav: raw_unsigned(&value.iodnav),
        omega_dot: raw_signed(&value.omega_dot),
        delta_n: raw_signed(&value.delta_n),
        cuc: raw_signed(&value.cuc),
        cus: raw_signed(&value.cus),
        crc: raw_signed(&value.crc),
        crs: raw_signed(&value.crs),
        sisa: value.sisa.value() as u32,
    }
}

/// The value of these numbers; `None` if one is out of its range.
pub fn word4_of(raw: &GalWord4Raw) -> Option<GalWord4>
    ensures exactly { IsSome result ↔ IsGalWord4 (word4_in raw.now) }
    ensures same { IfSome result (λ value. value ≡ word4_in raw.now) }
{
    let iodnav = unsigned::<10>(raw.iodnav)?;
    let cic = signed::<16>(&raw.cic)?;
    let cis = signed::<16>(&raw.cis)?;
    let toc = step60(raw.toc)?;
    let af0 = signed::<31>(&raw.af0)?;
    let af1 = signed::<21>(&raw.af1)?;
    let af2 = signed::<6>(&raw.af2)?;
    Some(GalWord4 {
        iodnav,
        cic,
        cis,
        toc,
        af0,
        af1,
        af2,
    })
}

/// Its numbers.
pub fn raw_word4(value: &GalWord4) -> GalWord4Raw
    ensures { result ≡ raw_word4 value.now }
{
    GalWord4Raw {
        iodnav: raw_unsigned(&value.iodnav),
        cic: raw_signed(&value.cic),
        cis: raw_signed(&value.cis),
        toc: value.toc.value() as u32,
        af0: raw_signed(&value.af0),
        af1: raw_signed(&value.af1),
        af2: raw_signed(&value.af2),
    }
}

/// The value of these numbers; `None` if one is out of its range.
pub fn health_of(raw: &GalHealthRaw) -> Option<GalHealth>
    ensures exactly { IsSome result ↔ IsGalHealth (health_in raw.now) }
    ensures same { IfSome result (λ value. value ≡ health_in raw.now) }
{
    let bgd_a = signed::<10>(&raw.bgd_a)?;
    let bgd_b = signed::<10>(&raw.bgd_b)?;
    let hs_e5b = unsigned::<2>(raw.hs_e5b)?;
    let hs_e1b = unsigned::<2>(raw.hs_e1b)?;
    let dvs_e5b = unsigned::<1>(raw.dvs_e5b)?;
    let dvs_e1b = unsigned::<1>(raw.dvs_e1b)?;
    Some(GalHealth {
        bgd_a,
        bgd_b,
        hs_e5b,
        hs_e1b,
        dvs_e5b,
        dvs_e1b,
    })
}

/// Its numbers.
pub fn raw_health(value: &GalHealth) -> GalHealthRaw
    ensures { result ≡ raw_health value.now }
{
    GalHealthRaw {
        bgd_a: raw_signed(&value.bgd_a),
        bgd_b: raw_signed(&value.bgd_b),
        hs_e5b: raw_unsigned(&value.hs_e5b),
        hs_e1b: raw_unsigned(&value.hs_e1b),
        dvs_e5b: raw_unsigned(&value.dvs_e5b),
        dvs_e1b: raw_unsigned(&value.dvs_e1b),
    }
}

/// The ephemeris of these numbers; `None` if one is out of its range, or they are inconsistent.
pub fn gal_of(raw: &GalRaw) -> Option<GalEph>
    ensures exactly { IsSome result ↔ IsGalItem (gal_in raw.now) }
    ensures same { IfSome result (λ value. value ≡ gal_in raw.now) }
{
    let sat = sat_of(System::Gal, raw.satellite)?;
    let w1 = word1_of(&raw.w1)?;
    let w2 = word2_of(&raw.w2)?;
    let w3 = word3_of(&raw.w3)?;
    let w4 = word4_of(&raw.w4)?;
    let health = health_of(&raw.health)?;
    let toe_week = Week::new(raw.toe_week)?;
    GalEph::new(sat, w1, w2, w3, w4, health, toe_week, sent_of(&raw.sent))
}

/// The numbers of an ephemeris.
pub fn raw_gal(value: &GalEph) -> GalRaw
    ensures { result ≡ raw_gal value.now }
{
    GalRaw {
        satellite: u32::from(value.sat.number()),
        toe_week: value.toe_week.value(),
        sent: raw_sent(&value.sent),
        w1: raw_word1(&value.w1),
        w2: raw_word2(&value.w2),
        w3: raw_word3(&value.w3),
        w4: raw_word4(&value.w4),
        health: raw_health(&value.health),
    }
}

use crate::samples;
use crate::samples::gps;
use nav_bits::{S, U};
use nav_eph::{
    Body, GalEph, GalHealth, GalIon, GalWord2, GpsEph, GpsIon, GpsSide, IonContent, IonEph, Moment,
    NavItem, Part, Sat, Second, SentSecond, SentTag, Sisa, Step16, Step60, System, Week,
    gal_transmission_number, gps_transmission_number,
};
use raw_values::{
    galileo_word1, galileo_word2, galileo_word3, galileo_word4, gps_clock, gps_orbit_a, gps_orbit_b,
};

fn side() -> GpsSide {
    GpsSide {
        l2_code: U::from_bits(1),
        ura: U::from_bits(2),
        health: U::from_bits(63),
        l2p: U::from_bits(1),
    }
}

fn health() -> GalHealth {
    GalHealth {
        bgd_a: S::from_bits(0x3FF),
        bgd_b: S::from_bits(1),
        hs_e5b: U::from_bits(2),
        hs_e1b: U::from_bits(3),
        dvs_e5b: U::from_bits(1),
        dvs_e1b: U::from_bits(0),
    }
}

fn gps_ionosphere() -> GpsIon {
    GpsIon {
        alpha0: S::from_bits(0xFF),
        alpha1: S::from_bits(0x7F),
        alpha2: S::from_bits(0),
        alpha3: S::from_bits(0),
        beta0: S::from_bits(0),
        beta1: S::from_bits(0),
        beta2: S::from_bits(0),
        beta3: S::from_bits(0x80),
    }
}

fn galileo_ionosphere() -> GalIon {
    GalIon {
        ai0: U::from_bits(0x7FF),
        ai1: S::from_bits(0x7FF),
        ai2: S::from_bits(0),
        regions: U::from_bits(16),
    }
}

fn small_values() -> Option<bool> {
    let step16 = Step16::new(37_799)?;
    let step60 = Step60::new(10_079)?;
    let sisa = Sisa::new(255)?;
    let last = Sat::new(System::Gps, 32)?;
    let first = Sat::new(System::Gal, 1)?;
    let values = step16.value() == 37_799 && step60.value() == 10_079 && sisa.value() == 255;
    let name = last.system() == System::Gps && last.number() == 32;
    Some(values && name && last < first && last.is_before(&first))
}

// The numbers by which values are compared.
fn numbers() -> Option<bool> {
    let wn = U::from_bits(247);
    let second = Second::new(604_799)?;
    let sent = SentTag::Sent { wn, second };
    let toe = SentTag::Toe { wn, second };
    let tags = sent.number() == 0x0_0F7_93A7F && toe.number() == 0x1_0F7_93A7F;
    let side = side().number() == 0b01_0010_111111_1;
    let health = health().number_with(&sent) >> 33 == 0b1111111111_0000000001_10_11_1_0;
    let gps = IonContent::Gps(gps_ionosphere()).number() == 0xFF7F_0000_0000_0080;
    let galileo = IonContent::Gal(galileo_ionosphere()).number()
        == 0b11111111111_11111111111_00000000000000_10000;
    let of_gps = gps_transmission_number(second) == 604_799;
    let of_galileo = gal_transmission_number(U::from_bits(0xFFF), second) == 0xFFF_93A7F;
    Some(tags && side && health && gps && galileo && of_gps && of_galileo)
}

// A clock of issue 7 and a health of Galileo, sent in the second 0 of a week number.
fn clock_body(wn: U<12>) -> Option<Body> {
    let second = Second::new(0)?;
    let clock = gps_clock(U::from_bits(7), Step16::new(0)?);
    Some(Body::GpsClock(clock, side(), SentTag::Sent { wn, second }))
}

fn health_body(wn: U<12>) -> Option<Body> {
    let second = Second::new(0)?;
    Some(Body::GalHealth(health(), SentTag::Sent { wn, second }))
}

fn parts() -> Option<bool> {
    let _inside: Option<SentTag> = None;
    let sat = gps(5)?;
    let (last, next) = (U::from_bits(1_023), U::from_bits(1_024));
    let part = Part::new(60, sat, clock_body(last)?)?;
    let long = Part::new(60, sat, clock_body(next)?);
    let other = Part::new(60, sat, health_body(next)?);
    Some(part.stamp == 60 && long.is_none() && other.is_none())
}

// The ephemeris of issue 7 of G05.
fn ephemeris(sent: SentSecond) -> Option<GpsEph> {
    let zero = Step16::new(0)?;
    let clock = gps_clock(U::from_bits(7), zero);
    let a = gps_orbit_a(U::from_bits(7), S::from_bits(0), zero);
    let b = gps_orbit_b(U::from_bits(7));
    let week = Week::new(2_295)?;
    let fit = U::from_bits(0);
    GpsEph::new(gps(5)?, clock, side(), a, fit, b, week, sent)
}

// The ionosphere that G05 says at a moment.
fn ionosphere(seconds: u64) -> Option<IonEph> {
    IonEph::new(
        gps(5)?,
        Moment::new(seconds)?,
        IonContent::Gps(gps_ionosphere()),
    )
}

fn items() -> Option<bool> {
    let late = NavItem::Gps(ephemeris(SentSecond::At(907_199))?);
    let early = NavItem::Gps(ephemeris(SentSecond::At(-302_400))?);
    let eph = ephemeris(SentSecond::Unknown)?;
    let b = gps_orbit_b(U::from_bits(8));
    late.ranges();
    let whole = late.is_whole() && !NavItem::Gps(GpsEph { b, ..eph }).is_whole();
    let alike = late.is_alike(&early) && !late.is_same(&early);
    let too_late = ephemeris(SentSecond::At(907_200));
    let of_g05 = ionosphere(604_800)?.sat == gps(5)?;
    Some(whole && alike && too_late.is_none() && of_g05 && ionosphere(604_799).is_none())
}

// The ephemeris of issue 63 of E05 with another second word.
fn galileo_ephemeris(w2: GalWord2) -> Option<GalEph> {
    let issue = U::from_bits(63);
    let zero = Step60::new(0)?;
    let sisa = Sisa::new(107)?;
    let (w1, w3, w4) = (
        galileo_word1(issue, zero),
        galileo_word3(issue, sisa),
        galileo_word4(issue, zero),
    );
    let week = Week::new(2_295)?;
    let sent = SentSecond::Unknown;
    GalEph::new(samples::galileo(5)?, w1, w2, w3, w4, health(), week, sent)
}

fn galileo() -> Option<bool> {
    let eph = galileo_ephemeris(galileo_word2(U::from_bits(63)))?;
    let other = galileo_ephemeris(galileo_word2(U::from_bits(64)));
    Some(eph.w3.sisa.value() == 107 && other.is_none())
}

#[test]
fn values(rt: HostRuntime) {
    let small = small_values() == Some(true) && numbers() == Some(true);
    let whole = parts() == Some(true) && items() == Some(true) && galileo() == Some(true);
    assert!(rt; small && whole);
}

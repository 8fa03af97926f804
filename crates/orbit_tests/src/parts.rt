//! Parts as they are heard.

use crate::samples::{galileo, gps};
use nav_bits::{S, U};
use nav_eph::{Body, GalIon, Part, Sat, Second, SentTag, Sisa, Step16, Step60};
use raw_values::{
    galileo_health, galileo_word1, galileo_word2, galileo_word3, galileo_word4, gps_clock,
    gps_ionosphere, gps_orbit_a, gps_orbit_b, gps_side,
};
use std::alloc::{AllocError, Global};

// What is heard. Where nothing else is said it is of issue 0 of G05, or of issue 5 of E11.
#[derive(Clone, Copy)]
pub(crate) enum Kind {
    // The clock, sent at the start of week 2295.
    Clock,
    // The same, with a health of the satellite.
    ClockOfHealth { health: u64 },
    // The clock, with an accuracy, a week and a transmission time.
    ClockSent { ura: u64, wn: u64, second: u32 },
    // The clock, with an accuracy, of which the toe at the start of week 2295 is known alone.
    ClockOfToe { ura: u64 },
    // The first half of the orbit, with a mean anomaly.
    OrbitA { m0: u64 },
    // The second half of the orbit of an issue.
    OrbitB { iode: u64 },
    // A word.
    Word { number: u8 },
    // A health of E1-B, sent in the second 8 of week 2295.
    Health { hs_e1b: u64 },
    // The ionosphere of GPS, sent by a satellite in the second 18.
    Ion { satellite: u8 },
    // The ionosphere of Galileo, sent in the second 8 of week 2295.
    GalIon,
}

// What is heard, and when.
#[derive(Clone, Copy)]
pub(crate) struct Received {
    pub(crate) stamp: u32,
    pub(crate) kind: Kind,
}

// The three parts of an ephemeris of GPS.
pub(crate) const A: Kind = Kind::Clock;

pub(crate) const B: Kind = Kind::OrbitA { m0: 0 };

pub(crate) const C: Kind = Kind::OrbitB { iode: 0 };

fn sent(wn: u64, second: u32) -> Option<SentTag> {
    Some(SentTag::Sent {
        wn: U::new(wn)?,
        second: Second::new(second)?,
    })
}

fn clock_body(ura: u64, health: u64, tag: SentTag) -> Option<Body> {
    let toc = Step16::new(0)?;
    let side = gps_side(U::from_bits(ura % 16), U::from_bits(health % 64));
    Some(Body::GpsClock(gps_clock(U::from_bits(0), toc), side, tag))
}

fn orbit_body(m0: u64) -> Option<Body> {
    let toe = Step16::new(0)?;
    let a = gps_orbit_a(U::from_bits(0), S::from_bits(m0 % 2), toe);
    Some(Body::GpsA(a, U::from_bits(0)))
}

fn word_body(number: u8) -> Option<Body> {
    let issue = U::from_bits(5);
    let zero = Step60::new(0)?;
    let sisa = Sisa::new(107)?;
    Some(match number {
        1 => Body::GalW1(galileo_word1(issue, zero)),
        2 => Body::GalW2(galileo_word2(issue)),
        3 => Body::GalW3(galileo_word3(issue, sisa)),
        _ => Body::GalW4(galileo_word4(issue, zero)),
    })
}

fn health_body(hs_e1b: u64) -> Option<Body> {
    let health = galileo_health(U::from_bits(hs_e1b % 4));
    Some(Body::GalHealth(health, sent(1_271, 8)?))
}

fn ionosphere_body() -> Option<Body> {
    let second = Second::new(8)?;
    let content = GalIon {
        ai0: U::from_bits(0),
        ai1: S::from_bits(0),
        ai2: S::from_bits(0),
        regions: U::from_bits(0),
    };
    Some(Body::GalIon(content, U::from_bits(1_271), second))
}

fn body(kind: Kind) -> Option<Body> {
    let toe = SentTag::Toe {
        wn: U::from_bits(247),
        second: Second::new(0)?,
    };
    match kind {
        Kind::Clock => clock_body(0, 0, sent(247, 0)?),
        Kind::ClockOfHealth { health } => clock_body(0, health, sent(247, 0)?),
        Kind::ClockSent { ura, wn, second } => clock_body(ura, 0, sent(wn, second)?),
        Kind::ClockOfToe { ura } => clock_body(ura, 0, toe),
        Kind::OrbitA { m0 } => orbit_body(m0),
        Kind::OrbitB { iode } => Some(Body::GpsB(gps_orbit_b(U::from_bits(iode % 256)))),
        Kind::Word { number } => word_body(number),
        Kind::Health { hs_e1b } => health_body(hs_e1b),
        Kind::Ion { .. } => {
            let content = gps_ionosphere(S::from_bits(11), S::from_bits(44));
            Some(Body::GpsIon(content, Second::new(18)?))
        }
        Kind::GalIon => ionosphere_body(),
    }
}

fn sender(kind: Kind) -> Option<Sat> {
    match kind {
        Kind::Word { .. } | Kind::Health { .. } | Kind::GalIon => galileo(11),
        Kind::Ion { satellite } => gps(satellite),
        _ => gps(5),
    }
}

fn part(heard: &Received) -> Option<Part> {
    Some(Part {
        stamp: heard.stamp,
        sat: sender(heard.kind)?,
        body: body(heard.kind)?,
    })
}

// The parts that are heard, but for those that there are not.
pub(crate) fn parts_of(alloc: Global, heard: &[Received]) -> Result<Vec<Part>, AllocError> {
    let (_body, _tag): (Option<Body>, Option<SentTag>) = (None, None);
    let mut parts = Vec::new(alloc);
    for heard in heard {
        if let Some(part) = part(heard) {
            parts.push(part)?;
        }
    }
    Ok(parts)
}

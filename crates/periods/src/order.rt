ghost use Rattle.std.specs.Prelude.{◌≡◌, ◌∷◌, [], ◌==◌, ◌&&◌};
ghost use Rattle.nav_eph.specs.Satellite.{place_of};
ghost use Rattle.periods.specs.Parts.{key_of};
ghost use Rattle.periods.specs.Readings.{same_sat};
ghost use Rattle.periods.specs.Periods.{key_numbers};
ghost use Rattle.periods.specs.KeyTests.{is_of, same_key};
ghost use Rattle.periods.specs.PeriodsOf.{is_before, place_at, stamp_of};

use crate::key::{PeriodId, PeriodKey};
use nav_bits::U;
use nav_eph::{Body, Part, Sat, System};

/// Both are the same satellite.
pub fn is_same_sat(a: &Sat, b: &Sat) -> bool
    ensures { result ≡ same_sat a.now b.now }
{
    a.system() == b.system() && a.number() == b.number()
}

// Both keys are the same.
fn is_same_key(a: &PeriodKey, b: &PeriodKey) -> bool
    ensures { result ≡ same_key a.now b.now }
{
    match (a, b) {
        (PeriodKey::Gps(s, i), PeriodKey::Gps(t, j)) => is_same_sat(s, t) && i.value() == j.value(),
        (PeriodKey::Gal(s, i), PeriodKey::Gal(t, j)) => is_same_sat(s, t) && i.value() == j.value(),
        (PeriodKey::GpsIon(c), PeriodKey::GpsIon(d)) => *c == *d,
        (PeriodKey::GalIon(c), PeriodKey::GalIon(d)) => *c == *d,
        _ => false,
    }
}

/// The key of a part; `None` for health, which belongs to every issue of its satellite.
pub fn key_of_part(part: &Part) -> Option<PeriodKey>
    ensures { result ≡ key_of part.now }
{
    match &part.body {
        Body::GpsClock(clock, _, _) => {
            Some(PeriodKey::Gps(part.sat, U::from_bits(clock.iodc.value() % 256)))
        }
        Body::GpsA(orbit, _) => Some(PeriodKey::Gps(part.sat, orbit.iode)),
        Body::GpsB(orbit) => Some(PeriodKey::Gps(part.sat, orbit.iode)),
        Body::GalW1(word) => Some(PeriodKey::Gal(part.sat, word.iodnav)),
        Body::GalW2(word) => Some(PeriodKey::Gal(part.sat, word.iodnav)),
        Body::GalW3(word) => Some(PeriodKey::Gal(part.sat, word.iodnav)),
        Body::GalW4(word) => Some(PeriodKey::Gal(part.sat, word.iodnav)),
        Body::GalHealth(_, _) => None,
        Body::GpsIon(ionosphere, _) => Some(PeriodKey::GpsIon(*ionosphere)),
        Body::GalIon(ionosphere, _, _) => Some(PeriodKey::GalIon(*ionosphere)),
    }
}

/// The part is of the key.
pub fn is_part_of(key: &PeriodKey, part: &Part) -> bool
    ensures { result ≡ is_of key.now part.now }
{
    match key_of_part(part) {
        None => false,
        Some(of) => is_same_key(&of, key),
    }
}

// The stamp of a part of the key; `None` for other parts.
pub(crate) fn stamp_in(key: &PeriodKey, part: &Part) -> Option<u32>
    ensures { result ≡ stamp_of key.now part.now }
{
    if is_part_of(key, part) {
        Some(part.stamp)
    } else {
        None
    }
}

/// The end and key of a period that ends with the part; `None` for health, which has no key.
pub fn place_of_part(part: &Part) -> Option<PeriodId>
    ensures { result ≡ place_at part.now }
{
    match key_of_part(part) {
        None => None,
        Some(key) => Some(PeriodId {
            end: part.stamp,
            key,
        }),
    }
}

/// The number of a system in the order: GPS 0, Galileo 1.
pub fn system_number(system: System) -> u8
    ensures { result ≡ place_of system }
{
    match system {
        System::Gps => 0,
        System::Gal => 1,
    }
}

// The numbers by which keys are ordered: class, system, satellite number, and issue of data or
// content.
fn numbers(key: &PeriodKey) -> (u8, u8, u8, u64)
    ensures { key_numbers key.now ≡ result.0 ∷ result.1 ∷ result.2 ∷ result.3 ∷ [] }
{
    match key {
        PeriodKey::Gps(sat, issue) => (0, system_number(sat.system()), sat.number(), issue.value()),
        PeriodKey::Gal(sat, issue) => (1, system_number(sat.system()), sat.number(), issue.value()),
        PeriodKey::GpsIon(content) => (2, 0, 0, content.number()),
        PeriodKey::GalIon(content) => (3, 0, 0, content.number()),
    }
}

/// Period `a` comes before `b`: by end, then by key.
pub fn comes_before(a: &PeriodId, b: &PeriodId) -> bool
    ensures { result ≡ is_before a.now b.now }
{
    if a.end != b.end {
        return a.end < b.end;
    }
    let one = numbers(&a.key);
    let other = numbers(&b.key);
    if one.0 != other.0 {
        return one.0 < other.0;
    }
    if one.1 != other.1 {
        return one.1 < other.1;
    }
    if one.2 != other.2 {
        return one.2 < other.2;
    }
    one.3 < other.3
}

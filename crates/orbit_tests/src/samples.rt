//! Values that several tests use. A number is 0 where nothing else is said.

use nav_bits::{S, U};
use nav_eph::{GpsEph, IonContent, IonEph, Moment, NavItem, Sat, SentSecond, Step16, System, Week};
use raw_values::{gps_clock, gps_ionosphere, gps_orbit_a, gps_orbit_b, gps_side};

pub(crate) fn gps(number: u8) -> Option<Sat> {
    Sat::new(System::Gps, number)
}

pub(crate) fn galileo(number: u8) -> Option<Sat> {
    Sat::new(System::Gal, number)
}

// The ephemeris of G05 of a toe in steps of week 2295.
pub(crate) fn ephemeris(toe: u64, m0: S<32>, fit: U<1>, sent: SentSecond) -> Option<NavItem> {
    let toe = Step16::new(toe)?;
    Some(NavItem::Gps(GpsEph {
        sat: gps(5)?,
        clock: gps_clock(U::from_bits(0), toe),
        side: gps_side(U::from_bits(0), U::from_bits(0)),
        a: gps_orbit_a(U::from_bits(0), m0, toe),
        fit,
        b: gps_orbit_b(U::from_bits(0)),
        toe_week: Week::new(2_295)?,
        sent,
    }))
}

// The ionosphere that G07 says at the start of week 2295.
pub(crate) fn ionosphere() -> Option<NavItem> {
    Some(NavItem::Ion(IonEph {
        sat: gps(7)?,
        moment: Moment::new(1_388_016_000)?,
        content: IonContent::Gps(gps_ionosphere(S::from_bits(11), S::from_bits(44))),
    }))
}

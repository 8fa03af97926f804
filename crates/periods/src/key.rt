use nav_bits::U;
use nav_eph::{GalIon, GpsIon, Sat, Second};

/// What a part belongs to: an issue of a satellite's ephemeris, or a content of the ionosphere.
#[derive(Clone, Copy, PartialEq, Eq)]
pub enum PeriodKey {
    /// A GPS satellite and its issue of data: the IODE of subframes 2 and 3, equal to the low eight
    /// bits of the IODC of subframe 1 (IS-GPS-200, 20.3.4.4).
    Gps(Sat, U<8>),
    /// A Galileo satellite, and the IODnav of word types 1 to 4 (Galileo OS SIS ICD, 5.1.9.2).
    Gal(Sat, U<10>),
    /// The content of a GPS ionosphere, from any satellite.
    GpsIon(GpsIon),
    /// The content of a Galileo ionosphere, from any satellite.
    GalIon(GalIon),
}

/// What identifies a period: its end and its key. A key has at most one period with a given end.
#[derive(Clone, Copy)]
pub struct PeriodId {
    /// The time tag of the last part of the period.
    pub end: u32,
    /// The key of its parts.
    pub key: PeriodKey,
}

/// The transmission of an ionosphere: by which satellite, and when.
#[derive(Clone, Copy)]
pub struct Transmission {
    /// The time tag at which it was received, in seconds of the logger's clock.
    pub stamp: u32,
    /// The satellite that sent it.
    pub sat: Sat,
    /// The week number as sent, 12 bits; 0 for GPS, whose subframe 4 page 18 has none.
    pub wn: U<12>,
    /// The second of the week of its transmission.
    pub second: Second,
}

use nav_bits::U;
use nav_eph::{
    GalHealth, GalWord1, GalWord2, GalWord3, GalWord4, GpsClock, GpsOrbitA, GpsOrbitB, GpsSide, Sat,
};

/// What message 1019 carries: a GPS ephemeris with its week number modulo 1024.
#[derive(Clone, Copy)]
pub struct GpsContent {
    /// The satellite.
    pub sat: Sat,
    /// The week number of toe, modulo 1024.
    pub week: U<10>,
    /// The clock parameters.
    pub clock: GpsClock,
    /// Code on L2, URA, health and L2 P data flag.
    pub side: GpsSide,
    /// The orbit parameters of subframe 2.
    pub a: GpsOrbitA,
    /// The fit interval flag.
    pub fit: U<1>,
    /// The orbit parameters of subframe 3.
    pub b: GpsOrbitB,
}

/// What message 1046 carries: a Galileo I/NAV ephemeris with its week number modulo 4096.
#[derive(Clone, Copy)]
pub struct GalContent {
    /// The satellite.
    pub sat: Sat,
    /// The week number of toe, counted in Galileo System Time, modulo 4096.
    pub week: U<12>,
    /// The parameters of I/NAV word type 1.
    pub w1: GalWord1,
    /// The parameters of word type 2.
    pub w2: GalWord2,
    /// The parameters of word type 3.
    pub w3: GalWord3,
    /// The parameters of word type 4, with the clock.
    pub w4: GalWord4,
    /// The broadcast group delays, signal health and data validity status.
    pub health: GalHealth,
}

/// What an ephemeris message carries.
#[derive(Clone, Copy)]
pub enum EphemerisMessage {
    /// Message 1019.
    Gps(GpsContent),
    /// Message 1046.
    Gal(GalContent),
}

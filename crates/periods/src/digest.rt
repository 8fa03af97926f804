use crate::key::Transmission;
use nav_bits::U;
use nav_eph::{
    GalWord1, GalWord2, GalWord3, GalWord4, GpsClock, GpsOrbitA, GpsOrbitB, GpsSide, SentTag,
};

/// The contents of one kind that were received.
#[derive(Clone, Copy, PartialEq, Eq)]
pub enum Seen<T> {
    /// None.
    Nothing,
    /// One content, perhaps repeated.
    One(T),
    /// Two that differ.
    Different,
}

/// The digest of parts of a GPS ephemeris key.
#[derive(Clone, Copy)]
pub struct GpsDigest {
    /// The clock parameters of subframe 1.
    pub clock: Seen<GpsClock>,
    /// The orbit parameters of subframe 2.
    pub a: Seen<GpsOrbitA>,
    /// The orbit parameters of subframe 3.
    pub b: Seen<GpsOrbitB>,
    /// The latest SV status of subframe 1, with its time tag.
    pub side: Option<(u32, GpsSide)>,
    /// The latest fit interval flag, with its time tag.
    pub fit: Option<(u32, U<1>)>,
    /// The earliest tag that names a transmission time, with its time tag.
    pub sent: Option<(u32, SentTag)>,
    /// The earliest tag that names a toe, with its time tag.
    pub toe: Option<(u32, SentTag)>,
}

/// The digest of parts of a Galileo ephemeris key.
#[derive(Clone, Copy)]
pub struct GalDigest {
    /// Word type 1.
    pub w1: Seen<GalWord1>,
    /// Word type 2.
    pub w2: Seen<GalWord2>,
    /// Word type 3.
    pub w3: Seen<GalWord3>,
    /// Word type 4.
    pub w4: Seen<GalWord4>,
}

/// The digest of one or more parts of a key.
#[derive(Clone, Copy)]
pub enum Digest {
    /// Of a GPS ephemeris key.
    Gps(GpsDigest),
    /// Of a Galileo ephemeris key.
    Gal(GalDigest),
    /// Of an ionosphere key: the earliest transmission.
    Ion(Transmission),
}

//! LNAV subframes as raw integers.

use raw_values::{GpsClockRaw, GpsIonRaw, GpsOrbitARaw, GpsOrbitBRaw, GpsSideRaw};

/// The 300 bits of a subframe with parity (IS-GPS-200, 20.3), most significant bit first, and four
/// bits that are ignored.
#[repr(C)]
#[derive(Clone, Copy)]
pub struct SubframeBits {
    /// The bytes.
    pub bytes: [u8; 38],
}

/// The content of a subframe.
#[repr(C)]
#[derive(Clone, Copy)]
pub struct SubframeRaw {
    /// The subframe: 1 to 3, or 4 for page 18 of subframe 4.
    pub number: u32,
    /// The week number modulo 1024, of subframe 1.
    pub wn: u32,
    /// The transmission time as time of week in seconds, of subframes 1 and 4.
    pub second: u32,
    /// The clock correction, of subframe 1.
    pub clock: GpsClockRaw,
    /// The SV status, of subframe 1.
    pub side: GpsSideRaw,
    /// The ephemeris parameters of subframe 2.
    pub a: GpsOrbitARaw,
    /// The fit interval flag, of subframe 2.
    pub fit: u32,
    /// The ephemeris parameters of subframe 3.
    pub b: GpsOrbitBRaw,
    /// The ionospheric parameters of page 18 of subframe 4.
    pub ion: GpsIonRaw,
}

/// Subframes 1, 2 and 3, in this order.
#[repr(C)]
#[derive(Clone, Copy)]
pub struct SubframesRaw {
    /// Subframe 1.
    pub one: SubframeRaw,
    /// Subframe 2.
    pub two: SubframeRaw,
    /// Subframe 3.
    pub three: SubframeRaw,
}

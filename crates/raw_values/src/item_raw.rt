//! An item as raw integers.

use crate::gal_raw::GalRaw;
use crate::gps_raw::GpsRaw;
use crate::ion_raw::IonRaw;

/// An item of broadcast navigation data: an ephemeris or ionospheric parameters.
#[repr(C)]
#[derive(Clone, Copy)]
pub struct ItemRaw {
    /// Which: 1 a GPS ephemeris, 2 a Galileo ephemeris, 3 GPS ionospheric parameters, 4 Galileo
    /// ionospheric parameters.
    pub kind: u32,
    /// The GPS ephemeris, of kind 1.
    pub gps: GpsRaw,
    /// The Galileo ephemeris, of kind 2.
    pub gal: GalRaw,
    /// The ionospheric parameters, of kinds 3 and 4.
    pub ion: IonRaw,
}

//! Ionospheric parameters as raw integers.

/// The GPS ionospheric parameters of subframe 4, page 18 (IS-GPS-200, table 20-X), 8 bits each.
#[repr(C)]
#[derive(Clone, Copy)]
pub struct GpsIonRaw {
    /// In 2^-30 s.
    pub alpha0: i32,
    /// In 2^-27 s/semicircle.
    pub alpha1: i32,
    /// In 2^-24 s/semicircle².
    pub alpha2: i32,
    /// In 2^-24 s/semicircle³.
    pub alpha3: i32,
    /// In 2^11 s.
    pub beta0: i32,
    /// In 2^14 s/semicircle.
    pub beta1: i32,
    /// In 2^16 s/semicircle².
    pub beta2: i32,
    /// In 2^16 s/semicircle³.
    pub beta3: i32,
}

/// The Galileo ionospheric parameters of I/NAV word type 5 (Galileo OS SIS ICD, 5.1.6).
#[repr(C)]
#[derive(Clone, Copy)]
pub struct GalIonRaw {
    /// Effective ionisation level, 1st order, in 2^-2 solar flux units: 11 bits.
    pub ai0: u32,
    /// 2nd order, in 2^-8 solar flux units/degree: 11 bits.
    pub ai1: i32,
    /// 3rd order, in 2^-15 solar flux units/degree²: 14 bits.
    pub ai2: i32,
    /// Ionospheric disturbance flags of regions 1 to 5; region 1 is the highest of 5 bits.
    pub regions: u32,
}

/// Broadcast ionospheric parameters of one system, with satellite and transmission time.
#[repr(C)]
#[derive(Clone, Copy)]
pub struct IonRaw {
    /// The transmission time as GPS time, in seconds from 1980-01-06, in week 1 to 16,382.
    pub moment: u64,
    /// The number of the satellite, of the system of the parameters.
    pub satellite: u32,
    /// The parameters, if they are of GPS.
    pub gps: GpsIonRaw,
    /// The parameters, if they are of Galileo.
    pub gal: GalIonRaw,
}

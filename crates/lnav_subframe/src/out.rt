use nav_bits::U;
use nav_eph::{GpsClock, GpsIon, GpsOrbitA, GpsOrbitB, GpsSide};

/// The content of a subframe to be written.
#[derive(Clone, Copy)]
pub enum SubframeOut {
    /// Subframe 1.
    Clock {
        /// The clock parameters.
        clock: GpsClock,
        /// The SV status: codes on L2, URA, health and L2 P data flag.
        side: GpsSide,
        /// The week number, modulo 1024.
        wn: U<10>,
    },
    /// Subframe 2.
    OrbitA {
        /// The orbit parameters of subframe 2.
        orbit: GpsOrbitA,
        /// The fit interval flag: 1 if the curve fit interval is longer than 4 hours.
        fit: U<1>,
    },
    /// Subframe 3.
    OrbitB {
        /// The orbit parameters of subframe 3.
        orbit: GpsOrbitB,
    },
    /// Page 18 of subframe 4, SV ID 56.
    Ion {
        /// The ionosphere parameters.
        ion: GpsIon,
    },
    /// Any other page of subframe 4 or 5; its other data bits are 0.
    Other {
        /// The subframe ID, 4 or 5.
        number: U<3>,
        /// The SV ID; not 56 in subframe 4.
        page: U<6>,
    },
}

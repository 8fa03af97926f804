//! What GPS sends (IS-GPS-200, 20.3.3).

use nav_eph::{GpsClock, GpsIon, GpsOrbitA, GpsOrbitB, GpsSide};

/// The numbers of a clock.
#[derive(Clone, Copy)]
pub struct ClockNumbers {
    /// Issue of data of the clock.
    pub iodc: u64,
    /// Reference time, in 16 s.
    pub toc: u64,
    /// Clock drift rate.
    pub af2: i64,
    /// Clock drift.
    pub af1: i64,
    /// Clock bias.
    pub af0: i64,
    /// Group delay.
    pub tgd: i64,
}

/// The numbers next to a clock in subframe 1.
#[derive(Clone, Copy)]
pub struct SideNumbers {
    /// Code on L2.
    pub l2_code: u64,
    /// Index of the accuracy.
    pub ura: u64,
    /// Health of the satellite.
    pub health: u64,
    /// Data flag of the P code on L2.
    pub l2p: u64,
}

/// The numbers of subframe 2.
#[derive(Clone, Copy)]
pub struct OrbitANumbers {
    /// Issue of data of the orbit.
    pub iode: u64,
    /// Sine correction of the radius.
    pub crs: i64,
    /// Difference of the mean motion.
    pub delta_n: i64,
    /// Mean anomaly.
    pub m0: i64,
    /// Cosine correction of the latitude.
    pub cuc: i64,
    /// Eccentricity.
    pub e: u64,
    /// Sine correction of the latitude.
    pub cus: i64,
    /// Root of the semi-major axis.
    pub root_a: u64,
    /// Reference time, in 16 s.
    pub toe: u64,
}

/// The numbers of subframe 3.
#[derive(Clone, Copy)]
pub struct OrbitBNumbers {
    /// Issue of data of the orbit.
    pub iode: u64,
    /// Cosine correction of the inclination.
    pub cic: i64,
    /// Longitude of the ascending node.
    pub omega0: i64,
    /// Sine correction of the inclination.
    pub cis: i64,
    /// Inclination.
    pub i0: i64,
    /// Cosine correction of the radius.
    pub crc: i64,
    /// Argument of perigee.
    pub omega: i64,
    /// Rate of the right ascension.
    pub omega_dot: i64,
    /// Rate of the inclination.
    pub idot: i64,
}

/// The numbers of the ionosphere of GPS.
#[derive(Clone, Copy)]
pub struct GpsIonNumbers {
    /// Coefficient 0 of the amplitude.
    pub alpha0: i64,
    /// Coefficient 1 of the amplitude.
    pub alpha1: i64,
    /// Coefficient 2 of the amplitude.
    pub alpha2: i64,
    /// Coefficient 3 of the amplitude.
    pub alpha3: i64,
    /// Coefficient 0 of the period.
    pub beta0: i64,
    /// Coefficient 1 of the period.
    pub beta1: i64,
    /// Coefficient 2 of the period.
    pub beta2: i64,
    /// Coefficient 3 of the period.
    pub beta3: i64,
}

impl ClockNumbers {
    /// Whether the clock has them.
    pub fn are_of(&self, clock: &GpsClock) -> bool {
        (clock.iodc.value() == self.iodc)
            & (clock.toc.value() == self.toc)
            & (clock.af2.value() == self.af2)
            & (clock.af1.value() == self.af1)
            & (clock.af0.value() == self.af0)
            & (clock.tgd.value() == self.tgd)
    }
}

impl SideNumbers {
    /// Whether what is next to a clock has them.
    pub fn are_of(&self, side: &GpsSide) -> bool {
        (side.l2_code.value() == self.l2_code)
            & (side.ura.value() == self.ura)
            & (side.health.value() == self.health)
            & (side.l2p.value() == self.l2p)
    }
}

impl OrbitANumbers {
    /// Whether the first half of an orbit has them.
    pub fn are_of(&self, orbit: &GpsOrbitA) -> bool {
        (orbit.iode.value() == self.iode)
            & (orbit.crs.value() == self.crs)
            & (orbit.delta_n.value() == self.delta_n)
            & (orbit.m0.value() == self.m0)
            & (orbit.cuc.value() == self.cuc)
            & (orbit.e.value() == self.e)
            & (orbit.cus.value() == self.cus)
            & (orbit.root_a.value() == self.root_a)
            & (orbit.toe.value() == self.toe)
    }
}

impl OrbitBNumbers {
    /// Whether the second half of an orbit has them.
    pub fn are_of(&self, orbit: &GpsOrbitB) -> bool {
        (orbit.iode.value() == self.iode)
            & (orbit.cic.value() == self.cic)
            & (orbit.omega0.value() == self.omega0)
            & (orbit.cis.value() == self.cis)
            & (orbit.i0.value() == self.i0)
            & (orbit.crc.value() == self.crc)
            & (orbit.omega.value() == self.omega)
            & (orbit.omega_dot.value() == self.omega_dot)
            & (orbit.idot.value() == self.idot)
    }
}

impl GpsIonNumbers {
    /// Whether the ionosphere has them.
    pub fn are_of(&self, ion: &GpsIon) -> bool {
        (ion.alpha0.value() == self.alpha0)
            & (ion.alpha1.value() == self.alpha1)
            & (ion.alpha2.value() == self.alpha2)
            & (ion.alpha3.value() == self.alpha3)
            & (ion.beta0.value() == self.beta0)
            & (ion.beta1.value() == self.beta1)
            & (ion.beta2.value() == self.beta2)
            & (ion.beta3.value() == self.beta3)
    }
}

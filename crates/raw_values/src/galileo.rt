//! What Galileo sends (Galileo OS SIS ICD, 4.3.5).

use nav_eph::{GalHealth, GalIon, GalWord1, GalWord2, GalWord3, GalWord4};

/// The numbers of word 1.
#[derive(Clone, Copy)]
pub struct Word1Numbers {
    /// Issue of data.
    pub iodnav: u64,
    /// Reference time of the orbit, in 60 s.
    pub toe: u64,
    /// Mean anomaly.
    pub m0: i64,
    /// Eccentricity.
    pub e: u64,
    /// Root of the semi-major axis.
    pub root_a: u64,
}

/// The numbers of word 2.
#[derive(Clone, Copy)]
pub struct Word2Numbers {
    /// Issue of data.
    pub iodnav: u64,
    /// Longitude of the ascending node.
    pub omega0: i64,
    /// Inclination.
    pub i0: i64,
    /// Argument of perigee.
    pub omega: i64,
    /// Rate of the inclination.
    pub idot: i64,
}

/// The numbers of word 3.
#[derive(Clone, Copy)]
pub struct Word3Numbers {
    /// Issue of data.
    pub iodnav: u64,
    /// Rate of the right ascension.
    pub omega_dot: i64,
    /// Difference of the mean motion.
    pub delta_n: i64,
    /// Cosine correction of the latitude.
    pub cuc: i64,
    /// Sine correction of the latitude.
    pub cus: i64,
    /// Cosine correction of the radius.
    pub crc: i64,
    /// Sine correction of the radius.
    pub crs: i64,
    /// Index of the accuracy.
    pub sisa: u64,
}

/// The numbers of word 4, but for the satellite.
#[derive(Clone, Copy)]
pub struct Word4Numbers {
    /// Issue of data.
    pub iodnav: u64,
    /// Cosine correction of the inclination.
    pub cic: i64,
    /// Sine correction of the inclination.
    pub cis: i64,
    /// Reference time of the clock, in 60 s.
    pub toc: u64,
    /// Clock bias.
    pub af0: i64,
    /// Clock drift.
    pub af1: i64,
    /// Clock drift rate.
    pub af2: i64,
}

/// The numbers of the group delays and of the health, of word 5.
#[derive(Clone, Copy)]
pub struct HealthNumbers {
    /// Group delay of E1 and E5a.
    pub bgd_a: i64,
    /// Group delay of E1 and E5b.
    pub bgd_b: i64,
    /// Health of E5b.
    pub hs_e5b: u64,
    /// Health of E1-B.
    pub hs_e1b: u64,
    /// Data validity of E5b.
    pub dvs_e5b: u64,
    /// Data validity of E1-B.
    pub dvs_e1b: u64,
}

/// The numbers of the ionosphere of Galileo.
#[derive(Clone, Copy)]
pub struct GalIonNumbers {
    /// Ionisation level.
    pub ai0: u64,
    /// Ionisation level for each degree.
    pub ai1: i64,
    /// Ionisation level for each squared degree.
    pub ai2: i64,
    /// Disturbance flags of the five regions.
    pub regions: u64,
}

impl Word1Numbers {
    /// Whether the word has them.
    pub fn are_of(&self, word: &GalWord1) -> bool {
        (word.iodnav.value() == self.iodnav)
            & (word.toe.value() == self.toe)
            & (word.m0.value() == self.m0)
            & (word.e.value() == self.e)
            & (word.root_a.value() == self.root_a)
    }
}

impl Word2Numbers {
    /// Whether the word has them.
    pub fn are_of(&self, word: &GalWord2) -> bool {
        (word.iodnav.value() == self.iodnav)
            & (word.omega0.value() == self.omega0)
            & (word.i0.value() == self.i0)
            & (word.omega.value() == self.omega)
            & (word.idot.value() == self.idot)
    }
}

impl Word3Numbers {
    /// Whether the word has them.
    pub fn are_of(&self, word: &GalWord3) -> bool {
        (word.iodnav.value() == self.iodnav)
            & (word.omega_dot.value() == self.omega_dot)
            & (word.delta_n.value() == self.delta_n)
            & (word.cuc.value() == self.cuc)
            & (word.cus.value() == self.cus)
            & (word.crc.value() == self.crc)
            & (word.crs.value() == self.crs)
            & (word.sisa.value() == self.sisa)
    }
}

impl Word4Numbers {
    /// Whether the word has them.
    pub fn are_of(&self, word: &GalWord4) -> bool {
        (word.iodnav.value() == self.iodnav)
            & (word.cic.value() == self.cic)
            & (word.cis.value() == self.cis)
            & (word.toc.value() == self.toc)
            & (word.af0.value() == self.af0)
            & (word.af1.value() == self.af1)
            & (word.af2.value() == self.af2)
    }
}

impl HealthNumbers {
    /// Whether the delays and the health are these.
    pub fn are_of(&self, health: &GalHealth) -> bool {
        (health.bgd_a.value() == self.bgd_a)
            & (health.bgd_b.value() == self.bgd_b)
            & (health.hs_e5b.value() == self.hs_e5b)
            & (health.hs_e1b.value() == self.hs_e1b)
            & (health.dvs_e5b.value() == self.dvs_e5b)
            & (health.dvs_e1b.value() == self.dvs_e1b)
    }
}

impl GalIonNumbers {
    /// Whether the ionosphere has them.
    pub fn are_of(&self, ion: &GalIon) -> bool {
        (ion.ai0.value() == self.ai0)
            & (ion.ai1.value() == self.ai1)
            & (ion.ai2.value() == self.ai2)
            & (ion.regions.value() == self.regions)
    }
}

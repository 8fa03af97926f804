//! Ephemerides and ionospheric parameters as structs of raw integers that C can lay out, to and
//! from the values of [`nav_eph`].
//!
//! Samples of ephemerides for tests: their numbers under the names of their fields, and whether
//! what was read has them.
//!
//! A row of a table can hold no value of [`nav_eph`], since a constant calls no constructor. It
//! holds plain numbers, in the structs of this crate, which are those of `nav_eph` field by field:
//! unscaled, as they were sent. What was read of a subframe, a word, a message or a record is
//! compared with them by `are_of`. Samples that several crates of tests take are here too, once.
//!
//! ```rust
//! use raw_values::G01_OF_WEEK_1783;
//! use rtcm_eph::read_item;
//!
//! match read_item(payload, reference) {
//!     Ok(NavItem::Gps(eph)) => assert!(rt; G01_OF_WEEK_1783.are_of(&eph)),
//!     _ => return Err("an ephemeris of GPS")?,
//! }
//! ```
#![tactic(auto)]

mod ephemerides;
mod gal;
mod gal_raw;
mod galileo;
mod gps;
mod gps_raw;
mod ion;
mod ion_raw;
mod item_raw;
mod items;
mod laws;
mod numbers;
pub mod reasons;
mod rooms;
mod sample_gps;
mod samples;
mod sat;
mod sent;
mod sent_raw;
mod zeroes;

pub use crate::ephemerides::{GalNumbers, GpsNumbers};
pub use crate::gal::{
    gal_of, health_of, raw_gal, raw_health, raw_word1, raw_word2, raw_word3, raw_word4, word1_of,
    word2_of, word3_of, word4_of,
};
pub use crate::gal_raw::{
    GalHealthRaw, GalRaw, GalWord1Raw, GalWord2Raw, GalWord3Raw, GalWord4Raw,
};
pub use crate::galileo::{
    GalIonNumbers, HealthNumbers, Word1Numbers, Word2Numbers, Word3Numbers, Word4Numbers,
};
pub use crate::gps::{
    clock_of, gps_of, orbit_a_of, orbit_b_of, raw_clock, raw_gps, raw_orbit_a, raw_orbit_b,
    raw_side, side_of,
};
pub use crate::gps_raw::{GpsClockRaw, GpsOrbitARaw, GpsOrbitBRaw, GpsRaw, GpsSideRaw};
pub use crate::ion::{gal_ion_of, gps_ion_of, put_ion, raw_gal_ion, raw_gps_ion};
pub use crate::ion_raw::{GalIonRaw, GpsIonRaw, IonRaw};
pub use crate::item_raw::ItemRaw;
pub use crate::items::{item_of, put_item};
pub use crate::laws::{items_come_back, numbers_come_back};
pub use crate::rooms::put;
pub use crate::sample_gps::{
    ClockNumbers, GpsIonNumbers, OrbitANumbers, OrbitBNumbers, SideNumbers,
};
pub use crate::samples::{
    CLOCK_OF_ZEROES, E01_OF_ISSUE_0, E01_OF_ISSUE_378, E11_OF_ZEROES, G01_OF_WEEK_1783,
    G05_OF_ZEROES, G32_OF_WEEK_2294, MESSAGE_1019_OF_G05, SIDE_OF_ZEROES,
};
pub use crate::sat::sat_of;
pub use crate::sent_raw::SentRaw;
pub use crate::zeroes::{
    galileo_health, galileo_word1, galileo_word2, galileo_word3, galileo_word4, gps_clock,
    gps_ionosphere, gps_orbit_a, gps_orbit_b, gps_side,
};

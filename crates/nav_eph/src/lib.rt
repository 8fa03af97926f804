//! Broadcast ephemerides and ionosphere parameters of GPS and Galileo as integers, with their weeks
//! and times.
//!
//! Week numbers, GPS times and calendar dates.
//!
//! GPS and Galileo count time in weeks and seconds of the week, without leap seconds, from midnight
//! at the start of 1980-01-06 (IS-GPS-200, 3.3.4; Galileo OS SIS ICD, 5.1.2). Their messages
//! truncate the week number to ten and twelve bits, and some times are given by time of week alone,
//! for the nearest week. This crate has
//!
//! - [`RefWeek`], [`Week`], [`Second`] and [`Moment`], numbers within their ranges;
//! - [`gps_week`] and [`gal_week`], the weeks that truncated week numbers mean near a reference
//!   week, and [`is_near_gps`] and [`is_near_galileo`], which weeks these can be;
//! - [`nearest_moment`], the nearest GPS time with a given time of week;
//! - [`civil`] and [`moment_of`], conversion between GPS times and calendar dates.
//!
//! ```rust
//! use nav_eph::{Civil, Moment, RefWeek, gps_week, moment_of};
//! use nav_bits::U;
//!
//! let reference = RefWeek::new(2295).ok_or("a reference week")?;
//! let week = gps_week(reference, U::from_bits(247));
//! assert!(rt; week.value() == 2295);
//! let midnight = Civil { year: 2023, month: 12, day: 31, hour: 0, minute: 0, second: 0 };
//! assert!(rt; moment_of(&midnight)?.week() == 2295);
//! ```
//!
//! Broadcast ephemerides and ionospheric parameters.
//!
//! A GPS ephemeris is broadcast in three subframes (IS-GPS-200, 20.3.3), a Galileo ephemeris in
//! four word types and its health in a fifth (Galileo OS SIS ICD, 4.3.5), each parameter as an
//! integer of fixed width. Here parameters are stored as broadcast, unscaled:
//!
//! - [`Body`], the content of one subframe, word or message, and [`Part`], a body with its
//!   satellite and time of reception;
//! - [`GpsEph`], [`GalEph`] and [`IonEph`], complete values, and [`NavItem`], one of these;
//! - [`Sat`], [`Signal`], [`SentTag`] and the small numbers [`Step16`], [`Step60`] and [`Sisa`].
//!
//! A constructor gives `None` exactly if its arguments are inconsistent or out of range. If one of
//! several received values is to be chosen, they are compared by the numbers that `number` gives.
//!
//! ```rust
//! use nav_eph::{Sat, System};
//!
//! let first = Sat::new(System::Gps, 32).ok_or("a satellite")?;
//! let second = Sat::new(System::Gal, 1).ok_or("a satellite")?;
//! assert!(rt; first < second);
//! assert!(rt; Sat::new(System::Gps, 33).is_none());
//! ```
#![tactic(auto)]

mod bit_pattern;
mod calendar;
mod dates;
mod eph_laws;
mod galileo;
mod gps;
mod ion;
mod items;
mod laws;
mod moment;
mod numbers;
mod part;
mod ranges;
mod same;
mod sat;
mod signal;
mod steps;
mod tag;
mod weeks;

pub use crate::calendar::{Civil, WeekFault};
pub use crate::dates::{civil, moment_of};
pub use crate::eph_laws::{
    alike_is_decided, equality_is_decided, one_galileo_ionosphere, one_galileo_transmission,
    one_gps_ionosphere, one_gps_transmission, one_health_and_tag, one_side, one_tag,
};
pub use crate::galileo::{GalHealth, GalWord1, GalWord2, GalWord3, GalWord4};
pub use crate::gps::{GpsClock, GpsOrbitA, GpsOrbitB, GpsSide};
pub use crate::ion::{GalIon, GpsIon, IonContent};
pub use crate::items::{GalEph, GpsEph, IonEph, NavItem, SentSecond};
pub use crate::laws::{
    date_again, date_function, galileo_week_function, gps_week_function, moment_again,
    moment_function, near_weeks, nearest_moment_function, one_answer, one_date, one_galileo_week,
    one_gps_week, one_moment, one_nearest_moment, short_dates,
};
pub use crate::moment::{Moment, Second};
pub use crate::numbers::{RefWeek, Week};
pub use crate::part::{Body, Part};
pub use crate::sat::{Sat, System};
pub use crate::signal::Signal;
pub use crate::steps::{Sisa, Step16, Step60};
pub use crate::tag::{SentTag, gal_transmission_number, gps_transmission_number};
pub use crate::weeks::{gal_week, gps_week, is_near_galileo, is_near_gps, nearest_moment};

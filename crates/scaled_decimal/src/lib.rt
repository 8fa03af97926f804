//! Scaled integers as decimal texts of 19 columns, and back (RINEX 4.01, navigation records,
//! D19.12).
//!
//! A broadcast field is an integer at a scale, as the mean anomaly at pi x 2^-31 rad (IS-GPS-200,
//! 20.3.3.4.3). Its text has thirteen digits, correctly rounded, ties to even; a text is read as
//! the integer nearest to its value divided by the scale, ties to even. Both are exact: no floating
//! point is used. The text of a number is read back as that number, at each scale that
//! [`Scale::new`] accepts.
//!
//! ```rust
//! let mean_anomaly = Scale { pi: true, factor: 1, two: -31, ten: 0 };
//! assert!(rt; print(1, &mean_anomaly) == *b" 1.462918079267D-09");
//! assert!(rt; read(b"1.462918079267E-9", &mean_anomaly, -2_147_483_648, 2_147_483_647)? == 1);
//! ```
#![tactic(auto)]

mod dividing;
mod fractions;
mod grammar;
mod laws;
mod lifting;
mod powers;
mod printing;
mod reading;
mod scales;
mod sizes;

pub use crate::grammar::{Span, is_decimal, leading_digits, trimmed};
pub use crate::laws::{
    accepted_scales_are_scales, one_number_is_nearest, one_text, texts_are_read, texts_are_seen,
    texts_of_the_grammar_are_read, texts_stand,
};
pub use crate::printing::print;
pub use crate::reading::{DecimalFault, read};
pub use crate::scales::Scale;

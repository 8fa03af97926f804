//! Headers and records of RINEX navigation files, versions 4.01 and 3.05, as text.
//!
//! [`write_header`] and [`write_item`] append a header, and the record of an ephemeris or of
//! ionosphere parameters, to a [`Sink`](nav_io::Sink): complete, or a prefix of it if the sink
//! failed. A text is built in a buffer of fixed size; no memory is allocated.
//!
//! [`write_header3`] and [`write_item3`] do the same for version 3.05, which has no ionosphere
//! record.
//!
//! [`epoch_of`] is the epoch of an ephemeris.
//!
//! A record (RINEX 4.01, GPS LNAV and Galileo INAV navigation records) is a table of columns, one
//! number each: a [`Column`] has the unit of its number, and the [`Rule`] by which number and field
//! correspond. Each number is the exact value of the raw integer, correctly rounded to thirteen
//! digits.
//!
//! ```rust
//! let words = HeaderWords {
//!     date: *b"20240101 000000 UTC",
//!     leap: 18,
//! };
//! let mut sink = WriteSink::new(rt.stdout());
//! write_header(&words, &mut sink)?;
//! write_item(&item, &mut sink)?;
//! ```
#![tactic(auto)]

mod columns;
mod fields;
mod header;
mod item;
mod laws;
mod layouts;
mod numbers;
mod record;
mod row;
mod words;
mod write3;

pub use crate::columns::{Column, NOT_KNOWN, Rule};
pub use crate::header::{write_header, write_header_of};
pub use crate::item::{epoch_of, write_body, write_item};
pub use crate::laws::{
    columns_are_good, fields_fit_their_columns, headers_are_lines, records_are_a_title_and_a_body,
    texts_concatenate,
};
pub use crate::layouts::{
    D1, D1_ROWS, FDMA, FDMA_ROWS, FNAV, FNAV_ROWS, NAVIC, NAVIC_ROWS, QZSS, QZSS_ROWS,
    RecordLayout, SBAS, SBAS_ROWS, galileo_ionosphere_layout, galileo_layout,
    gps_ionosphere_layout, gps_layout, sbas_layout,
};
pub use crate::row::{RowHead, write_row, write_row_body};
pub use crate::words::HeaderWords;
pub use crate::write3::{write_header3, write_item3};

//! Reads RINEX navigation files of versions 4.01 and 3.02 to 3.05: ephemerides of GPS (LNAV) and
//! Galileo (INAV) and, in version 4, ionosphere parameters (RINEX 4.01, header section and
//! navigation records; RINEX 3.05, navigation message files).
//!
//! A [`RecordReader`] reads the header of a [`Source`](nav_io::Source) and then its records one by
//! one, in buffers of fixed size, over a [`FileForm`], which defines the versions that a header may
//! name, what begins a record and what its lines give. Over [`Rinex4`] a record gives an item, a
//! rejection with its first [`RecordFault`], or that it is of another kind, each with the number of
//! its
//! `>` line. [`RecordLines`] judges a single record. Reading is exact: each number gives the
//! nearest raw integer, ties to even, and the record that `rinex_write` writes of an item is read
//! as that item ([`records_are_read`], [`files_are_read`], [`joined_files_are_read`]).
//!
//! Over [`Rinex3`] a record has no title, begins at each line whose first column is not blank, and
//! is judged as the RINEX 4 record with its title added ([`records3_are_read`],
//! [`files3_are_read`]).
//!
//! ```rust
//! let mut source = ReadSource::new(rt.stdin());
//! let mut records = RecordReader::new();
//! records.read_header(&Rinex4, &mut source)?;
//! match records.next_item(&Rinex4, &mut source)? {
//!     Some(ItemRead::Item { line, item }) => write_item(&item, &mut sink)?,
//!     Some(ItemRead::Refused { line, reason }) => println!(rt; "line {line} {reason}")?,
//!     Some(ItemRead::PassedOver { line }) => {}
//!     None => {}
//! }
//! ```
#![tactic(auto)]

mod accuracy;
mod date;
mod fields;
mod form;
mod form3;
mod header;
mod items;
mod judged;
mod laws;
mod laws3;
mod line;
mod reader;
mod reason;
mod record;
mod row;
mod stated;
mod title;

pub use crate::form::{FileForm, Rinex4};
pub use crate::form3::{Rinex3, judge3};
pub use crate::judged::{HeaderFault, HeaderState, ItemRead, Judged};
pub use crate::laws::{
    columns_behind_the_last_are_not_looked_at, early_records_are_given, files_are_read,
    header_lines_are_read, items_are_whole, joined_files_are_read, listed_items_are_whole,
    readers_begin_with_the_file, record_lines_stand, records_are_read, steps_compose,
    the_end_stays, too_many_bytes_stay_too_many, whole_records_are_given, written_files_are_read,
};
pub use crate::laws3::{files3_are_read, headers3_are_read, records3_are_read};
pub use crate::line::columns;
pub use crate::reader::RecordReader;
pub use crate::reason::RecordFault;
pub use crate::record::RecordLines;
pub use crate::row::{RowStated, layouts_are_rows, read_row_lines, written_rows_are_read};

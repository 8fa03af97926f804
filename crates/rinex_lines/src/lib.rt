//! Lines of RINEX files: records of RINEX 4 that are carried, and RINEX 2 read as RINEX 3.
//!
//! Records of RINEX 4 that are carried: their lines keep each number exactly (RINEX 4.01,
//! navigation records).
//!
//! A line has four columns of 19 characters. A column that holds a number of at most thirteen
//! digits has exactly one text, [`exact_text`], which keeps the number; blanks, other texts and
//! longer numbers stay as they are. [`record_text`] writes a record so.
//!
//! ```rust
//! assert!(rt; exact_text(b"  1.7281800000e+05 ") == Some(*b" 1.728180000000D+05"));
//! assert!(rt; exact_text(b"      UTC(USNO)    ") == None);
//! ```
//!
//! Navigation files of RINEX 2 as files of RINEX 3 with the same records (RINEX 2.11, navigation
//! message files of GPS, GLONASS and SBAS).
//!
//! The records of RINEX 2 have the numbers of those of RINEX 3: [`Rinex2Source`] gives, for each
//! line of a file, one line of RINEX 3, so that whatever reads RINEX 3 reads RINEX 2 and counts the
//! same lines. The first line gets version 3.05 and type `N`; a record begins with the letter of
//! its system, has a year of four digits and whole seconds; its further lines begin one column
//! later. The time of a GLONASS frame becomes a second of the week.
//!
//! Files may be joined: each is read under its own header. Lines of a record whose first line is
//! missing become a record without a satellite. A last line without a line end that is cut off
//! inside a number is not read, nor is a last line that begins with the mark of an end (SUB).
//!
//! ```rust
//! let mut source = Rinex2Source::new(ReadSource::new(rt.stdin()));
//! let mut records = RecordReader::new();
//! records.read_header(&Rinex3, &mut source)?;
//! ```
#![tactic(auto)]

mod columns;
mod dates;
mod decimal;
mod exact;
mod held;
mod laws;
mod line;
mod lines;
mod place;
mod record;
mod source;

pub use crate::exact::exact_text;
pub use crate::laws::{
    equal_numbers_have_one_text, exact_texts_keep_the_number, exact_texts_stay,
    numbers_have_one_exact_text,
};
pub use crate::line::carried_line;
pub use crate::record::{RecordText, record_text};
pub use crate::source::{Rinex2Parts, Rinex2Source};

//! Runs over RINEX navigation files: converted, transmitted, merged, compared, and the times
//! covered.
//!
//! The runs over RINEX navigation files: converted, transmitted, merged, and the times that they
//! cover.
//!
//! - [`run_rinex`] and [`run_rinex3`], over the records of a file (RINEX 4.01 and 3.05): each item,
//!   in the order of the file;
//! - [`send_rinex`] and [`send_rinex3`]: the bits that satellites would send of the ephemerides of
//!   a file (IS-GPS-200, 20.3.2; Galileo OS SIS ICD, 4.3.2), as a capture with a slot of six hours
//!   each;
//! - [`run_merge`], one file with the merged list of the items of several files that are
//!   concatenated, and [`run_cover`], a line for each range of time that their ephemerides cover.
//!
//! The output and the report of a run are functions of the bytes that it took: `specs/Files.antt`,
//! `specs/Sends.antt` and `specs/Archives.antt` state them. An error leaves a prefix of each.
//!
//! ```rust
//! use nav_files::{RinexTo, run_rinex};
//! use nav_io::{MemSink, MemSource};
//! use one_run::BridgeFault;
//!
//! let bytes = b"no header".to_vec(rt.alloc())?;
//! let mut input = MemSource::new(bytes, Vec::new(rt.alloc()), Vec::new(rt.alloc()));
//! let mut output = MemSink::new(rt.alloc(), 64, Vec::new(rt.alloc()))?;
//! let mut report = MemSink::new(rt.alloc(), 64, Vec::new(rt.alloc()))?;
//! let counts = run_rinex(&RinexTo::ToList, &mut input, &mut output, &mut report);
//! assert!(rt; counts == Err(BridgeFault::NotThisForm));
//! ```
//!
//! Two navigation files compared by their broadcast integers (RINEX 4.01 and 3.05).
//!
//! [`read_items`] reads a file of either version as the set of its items: neither their order nor
//! repetition matters, nor how a number is spelled. [`write_differences`] writes what differs, in
//! the order of GPS time and satellite, a line each:
//!
//! ```text
//! only in A: G07 2026-11-29 04:00:00
//! only in B: E11 2026-11-29 04:00:08 ION
//! differs: E11 2026-11-29 04:10:00 cuc 1234 1235
//! ```
//!
//! The time is toe, or the transmission time of ionospheric parameters. Items that one file alone
//! has are paired where time, system and satellite are the same, and each integer that differs has
//! a line, with its name in `nav_eph`.
//!
//! There is no difference exactly if both files have the same items:
//! [`no_difference_means_the_same_items`].
//!
//! ```rust
//! let mut first = FileItems::new(rt.alloc());
//! read_items(&Rinex4, true, &mut first, &mut ReadSource::new(file))?;
//! let same = write_differences(&first, &second, &mut WriteSink::new(rt.stdout()))?;
//! ```
#![tactic(auto)]

mod convert;
mod counts;
mod cover;
mod diff_counts;
mod diff_laws;
mod difference;
mod file;
mod file_items;
mod files;
mod laws;
mod merge;
mod merge_counts;
mod merge_records;
mod names;
mod numbers;
mod ordered;
mod outcome;
mod read;
mod records;
mod runs;
mod send;
mod sending;
mod sent_counts;
mod sent_records;
mod taker;
mod target;
mod texts;
mod walk;

pub use crate::counts::RinexCounts;
pub use crate::diff_counts::ReadCounts;
pub use crate::diff_laws::{no_difference_means_the_same_items, sets_contain_their_items};
pub use crate::difference::Difference;
pub use crate::file_items::FileItems;
pub use crate::files::{run_rinex, run_rinex3};
pub use crate::laws::{what_is_written_is_the_sent_text, what_is_written_is_the_text_of_a_list};
pub use crate::merge_counts::MergeCounts;
pub use crate::outcome::SendOutcome;
pub use crate::read::read_items;
pub use crate::records::reason_word;
pub use crate::runs::{run_cover, run_merge};
pub use crate::send::{send_rinex, send_rinex3};
pub use crate::taker::{Taker, run_file};
pub use crate::target::RinexTo;
pub use crate::walk::write_differences;

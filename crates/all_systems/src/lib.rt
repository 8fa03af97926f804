//! Streams and navigation files of all systems: converted, and files merged.
//!
//! Streams of RTCM frames of all systems (RTCM 10403.3, messages 1019, 1020, 1041, 1042, 1044, 1045
//! and 1046).
//!
//! [`run_systems`] writes each ephemeris of a stream at its first occurrence, as navigation file,
//! frames or list. Its GPS and Galileo I/NAV ephemerides are those of [`streams::run_stream`], in
//! the same order; the others come from the tables of [`nav_rows`].
//!
//! ```rust
//! use streams::Target;
//! use all_systems::{Kinds, run_systems};
//!
//! let kinds = Kinds::all();
//! let counts = run_systems(rt.alloc(), &kinds, week, &Target::Rtcm, &mut input, &mut output, &mut
//! report)?;
//! ```
//!
//! Navigation files of all systems (RINEX 4.01 and 3.05, navigation records).
//!
//! [`run_system_file`] writes each ephemeris of a file, in the order of its records, as navigation
//! file, frames or list. Its GPS LNAV and Galileo I/NAV ephemerides, and the ionosphere parameters,
//! are those of [`nav_files::run_rinex`] and [`nav_files::run_rinex3`], in the same order; the
//! others come from the tables of [`nav_rows`]. Of other records of RINEX 4 the lines are
//! carried, by [`carried_records`]; further records are skipped and counted. In RINEX 4 the carried
//! records and those of ionosphere parameters stand after all ephemerides. [`run_system_merge`]
//! writes each ephemeris and each carried record once, in order of time.
//!
//! ```rust
//! use streams::Target;
//! use all_systems::{Version, run_system_file};
//! use all_systems::Kinds;
//!
//! let kinds = Kinds::all();
//! let (version, to) = (Version::Four, Target::ToList);
//! let (input, output, report) = (&mut input, &mut output, &mut report);
//! let counts = run_system_file(rt.alloc(), &kinds, version, &to, input, output, report)?;
//! ```
#![tactic(auto)]

mod carried_key;
mod counts;
mod file_laws;
mod file_read;
mod file_run;
mod file_text;
mod find;
mod form;
mod held;
mod kinds;
mod laws;
mod merge;
mod merge_counts;
mod merge_laws;
mod nav_key;
mod nav_numbers;
mod next;
mod read;
mod row_key;
mod run;
mod select;
mod state;
mod text;
mod version;

pub use crate::counts::SystemCounts;
pub use crate::file_laws::{
    a_file_has_the_same_items_of_gps_and_galileo,
    what_is_written_of_a_file_is_the_text_of_its_items,
};
pub use crate::file_run::run_system_file;
pub use crate::kinds::Kinds;
pub use crate::laws::a_stream_has_the_same_ephemerides_of_gps_and_galileo;
pub use crate::merge::run_system_merge;
pub use crate::merge_counts::SystemMergeCounts;
pub use crate::merge_laws::{
    a_merged_file_has_the_merge_of_gps_and_galileo, merging_of_all_systems,
    merging_of_carried_records,
};
pub use crate::run::run_systems;
pub use crate::text::{put_message, put_row};
pub use crate::version::Version;

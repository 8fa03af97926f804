//! The conversions of `navbridge`: the arguments name one, which reads an input and writes an
//! output and a report.
//!
//! [`bridge`] parses the command line, runs the conversion and returns its status. [`job_of`] only
//! parses: a [`Job`] is a row of the table of conversions with the values of its options, which
//! [`options_of`] reads as `--name value` or `--name=value`, each name at most once and in any
//! order. The output and the report of a conversion are functions of the input bytes that it read:
//! `specs/Meanings.antt` states them, one line for each conversion, and `specs/Job.antt` the table.
//!
//! The runs of the conversions are re-exported here for other programs.
//!
//! ```rust
//! use bridge_engine::bridge;
//! use nav_io::{MemSink, MemSource};
//!
//! let mut words = Vec::new(rt.alloc());
//! words.push(String::from_str(rt.alloc(), "--from=rinex")?)?;
//! words.push(String::from_str(rt.alloc(), "--to=list")?)?;
//! let mut input = MemSource::new(b"no header".to_vec(rt.alloc())?, Vec::new(rt.alloc()), Vec::new(rt.alloc()));
//! let mut output = MemSink::new(rt.alloc(), 64, Vec::new(rt.alloc()))?;
//! let mut report = MemSink::new(rt.alloc(), 64, Vec::new(rt.alloc()))?;
//! let status = bridge(rt.alloc(), &words, &mut input, &mut output, &mut report);
//! assert!(rt; status == 5);
//! ```
#![tactic(auto)]

mod command;
mod done;
mod job;
mod laws;
mod options;
mod run;
mod statuses;
mod table;
mod values;
mod word_laws;

pub use crate::done::Done;
pub use crate::job::{CaptureJob, Job, SeedJob, StreamJob, job_of};
pub use crate::laws::{captures_are_selected, words_give_one_job};
pub use crate::options::{Found, options_of};
pub use crate::run::run_job;
pub use crate::statuses::bridge;
pub use crate::values::is_date;
pub use crate::word_laws::{
    words_give_values_in_one_way, words_of_inputs_ask_for_no_seed, words_spell_options_in_one_way,
};
pub use captures::{CaptureCounts, CaptureTo, SeedCounts, SeedTo, run_capture, run_seed};
pub use nav_files::{
    MergeCounts, RinexCounts, RinexTo, run_cover, run_merge, run_rinex, run_rinex3, send_rinex,
    send_rinex3,
};
pub use one_run::{BridgeFault, Status};
pub use sent_captures::Sats;
pub use streams::{FrameCounts, StreamCounts, StreamTo, Times, run_frames, run_stream};

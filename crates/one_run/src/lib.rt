//! What all runs share: their contract, the lines of report and counts, and why a run ends early.
//!
//! - [`BridgeFault`] is why a run ended before it was done, [`Status`] the exit status of a
//! program;
//! - [`report_text`] is a line of a report, and [`append_count`] appends a line of counts;
//! - [`read_piece`] reads a piece of an input that has a limit;
//! - [`Text`] is a short text in a buffer of fixed size; no memory is allocated.
//!
//! `specs/Runs.antt` has the contract: `Ended` states how a run ended, from the known bytes and the
//! error counts of its input, output and report before and after.
//!
//! ```rust
//! let mut text = Text::new();
//! append_count(&mut text, b"frames", 3);
//! assert!(rt; text.as_slice() == b"frames 3\n".as_slice());
//! assert!(rt; report_text(b"frame", 1, b"short").as_slice() == b"frame 1 short\n".as_slice());
//! ```
#![tactic(auto)]

mod fault;
mod pieces;
mod report;
mod status;
mod text;

pub use crate::fault::BridgeFault;
pub use crate::pieces::read_piece;
pub use crate::report::{append_count, report_prefix, report_text};
pub use crate::status::Status;
pub use crate::text::{ROOM, Text, append, append_decimal, append_hex};

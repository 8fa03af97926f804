//! Messages, records and pushed conversions over bytes and buffers that C hands in.
//!
//! Messages as they are sent and as they are filed, over bytes and buffers that C hands in, from
//! and to structs of raw integers that C can lay out:
//!
//! - messages 1019 and 1046 of RTCM 10403.3 and their frames;
//! - subframes of the GPS LNAV message, and pages of the Galileo I/NAV message;
//! - records of RINEX navigation message files.
//!
//! A call whose input is rejected returns the number of the reason, and writes nothing. None takes
//! memory.
//!
//! Ephemerides of any system as rows that C can lay out: a satellite, an epoch and the columns of
//! the record as integers, with the unit of each column by a table (RTCM 10403.3, 3.5; RINEX 4.01,
//! navigation records).
//!
//! A further kind of ephemerides in [`nav_rows`] is read and written by the same calls.
//!
//! States in memory of the C caller, and safe steps over them. Each leaves a state that is related
//! to the one before and to what it returns, or is a function of them, so that a contract over
//! memory can name it.
//!
//! - [`deframer`]: the frames of a stream that comes in pieces (RTCM 10403.3, the transport layer);
//! - [`pages`]: the parts of Galileo I/NAV pages, joined to pages as they come in any order;
//! - [`push`]: a complete conversion whose input comes in pieces, as the program does it over its
//!   streams.
//!
//! ```rust
//! let mut state = deframer::new();
//! let taken = deframer::feed(&mut state, piece);
//! let size = deframer::next(&mut state, &mut frame);
//! ```
#![tactic(auto)]

mod column;
pub mod deframer;
mod fixed;
mod frames;
mod joins;
mod kept;
mod kinds;
mod laws;
mod message;
mod messages;
mod page_raw;
mod pages;
mod pending;
pub mod push;
mod read;
mod record_ends;
mod record_reads;
mod record_writes;
mod released;
mod row_raw;
mod state_laws;
pub mod state_pages;
mod subframe_raw;
mod subframes;
mod tags;
mod text_lines;
mod weeks;
mod word_out;
mod words;
mod write;

pub use crate::column::row_column;
pub use crate::fixed::Fixed;
pub use crate::frames::{is_frame, make_frame};
pub use crate::joins::{join_subframes, join_words};
pub use crate::kept::GrowingSink;
pub use crate::laws::{pages_come_back, records_come_back, subframes_come_back};
pub use crate::message::write_row_message;
pub use crate::messages::{read_frame, read_message, write_message};
pub use crate::page_raw::{PageBits, WordRaw, WordsRaw};
pub use crate::pages::{read_page, write_page};
pub use crate::pending::Pending;
pub use crate::push::PushedJob;
pub use crate::read::read_row;
pub use crate::record_ends::{header_size, record_size};
pub use crate::record_reads::read_record;
pub use crate::record_writes::{HeaderRaw, write_header, write_record};
pub use crate::released::Released;
pub use crate::row_raw::{ColumnRaw, RowRaw};
pub use crate::state_laws::what_a_deframer_gives_does_not_depend_on_pieces;
pub use crate::state_pages::{JoinedPage, PagePairs, PartBits};
pub use crate::subframe_raw::{SubframeBits, SubframeRaw, SubframesRaw};
pub use crate::subframes::{read_subframe, write_subframe};
pub use crate::weeks::week_of_unix;
pub use crate::words::{are_texts, texts_of};
pub use crate::write::write_row;

//! What the lines of a capture give: the definitions on which a conversion rests, and the theorems
//! between them. There is no input and no output here.
//!
//! A line is malformed, late, or accepted. An accepted one holds a GPS subframe (IS-GPS-200, 20.3),
//! a Galileo page part (OS SIS ICD, 4.3), or an RTCM frame (10403.3), and gives *parts* of
//! ephemerides and of ionosphere parameters, or the reason for which it is rejected. Each such
//! [`Event`] is in the log with its line number.
//!
//! - `specs/Events.antt`: the events of one more line, given the state after those before it;
//! - `specs/Log.antt`: the log of all lines, and the parts in it;
//! - `specs/Received.antt`: the received parts, stated over all lines at once. The theorems state
//! that
//!   these are the same, a set of values, and that order and repetition of lines do not matter.
//!
//! ```rust
//! use capture_log::{Event, Refusal, subframe_event};
//! use lnav_subframe::LnavFault;
//!
//! assert!(rt; subframe_event(Err(LnavFault::BadTow)) == Event::Refused(Refusal::Tow));
//! ```
#![tactic(auto)]

mod event;
mod laws;
mod reading;
mod received_laws;

pub use crate::event::{Event, EventFault};
pub use crate::laws::{
    further_lines_are_later, further_lines_go_on, lines_yield_what_is_received,
    order_of_items_does_not_matter, order_of_lines_does_not_matter, parts_of_lines_are_sendable,
    parts_of_lines_are_values, parts_received_are_values, periods_are_those_received,
    taken_parts_are_received, what_is_closed_stays,
};
pub use crate::reading::{message_event, subframe_event, word_event};
pub use crate::received_laws::{parts_received_have_ranges, periods_received};

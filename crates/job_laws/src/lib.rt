//! What runs write, stated by all of their input at once: all lines of a capture, the messages of a
//! receiver's log, the arguments.
//!
//! The crates of the runs state what each writes line by line, and `bridge_engine` that a
//! conversion writes the meaning of the bytes of its input; the theorems here state what that is.
//! The crate has no other functions.
//!
//! Of the format of a file (`whole_file`):
//!
//! - [`accepted_bytes_decide_their_format`]: what a conversion accepts is recognised as its format
//! by
//!   its first line.
//!
//! Of the log of a capture (`capture_log`):
//!
//! - [`late_lines_are_reported`]: a line is late exactly if one before it has a time tag that is
//! later
//!   by more than the window;
//! - [`events_are_counted`]: a count is the sum over each line alone and over each word received,
//!   once;
//! - [`pairs_are_counted_once`]: the order in which the words received are listed does not matter;
//! - [`rejected_lines_are_reported`]: a line is rejected for a reason exactly if its subframe or
//! frame
//!   is, or a word that it completes; and the log is in the order of the lines.
//!
//! Of a conversion of a capture:
//!
//! - [`converted_captures_come_back`]: the text is that of the items of the periods of the parts
//!   received, and reads back as these items; [`what_is_converted_comes_back`] states so for the
//!   arguments, and [`what_the_main_theorem_states_comes_back`] of the relations in the contract of
//!   `bridge`;
//! - [`order_of_lines_changes_no_text`]: the same lines in another order give the same output;
//! - [`counts_are_of_lines_and_words`] and [`counts_are_of_periods`]: each count is a number of
//!   events of lines and words received, or of periods of the parts received.
//!
//! Of a navigation file that is written as a capture:
//!
//! - [`a_sent_file_comes_back`]: what is received of the capture is converted back to the text of
//!   the items that were sent.
//!
//! Of the records and the header of a navigation file (`rinex_read`):
//!
//! - [`records_give_their_items`] and [`records3_give_their_items`]: lines are read as an item
//!   exactly if they are a record of it, column by column;
//! - [`headers_have_their_columns`], the same of a header, and [`files_give_their_items`], of the
//!   bytes of a file.
//!
//! Of the log of a receiver (`receiver_log`) and its capture:
//!
//! - [`a_log_is_received_through_its_capture`]: the parts received from the capture are those that
//! the
//!   messages of the log carry;
//! - [`a_received_log_is_a_capture`], from the lines of a capture to its week, window and periods;
//! - [`a_log_is_converted_through_its_capture`], the same from the bytes of a log.
#![tactic(auto)]

mod counted;
mod forms;
mod laws;
mod logs;
mod records;
mod round_trip;

pub use crate::counted::{
    events_are_counted, late_lines_are_reported, pairs_are_counted_once,
    rejected_lines_are_reported,
};
pub use crate::forms::accepted_bytes_decide_their_format;
pub use crate::laws::{
    converted_captures_come_back, counts_are_of_lines_and_words, counts_are_of_periods,
    order_of_lines_changes_no_text, what_is_converted_comes_back,
    what_the_main_theorem_states_comes_back,
};
pub use crate::logs::{
    a_log_is_converted_through_its_capture, a_log_is_received_through_its_capture,
    a_received_log_is_a_capture,
};
pub use crate::records::{
    files_give_their_items, headers_have_their_columns, records_give_their_items,
    records3_give_their_items,
};
pub use crate::round_trip::a_sent_file_comes_back;

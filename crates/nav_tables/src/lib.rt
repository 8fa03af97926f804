//! Messages by tables: their bit fields, the columns of their records, and weeks and days of
//! further systems.
//!
//! Messages of bit fields, read and written by tables.
//!
//! A [`Table`] is the list of a message's fields in order, each with its width, its coding and its
//! range. [`read_message`] reads the numbers of any message by its table, and [`write_message`]
//! writes them.
//!
//! The columns of a record from the numbers of a message, and back, by a table of links.
//!
//! Weeks of any width, and the days and times of GLONASS frames.
//!
//! Numbers whose bits a broadcast message splits, with parity between, read and written by tables.
#![tactic(auto)]

mod columns;
mod day;
mod day_laws;
mod field;
mod laws;
mod link;
mod link_laws;
mod message;
mod piece;
mod piece_laws;
mod pieces;
mod times;
mod week;

pub use crate::columns::{columns_of, fill_numbers};
pub use crate::day::{day_of_number, nearest_day, number_of_day};
pub use crate::day_laws::{
    days_are_dates, frames_are_of_times, nearest_days, one_week, times_come_back, weeks_come_back,
};
pub use crate::field::{Coding, Field, Table};
pub use crate::laws::{numbers_are_in_range, read_is_written, written_is_read};
pub use crate::link::{Link, Part};
pub use crate::link_laws::{columns_come_back, numbers_come_back, numbers_in_range_fit};
pub use crate::message::{TableFault, first_outside, read_message, start_numbers, write_message};
pub use crate::piece::Piece;
pub use crate::piece_laws::{numbers_in_pieces_fit, read_numbers_stand, split_numbers_join};
pub use crate::pieces::{put_pieces, read_numbers};
pub use crate::times::{FrameTime, TimeFault, Times, frame_time, times_of};
pub use crate::week::{WeekRule, number_of_week, week_near};

//! Kinds of ephemerides as constants, and rows: the records of any kind from its messages.
//!
//! A [`Kind`] is a message table, a record layout, and a link for each column of the record; so a
//! further kind takes no function. [`row_of_message`] gives the row of a message (RTCM 10403.3,
//! 3.5) near a reference week, and [`message_of_row`] the message; [`write_record`] appends its
//! record (RINEX 4.01, navigation records), and [`read_record`] reads one. [`compare_rows`] orders
//! rows, and [`are_alike`] finds those that a file needs once.
//!
//! ```rust
//! use nav_eph::RefWeek;
//! use nav_rows::{kind_of, row_of_message};
//!
//! let kind = kind_of(1020, 25).ok_or("a kind")?;
//! let reference = RefWeek::new(2295).ok_or("a reference week")?;
//! let row = row_of_message(&kind, payload, reference)?;
//! assert!(rt; row.number == 25);
//! ```
#![tactic(auto)]

mod encode;
mod kind;
mod laws;
mod links;
mod order;
mod read;
mod row;
mod tables;
#[cfg(test)]
mod tests;
mod times;

pub use crate::encode::{EncodeFault, message_of_row};
pub use crate::kind::{
    Clock, Kind, TimeScale, WeekClock, is_titled, kind_d1, kind_d2, kind_fdma, kind_fnav,
    kind_navic, kind_of, kind_of_letter, kind_of_title, kind_qzss, kind_sbas,
};
pub use crate::laws::{
    messages_come_back, records_of_rows_are_read, rows_are_ordered, rows_come_back,
    table_1019_is_read, table_1046_is_read,
};
pub use crate::order::{are_alike, compare_rows, rank_of};
pub use crate::read::{has_fields, read_record};
pub use crate::row::{Row, RowFault, row_of_message, write_body, write_record};
pub use crate::tables::{
    FIELDS_1019, FIELDS_1020, FIELDS_1041, FIELDS_1042, FIELDS_1044, FIELDS_1045, FIELDS_1046,
    table_1019, table_1046,
};
pub use crate::times::RowTimes;

//! The ephemeris messages of RTCM, read and written (RTCM 10403.3, 3.5).
//!
//! The payload of a frame begins with a message number of twelve bits. Message 1019 carries a GPS
//! ephemeris, message 1046 a Galileo I/NAV ephemeris.
//!
//! - [`read_message`] gives the parts of a payload's ephemeris, or its first error
//!   ([`MessageFault`]);
//! - [`read_item`] gives the same as one ephemeris;
//! - [`write_1019`] and [`write_1046`] give the payload of an ephemeris.
//!
//! ```rust
//! use nav_eph::RefWeek;
//! use rtcm_eph::{MessageFault, read_item};
//!
//! let reference = RefWeek::new(2295).ok_or("a reference week")?;
//! let read = read_item(&[0x3F, 0xC0], reference);
//! assert!(rt; read == Err(MessageFault::OtherMessage { number: 1020 }));
//! ```
#![tactic(auto)]

mod content;
mod fault;
mod galileo;
mod gps;
mod laws;
mod message1019;
mod message1046;
mod read;
mod satellite;
mod write;

pub use crate::content::{EphemerisMessage, GalContent, GpsContent};
pub use crate::fault::MessageFault;
pub use crate::laws::{
    item_function, message_bytes, message_parts, messages_are_the_functions, one_message_1019,
    one_message_1046, read_1019_is_sent, read_1046_is_sent, refused_by_the_first_fault,
    sent_1019_is_read, sent_1046_is_read,
};
pub use crate::message1019::Message1019;
pub use crate::message1046::Message1046;
pub use crate::read::{MessageParts, read_item, read_message};
pub use crate::write::{write_1019, write_1046};

//! Sending: an ephemeris as the bits that its satellite would transmit, each with the second at
//! which a receiver's logger would receive it.
//!
//! A GPS ephemeris is sent as subframes 1 to 3 of the LNAV message (IS-GPS-200, 20.3.2), a Galileo
//! one as the pages of word types 1 to 5 of the I/NAV message on E1-B (OS SIS ICD, 4.3.2). Each has
//! a slot of six hours of its own, so that parts of two ephemerides are never combined.
//!
//! - [`can_send`] returns whether an ephemeris may be sent in a slot, or the first reason why not
//!   ([`SendFault`]);
//! - [`send_item`] writes the lines of a slot.
//!
//! `specs/Slots.antt` has what is sent in a slot, `specs/Sendable.antt` which ephemerides of a list
//! are sent and the text of all of them, and `specs/SentItems.antt` the items that are received
//! from it.
//!
//! ```rust
//! match can_send(&item, week, slot) {
//!     Ok(()) => {
//!         send_item(&item, week, slot, &mut sink)?;
//!         slot += 1;
//!     }
//!     Err(SendFault::Issue | SendFault::Week | SendFault::Room) => {}
//! }
//! ```
//!
//! Generated captures of broadcast messages: input for tests and measurements of which every byte
//! is known.
//!
//! [`make_capture`] gives what a logger could have received in one hour: a subframe of each GPS
//! satellite every 6 seconds (IS-GPS-200, 20.3), and a page part of each Galileo satellite every
//! second on E1-B and on E5b (Galileo OS SIS ICD, 4.3). The broadcast values are random, from a
//! seed, so three small numbers determine a capture.
//!
//! ```rust
//! use nav_eph::RefWeek;
//! use sent_captures::{Sats, make_capture};
//!
//! let week = RefWeek::new(2295).ok_or("a week")?;
//! let sats = Sats::new(1).ok_or("a number of satellites")?;
//! let text = make_capture(rt.alloc(), 7, sats, week)?;
//! assert!(rt; text.as_slice().starts_with(b"NAVCAP 1\n6 P E01 5 "));
//! ```
#![tactic(auto)]

mod capture;
mod fault;
mod generator;
mod laws;
mod lines;
mod pages;
mod sats;
mod seed_laws;
mod seed_lines;
mod senders;
mod sending;
mod slot;
mod values;

pub use crate::capture::make_capture;
pub use crate::fault::{SendFault, can_send};
pub use crate::laws::{sent_text_goes_on, what_may_be_sent};
pub use crate::sats::Sats;
pub use crate::seed_laws::{
    captures_are_short, captures_are_the_text, lines_are_counted, one_capture,
};
pub use crate::slot::send_item;

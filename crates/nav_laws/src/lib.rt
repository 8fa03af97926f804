//! For theorems and tests only: the round trip of ephemerides through a capture, and a plain
//! assembly of periods.
//!
//! An ephemeris is transmitted as subframes of the LNAV message (IS-GPS-200, 20.3.2) or as pages of
//! the I/NAV message (Galileo OS SIS ICD, 4.3.2), each in a slot of its own (`page_send`). A
//! capture of these lines gives parts (`capture_log`), which are grouped in periods and make items
//! (`periods`). The theorems here state that the items are those that were transmitted:
//!
//! - [`what_is_sent_comes_back`], over lines;
//! - [`parts_of_slots_come_back`], over the parts of the slots alone;
//! - [`what_is_sent_is_received`], that the parts received from a transmission are those of the
//! slots.
//!
//! [`PlainAssembly`] keeps all parts and searches them, as the definitions do; the assembly in
//! slots is compared with it.
#![tactic(auto)]

mod due;
mod far;
mod kept;
mod laws;
mod plain;

pub use crate::far::old_is_far;
pub use crate::laws::{
    parts_of_slots_come_back, what_is_sent_comes_back, what_is_sent_is_received,
};
pub use crate::plain::PlainAssembly;

//! Periods of the received parts of broadcast ephemerides and of the broadcast ionosphere, with
//! their verdicts and items.
//!
//! A satellite repeats an ephemeris in parts (GPS subframes, Galileo I/NAV words) under an issue of
//! data (IODE and IODC of GPS, IS-GPS-200, 20.3.4.4; IODnav of Galileo, Galileo OS SIS ICD,
//! 5.1.9.2). A [`PeriodKey`] names a satellite and an issue. The parts of a key fall into
//! *periods*: a period ends with a part after which no part of the key is received for a window. A
//! complete period, whose parts agree, makes an item; every other one is partial, contradicted or,
//! for Galileo, without health ([`Verdict`]). Ionosphere parts have no issue of data: their content
//! is the key.
//!
//! Where parts return after a longer gap and make an ephemeris that equals, in all but the
//! transmission time, that of the last complete period of the key, the verdict is `Again`: no
//! further item.
//!
//! The definitions depend on the set of the parts alone; `periods_of` computes the periods of any
//! list of parts. The theorems state that order and repetition do not matter, and which periods
//! later parts leave unchanged. An assembly of parts is built from the calls: the digest of the
//! members of a period ([`Digest`]), and the search for the verdict among stored parts
//! ([`verdict_on`]).
//!
//! Periods are based on the ends of a set of time tags ([`one_more_stamp`]): an end is a time tag
//! with no other in the window after it, whatever was received then.
//!
//! ```rust
//! use periods::order_does_not_matter;
//!
//! order_does_not_matter();
//! ```
#![tactic(auto)]

mod closed;
mod digest;
mod digest_add;
mod digest_finding;
mod digest_join;
mod digest_of;
mod ends;
mod find;
mod health;
mod key;
mod laws;
mod order;
mod search;
mod value;

pub use crate::closed::{Closed, Finding, Verdict};
pub use crate::digest::{Digest, GalDigest, GpsDigest, Seen};
pub use crate::ends::{each_stamp_has_one_end, later_stamps_change_no_closed_end, one_more_stamp};
pub use crate::find::{finding_on, judge, verdict_on};
pub use crate::key::{PeriodId, PeriodKey, Transmission};
pub use crate::laws::{
    closed_stays, digests_are, items_concatenate, items_fit_together, keys_are_decided,
    one_more_part, only_ephemerides_are_repeated, order_does_not_matter, parts_far_apart,
    periods_are,
};
pub use crate::order::{
    comes_before, is_part_of, is_same_sat, key_of_part, place_of_part, system_number,
};
pub use crate::search::is_quiet;
pub use crate::value::note_value;

//! The content of a line.

use arrayvec::ArrayVec;
use nav_bits::Bits;
use nav_eph::{Sat, Signal};

/// The greatest length of an RTCM frame in bytes (RTCM 10403.3, transport layer).
pub(crate) const LONGEST_FRAME: usize = 1029;

/// The content of a line of a capture.
#[derive(PartialEq, Eq, Drop)]
pub enum LineItem {
    /// A skipped line: it has at most 2,200 bytes, and begins with `#`, is empty or has only
    /// spaces.
    Pass,
    /// A subframe of the GPS LNAV message.
    Lnav {
        /// The time tag at which it was received, in seconds of the logger's clock.
        stamp: u32,
        /// The GPS satellite.
        sat: Sat,
        /// The 300 bits, followed by four that are ignored.
        bits: Bits<38>,
    },
    /// A page part of the Galileo I/NAV message.
    Half {
        /// The time tag at which it was received, in seconds of the logger's clock.
        stamp: u32,
        /// The Galileo satellite.
        sat: Sat,
        /// The signal on which it was received.
        signal: Signal,
        /// The 120 bits.
        bits: Bits<15>,
    },
    /// The bytes of an RTCM frame, not checked.
    Frame {
        /// The time tag at which it was received, in seconds of the logger's clock.
        stamp: u32,
        /// The bytes, 6 to 1,029.
        bytes: ArrayVec<u8, LONGEST_FRAME>,
    },
    /// Every other line.
    Malformed,
}

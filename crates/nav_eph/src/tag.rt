ghost use Rattle.std.specs.Prelude.{◌≡◌, ℕ, ◌^◌, ◌<◌};
ghost use Rattle.nav_eph.specs.Weeks.{IsSecond};
ghost use Rattle.nav_eph.specs.Bodies.{IsSentTag};
ghost use Rattle.nav_eph.specs.Numbers.{gal_transmission, gps_transmission, tag_number};

use crate::Second;
use nav_bits::U;

/// The time that dates an ephemeris: a week number of at most twelve bits and a time of week.
#[derive(Clone, Copy, PartialEq, Eq)]
pub enum SentTag {
    /// The transmission time.
    Sent {
        /// The week number as sent.
        wn: U<12>,
        /// The time of week.
        second: Second,
    },
    /// The ephemeris reference time, if a message gives no transmission time.
    Toe {
        /// The week number as sent.
        wn: U<12>,
        /// The time of week.
        second: Second,
    },
}

impl SentTag {
    /// Its 33 bits as one number: the kind in 1 bit, the week number in 12, the time of week in 20.
    pub fn number(&self) -> u64
        ensures value { result ≡ tag_number self.now }
        ensures fits { IsSentTag self.now }
    {
        match self {
            SentTag::Sent { wn, second } => wn.value() * 1_048_576 + second.value() as u64,
            SentTag::Toe { wn, second } => {
                (4_096 + wn.value()) * 1_048_576 + second.value() as u64
            }
        }
    }
}

/// The transmission time of GPS ionospheric parameters as a number: the time of week, as no week
/// number is known.
pub fn gps_transmission_number(second: Second) -> u64
    ensures value { result ≡ gps_transmission second }
    ensures fits { IsSecond second }
{
    second.value() as u64
}

/// The transmission time of Galileo ionospheric parameters as one number: the week number in 12
/// bits, the time of week in 20.
pub fn gal_transmission_number(wn: U<12>, second: Second) -> u64
    ensures value { result ≡ gal_transmission wn second }
    ensures week_fits { wn < 2 ^ 12 }
    ensures second_fits { IsSecond second }
{
    wn.value() * 1_048_576 + second.value() as u64
}

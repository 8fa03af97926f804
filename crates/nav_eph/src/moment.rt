ghost use Rattle.std.specs.Prelude.{◌≡◌, ℕ, ◌<◌, ◌↔◌, IsSome, IfSome};
ghost use Rattle.nav_eph.specs.Weeks.{IsMoment, IsSecond, second_of, week_of};

use std::marker::Model;

/// The seconds of a week.
pub const SECONDS_OF_WEEK: u32 = 604_800;

/// A time of week (TOW) in seconds, 0 to 604,799.
#[derive(Clone, Copy, PartialEq, Eq, PartialOrd, Ord, Hash)]
pub struct Second {
    second: u32,
}

impl Model for Second {
    ghost Value = { ℕ };

    ghost view = { λ s. s.second };

    ghost invariant = { λ s. IsSecond s.second };

    ghost inverse = { λ n. record { second = n } };
}

impl Second {
    /// The time of week with this value; `None` above 604,799.
    pub fn new(second: u32) -> Option<Self>
        ensures exactly { IsSome result ↔ IsSecond second }
        ensures same { IfSome result (λ s. s ≡ second) }
    {
        if second < SECONDS_OF_WEEK {
            Some(Second { second })
        } else {
            None
        }
    }

    /// The time of week with this value, if the caller knows that it is in range.
    pub fn from_number(second: u32) -> Self
        requires { IsSecond second }
        ensures { result ≡ second }
    {
        Second { second }
    }

    /// The time of week in seconds.
    pub fn value(&self) -> u32
        ensures same { result ≡ self.now }
        ensures fits { IsSecond self.now }
    {
        self.second
    }
}

/// A GPS time: the seconds since midnight at the start of 1980-01-06, in the first 16,384 weeks.
#[derive(Clone, Copy, PartialEq, Eq, PartialOrd, Ord, Hash)]
pub struct Moment {
    seconds: u64,
}

impl Model for Moment {
    ghost Value = { ℕ };

    ghost view = { λ m. m.seconds };

    ghost invariant = { λ m. IsMoment m.seconds };

    ghost inverse = { λ n. record { seconds = n } };
}

impl Moment {
    /// The GPS time with this value; `None` from 9,909,043,200 on, where week 16,384 begins.
    pub fn new(seconds: u64) -> Option<Self>
        ensures exactly { IsSome result ↔ IsMoment seconds }
        ensures same { IfSome result (λ m. m ≡ seconds) }
    {
        if seconds < 9_909_043_200 {
            Some(Moment { seconds })
        } else {
            None
        }
    }

    /// The GPS time with this value, if the caller knows that it is in range.
    pub fn from_seconds(seconds: u64) -> Self
        requires { IsMoment seconds }
        ensures { result ≡ seconds }
    {
        Moment { seconds }
    }

    /// The seconds since midnight at the start of 1980-01-06.
    pub fn value(&self) -> u64
        ensures same { result ≡ self.now }
        ensures fits { IsMoment self.now }
    {
        self.seconds
    }

    /// Its week number, counted from 0 without rollover.
    pub fn week(&self) -> u32
        ensures { result ≡ week_of self.now }
    {
        (self.seconds / SECONDS_OF_WEEK as u64) as u32
    }

    /// Its time of week.
    pub fn second(&self) -> Second
        ensures { result ≡ second_of self.now }
    {
        Second {
            second: (self.seconds % SECONDS_OF_WEEK as u64) as u32,
        }
    }
}

ghost use Rattle.std.specs.Prelude.{◌≡◌, ℕ, ◌≤◌, ◌↔◌, IsSome, IfSome};
ghost use Rattle.nav_eph.specs.Weeks.{IsReference, IsWeek};

use std::marker::Model;

/// The reference week, 1024 to 8191, that resolves truncated week numbers.
#[derive(Clone, Copy, PartialEq, Eq, PartialOrd, Ord, Hash)]
pub struct RefWeek {
    number: u32,
}

impl Model for RefWeek {
    ghost Value = { ℕ };

    ghost view = { λ w. w.number };

    ghost invariant = { λ w. IsReference w.number };

    ghost inverse = { λ n. record { number = n } };
}

impl RefWeek {
    /// The reference week with that number, counted from 1980-01-06; `None` outside 1024 to 8191.
    pub fn new(week: u32) -> Option<Self>
        ensures exactly { IsSome result ↔ IsReference week }
        ensures same { IfSome result (λ w. w ≡ week) }
    {
        if week < 1024 {
            return None;
        }
        if week > 8191 {
            return None;
        }
        Some(RefWeek { number: week })
    }

    /// The week number.
    pub fn value(&self) -> u32
        ensures same { result ≡ self.now }
        ensures fits { IsReference self.now }
    {
        self.number
    }
}

/// A week counted from 1980-01-06, 1 to 16382: one that has a week before it and one after it.
#[derive(Clone, Copy, PartialEq, Eq, PartialOrd, Ord, Hash)]
pub struct Week {
    number: u32,
}

impl Model for Week {
    ghost Value = { ℕ };

    ghost view = { λ w. w.number };

    ghost invariant = { λ w. IsWeek w.number };

    ghost inverse = { λ n. record { number = n } };
}

impl Week {
    /// The week with this number; `None` outside 1 to 16382.
    pub fn new(week: u32) -> Option<Self>
        ensures exactly { IsSome result ↔ IsWeek week }
        ensures same { IfSome result (λ w. w ≡ week) }
    {
        if week < 1 {
            return None;
        }
        if week > 16382 {
            return None;
        }
        Some(Week { number: week })
    }

    /// The week with this number, if the caller knows that it is in range.
    pub fn from_number(week: u32) -> Self
        requires { IsWeek week }
        ensures { result ≡ week }
    {
        Week { number: week }
    }

    /// The week number.
    pub fn value(&self) -> u32
        ensures same { result ≡ self.now }
        ensures fits { IsWeek self.now }
    {
        self.number
    }
}

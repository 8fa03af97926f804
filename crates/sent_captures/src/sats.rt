//! The number of satellites of a generated capture.

ghost use Rattle.std.specs.Prelude.{◌≡◌, ℕ, ◌↔◌, IsSome, IfSome};
ghost use Rattle.sent_captures.specs.Sats.{IsSats};

use std::marker::Model;

/// The number of satellites of each system in a generated capture, 1 to 32.
#[derive(Clone, Copy, PartialEq, Eq)]
pub struct Sats {
    number: u8,
}

impl Model for Sats {
    ghost Value = { ℕ };

    ghost view = { λ s. s.number };

    ghost invariant = { λ s. IsSats s.number };

    ghost inverse = { λ n. record { number = n } };
}

impl Sats {
    /// This number; `None` outside 1 to 32.
    pub fn new(number: u8) -> Option<Self>
        ensures exactly { IsSome result ↔ IsSats number }
        ensures same { IfSome result (λ s. s ≡ number) }
    {
        if number < 1 {
            return None;
        }
        if number > 32 {
            return None;
        }
        Some(Sats { number })
    }

    /// The number.
    pub fn value(&self) -> u8
        ensures same { result ≡ self.now }
        ensures fits { IsSats self.now }
    {
        self.number
    }
}

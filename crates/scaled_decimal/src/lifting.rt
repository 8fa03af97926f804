//! The thirteen digits of a number at a scale, by one product with a power of five.

ghost use Rattle.std.specs.Prelude.{◌≡◌, ◌+◌, ◌*◌, ◌^◌};
ghost use Rattle.std.specs.Prelude.{◌<◌, ◌≤◌, MatchOption};
ghost use Rattle.scaled_decimal.specs.Fractions.{IsNearest, scaled};
ghost use Rattle.scaled_decimal.specs.NumberText.{parts_to};
ghost use Rattle.scaled_decimal.specs.ScaleValue.{size_of, AreWithin};
ghost use Rattle.scaled_decimal.specs.Mirrors.{AreDigitsAt, IsReportedPlace};

use crate::powers::{rank_of, wide_power_of_five};
use crate::scales::Scale;
use crate::sizes::size_parts;

/// Thirteen digits, with the point after the first, and an exponent.
#[derive(Clone, Copy)]
pub(crate) struct Parts {
    pub(crate) digits: u64,
    pub(crate) exponent: i32,
}

// The integer nearest to `over` / 2^`bits`; None for a tie.
fn halved(over: u128, bits: u32) -> Option<u128>
    requires over { over < 2 ^ 127 + 2 ^ 126 }
    requires bits { bits ≤ 59 }
    ensures { MatchOption result (Unit {0})
        (λ n. IsNearest (record { over = over; under = 2 ^ bits }) n) }
{
    let bits = bits % 64;
    let sum = over + (1 << bits) / 2;
    let whole = sum >> bits;
    if whole << bits == sum {
        return None;
    }
    Some(whole)
}

// The integer nearest to `over` / (2^`bits` x 10); None for a tie or where that is not tried.
fn tenth(over: u128, bits: u32) -> Option<u128>
    requires { bits ≤ 59 }
    ensures { MatchOption result (Unit {0})
        (λ n. IsNearest (record { over = over; under = 2 ^ bits * 10 }) n) }
{
    let bits = bits % 64;
    let part = over >> bits;
    if part >= 1 << 60 {
        return None;
    }
    let whole = (part + 5) / 10;
    if whole * 10 == part + 5 {
        if part << bits == over {
            return None;
        }
        return Some(whole);
    }
    Some(whole)
}

// `over` x 5^`lift`; None where that is not tried.
fn product_of_fives(over: u128, lift: u32) -> Option<u128>
    requires { over < 2 ^ 83 }
    ensures { MatchOption result (Unit {0}) (λ w. (w ≡ over * 5 ^ lift) × (w < 2 ^ 127 + 2 ^ 126)
        × (lift ≤ 30)) }
{
    if lift <= 19 {
        return Some(over * wide_power_of_five(lift));
    }
    if lift > 30 {
        return None;
    }
    if over >= 1 << 56 {
        return None;
    }
    Some(over * wide_power_of_five(lift))
}

// The integer nearest to `over` x 10^`lift` x 2^`up` / 2^`down`; None for a tie or where that is
// not tried.
fn lifted_digits(over: u128, lift: u32, up: u32, down: u32) -> Option<u128>
    requires over { over < 2 ^ 83 }
    requires up { up ≤ 16 }
    requires down { down ≤ 59 }
    ensures { MatchOption result (Unit {0})
        (λ n. IsNearest (record { over = over * 10 ^ lift * 2 ^ up; under = 2 ^ down }) n) }
{
    let wide = product_of_fives(over, lift)?;
    let twos = lift + up;
    if twos < down {
        return halved(wide, down - twos);
    }
    if wide >= 1 << 64 {
        return None;
    }
    Some(wide << (twos - down))
}

// The digits of `over` x 2^`up` / 2^`down` from the place on that its rank tells.
fn digits_at_rank(over: u128, rank: u32, up: u32, down: u32) -> Option<u128>
    requires over { over < 2 ^ 83 }
    requires up { up ≤ 16 }
    requires down { down ≤ 59 }
    ensures { MatchOption result (Unit {0}) (λ n. AreDigitsAt over rank up down n) }
{
    if rank <= 1245 {
        return lifted_digits(over, 1245 - rank, up, down);
    }
    if rank > 1246 || up > 0 {
        return None;
    }
    tenth(over, down)
}

// The parts with these digits, if there are thirteen of them.
fn parts_with(digits: u128, place: u32, whole: bool) -> Option<Parts>
    requires { place ≤ 2000 }
    ensures { MatchOption result (Unit {0})
        (λ p. IsReportedPlace digits place whole p.digits p.exponent) }
{
    let least = if whole {
        1_000_000_000_000
    } else {
        1_000_000_000_001
    };
    if digits < least || digits >= 10_000_000_000_000 || place < 1233 {
        return None;
    }
    Some(Parts {
        digits: digits as u64,
        exponent: place as i32 - 1253,
    })
}

/// The parts of a number at a scale; None if they are not known quickly.
pub(crate) fn lifted_parts(number: u64, scale: &Scale) -> Option<Parts>
    requires some { 0 < number }
    requires small { number ≤ 4294967295 }
    requires scale { AreWithin scale.now.factor scale.now.two scale.now.ten }
    ensures { MatchOption result (Unit {0})
        (λ p. record { digits = p.digits; exponent = p.exponent }
        ≡ parts_to (scaled number (size_of scale.now))) }
{
    let size = size_parts(scale);
    let over = u128::from(number) * u128::from(size.factor);
    let rank = rank_of(over, size.up, size.down);
    let digits = digits_at_rank(over, rank, size.up, size.down)?;
    if size.down == 0 && rank <= 1245 {
        parts_with(digits, rank + size.tens, true)
    } else {
        parts_with(digits, rank + size.tens, false)
    }
}

//! Numbers at a scale by guesses that are confirmed.

ghost use Rattle.std.specs.Prelude.{◌≡◌, ◌+◌, ◌*◌, ◌^◌};
ghost use Rattle.std.specs.Prelude.{◌<◌, ◌≤◌, MatchOption};
ghost use Rattle.scaled_decimal.specs.Fractions.{IsNearest};
ghost use Rattle.scaled_decimal.specs.ScaleValue.{size_of, AreWithin};
ghost use Rattle.scaled_decimal.specs.Mirrors.{IsLifted, IsLowered, IsNumberAt};

use crate::powers::{inverse_of, power_of_five, power_of_ten};
use crate::scales::Scale;
use crate::sizes::size_parts;

// A number over 10^`tens`.
#[derive(Clone, Copy)]
struct Lifted {
    number: u64,
    tens: u32,
}

// A fraction.
#[derive(Clone, Copy)]
struct Lowered {
    over: u128,
    under: u128,
}

// The guess, if it is the integer nearest to `over` / `under`, and no tie.
fn confirmed(over: u128, under: u128, guess: u64) -> Option<u128>
    requires over { over < 2 ^ 126 }
    requires under { under < 2 ^ 95 }
    requires guess { guess ≤ 2 ^ 32 }
    ensures { MatchOption result (Unit {0})
        (λ n. IsNearest (record { over = over; under = under }) n) }
{
    let sum = over + under / 2;
    let taken = u128::from(guess) * under;
    if taken < sum && sum - taken < under {
        Some(u128::from(guess))
    } else {
        None
    }
}

// A guess of the integer nearest to `number` x 2^`bits` / (10^`tens` x pi or 1 x `factor`).
fn guess_of(lifted: &Lifted, bits: u32, pi: bool, factor: u32) -> u64
    requires tens { lifted.now.tens ≤ 20 }
    requires bits { bits ≤ 59 }
    requires factor { 1 ≤ factor }
    ensures { result ≤ 2 ^ 32 }
{
    let (inverse, length) = inverse_of(lifted.tens, pi);
    let high = (u128::from(lifted.number) * u128::from(inverse) >> 64) as u64;
    let drop = (length + lifted.tens).wrapping_sub(bits + 1) % 64;
    let guess = ((high >> drop) % (1 << 33) + 1) / 2;
    if factor == 1 {
        guess
    } else {
        guess / u64::from(factor)
    }
}

// `digits` x 10^`up` / 10^`down` with at most 18 digits over at most 10^20; None where that is not
// tried.
fn lift(digits: u64, up: u32, down: u32) -> Option<Lifted>
    requires digits { digits < 10 ^ 18 }
    ensures { MatchOption result (Unit {0}) (λ l. IsLifted digits up down l.number l.tens) }
{
    if up <= down {
        let tens = down - up;
        if tens > 20 {
            return None;
        }
        return Some(Lifted {
            number: digits,
            tens,
        });
    }
    let power = up - down;
    if power > 5 || digits >= 10_000_000_000_000 {
        return None;
    }
    Some(Lifted {
        number: digits * power_of_ten(power) as u64,
        tens: 0,
    })
}

// `number` x 2^`bits` / (`factor` x 10^`tens`), the twos cancelled; None where that is not tried.
fn lower(lifted: &Lifted, factor: u64, bits: u32) -> Option<Lowered>
    requires number { lifted.now.number < 10 ^ 18 }
    requires tens { lifted.now.tens ≤ 20 }
    requires factor { 0 < factor }
    requires bits { bits ≤ 59 }
    ensures { MatchOption result (Unit {0}) (λ l.
        IsLowered lifted.now.number lifted.now.tens factor bits l.over l.under) }
{
    if factor > 31_415_926_535_898 {
        return None;
    }
    let over = u128::from(lifted.number);
    let under = u128::from(factor) * u128::from(power_of_five(lifted.tens));
    if lifted.tens <= bits {
        let over = over << (bits - lifted.tens);
        return Some(Lowered { over, under });
    }
    if factor > 60 {
        return None;
    }
    let under = under << (lifted.tens - bits);
    Some(Lowered { over, under })
}

/// The integer nearest to `digits` x 10^`up` / 10^`down` / 10^20 divided by a scale; None if the
/// guess does not decide it.
#[inline(always)]
pub(crate) fn guessed_number(digits: u64, up: u32, down: u32, scale: &Scale) -> Option<u128>
    requires digits { digits < 10 ^ 18 }
    requires scale { AreWithin scale.now.factor scale.now.two scale.now.ten }
    ensures { MatchOption result (Unit {0})
        (λ n. IsNumberAt (size_of scale.now) digits up down n) }
{
    let size = size_parts(scale);
    if size.up > 0 || down > 2_000 {
        return None;
    }
    let lifted = lift(digits, up, down + size.tens)?;
    let lowered = lower(&lifted, size.factor, size.down)?;
    let guess = guess_of(&lifted, size.down, scale.pi, scale.factor);
    confirmed(lowered.over, lowered.under, guess)
}

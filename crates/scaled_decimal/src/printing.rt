//! Printing an integer at a scale.

ghost use Rattle.std.specs.Prelude.{◌≡◌, ◌+◌, ◌*◌, ◌%◌};
ghost use Rattle.std.specs.Prelude.{◌^◌, ◌<◌, ◌≤◌, ◌∷◌};
ghost use Rattle.std.specs.Prelude.{◌≤ℤ◌, pos, negsuc, unsigned_abs};
ghost use Rattle.scaled_decimal.specs.Fractions.{scaled};
ghost use Rattle.scaled_decimal.specs.ScaleValue.{size_of, IsAccepted};
ghost use Rattle.scaled_decimal.specs.Mirrors.{AreDigits};
ghost use Rattle.scaled_decimal.specs.NumberText.{carried, parts_to, parts_at, digits};
ghost use Rattle.scaled_decimal.specs.NumberText.{exponent_sign, body, sign_column, number_text};

use crate::fractions::{nearest_by_ten, nearest_by_two, ratio_of};
use crate::lifting::{Parts, lifted_parts};
use crate::powers::{power_of_ten, power_of_two};
use crate::scales::Scale;

// The greatest k up to `limit` with `start` x 10^k at most `over`.
fn steps_to(over: u128, start: u128, limit: u32) -> u32
    requires start { start ≤ over }
    requires over { over < start * 10 ^ (limit + 1) }
    requires fits { 10 * over < 2 ^ 128 }
    requires limit { limit < 40 }
    ensures at_most { start * 10 ^ result ≤ over }
    ensures below { over < start * 10 ^ (result + 1) }
    ensures limit { result ≤ limit }
{
    let mut reached = start;
    for step in 0..limit {
        let next = reached * 10;
        if over < next {
            return step;
        }
        reached = next;
    }
    limit
}

// The greatest k with `under` x 10^k at most `over`, by search.
fn place_by_steps(over: u128, under: u128) -> u32
    requires least { under ≤ over }
    requires most { over < under * 10 ^ 37 }
    requires under { under ≤ 2 ^ 59 }
    requires over { over < 10 ^ 37 }
    ensures at_most { under * 10 ^ result ≤ over }
    ensures below { over < under * 10 ^ (result + 1) }
    ensures limit { result ≤ 36 }
{
    let high = under * 10_000_000_000_000_000;
    if high <= over {
        16 + steps_to(over, high, 20)
    } else {
        steps_to(over, under, 15)
    }
}

// The greatest k with 2^`bits` x 10^k at most `over`: estimated from the bit length, and checked.
fn place_of(over: u128, bits: u32) -> u32
    requires bits { bits ≤ 59 }
    requires least { 2 ^ bits ≤ over }
    requires most { over < 2 ^ bits * 10 ^ 37 }
    requires over { over < 10 ^ 37 }
    ensures at_most { 2 ^ bits * 10 ^ result ≤ over }
    ensures below { over < 2 ^ bits * 10 ^ (result + 1) }
    ensures limit { result ≤ 36 }
{
    let whole = over >> bits;
    let most = (128u32.saturating_sub(whole.leading_zeros()) * 1233 >> 12).min(36);
    if whole < power_of_ten(most) {
        if most > 0 && power_of_ten(most - 1) <= whole {
            return most - 1;
        }
    } else if whole < power_of_ten(most + 1) {
        return most;
    }
    place_by_steps(over, power_of_two(bits))
}

// The thirteen significant digits of `over` / 2^`bits`, whose first is at 10^`place`.
fn digits_at(over: u128, bits: u32, place: u32) -> u128
    requires bits { bits ≤ 59 }
    requires at_most { 2 ^ bits * 10 ^ place ≤ over }
    requires below { over < 2 ^ bits * 10 ^ (place + 1) }
    requires place { place ≤ 36 }
    ensures { AreDigits over (2 ^ bits) place result }
{
    if place <= 12 {
        nearest_by_two(over * power_of_ten(12 - place), bits)
    } else {
        nearest_by_ten(over, bits, place - 12)
    }
}

// Rounding carry: 10^13 becomes 10^12 with the next exponent.
fn carried(digits: u64, exponent: i32) -> Parts
    requires { exponent ≤ℤ pos 16 }
    ensures { record { digits = result.digits; exponent = result.exponent }
        ≡ carried digits exponent }
{
    if digits == 10_000_000_000_000 {
        Parts {
            digits: 1_000_000_000_000,
            exponent: exponent + 1,
        }
    } else {
        Parts { digits, exponent }
    }
}

// The thirteen digits and the exponent of a non-zero number at a scale, by division.
#[cold]
#[inline(never)]
fn parts_by_division(number: u64, scale: &Scale) -> Parts
    requires some { 0 < number }
    requires small { number ≤ 4294967295 }
    requires scale { IsAccepted scale.now }
    ensures { record { digits = result.digits; exponent = result.exponent }
        ≡ parts_to (scaled number (size_of scale.now)) }
{
    let size = ratio_of(scale);
    let over = u128::from(number) * size.over;
    let place = place_of(over, size.bits);
    let digits = digits_at(over, size.bits, place) as u64;
    carried(digits, place as i32 - 20)
}

// The thirteen digits and the exponent of a non-zero number at a scale.
fn parts_of(number: u64, scale: &Scale) -> Parts
    requires some { 0 < number }
    requires small { number ≤ 4294967295 }
    requires scale { IsAccepted scale.now }
    ensures { record { digits = result.digits; exponent = result.exponent }
        ≡ parts_to (scaled number (size_of scale.now)) }
{
    if scale.is_near() {
        if let Some(parts) = lifted_parts(number, scale) {
            return parts;
        }
    }
    parts_by_division(number, scale)
}

// The two digits of a number.
fn two_digits(number: u32) -> [u8; 2]
    requires { number < 100 }
    ensures { result ≡ digits 2 number }
{
    let place = 2 * number as usize;
    [PAIRS[place], PAIRS[place + 1]]
}

// The six digits of a number.
fn six_digits(number: u32) -> [u8; 6]
    requires { number < 1000000 }
    ensures { result ≡ digits 6 number }
{
    let [a, b] = two_digits(number / 100 / 100);
    let [c, d] = two_digits(number / 100 % 100);
    let [e, f] = two_digits(number % 100);
    [a, b, c, d, e, f]
}

fn exponent_sign(exponent: i32) -> u8
    ensures { result ≡ exponent_sign exponent }
{
    if exponent < 0 { b'-' } else { b'+' }
}

// The text of a sign, digits and an exponent.
fn text_of(sign: u8, parts: &Parts) -> [u8; 19]
    requires digits { parts.now.digits < 10 ^ 13 }
    requires from { negsuc 98 ≤ℤ parts.now.exponent }
    requires to { parts.now.exponent ≤ℤ pos 99 }
    ensures { result ≡ sign ∷ body
        (record { digits = parts.now.digits; exponent = parts.now.exponent }) }
{
    let first = parts.digits / 1_000_000_000_000;
    let others = parts.digits % 1_000_000_000_000;
    let [a, b, c, d, e, f] = six_digits((others / 1_000_000) as u32);
    let [g, h, i, j, k, l] = six_digits((others % 1_000_000) as u32);
    let [m, n] = two_digits(parts.exponent.unsigned_abs());
    [
        sign,
        b'0' + first as u8,
        b'.',
        a,
        b,
        c,
        d,
        e,
        f,
        g,
        h,
        i,
        j,
        k,
        l,
        b'D',
        exponent_sign(parts.exponent),
        m,
        n,
    ]
}

// The thirteen digits and the exponent of a number at a scale.
fn parts_at(number: u64, scale: &Scale) -> Parts
    requires small { number ≤ 4294967295 }
    requires scale { IsAccepted scale.now }
    ensures { record { digits = result.digits; exponent = result.exponent }
        ≡ parts_at (size_of scale.now) number }
{
    if number == 0 {
        Parts {
            digits: 0,
            exponent: 0,
        }
    } else {
        parts_of(number, scale)
    }
}

fn sign_column(n: i64) -> u8
    ensures { result ≡ sign_column n }
{
    if n < 0 { b'-' } else { b' ' }
}

/// The text of a number at a scale, of 19 columns: a blank or `-`, one digit, a point, twelve
/// digits, `D`, a sign and two digits of the exponent. The number's magnitude has at most 32 bits.
/// Zero is ` 0.000000000000D+00`; else the digits are correctly rounded, ties to even (RINEX 4.01,
/// navigation records, D19.12).
pub fn print(n: i64, scale: &Scale) -> [u8; 19]
    requires number { unsigned_abs n ≤ 4294967295 }
    requires scale { IsAccepted scale.now }
    ensures { result ≡ number_text (size_of scale.now) n }
{
    text_of(sign_column(n), &parts_at(n.unsigned_abs(), scale))
}

// The two digits of each number from 0 to 99.
const PAIRS: [u8; 200] =
    *b"00010203040506070809101112131415161718192021222324252627282930313233343536373839\
    40414243444546474849505152535455565758596061626364656667686970717273747576777879\
    8081828384858687888990919293949596979899";

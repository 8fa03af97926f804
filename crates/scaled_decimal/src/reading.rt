//! Reading a decimal text as an integer at a scale.

ghost use Rattle.std.specs.Prelude.{◌≡◌, ◌+◌, ◌*◌, ◌^◌, ◌<◌};
ghost use Rattle.std.specs.Prelude.{◌≤◌, ◌⊎◌, ◌+ℤ◌, ◌≤ℤ◌};
ghost use Rattle.std.specs.Prelude.{pos, negsuc, length, SomeIff, MatchOption};
ghost use Rattle.scaled_decimal.specs.Fractions.{IsNearest, nearest_to, ten_to};
ghost use Rattle.scaled_decimal.specs.ScaleValue.{size_of, IsAccepted};
ghost use Rattle.scaled_decimal.specs.Mirrors.{IsDecimalRead};
ghost use Rattle.scaled_decimal.specs.NumberReading.{at_size, signed, seen, number, read_of};

use crate::dividing::guessed_number;
use crate::fractions::{nearest, ratio_of};
use crate::grammar::{Decimal, decimal_of, trimmed, usual};
use crate::powers::power_of_ten;
use crate::scales::Scale;
use thiserror::Error;

/// Why a text gives no number, in the order of the checks.
#[derive(Clone, Copy, PartialEq, Eq, Debug, Error)]
pub enum DecimalFault {
    /// Empty, or blanks alone.
    #[error("blank")]
    Blank,
    /// Not a decimal number.
    #[error("not a number")]
    NotANumber,
    /// The nearest integer is out of range.
    #[error("out of range")]
    OutOfRange,
}

// The greatest magnitude of a number.
const GREATEST: u128 = 4_294_967_295;

// number x 10^tens; None where that has more than 128 bits.
fn tenfold(number: u128, tens: u32) -> Option<u128>
    ensures { SomeIff result (number * 10 ^ tens < 2 ^ 128) (number * 10 ^ tens) }
{
    if number == 0 {
        return Some(0);
    }
    if tens > 38 {
        return None;
    }
    number.checked_mul(power_of_ten(tens))
}

// number x 2^bits; None where that has more than 128 bits.
fn doubled(number: u128, bits: u32) -> Option<u128>
    requires { bits ≤ 59 }
    ensures { SomeIff result (number * 2 ^ bits < 2 ^ 128) (number * 2 ^ bits) }
{
    let bits = bits % 64;
    if number > u128::MAX >> bits {
        return None;
    }
    Some(number << bits)
}

// digits x 10^up x 2^bits; None where that has more than 128 bits.
fn wide_product(digits: u128, up: u32, bits: u32) -> Option<u128>
    requires { bits ≤ 59 }
    ensures { SomeIff result (digits * 10 ^ up * 2 ^ bits < 2 ^ 128) (digits * 10 ^ up * 2 ^ bits) }
{
    doubled(tenfold(digits, up)?, bits)
}

// The integer nearest to (digits x 10^up / 10^down) / (over / 2^bits); None only where it is above
// 2^32.
fn nearest_by_any(digits: u64, up: u32, down: u32, over: u128, bits: u32) -> Option<u128>
    requires digits { digits < 10 ^ 18 }
    requires one { (up ≡ 0) ⊎ (down ≡ 0) }
    requires over { 0 < over }
    requires most { 4294967296 * over ≤ 10 ^ 37 }
    requires bits { bits ≤ 59 }
    ensures { MatchOption result (8589934592 * (over * 10 ^ down) < digits * 10 ^ up * 2 ^ bits)
        (λ n. IsNearest (record { over = digits * 10 ^ up * 2 ^ bits; under = over * 10 ^ down }) n) }
{
    match (
        wide_product(u128::from(digits), up, bits),
        tenfold(over, down),
    ) {
        (Some(wide), Some(size)) => Some(nearest(wide, size)),
        (None, _) => None,
        (_, None) => Some(0),
    }
}

// The same where the products with the powers of ten fit 128 bits.
fn nearest_by_few(digits: u64, up: u32, down: u32, over: u128, bits: u32) -> Option<u128>
    requires digits { digits < 10 ^ 18 }
    requires up { up ≤ 19 }
    requires down { down ≤ 11 }
    requires one { (up ≡ 0) ⊎ (down ≡ 0) }
    requires over { 0 < over }
    requires most { 4294967296 * over ≤ 10 ^ 37 }
    requires bits { bits ≤ 59 }
    ensures { MatchOption result (8589934592 * (over * 10 ^ down) < digits * 10 ^ up * 2 ^ bits)
        (λ n. IsNearest (record { over = digits * 10 ^ up * 2 ^ bits; under = over * 10 ^ down }) n) }
{
    let wide = doubled(u128::from(digits) * power_of_ten(up), bits)?;
    Some(nearest(wide, over * power_of_ten(down)))
}

// The same for all powers of ten.
fn nearest_at(digits: u64, up: u32, down: u32, over: u128, bits: u32) -> Option<u128>
    requires digits { digits < 10 ^ 18 }
    requires one { (up ≡ 0) ⊎ (down ≡ 0) }
    requires over { 0 < over }
    requires most { 4294967296 * over ≤ 10 ^ 37 }
    requires bits { bits ≤ 59 }
    ensures { MatchOption result (8589934592 * (over * 10 ^ down) < digits * 10 ^ up * 2 ^ bits)
        (λ n. IsNearest (record { over = digits * 10 ^ up * 2 ^ bits; under = over * 10 ^ down }) n) }
{
    if up <= 19 && down <= 11 {
        nearest_by_few(digits, up, down, over, bits)
    } else {
        nearest_by_any(digits, up, down, over, bits)
    }
}

// The exponents of ten of the numerator and of the denominator.
fn shifts(exponent: i32) -> (u32, u32)
    requires from { negsuc 99999 ≤ℤ exponent }
    requires to { exponent ≤ℤ pos 99999 }
    ensures over { (ten_to exponent).over ≡ 10 ^ result.0 }
    ensures under { (ten_to exponent).under ≡ 10 ^ result.1 }
    ensures one { (result.0 ≡ 0) ⊎ (result.1 ≡ 0) }
{
    if exponent < 0 {
        (0, exponent.unsigned_abs())
    } else {
        (exponent.unsigned_abs(), 0)
    }
}

// The magnitude of the integer nearest to a value divided by a scale, by division; None only where
// it is above 2^32.
#[cold]
#[inline(never)]
fn value_by_division(decimal: &Decimal, scale: &Scale) -> Option<u128>
    requires decimal { IsDecimalRead decimal.now.digits decimal.now.exponent }
    requires scale { IsAccepted scale.now }
    ensures { let value = at_size (size_of scale.now)
        (record { digits = decimal.now.digits; exponent = decimal.now.exponent })
        in MatchOption result (4294967295 < nearest_to value) (λ n. n ≡ nearest_to value) }
{
    let size = ratio_of(scale);
    let (up, down) = shifts(decimal.exponent + 20);
    nearest_at(decimal.digits, up, down, size.over, size.bits)
}

// The same; by a guess, where that tells it.
#[inline(always)]
fn value_at(decimal: &Decimal, scale: &Scale) -> Option<u128>
    requires decimal { IsDecimalRead decimal.now.digits decimal.now.exponent }
    requires scale { IsAccepted scale.now }
    ensures { let value = at_size (size_of scale.now)
        (record { digits = decimal.now.digits; exponent = decimal.now.exponent })
        in MatchOption result (4294967295 < nearest_to value) (λ n. n ≡ nearest_to value) }
{
    let (up, down) = shifts(decimal.exponent + 20);
    if scale.is_near() {
        if let Some(number) = guessed_number(decimal.digits, up, down, scale) {
            return Some(number);
        }
    }
    value_by_division(decimal, scale)
}

// The same; None exactly where it is above 4,294,967,295.
#[inline(always)]
fn magnitude(decimal: &Decimal, scale: &Scale) -> Option<u64>
    requires decimal { IsDecimalRead decimal.now.digits decimal.now.exponent }
    requires scale { IsAccepted scale.now }
    ensures { let value = at_size (size_of scale.now)
        (record { digits = decimal.now.digits; exponent = decimal.now.exponent })
        in MatchOption result (4294967295 < nearest_to value) (λ n. (n ≡ nearest_to value)
        × (n ≤ 4294967295)) }
{
    let number = value_at(decimal, scale)?;
    if number > GREATEST {
        return None;
    }
    Some(number as u64)
}

fn signed(minus: bool, number: u64) -> i64
    requires { number < 2 ^ 63 }
    ensures { result ≡ signed minus number }
{
    let number = number as i64;
    if minus { -number } else { number }
}

fn within(nearest: i64, low: i64, high: i64) -> Result<i64, DecimalFault>
    ensures { result ≡ read_of low high (number nearest) }
{
    if nearest < low {
        return Err(DecimalFault::OutOfRange);
    }
    if nearest > high {
        return Err(DecimalFault::OutOfRange);
    }
    Ok(nearest)
}

// The integer nearest to a value divided by a scale, if in range.
#[inline(always)]
fn within_range(decimal: &Decimal, scale: &Scale, low: i64, high: i64) -> Result<i64, DecimalFault>
    requires decimal { IsDecimalRead decimal.now.digits decimal.now.exponent }
    requires scale { IsAccepted scale.now }
    requires low { negsuc 4294967294 ≤ℤ low }
    requires high { high ≤ℤ pos 4294967295 }
    ensures { let value = at_size (size_of scale.now)
        (record { digits = decimal.now.digits; exponent = decimal.now.exponent })
        in result ≡ read_of low high (number (signed decimal.now.minus (nearest_to value))) }
{
    let Some(magnitude) = magnitude(decimal, scale) else {
        return Err(DecimalFault::OutOfRange);
    };
    within(signed(decimal.minus, magnitude), low, high)
}

// Reads a text of any form.
#[cold]
#[inline(never)]
fn read_any(text: &[u8], scale: &Scale, low: i64, high: i64) -> Result<i64, DecimalFault>
    requires text { length text.now ≤ 19 }
    requires scale { IsAccepted scale.now }
    requires low { negsuc 4294967294 ≤ℤ low }
    requires high { high ≤ℤ pos 4294967295 }
    ensures { result ≡ read_of low high (seen (size_of scale.now) text.now) }
{
    let text = trimmed(text);
    if text.is_empty() {
        return Err(DecimalFault::Blank);
    }
    let Some(decimal) = decimal_of(text) else {
        return Err(DecimalFault::NotANumber);
    };
    within_range(&decimal, scale, low, high)
}

/// Reads a text at a scale: the integer nearest to the text's value divided by the scale, ties to
/// even, from `low` to `high` (RINEX 4.01, navigation records, D19.12).
///
/// Leading and trailing blanks are dropped. The rest is an optional sign; 1 to 18 digits with at
/// most one point among, before or after them; and optionally an exponent: one of `D d E e`, an
/// optional sign, and one to three digits.
///
/// # Errors
///
/// In this order: [`DecimalFault::Blank`] for an empty text or blanks alone,
/// [`DecimalFault::NotANumber`] for a text not of that form, [`DecimalFault::OutOfRange`] for a
/// number below `low` or above `high`.
pub fn read(text: &[u8], scale: &Scale, low: i64, high: i64) -> Result<i64, DecimalFault>
    requires text { length text.now ≤ 19 }
    requires scale { IsAccepted scale.now }
    requires low { negsuc 4294967294 ≤ℤ low }
    requires high { high ≤ℤ pos 4294967295 }
    ensures { result ≡ read_of low high (seen (size_of scale.now) text.now) }
{
    if let Some(decimal) = usual(text) {
        return within_range(&decimal, scale, low, high);
    }
    read_any(text, scale, low, high)
}

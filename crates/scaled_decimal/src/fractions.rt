//! Fractions in 128 bits: the value of a scale, and the integer nearest to a fraction.

ghost use Rattle.std.specs.Prelude.{◌≡◌, ◌+◌, ◌*◌, ◌/◌, ◌^◌};
ghost use Rattle.std.specs.Prelude.{◌<◌, ◌≤◌, ◌≤ℤ◌, pos, negsuc};
ghost use Rattle.scaled_decimal.specs.Fractions.{IsNearest, two_to, ten_to};
ghost use Rattle.scaled_decimal.specs.ScaleValue.{IsAccepted};
ghost use Rattle.scaled_decimal.specs.ScaleValue.{size_of, pi_part, AreWithin, AreFar};

use crate::powers::{fifths, power_of_five, power_of_ten, power_of_two};
use crate::scales::Scale;

/// The value of a scale times 10^20, as `over` / 2^`bits`.
#[derive(Clone, Copy)]
pub(crate) struct Ratio {
    pub(crate) over: u128,
    pub(crate) bits: u32,
}

/// 2^`exponent` as 2^a / 2^b: the pair (a, b).
pub(crate) fn two_parts(exponent: i32) -> (u32, u32)
    requires from { negsuc 58 ≤ℤ exponent }
    requires to { exponent ≤ℤ pos 16 }
    ensures over { 2 ^ result.0 ≡ (two_to exponent).over }
    ensures under { 2 ^ result.1 ≡ (two_to exponent).under }
    ensures up { result.0 ≤ 16 }
    ensures bits { result.1 ≤ 59 }
{
    let size = exponent.unsigned_abs();
    if exponent < 0 { (0, size) } else { (size, 0) }
}

// 10^18 times pi or 1.
fn pi_part(pi: bool) -> u64
    ensures whole { (pi_part pi).over * 10 ^ 18 ≡ (pi_part pi).under * result }
    ensures from { 10 ^ 18 ≤ result }
    ensures to { result ≤ 3141592653589800000 }
{
    if pi {
        3_141_592_653_589_800_000
    } else {
        1_000_000_000_000_000_000
    }
}

// 100 times 10^ten.
fn hundredths(ten: i32) -> u64
    requires from { negsuc 1 ≤ℤ ten }
    requires to { ten ≤ℤ pos 0 }
    ensures whole { (ten_to ten).over * 100 ≡ (ten_to ten).under * result }
    ensures from { 1 ≤ result }
    ensures to { result ≤ 100 }
{
    if ten == 0 {
        100
    } else if ten == -1 {
        10
    } else {
        1
    }
}

// The value of a scale of the usual box.
fn near_ratio(scale: &Scale) -> Ratio
    requires { AreWithin scale.now.factor scale.now.two scale.now.ten }
    ensures same { (size_of scale.now).over * (2 ^ result.bits * 10 ^ 20)
        ≡ result.over * (size_of scale.now).under }
    ensures bits { result.bits ≤ 59 }
    ensures least { 2 ^ result.bits ≤ result.over }
    ensures most { 4294967296 * result.over ≤ 10 ^ 37 }
{
    let whole = pi_part(scale.pi);
    let tens = u64::from(scale.factor) * hundredths(scale.ten);
    let (power, bits) = two_parts(scale.two);
    let over = u128::from(tens) * u128::from(whole) << power;
    Ratio { over, bits }
}

// The value of a scale of the further boxes.
fn far_ratio(scale: &Scale) -> Ratio
    requires { AreFar scale.now.pi scale.now.factor scale.now.two scale.now.ten }
    ensures same { (size_of scale.now).over * (2 ^ result.bits * 10 ^ 20)
        ≡ result.over * (size_of scale.now).under }
    ensures bits { result.bits ≤ 59 }
    ensures least { 2 ^ result.bits ≤ result.over }
    ensures most { 4294967296 * result.over ≤ 10 ^ 37 }
{
    let factor = u128::from(scale.factor);
    if scale.two == 0 {
        let over = factor * power_of_ten(20 - scale.ten.unsigned_abs());
        Ratio { over, bits: 0 }
    } else {
        let over = factor * FIVES_20;
        let bits = scale.two.unsigned_abs() - 20;
        Ratio { over, bits }
    }
}

// 5^20.
const FIVES_20: u128 = 95_367_431_640_625;

/// The value of a scale.
pub(crate) fn ratio_of(scale: &Scale) -> Ratio
    requires { IsAccepted scale.now }
    ensures same { (size_of scale.now).over * (2 ^ result.bits * 10 ^ 20)
        ≡ result.over * (size_of scale.now).under }
    ensures bits { result.bits ≤ 59 }
    ensures least { 2 ^ result.bits ≤ result.over }
    ensures most { 4294967296 * result.over ≤ 10 ^ 37 }
{
    if scale.is_near() {
        near_ratio(scale)
    } else {
        far_ratio(scale)
    }
}

// The quotient `whole` or the next integer, by the remainder of a division, ties to even.
fn rounded(whole: u128, rest: u128, under: u128) -> u128
    requires rest { rest < under }
    requires whole { whole * under + rest < 2 ^ 128 }
    ensures { IsNearest (record { over = whole * under + rest; under = under }) result }
{
    let gap = under - rest;
    if rest < gap || (rest == gap && whole % 2 == 0) {
        whole
    } else {
        whole + 1
    }
}

/// The integer nearest to `over` / 2^`bits`, ties to even.
pub(crate) fn nearest_by_two(over: u128, bits: u32) -> u128
    requires { bits ≤ 59 }
    ensures { IsNearest (record { over = over; under = 2 ^ bits }) result }
{
    let whole = over >> bits;
    rounded(whole, over - (whole << bits), power_of_two(bits))
}

// The quotient by a power of five, corrected from a guess that may be wrong.
fn quotient_by_five(part: u128, five: u64, guess: u64) -> u128
    requires { 0 < five }
    ensures { result ≡ part / five }
{
    let five = u128::from(five);
    let whole = u128::from(guess);
    let taken = whole * five;
    if taken <= part {
        let rest = part - taken;
        if rest < five {
            return whole;
        }
        if rest - five < five {
            return whole + 1;
        }
    }
    part / five
}

/// The integer nearest to `over` / (2^`bits` x 10^`tens`), ties to even.
pub(crate) fn nearest_by_ten(over: u128, bits: u32, tens: u32) -> u128
    requires bits { bits ≤ 59 }
    requires tens { tens < 25 }
    requires fits { 2 ^ bits * 10 ^ tens ≤ over }
    ensures { IsNearest (record { over = over; under = 2 ^ bits * 10 ^ tens }) result }
{
    let five = power_of_five(tens);
    let under = u128::from(five) << (bits + tens);
    let part = over >> (bits + tens);
    let whole = quotient_by_five(part, five, fifths(part, tens));
    rounded(whole, over - whole * under, under)
}

// A lower estimate of a quotient, nearly always close: the quotient of the 64 leading bits of both
// numbers, or a little less.
fn guess(over: u128, under: u128) -> u64
    requires { 0 < under }
    ensures { result * under ≤ over }
{
    let high = (over >> 64) as u64;
    let drop = (64 - high.leading_zeros()) % 64;
    let size = under >> drop;
    if size >= 0xffff_ffff_ffff_ffff {
        return 0;
    }
    let prefix = (over >> drop) % (1 << 64);
    prefix as u64 / (size as u64 + 1)
}

// The integer nearest to a fraction, by its quotient and remainder.
fn nearest_by_division(over: u128, under: u128) -> u128
    requires { 0 < under }
    ensures { IsNearest (record { over = over; under = under }) result }
{
    let whole = over / under;
    rounded(whole, over - whole * under, under)
}

/// The integer nearest to `over` / `under`, ties to even.
pub(crate) fn nearest(over: u128, under: u128) -> u128
    requires { 0 < under }
    ensures { IsNearest (record { over = over; under = under }) result }
{
    if over < 1 << 127 {
        let sum = over + under / 2;
        let whole = u128::from(guess(sum, under));
        let rest = sum - whole * under;
        if 0 < rest && rest < under {
            return whole;
        }
    }
    nearest_by_division(over, under)
}

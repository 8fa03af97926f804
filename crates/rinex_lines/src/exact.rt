//! The exact text of a number.

ghost use Rattle.std.specs.Prelude.{◌≡◌, ◌*◌, ◌%◌, ◌+◌, ◌^◌, ◌<◌, ◌≤◌, ◌∷◌};
ghost use Rattle.std.specs.Prelude.{◌≤ℤ◌, pos, negsuc, MatchOption, None, Some, length};
ghost use Rattle.scaled_decimal.specs.NumberText.{digits, exponent_sign};
ghost use Rattle.rinex_lines.specs.ExactText.{decimal_text, exact_text, parts_of, parts_with};
ghost use Rattle.rinex_lines.specs.ExactText.{sign_column, text_of, thirteen};
ghost use Rattle.rinex_lines.specs.Mirrors.{ArePrinted, IsNumberRead};

use crate::decimal::{Number, number_of};
use scaled_decimal::trimmed;

// Thirteen digits and an exponent.
#[derive(Clone, Copy)]
struct Parts {
    digits: u64,
    exponent: i32,
}

// The digits of a number, the first of which is at 10^`place`, as thirteen; None if one behind the
// thirteenth is not 0.
fn thirteen(place: u32, digits: u64) -> Option<u64>
    requires place { place ≤ 17 }
    requires digits { digits < 10 * 10 ^ place }
    ensures digits { result ≡ thirteen place digits }
    ensures below { MatchOption result (Unit {0}) (λ n. n < 10 ^ 13) }
{
    if place <= 12 {
        return Some(digits * 10u64.pow(12 - place));
    }
    let power = 10u64.pow(place - 12);
    if digits % power == 0 {
        Some(digits / power)
    } else {
        None
    }
}

// Thirteen digits with an exponent, if it has one digit or two.
fn parts_with(exponent: i32, digits: Option<u64>) -> Option<Parts>
    requires { MatchOption digits (Unit {0}) (λ n. n < 10 ^ 13) }
    ensures { MatchOption result (parts_with exponent digits ≡ None)
        (λ p. (parts_with exponent digits
        ≡ Some (record { digits = p.digits; exponent = p.exponent }))
        × ArePrinted p.digits p.exponent) }
{
    let digits = digits?;
    if -99 <= exponent && exponent <= 99 {
        Some(Parts { digits, exponent })
    } else {
        None
    }
}

// The exact parts of a number.
fn parts_of(digits: u64, exponent: i32) -> Option<Parts>
    requires { IsNumberRead digits exponent }
    ensures { MatchOption result
        (parts_of (record { digits = digits; exponent = exponent }) ≡ None)
        (λ p. (parts_of (record { digits = digits; exponent = exponent })
        ≡ Some (record { digits = p.digits; exponent = p.exponent }))
        × ArePrinted p.digits p.exponent) }
{
    if digits == 0 {
        return Some(Parts {
            digits: 0,
            exponent: 0,
        });
    }
    let place = digits.ilog10();
    parts_with(exponent + place as i32, thirteen(place, digits))
}

// The last digit of a number.
fn digit(number: u64) -> u8
    ensures { result ≡ 48 + number % 10 }
{
    b'0' + (number % 10) as u8
}

// The last twelve digits of a number.
fn twelve_digits(number: u64) -> [u8; 12]
    ensures { result ≡ digits 12 number }
{
    let k = number / 10;
    let j = k / 10;
    let i = j / 10;
    let h = i / 10;
    let g = h / 10;
    let f = g / 10;
    let e = f / 10;
    let d = e / 10;
    let c = d / 10;
    let b = c / 10;
    let a = b / 10;
    [
        digit(a),
        digit(b),
        digit(c),
        digit(d),
        digit(e),
        digit(f),
        digit(g),
        digit(h),
        digit(i),
        digit(j),
        digit(k),
        digit(number),
    ]
}

// `-` before a negative number, else a blank.
fn sign_column(minus: bool, digits: u64) -> u8
    ensures { result ≡ sign_column minus digits }
{
    if minus && digits != 0 { b'-' } else { b' ' }
}

fn exponent_sign(exponent: i32) -> u8
    ensures { result ≡ exponent_sign exponent }
{
    if exponent < 0 { b'-' } else { b'+' }
}

// The text of parts.
fn text_of(minus: bool, parts: &Parts) -> [u8; 19]
    requires digits { parts.now.digits < 10 ^ 13 }
    requires from { negsuc 98 ≤ℤ parts.now.exponent }
    requires to { parts.now.exponent ≤ℤ pos 99 }
    ensures { result ≡ text_of minus
        (record { digits = parts.now.digits; exponent = parts.now.exponent }) }
{
    let [a, b, c, d, e, f, g, h, i, j, k, l] = twelve_digits(parts.digits % 1_000_000_000_000);
    let exponent = u64::from(parts.exponent.unsigned_abs());
    [
        sign_column(minus, parts.digits),
        digit(parts.digits / 1_000_000_000_000),
        b'.',
        a,
        b,
        c,
        d,
        e,
        f,
        g,
        h,
        i,
        j,
        k,
        l,
        b'D',
        exponent_sign(parts.exponent),
        digit(exponent / 10),
        digit(exponent),
    ]
}

// The exact text of a number.
fn decimal_text(number: &Number) -> Option<[u8; 19]>
    requires { IsNumberRead number.now.digits number.now.exponent }
    ensures { result ≡ decimal_text (record {
      minus = number.now.minus;
      value = record { digits = number.now.digits; exponent = number.now.exponent };
    }) }
{
    let parts = parts_of(number.digits, number.exponent)?;
    Some(text_of(number.minus, &parts))
}

/// The exact text of the number in a column: a blank or `-`, one digit, a point, twelve digits,
/// `D`, a sign and two digits of the exponent (RINEX 4.01, navigation records, D19.12).
///
/// `None` if the column holds no number (blanks or another text), or a number of more than thirteen
/// digits, or one whose exponent has more than two. A zero has no sign.
#[tactic(auto, unfolding(crate::specs::ExactText::exact_text))]
pub fn exact_text(text: &[u8]) -> Option<[u8; 19]>
    requires { length text.now ≤ 19 }
    ensures { result ≡ exact_text text.now }
{
    let number = number_of(trimmed(text))?;
    decimal_text(&number)
}

//! The number that a text says, with all its digits.

ghost use Rattle.std.specs.Prelude.{◌≡◌, ◌+◌, ◌^◌, ◌<◌, ◌≤◌};
ghost use Rattle.std.specs.Prelude.{MatchOption, None, Some, length};
ghost use Rattle.scaled_decimal.specs.NumberReading.{decimal_of, exponent_after, exponent_digits};
ghost use Rattle.scaled_decimal.specs.NumberReading.{mantissa, reading, signed_exponent, span};
ghost use Rattle.rinex_lines.specs.Mirrors.{IsExponentRead, IsNumberRead};

use scaled_decimal::{Span, leading_digits};

/// A number: digits x 10^exponent, negative where `minus` is set.
#[derive(Clone, Copy)]
pub(crate) struct Number {
    pub(crate) minus: bool,
    pub(crate) digits: u64,
    pub(crate) exponent: i32,
}

// Digits with at most one point: the number without the point, how many digits, how many after the
// point, what follows.
#[derive(Clone, Copy)]
struct Mantissa<'a> {
    number: u64,
    count: usize,
    places: usize,
    rest: &'a [u8],
}

// The leading digits of a text, behind `count` digits that are `number`.
fn read_digits(number: u64, count: usize, text: &[u8]) -> Span<'_>
    requires number { number < 10 ^ count }
    requires count { count + length text.now ≤ 19 }
    ensures read { record { number = result.number; count = result.count; rest = result.rest.now }
        ≡ span number count text.now }
    ensures number { result.number < 10 ^ result.count }
    ensures count { result.count + length result.rest.now ≡ count + length text.now }
    ensures more { count ≤ result.count }
{
    let digits = leading_digits(text);
    Span {
        number: number * 10u64.pow(digits.count as u32) + digits.number,
        count: count + digits.count,
        rest: digits.rest,
    }
}

// Leading digits of a text with at most one point.
fn read_mantissa(text: &[u8]) -> Mantissa<'_>
    requires { length text.now ≤ 19 }
    ensures read { record {
      number = result.number;
      count = result.count;
      places = result.places;
      rest = result.rest.now;
    } ≡ mantissa text.now }
    ensures number { result.number < 10 ^ result.count }
    ensures places { result.places ≤ 19 }
    ensures rest { length result.rest.now ≤ 19 }
{
    let whole = leading_digits(text);
    match whole.rest {
        [b'.', rest @ ..] => {
            let all = read_digits(whole.number, whole.count, rest);
            Mantissa {
                number: all.number,
                count: all.count,
                places: all.count - whole.count,
                rest: all.rest,
            }
        }
        _ => Mantissa {
            number: whole.number,
            count: whole.count,
            places: 0,
            rest: whole.rest,
        },
    }
}

// One to three digits that end the text.
fn exponent_digits(minus: bool, text: &[u8]) -> Option<i32>
    requires { length text.now ≤ 19 }
    ensures { MatchOption result (exponent_digits minus text.now ≡ None)
        (λ e. (exponent_digits minus text.now ≡ Some e) × IsExponentRead e) }
{
    let digits = leading_digits(text);
    if digits.rest.is_empty() && digits.count >= 1 && digits.count <= 3 {
        let exponent = digits.number as i32;
        Some(if minus { -exponent } else { exponent })
    } else {
        None
    }
}

// An exponent with or without a sign.
fn signed_exponent(text: &[u8]) -> Option<i32>
    requires { length text.now ≤ 19 }
    ensures { MatchOption result (signed_exponent text.now ≡ None)
        (λ e. (signed_exponent text.now ≡ Some e) × IsExponentRead e) }
{
    match text {
        [] => None,
        [b'-', rest @ ..] => exponent_digits(true, rest),
        [b'+', rest @ ..] => exponent_digits(false, rest),
        _ => exponent_digits(false, text),
    }
}

// The exponent that follows a mantissa, 0 where nothing does.
fn exponent_after(text: &[u8]) -> Option<i32>
    requires { length text.now ≤ 19 }
    ensures { MatchOption result (exponent_after text.now ≡ None)
        (λ e. (exponent_after text.now ≡ Some e) × IsExponentRead e) }
{
    match text {
        [] => Some(0),
        [b'D' | b'd' | b'E' | b'e', rest @ ..] => signed_exponent(rest),
        _ => None,
    }
}

// The number of a text without its sign.
fn reading(minus: bool, text: &[u8]) -> Option<Number>
    requires { length text.now ≤ 19 }
    ensures { MatchOption result (reading text.now ≡ None)
        (λ d. (reading text.now ≡ Some (record { digits = d.digits; exponent = d.exponent }))
        × IsNumberRead d.digits d.exponent × (d.minus ≡ minus)) }
{
    let mantissa = read_mantissa(text);
    if mantissa.count < 1 || mantissa.count > 18 {
        return None;
    }
    let exponent = exponent_after(mantissa.rest)?;
    Some(Number {
        minus,
        digits: mantissa.number,
        exponent: exponent - mantissa.places as i32,
    })
}

/// The number of a text without leading and trailing blanks; None if it is not in the grammar.
pub(crate) fn number_of(text: &[u8]) -> Option<Number>
    requires { length text.now ≤ 19 }
    ensures { MatchOption result (decimal_of text.now ≡ None)
        (λ d. (decimal_of text.now ≡ Some (record {
          minus = d.minus;
          value = record { digits = d.digits; exponent = d.exponent };
        })) × IsNumberRead d.digits d.exponent) }
{
    match text {
        [] => None,
        [b'-', rest @ ..] => reading(true, rest),
        [b'+', rest @ ..] => reading(false, rest),
        _ => reading(false, text),
    }
}

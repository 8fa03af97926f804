//! The grammar of decimal texts: a sign, digits with a point, and an exponent.

ghost use Rattle.std.specs.Prelude.{◌≡◌, ◌+◌, ◌^◌, ◌<◌};
ghost use Rattle.std.specs.Prelude.{◌≤◌, ◌≤ℤ◌, pos};
ghost use Rattle.std.specs.Prelude.{negsuc, length, MatchOption, Some, None};
ghost use Rattle.std.specs.Prelude.{◌-◌, ◌*◌, ℕ, drop, get_or, true, false};
ghost use Rattle.scaled_decimal.specs.Mirrors.{IsExponentRead, IsDecimalRead};
ghost use Rattle.scaled_decimal.specs.Mirrors.{IsUsualMantissa, IsUsualExponent, IsMinus};
ghost use Rattle.scaled_decimal.specs.Values.{is_letter, signed};
ghost use Rattle.scaled_decimal.specs.NumberReading.{trim_start, trim_end, is_decimal, span};
ghost use Rattle.scaled_decimal.specs.NumberReading.{mantissa, exponent_digits, signed_exponent};
ghost use Rattle.scaled_decimal.specs.NumberReading.{exponent_after, reading, decimal_of};

/// The leading digits of a text.
#[derive(Clone, Copy)]
pub struct Span<'a> {
    /// Their value in decimal.
    pub number: u64,
    /// How many digits.
    pub count: usize,
    /// What follows.
    pub rest: &'a [u8],
}

/// Digits with at most one point: the number without the point, how many digits, how many after the
/// point, what follows.
#[derive(Clone, Copy)]
struct Mantissa<'a> {
    number: u64,
    count: usize,
    places: usize,
    rest: &'a [u8],
}

/// The value of a text: digits x 10^exponent, negative where `minus` is set.
#[derive(Clone, Copy)]
pub(crate) struct Decimal {
    pub(crate) minus: bool,
    pub(crate) digits: u64,
    pub(crate) exponent: i32,
}

/// The text without leading blanks.
fn trim_start(text: &[u8]) -> &[u8]
    ensures value { result.now ≡ trim_start text.now }
    ensures shorter { length result.now ≤ length text.now }
{
    for start in 0..text.len() {
        if text[start] != b' ' {
            return &text[start..];
        }
    }
    &text[text.len()..]
}

/// The text without trailing blanks.
fn trim_end(text: &[u8]) -> &[u8]
    ensures value { result.now ≡ trim_end text.now }
    ensures shorter { length result.now ≤ length text.now }
{
    let mut end = text.len();
    while end > 0 {
        if text[end - 1] != b' ' {
            return &text[..end];
        }
        end -= 1;
    }
    &text[..0]
}

/// The text without leading and trailing blanks.
pub fn trimmed(text: &[u8]) -> &[u8]
    ensures value { result.now ≡ trim_end (trim_start text.now) }
    ensures shorter { length result.now ≤ length text.now }
{
    trim_end(trim_start(text))
}

/// Whether the character is a decimal digit.
pub fn is_decimal(c: u8) -> bool
    ensures { result ≡ is_decimal c }
{
    c.is_ascii_digit()
}

// The leading digits of a text, appended to a number of `count` digits.
fn read_digits(number: u64, count: usize, text: &[u8]) -> Span<'_>
    requires number { number < 10 ^ count }
    requires count { count + length text.now ≤ 19 }
    ensures read { record { number = result.number; count = result.count; rest = result.rest.now }
        ≡ span number count text.now }
    ensures number { result.number < 10 ^ result.count }
    ensures count { result.count + length result.rest.now ≡ count + length text.now }
    ensures more { count ≤ result.count }
{
    let mut number = number;
    for place in 0..text.len() {
        let c = text[place];
        if !is_decimal(c) {
            return Span {
                number,
                count: count + place,
                rest: &text[place..],
            };
        }
        number = number * 10 + u64::from(c - b'0');
    }
    Span {
        number,
        count: count + text.len(),
        rest: &text[text.len()..],
    }
}

/// The leading digits of a text.
pub fn leading_digits(text: &[u8]) -> Span<'_>
    requires { length text.now ≤ 19 }
    ensures read { record { number = result.number; count = result.count; rest = result.rest.now }
        ≡ span 0 0 text.now }
    ensures number { result.number < 10 ^ result.count }
    ensures count { result.count + length result.rest.now ≡ length text.now }
{
    read_digits(0, 0, text)
}

// Leading digits of a text with at most one point.
fn read_mantissa(text: &[u8]) -> Mantissa<'_>
    requires { length text.now ≤ 19 }
    ensures read { record {
      number = result.number;
      count = result.count;
      places = result.places;
      rest = result.rest.now;
    } ≡ mantissa text.now }
    ensures number { result.number < 10 ^ result.count }
    ensures places { result.places ≤ 19 }
    ensures rest { length result.rest.now ≤ 19 }
{
    let whole = read_digits(0, 0, text);
    match whole.rest {
        [b'.', rest @ ..] => {
            let all = read_digits(whole.number, whole.count, rest);
            Mantissa {
                number: all.number,
                count: all.count,
                places: all.count - whole.count,
                rest: all.rest,
            }
        }
        _ => Mantissa {
            number: whole.number,
            count: whole.count,
            places: 0,
            rest: whole.rest,
        },
    }
}

// One to three digits that end the text.
fn exponent_digits(minus: bool, text: &[u8]) -> Option<i32>
    requires { length text.now ≤ 19 }
    ensures { MatchOption result (exponent_digits minus text.now ≡ None)
        (λ e. (exponent_digits minus text.now ≡ Some e) × IsExponentRead e) }
{
    let digits = leading_digits(text);
    if digits.rest.is_empty() && digits.count >= 1 && digits.count <= 3 {
        let exponent = digits.number as i32;
        Some(if minus { -exponent } else { exponent })
    } else {
        None
    }
}

// An exponent with or without a sign.
fn signed_exponent(text: &[u8]) -> Option<i32>
    requires { length text.now ≤ 19 }
    ensures { MatchOption result (signed_exponent text.now ≡ None)
        (λ e. (signed_exponent text.now ≡ Some e) × IsExponentRead e) }
{
    match text {
        [] => None,
        [b'-', rest @ ..] => exponent_digits(true, rest),
        [b'+', rest @ ..] => exponent_digits(false, rest),
        _ => exponent_digits(false, text),
    }
}

// The exponent that follows a mantissa, 0 where nothing does.
fn exponent_after(text: &[u8]) -> Option<i32>
    requires { length text.now ≤ 19 }
    ensures { MatchOption result (exponent_after text.now ≡ None)
        (λ e. (exponent_after text.now ≡ Some e) × IsExponentRead e) }
{
    match text {
        [] => Some(0),
        [b'D' | b'd' | b'E' | b'e', rest @ ..] => signed_exponent(rest),
        _ => None,
    }
}

// The value of a text without its sign.
fn reading(minus: bool, text: &[u8]) -> Option<Decimal>
    requires { length text.now ≤ 19 }
    ensures { MatchOption result (reading text.now ≡ None)
        (λ d. (reading text.now ≡ Some (record { digits = d.digits; exponent = d.exponent }))
        × IsDecimalRead d.digits d.exponent × (d.minus ≡ minus)) }
{
    let mantissa = read_mantissa(text);
    if mantissa.count < 1 || mantissa.count > 18 {
        return None;
    }
    let exponent = exponent_after(mantissa.rest)?;
    Some(Decimal {
        minus,
        digits: mantissa.number,
        exponent: exponent - mantissa.places as i32,
    })
}

/// The value of a text without leading and trailing blanks; None if it is not in the grammar.
pub(crate) fn decimal_of(text: &[u8]) -> Option<Decimal>
    requires { length text.now ≤ 19 }
    ensures { MatchOption result (decimal_of text.now ≡ None)
        (λ d. (decimal_of text.now ≡ Some (record {
          minus = d.minus;
          value = record { digits = d.digits; exponent = d.exponent };
        })) × IsDecimalRead d.digits d.exponent) }
{
    match text {
        [] => None,
        [b'-', rest @ ..] => reading(true, rest),
        [b'+', rest @ ..] => reading(false, rest),
        _ => reading(false, text),
    }
}

// Whether the character is the letter of an exponent: `D d E e`.
fn is_letter(c: u8) -> bool
    ensures { result ≡ is_letter c }
{
    c == b'D' || c == b'd' || c == b'E' || c == b'e'
}

// The number of two digits; None where one of them is not a digit.
fn two_digits(tens: u8, ones: u8) -> Option<u64>
    ensures { MatchOption result (Unit {0}) (λ n. (is_decimal tens ≡ true)
        × (is_decimal ones ≡ true)
        × (n ≡ (tens - 48) * 10 + (ones - 48)) × (n ≤ 99)) }
{
    if !is_decimal(tens) || !is_decimal(ones) {
        return None;
    }
    Some(u64::from(tens - b'0') * 10 + u64::from(ones - b'0'))
}

// Whether a character is `-`; None where it is neither `-` nor `other`. Without a branch between
// the two, since signs come in no predictable order.
fn minus_or(c: u8, other: u8) -> Option<bool>
    ensures { MatchOption result (Unit {0}) (λ minus. IsMinus minus c other) }
{
    let minus = c >= b'-';
    let wanted = if minus { b'-' } else { other };
    if c == wanted { Some(minus) } else { None }
}

// A number of two digits with its sign.
fn signed(minus: bool, number: u64) -> i32
    requires { number ≤ 99 }
    ensures { result ≡ signed minus number }
{
    let number = number as i32;
    if minus { -number } else { number }
}

// The four digits from an offset on as one number, all told at once; None where one of these is not
// a digit.
#[inline(always)]
fn four_digits(text: &[u8], at: usize) -> Option<u64>
    requires { at + 4 ≤ length text.now }
    ensures { MatchOption result (Unit {0}) (λ n. ((m k : ℕ) → span m k (drop at text.now)
        ≡ span (m * 10000 + n) (k + 4) (drop (at + 4) text.now)) × (n < 10000)) }
{
    let all = u32::from_le_bytes([text[at], text[at + 1], text[at + 2], text[at + 3]]);
    if all & 0xf0f0_f0f0 != 0x3030_3030 {
        return None;
    }
    if (all + 0x0606_0606) & 0xf0f0_f0f0 != 0x3030_3030 {
        return None;
    }
    let digits = all - 0x3030_3030;
    let pairs = digits * 10 + digits / 256;
    Some(u64::from(pairs % 256 * 100 + pairs / 65_536 % 256))
}

// The mantissa of a text in the usual form.
fn usual_mantissa(text: &[u8]) -> Option<u64>
    requires long { length text.now ≡ 19 }
    requires end { is_decimal (get_or text.now 15 0) ≡ false }
    ensures { MatchOption result (Unit {0}) (λ n. IsUsualMantissa text.now n) }
{
    let first = text[1];
    if !is_decimal(first) || text[2] != b'.' {
        return None;
    }
    let a = four_digits(text, 3)?;
    let b = four_digits(text, 7)?;
    let c = four_digits(text, 11)?;
    Some(((u64::from(first - b'0') * 10_000 + a) * 10_000 + b) * 10_000 + c)
}

// The exponent of a text in the usual form.
fn usual_exponent(text: &[u8]) -> Option<i32>
    requires { length text.now ≡ 19 }
    ensures { MatchOption result (Unit {0}) (λ e. IsUsualExponent text.now e) }
{
    if !is_letter(text[15]) {
        return None;
    }
    let minus = minus_or(text[16], b'+')?;
    let number = two_digits(text[17], text[18])?;
    Some(signed(minus, number))
}

/// The value of a text in the usual form: a blank or `-`, one digit, a point, twelve digits, a
/// letter, a sign and two digits. None if a text has another form.
#[inline(always)]
pub(crate) fn usual(text: &[u8]) -> Option<Decimal>
    ensures { MatchOption result (Unit {0}) (λ d. (decimal_of (trim_end (trim_start text.now))
        ≡ Some (record {
          minus = d.minus;
          value = record { digits = d.digits; exponent = d.exponent };
        })) × IsDecimalRead d.digits d.exponent) }
{
    if text.len() != 19 {
        return None;
    }
    let minus = minus_or(text[0], b' ')?;
    let exponent = usual_exponent(text)?;
    let digits = usual_mantissa(text)?;
    Some(Decimal {
        minus,
        digits,
        exponent: exponent - 12,
    })
}

//! Decimal numbers: time tags in seconds of the logger's clock, and the week and window of the
//! first line.

ghost use Rattle.std.specs.Prelude.{◌≡◌, ◌+◌, ◌^◌, ◌<◌};
ghost use Rattle.std.specs.Prelude.{◌≤◌, ◌++◌, length, take, decimal};
ghost use Rattle.std.specs.List.{prefix_len};
ghost use Rattle.std.specs.Char.{is_ascii_digit};
ghost use Rattle.std.specs.Str.Parse.{digits_value};
ghost use Rattle.arrayvec.specs.ArrayVec.{array_vec_len};
ghost use Rattle.capture_lines.specs.Reading.{number_in};

use crate::LineText;
use crate::write::push_text;
use itoa::Buffer;

// The greatest number of digits.
const MOST_DIGITS: usize = 10;

// The greatest number.
const GREATEST: u64 = 4_294_967_295;

// The number of decimal digits at the start of the line.
pub(crate) fn digit_count(line: &[u8]) -> usize
    ensures { result ≡ prefix_len is_ascii_digit line.now }
{
    line.iter().take_while(|byte| byte.is_ascii_digit()).count()
}

// The number of the digits at the start of the line; `None` for no digit, more than ten, or a value
// of 2^32 or more.
#[tactic(auto, unfolding(crate::specs::Reading::number_in))]
pub(crate) fn decimal_number(line: &[u8], count: usize) -> Option<u32>
    requires { count ≡ prefix_len is_ascii_digit line.now }
    ensures { result ≡ number_in (take count line.now) }
{
    if count == 0 || count > MOST_DIGITS {
        return None;
    }
    let value = value_of(line, count);
    if value > GREATEST {
        return None;
    }
    Some(value as u32)
}

// The value of the digits at the start of the line, at most ten.
fn value_of(line: &[u8], count: usize) -> u64
    requires digits { count ≡ prefix_len is_ascii_digit line.now }
    requires short { count ≤ 10 }
    ensures { result ≡ digits_value 10 (take count line.now) }
{
    let mut value: u64 = 0;
    'digits: for i in 0..count {
        value = value * 10 + u64::from(line[i] - b'0');
    }
    value
}

// Appends the digits of a number, without leading zeros.
pub(crate) fn push_decimal(number: u32, into: &mut LineText)
    requires { array_vec_len into.old + length (decimal number) ≤ 2201 }
    ensures text { into.new.items ≡ into.old.items ++ decimal number }
    ensures len { array_vec_len into.new ≡ array_vec_len into.old + length (decimal number) }
{
    let mut digits = Buffer::new();
    push_text(digits.format(number).as_bytes(), into);
}

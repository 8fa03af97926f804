//! Short texts in a buffer of fixed size; no memory is allocated.

ghost use Rattle.std.specs.Prelude.{◌≡◌, ◌+◌, ◌^◌, ◌<◌};
ghost use Rattle.std.specs.Prelude.{◌≤◌, ◌++◌, length, decimal};
ghost use Rattle.arrayvec.specs.ArrayVec.{array_vec_len};
ghost use Rattle.one_run.specs.Texts.{hex_digit_of, hex_digits};

use arrayvec::ArrayVec;
use itoa::Buffer;

/// The capacity of a text in bytes.
pub const ROOM: usize = 640;

/// A text of at most 640 bytes.
pub type Text = ArrayVec<u8, ROOM>;

/// Appends a piece; it must fit.
pub fn append(text: &mut Text, piece: &[u8])
    requires { array_vec_len text.old + length piece.now ≤ 640 }
    ensures items { text.new.items ≡ text.old.items ++ piece.now }
    ensures len { array_vec_len text.new ≡ array_vec_len text.old + length piece.now }
{
    if text.try_extend_from_slice(piece).is_err() {
        unreachable!();
    }
}

/// Appends the decimal digits of a number.
pub fn append_decimal(text: &mut Text, number: u64)
    requires { array_vec_len text.old + 40 ≤ 640 }
    ensures items { text.new.items ≡ text.old.items ++ decimal number }
    ensures short { array_vec_len text.new ≤ array_vec_len text.old + 40 }
{
    let mut digits = Buffer::new();
    append(text, digits.format(number).as_bytes());
}

// The hexadecimal digit of a number below 16, in lower case.
fn hex_digit(value: u64) -> u8
    requires { value < 16 }
    ensures { result ≡ hex_digit_of value }
{
    if value < 10 {
        b'0' + value as u8
    } else {
        b'a' - 10 + value as u8
    }
}

/// Appends the last `count` hexadecimal digits of a number, at most 16, in lower case.
pub fn append_hex(text: &mut Text, count: u32, number: u64)
    requires count { count ≤ 16 }
    requires room { array_vec_len text.old + count ≤ 640 }
    ensures items { text.new.items ≡ text.old.items ++ hex_digits count number }
    ensures len { array_vec_len text.new ≡ array_vec_len text.old + count }
{
    let mut left = count;
    while left > 0 {
        left -= 1;
        append(text, &[hex_digit(number >> (4 * left) & 0xf)]);
    }
}

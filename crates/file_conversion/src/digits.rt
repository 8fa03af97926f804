//! Decimal digits of numbers, with leading zeros.

ghost use Rattle.std.specs.Prelude.{◌≡◌, ◌+◌, ◌<◌, ◌++◌, ◌∷◌, [], OnOk};
ghost use Rattle.std.specs.String.{string_bytes};
ghost use Rattle.file_conversion.specs.Long.{two, three, four};

use std::alloc::AllocError;

// Appends a digit.
fn push_digit(text: &mut String, digit: u32) -> Result<(), AllocError>
    requires { digit < 10 }
    ensures { OnOk result (string_bytes text.new
        ≡ string_bytes text.old ++ (48 + digit) ∷ []) }
{
    text.push(char::from(b'0' + digit as u8))
}

/// Appends the last two digits of a number.
pub(crate) fn push_two(text: &mut String, number: u32) -> Result<(), AllocError>
    ensures { OnOk result (string_bytes text.new ≡ string_bytes text.old ++ two number) }
{
    push_digit(text, number / 10 % 10)?;
    push_digit(text, number % 10)
}

/// Appends the last three digits of a number.
pub(crate) fn push_three(text: &mut String, number: u32) -> Result<(), AllocError>
    ensures { OnOk result (string_bytes text.new ≡ string_bytes text.old ++ three number) }
{
    push_digit(text, number / 100 % 10)?;
    push_two(text, number)
}

/// Appends the last four digits of a number.
pub(crate) fn push_four(text: &mut String, number: u32) -> Result<(), AllocError>
    ensures { OnOk result (string_bytes text.new ≡ string_bytes text.old ++ four number) }
{
    push_two(text, number / 100)?;
    push_two(text, number)
}

//! Names as they are shown.

use std::fmt;

/// A name as a sentence shows it: each control character as `\x` and two hexadecimal digits, and an
/// empty name as `''`. A NUL, which no name has, is before the two digits of a byte that is not
/// UTF-8, and is shown as `\x` too.
#[derive(Clone, Copy)]
pub struct Shown<'a>(pub &'a str);

impl fmt::Display for Shown<'_> {
    fn fmt<W: fmt::Write>(&self, f: &mut fmt::Formatter<W>) -> fmt::Result {
        if self.0.is_empty() {
            return f.write_str("''");
        }
        for letter in self.0.chars() {
            write_letter(f, letter)?;
        }
        Ok(())
    }
}

// Writes a character.
fn write_letter<W: fmt::Write>(f: &mut fmt::Formatter<W>, letter: char) -> fmt::Result {
    if letter == '\0' {
        f.write_str("\\x")
    } else if letter.is_control() {
        let number = letter as u32;
        write!(f, "\\x{number:02x}")
    } else {
        f.write_char(letter)
    }
}

//! File formats: what distinguishes the files of one RINEX version from those of another.

ghost use Rattle.std.specs.Prelude.{◌≡◌};
ghost use Rattle.rinex_read.specs.Forms.{is_four};

use crate::judged::{ItemRead, read_at};
use crate::record::RecordLines;
use scaled_decimal::is_decimal;

/// A format of navigation files, read by a [`RecordReader`](crate::RecordReader), whose records
/// give values of the type `R`.
///
/// Contracts see the format as a ghost: its versions, the first characters of its records, and what
/// the lines of a record give.
pub trait FileForm<R> {
    ghost use Rattle.std.specs.Prelude.{◌≡◌};
    ghost use Rattle.rinex_read.specs.Forms.{Form, GivesWhole, LooksAtKept};

    ghost form: { Self → Form R };

    // What holds of each value that a record gives.
    ghost whole: { R → Type 0 };

    /// Whether the text in columns 1-9 of the first line, without blanks around it, is a version of
    /// the format.
    fn names(&self, text: &[u8]) -> bool
        ensures { result ≡ (form self.now).names text.now };

    /// Whether a line with this first character begins a record; an empty line counts as a blank.
    fn starts(&self, first: u8) -> bool
        ensures { result ≡ (form self.now).starts first };

    /// What the lines of a record give, its title included; `line` is the number of the first.
    fn judge(&self, line: u32, lines: &RecordLines) -> R
        ensures { result ≡ (form self.now).judged line lines.now };

    /// Only what [`RecordLines`] stores of a record matters. It does nothing; its contract is the
    /// theorem.
    fn looks_at_kept(&self)
        ensures { LooksAtKept (form self.now) };

    /// What holds of each value that a record gives. It does nothing; its contract is the theorem.
    fn gives_whole(&self)
        ensures { GivesWhole (form self.now) whole };
}

// `4.` and one digit or two.
fn is_four(text: &[u8]) -> bool
    ensures { result ≡ is_four text.now }
{
    match text {
        [a, b, c] => *a == b'4' && *b == b'.' && is_decimal(*c),
        [a, b, c, d] => *a == b'4' && *b == b'.' && is_decimal(*c) && is_decimal(*d),
        _ => false,
    }
}

/// Version 4: `4.` and one digit or two; a record begins at a line with `>` (RINEX 4.01, header
/// section and navigation records).
pub struct Rinex4;

impl FileForm<ItemRead> for Rinex4 {
    ghost use Rattle.rinex_read.specs.Forms.{rinex4};
    ghost use Rattle.rinex_read.specs.RoundTrip.{IsWholeRead};

    ghost form = { λ f. rinex4 };

    ghost whole = { IsWholeRead };

    fn names(&self, text: &[u8]) -> bool {
        is_four(text)
    }

    fn starts(&self, first: u8) -> bool {
        first == b'>'
    }

    fn judge(&self, line: u32, lines: &RecordLines) -> ItemRead {
        read_at(line, lines.judge())
    }

    fn looks_at_kept(&self) {}

    fn gives_whole(&self) {}
}

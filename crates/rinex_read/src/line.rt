//! Lines of a record, truncated to 80 characters.

ghost use Rattle.std.specs.Prelude.{◌≡◌, ◌+◌, ◌≤◌, length};
ghost use Rattle.rinex_read.specs.Kept.{padded};
ghost use Rattle.rinex_read.specs.Lines.{columns, stands_at};
ghost use Rattle.rinex_read.specs.Forms.{begins};

use crate::form::FileForm;

/// The first 80 characters of a line, filled with blanks.
pub(crate) type PaddedLine = [u8; 80];

/// The first 80 characters of a line, filled with blanks.
pub(crate) fn padded(line: &[u8]) -> PaddedLine
    ensures { result ≡ padded line.now }
{
    let mut columns = [b' '; 80];
    if line.len() >= 80 {
        columns.copy_from_slice(&line[..80]);
        return columns;
    }
    let count = line.len();
    columns[..count].copy_from_slice(line);
    columns
}

/// `count` characters of a line from offset `place` on, counted from 0.
pub fn columns(line: &[u8; 80], place: usize, count: usize) -> &[u8]
    requires { place + count ≤ 80 }
    ensures text { result.now ≡ columns place count line.now }
    ensures len { length result.now ≡ count }
{
    &line[place..place + count]
}

/// Whether the text is at this offset of the line.
pub(crate) fn stands_at(line: &PaddedLine, place: usize, text: &[u8]) -> bool
    requires { place + length text.now ≤ 80 }
    ensures { result ≡ stands_at place text.now line.now }
{
    for (i, c) in text.iter().enumerate() {
        if line[place + i] != *c {
            return false;
        }
    }
    true
}

/// The line begins a record of the format.
pub(crate) fn begins<R, F: FileForm<R>>(form: &F, line: &[u8]) -> bool
    ensures { result ≡ begins (F.form form.now) line.now }
{
    match line {
        [first, ..] => form.starts(*first),
        [] => form.starts(b' '),
    }
}

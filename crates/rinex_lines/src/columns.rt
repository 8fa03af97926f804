//! Columns of lines.

ghost use Rattle.std.specs.Prelude.{◌≡◌, ◌+◌, ◌≤◌, ◌<◌, ◌++◌, length, IfSome};
ghost use Rattle.arrayvec.specs.ArrayVec.{array_vec_len};
ghost use Rattle.rinex_lines.specs.Columns.{number_at, number_of, padded, part};

use arrayvec::ArrayVec;
use scaled_decimal::is_decimal;

// How many characters of a line matter.
const WIDTH: usize = 80;

/// The first 80 characters of a line, filled with blanks.
pub(crate) type Columns = [u8; 80];

/// A line of 80 characters, with its end.
pub(crate) type Line = ArrayVec<u8, 81>;

/// The first 80 characters of a line, filled with blanks.
pub(crate) fn padded(line: &[u8]) -> Columns
    ensures { result ≡ padded line.now }
{
    let mut columns = [b' '; 80];
    let count = WIDTH.min(line.len());
    columns[..count].copy_from_slice(&line[..count]);
    columns
}

/// `count` characters of a line from offset `place` on.
pub(crate) fn part(line: &Columns, place: usize, count: usize) -> &[u8]
    requires { place + count ≤ 80 }
    ensures text { result.now ≡ part place count line.now }
    ensures len { length result.now ≡ count }
{
    &line[place..place + count]
}

/// Appends a piece, for which there is room.
pub(crate) fn append(line: &mut Line, piece: &[u8])
    requires { array_vec_len line.old + length piece.now ≤ 81 }
    ensures items { line.new.items ≡ line.old.items ++ piece.now }
    ensures len { array_vec_len line.new ≡ array_vec_len line.old + length piece.now }
{
    if line.try_extend_from_slice(piece).is_err() {
        unreachable!();
    }
}

// The number of two characters, the first possibly blank.
fn number_of(tens: u8, ones: u8) -> Option<u8>
    ensures { result ≡ number_of tens ones }
{
    if is_decimal(ones) && (tens == b' ' || is_decimal(tens)) {
        let tens = if tens == b' ' { 0 } else { 10 * (tens - b'0') };
        Some(tens + (ones - b'0'))
    } else {
        None
    }
}

/// The number at offset `place` of a line.
#[tactic(auto, unfolding(crate::specs::Columns::number_at))]
pub(crate) fn number_at(line: &Columns, place: usize) -> Option<u8>
    requires { place + 2 ≤ 80 }
    ensures value { result ≡ number_at place line.now }
    ensures few { IfSome result (λ number. number < 100) }
{
    number_of(line[place], line[place + 1])
}

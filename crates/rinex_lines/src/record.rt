//! The text of a carried record.

ghost use Rattle.std.specs.Prelude.{◌≡◌, ◌+◌, ◌*◌, ◌≤◌, ◌++◌, length, true};
ghost use Rattle.arrayvec.specs.ArrayVec.{array_vec_len};
ghost use Rattle.rinex_lines.specs.CarriedLines.{line_text, lines_text, record_text};

use crate::line::carried_line;
use arrayvec::ArrayVec;
use scaled_decimal::trimmed;

/// The text of a record of at most 18 lines.
pub type RecordText = ArrayVec<u8, 1458>;

// Appends a piece; it must fit.
fn append(text: &mut RecordText, piece: &[u8])
    requires { array_vec_len text.old + length piece.now ≤ 1458 }
    ensures items { text.new.items ≡ text.old.items ++ piece.now }
    ensures len { array_vec_len text.new ≡ array_vec_len text.old + length piece.now }
{
    if text.try_extend_from_slice(piece).is_err() {
        unreachable!();
    }
}

// Appends a line.
fn append_line(text: &mut RecordText, line: &[u8; 80])
    requires { array_vec_len text.old + 81 ≤ 1458 }
    ensures items { text.new.items ≡ text.old.items ++ line_text line.now }
    ensures len { array_vec_len text.new ≤ array_vec_len text.old + 81 }
{
    let mut marked = [b'>'; 81];
    marked[1..].copy_from_slice(line);
    let kept = trimmed(&marked);
    append(text, &kept[1..]);
    append(text, b"\n");
}

// Appends the lines after the title.
fn append_lines(text: &mut RecordText, lines: &[[u8; 80]])
    requires { array_vec_len text.old + 81 * length lines.now ≤ 1458 }
    ensures { text.new.items ≡ text.old.items ++ lines_text true lines.now }
{
    let mut first = true;
    for line in lines {
        append_line(text, &carried_line(first, line));
        first = false;
    }
}

/// The text of a record of at most 18 lines, the title first: of each other line its
/// [`carried_line`](crate::carried_line()). Blanks at the end of a line are not written.
pub fn record_text(lines: &[[u8; 80]]) -> RecordText
    requires { length lines.now ≤ 18 }
    ensures { result.items ≡ record_text lines.now }
{
    let mut text = ArrayVec::new();
    match lines {
        [] => {}
        [title, rest @ ..] => {
            append_line(&mut text, title);
            append_lines(&mut text, rest);
        }
    }
    text
}

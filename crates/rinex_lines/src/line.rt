//! The lines of a carried record.

ghost use Rattle.std.specs.Prelude.{◌≡◌, ◌+◌, ◌≤◌};
ghost use Rattle.rinex_lines.specs.CarriedLines.{carried_line, with_field};

use crate::exact::exact_text;

// Gives the number in the 19 columns from an offset on its exact text.
fn put_field(line: &mut [u8; 80], at: usize)
    requires { at + 19 ≤ 80 }
    ensures { line.new ≡ with_field at line.old }
{
    if let Some(text) = exact_text(&line[at..at + 19]) {
        line[at..at + 19].copy_from_slice(&text);
    }
}

/// A line after the title as it is written; `first` of the first, whose first column holds the
/// date.
///
/// Each column with a number of at most thirteen digits has its [`exact_text`]; the others stay as
/// they are.
#[tactic(auto, unfolding(crate::specs::CarriedLines::carried_line))]
pub fn carried_line(first: bool, line: &[u8; 80]) -> [u8; 80]
    ensures { result ≡ carried_line first line.now }
{
    let mut line = *line;
    if !first {
        put_field(&mut line, 4);
    }
    put_field(&mut line, 23);
    put_field(&mut line, 42);
    put_field(&mut line, 61);
    line
}

//! The lines of a text, as far as a record looks at them.

ghost use Rattle.std.specs.Prelude.{◌≡◌, ◌<◌, ◌∷◌, length, map, take};
ghost use Rattle.nav_io.specs.Lines.{without_cr};
ghost use Rattle.rinex_read.specs.Kept.{padded};
ghost use Rattle.rinex_read.specs.Lines.{lines_of};

use nav_io::{first_end, length_without_cr};
use rinex_read::RecordLines;

// The line without the CR at its end.
pub(crate) fn without_end(line: &[u8]) -> &[u8]
    ensures { result.now ≡ without_cr line.now }
{
    &line[..length_without_cr(line)]
}

// The first line, and what stands behind its end.
#[tactic(auto, using(crate::proofs::LinesOfText::line_last))]
fn cut_line(text: &[u8]) -> (&[u8], &[u8])
    requires { 0 < length text.now }
    ensures { lines_of text.now ≡ result.0.now ∷ lines_of result.1.now }
{
    match first_end(text) {
        Some(end) => (without_end(&text[..end]), &text[end + 1..]),
        None => (without_end(text), &[]),
    }
}

// The lines of a text, as far as a record looks at them: the first eighteen.
pub(crate) fn lines_in(text: &[u8]) -> RecordLines
    ensures { result ≡ map padded (take 18 (lines_of text.now)) }
{
    let mut lines = RecordLines::new();
    let mut rest = text;
    for _count in 0..18usize {
        if rest.is_empty() {
            return lines;
        }
        let (line, more) = cut_line(rest);
        lines.push(line);
        rest = more;
    }
    lines
}

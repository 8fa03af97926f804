//! The first line of a capture, and the reference week by which it is read.

ghost use Rattle.std.specs.Prelude.{◌≡◌, ◌≤◌, IfSome};
ghost use Rattle.capture_lines.specs.Heads.{head_of};
ghost use Rattle.captures.specs.Captures.{accepted_head, week_for};

use capture_lines::read_first;
use nav_eph::RefWeek;

// An accepted first line: the window in seconds, and the reference week.
#[derive(Clone, Copy)]
pub(crate) struct Accepted {
    pub(crate) window: u32,
    pub(crate) week: RefWeek,
}

// The reference week: that of the command line or of the first line; `None` where neither names one
// or they differ.
fn week_of(words: Option<RefWeek>, named: Option<RefWeek>) -> Option<RefWeek>
    ensures { result ≡ week_for words named }
{
    let Some(week) = words else {
        return named;
    };
    match named {
        None => Some(week),
        Some(other) => { if week == other { Some(week) } else { None } }
    }
}

// The first line, as it is accepted for the week of the command line, or for none.
pub(crate) fn accept(line: &[u8], words: Option<RefWeek>) -> Option<Accepted>
    ensures accepted { result ≡ accepted_head words (head_of line.now) }
    ensures least { IfSome result (λ a. 60 ≤ a.window) }
    ensures most { IfSome result (λ a. a.window ≤ 14400) }
{
    let head = read_first(line)?;
    let week = week_of(words, head.week)?;
    Some(Accepted {
        window: head.window,
        week,
    })
}

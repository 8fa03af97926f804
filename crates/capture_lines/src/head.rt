//! The first line of a capture.

ghost use Rattle.std.specs.Prelude.{◌≡◌, ◌↔◌, ◌≤◌, nat_eq, codes, IsSome, IfSome};
ghost use Rattle.std.specs.List.{starts_with};
ghost use Rattle.capture_lines.specs.Heads.{IsHead, head_of, number_behind, own_head, ranged};
ghost use Rattle.capture_lines.specs.Heads.{whole_number_in};
ghost use Rattle.capture_lines.specs.declared.head.CaptureHead.{CaptureHead};

use crate::numbers::{decimal_number, digit_count};
use nav_eph::RefWeek;

/// The content of the first line of a capture.
#[derive(Clone, Copy, PartialEq, Eq)]
pub struct CaptureHead {
    /// The window in seconds: how far a line's time tag may be below a later one's, and the longest
    /// gap between parts of one period.
    pub window: u32,
    /// The reference week, counted from 1980-01-06; `None` if the line has none.
    pub week: Option<RefWeek>,
}

/// Reads the first line, without its line end: `NAVCAP 1`, with a window of 7,200 seconds and no
/// week, or `NAVCAP 2 <week> <window>`, with a week of 1024 to 8191 and a window of 60 to 14,400
/// seconds, each in one to ten decimal digits. Words are separated by one space; there is no space
/// at either end. `None` for every other line.
#[tactic(auto, unfolding(crate::specs::Heads::head_of))]
pub fn read_first(line: &[u8]) -> Option<CaptureHead>
    ensures head { result ≡ head_of line.now }
    ensures exactly { IsSome result ↔ ((head : CaptureHead) × IsHead head line.now) }
    ensures range { IfSome result (λ head. (60 ≤ head.window) × (head.window ≤ 14400)) }
{
    if line == b"NAVCAP 1".as_slice() {
        return Some(CaptureHead {
            window: 7200,
            week: None,
        });
    }
    if !line.starts_with(b"NAVCAP 2 ") {
        return None;
    }
    week_and_window(&line[9..])
}

// The head after `NAVCAP 2 `.
#[tactic(auto, unfolding(crate::specs::Heads::own_head))]
fn week_and_window(rest: &[u8]) -> Option<CaptureHead>
    ensures { result ≡ own_head rest.now }
{
    let count = digit_count(rest);
    let week = decimal_number(rest, count)?;
    let window = number_behind_a_space(&rest[count..])?;
    in_range(week, window)
}

// The number after one space, up to the end of the text.
#[tactic(auto, unfolding(crate::specs::Heads::number_behind, crate::specs::Heads::whole_number_in))]
fn number_behind_a_space(rest: &[u8]) -> Option<u32>
    ensures { result ≡ number_behind rest.now }
{
    if rest.is_empty() || rest[0] != b' ' {
        return None;
    }
    let text = &rest[1..];
    let count = digit_count(text);
    if count != text.len() {
        return None;
    }
    decimal_number(text, count)
}

// The head of a week and a window; `None` where one is out of range.
#[tactic(auto, unfolding(crate::specs::Heads::ranged))]
fn in_range(week: u32, window: u32) -> Option<CaptureHead>
    ensures { result ≡ ranged week window }
{
    let week = RefWeek::new(week)?;
    if !(60..=14_400).contains(&window) {
        return None;
    }
    Some(CaptureHead {
        window,
        week: Some(week),
    })
}

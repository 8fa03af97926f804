//! The format of RINEX 3.

ghost use Rattle.std.specs.Prelude.{◌≡◌, List, ℕ, length, pos};
ghost use Rattle.rinex_read.specs.Form3.{is_inav, is_inav_number, is_three};
ghost use Rattle.rinex_read.specs.Form3.{judged3, says_inav, titled};

use crate::fields::WHOLE;
use crate::form::FileForm;
use crate::judged::{ItemRead, Judged, read_at};
use crate::line::columns;
use crate::record::RecordLines;
use scaled_decimal::{DecimalFault, read};

// `3.02`, `3.03`, `3.04` or `3.05`.
fn is_three(text: &[u8]) -> bool
    ensures { result ≡ is_three text.now }
{
    match text {
        [a, b, c, d] => *a == b'3' && *b == b'.' && *c == b'0' && b'2' <= *d && *d <= b'5',
        _ => false,
    }
}

// The data sources mean I/NAV: bit 0 or bit 2 is set, and bit 1 (F/NAV) is not.
fn is_inav_number(number: u64) -> bool
    ensures { result ≡ is_inav_number number }
{
    number / 2 % 2 == 0 && (number % 2 == 1 || number / 4 % 2 == 1)
}

// The same of a number as read; where there is none it is not I/NAV.
fn says_inav(sources: Result<i64, DecimalFault>) -> bool
    ensures { result ≡ says_inav sources }
{
    match sources {
        Ok(number) => is_inav_number(number.unsigned_abs()),
        Err(_) => false,
    }
}

// Whether the sixth line says I/NAV in its data sources.
#[tactic(auto, unfolding(crate::specs::Form3::is_inav))]
fn is_inav(lines: &[[u8; 80]]) -> bool
    ensures { result ≡ is_inav lines.now }
{
    if lines.len() < 6 {
        return false;
    }
    says_inav(read(columns(&lines[5], 23, 19), &WHOLE, 0, 1023))
}

// The title of the same record in RINEX 4.
fn titled(message: &[u8; 4], line: &[u8; 80]) -> [u8; 14]
    ensures { result ≡ titled message.now line.now }
{
    let sat = columns(line, 0, 3);
    let [a, b, c, d] = *message;
    [
        b'>', b' ', b'E', b'P', b'H', b' ', sat[0], sat[1], sat[2], b' ', a, b, c, d,
    ]
}

/// The item of a record of RINEX 3, or why there is none.
#[tactic(auto, unfolding(crate::specs::Form3::judged3))]
pub fn judge3(lines: &RecordLines) -> Judged
    ensures { result ≡ judged3 lines.now }
{
    let kept = lines.lines();
    match kept {
        [] => Judged::PassedOver,
        [first, ..] => {
            if first[0] == b'G' {
                return lines.judge_behind(&titled(b"LNAV", first));
            }
            if first[0] == b'E' && is_inav(kept) {
                return lines.judge_behind(&titled(b"INAV", first));
            }
            Judged::PassedOver
        }
    }
}

/// Versions 3.02 to 3.05: a record begins at each line whose first column is not blank (RINEX 3.05,
/// navigation message files).
///
/// A GPS record is judged as the RINEX 4 record with the title `> EPH G05 LNAV` of its satellite
/// before it, a Galileo record whose data sources name I/NAV with `> EPH E11 INAV`. Other records
/// are skipped.
pub struct Rinex3;

impl FileForm<ItemRead> for Rinex3 {
    ghost use Rattle.rinex_read.specs.Form3.{rinex3};
    ghost use Rattle.rinex_read.specs.RoundTrip.{IsWholeRead};

    ghost form = { λ f. rinex3 };

    ghost whole = { IsWholeRead };

    fn names(&self, text: &[u8]) -> bool {
        is_three(text)
    }

    fn starts(&self, first: u8) -> bool {
        first != b' '
    }

    fn judge(&self, line: u32, lines: &RecordLines) -> ItemRead {
        read_at(line, judge3(lines))
    }

    fn looks_at_kept(&self) {}

    fn gives_whole(&self) {}
}

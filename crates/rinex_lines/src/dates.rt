//! The dates of records, and the times of GLONASS frames.

ghost use Rattle.std.specs.Prelude.{◌≡◌, ◌^◌, ◌<◌, IfSome};
ghost use Rattle.rinex_lines.specs.Dates.{date_of, epoch_of, frame_by, frame_text, full_year};
ghost use Rattle.rinex_lines.specs.Dates.{six_digits, week_second, year_text};

use crate::columns::{Columns, number_at};
use nav_eph::{Civil, moment_of};
use scaled_decimal::{Scale, read};

// The scale of integers.
const WHOLE: Scale = Scale {
    pi: false,
    factor: 1,
    two: 0,
    ten: 0,
};

// The seconds of a day and of a week.
const DAY: u64 = 86_400;

const WEEK: u64 = 604_800;

/// The four characters of the year of these two, of which the first is possibly blank.
pub(crate) fn year_text(tens: u8, ones: u8) -> [u8; 4]
    ensures { result ≡ year_text tens ones }
{
    if tens == b' ' {
        [b'2', b'0', b'0', ones]
    } else if tens >= b'8' {
        [b'1', b'9', tens, ones]
    } else {
        [b'2', b'0', tens, ones]
    }
}

// The year of two digits.
fn full_year(year: u8) -> u16
    requires { year < 100 }
    ensures { result ≡ full_year year }
{
    if year >= 80 {
        1900 + u16::from(year)
    } else {
        2000 + u16::from(year)
    }
}

// The date of a line.
#[tactic(auto, unfolding(crate::specs::Dates::date_of))]
fn date_of(line: &Columns) -> Option<Civil>
    ensures { result ≡ date_of line.now }
{
    let year = number_at(line, 3)?;
    let month = number_at(line, 6)?;
    let day = number_at(line, 9)?;
    let hour = number_at(line, 12)?;
    let minute = number_at(line, 15)?;
    let second = number_at(line, 18)?;
    Some(Civil {
        year: full_year(year),
        month,
        day,
        hour,
        minute,
        second,
    })
}

// The date of a line, in seconds.
fn epoch_of(line: &Columns) -> Option<u64>
    ensures value { result ≡ epoch_of line.now }
    ensures few { IfSome result (λ epoch. epoch < 2 ^ 34) }
{
    let date = date_of(line)?;
    match moment_of(&date) {
        Ok(moment) => Some(moment.value()),
        Err(_) => None,
    }
}

// The second of the week nearest to the epoch with this second of the day.
fn week_second(epoch: u64, second: u64) -> u64
    requires few { epoch < 2 ^ 34 }
    requires within { second < 86400 }
    ensures value { result ≡ week_second epoch second }
    ensures within { result < 604800 }
{
    let low = epoch.saturating_sub(43_199);
    (low + (second + DAY - low % DAY) % DAY) % WEEK
}

// A number of at most six digits at the end of 19 columns.
fn six_digits(number: u64) -> [u8; 19]
    requires { number < 1_000_000 }
    ensures { result ≡ six_digits number }
{
    let mut text = [b' '; 19];
    text[13] = b'0' + (number / 100_000) as u8;
    text[14] = b'0' + (number / 10_000 % 10) as u8;
    text[15] = b'0' + (number / 1000 % 10) as u8;
    text[16] = b'0' + (number / 100 % 10) as u8;
    text[17] = b'0' + (number / 10 % 10) as u8;
    text[18] = b'0' + (number % 10) as u8;
    text
}

/// The third number of a GLONASS record in RINEX 3, for that of RINEX 2.
#[tactic(auto, unfolding(crate::specs::Dates::frame_text))]
pub(crate) fn frame_text(line: &Columns, text: &[u8; 19]) -> [u8; 19]
    ensures { result ≡ frame_text line.now text.now }
{
    match (epoch_of(line), read(text, &WHOLE, 0, 86_399)) {
        (Some(epoch), Ok(second)) => six_digits(week_second(epoch, second as u64)),
        _ => *text,
    }
}

//! The dates of records.

ghost use Rattle.std.specs.Prelude.{◌≡◌, ◌+◌, ◌^◌, ◌<◌, ◌≤◌, length, IfOk};
ghost use Rattle.nav_eph.specs.Functions.{moment_to};
ghost use Rattle.rinex_read.specs.Lines.{columns};
ghost use Rattle.rinex_read.specs.Judging.{date_of, moment_at, moment_stated, whole_number};

use crate::line::{PaddedLine, columns};
use crate::reason::RecordFault;
use nav_eph::{Civil, Moment, WeekFault, moment_of};
use scaled_decimal::{leading_digits, trimmed};

// A decimal number, with blanks before and after it allowed.
#[tactic(auto, unfolding(crate::specs::Judging::whole_number))]
fn whole_number(text: &[u8]) -> Result<u16, RecordFault>
    requires { length text.now ≤ 4 }
    ensures value { result ≡ whole_number text.now }
    ensures few { IfOk result (λ n. n < 10 ^ length text.now) }
{
    let digits = leading_digits(trimmed(text));
    if digits.rest.is_empty() && digits.count >= 1 {
        Ok(digits.number as u16)
    } else {
        Err(RecordFault::NotANumber)
    }
}

// The same of two characters.
fn two_digits(line: &PaddedLine, place: usize) -> Result<u8, RecordFault>
    requires { place + 2 ≤ 80 }
    ensures { result ≡ whole_number (columns place 2 line.now) }
{
    let number = whole_number(columns(line, place, 2))?;
    Ok(number as u8)
}

// The date of a line.
#[tactic(auto, unfolding(crate::specs::Judging::date_of))]
fn date_of(line: &PaddedLine) -> Result<Civil, RecordFault>
    ensures { result ≡ date_of line.now }
{
    let year = whole_number(columns(line, 4, 4))?;
    let month = two_digits(line, 9)?;
    let day = two_digits(line, 12)?;
    let hour = two_digits(line, 15)?;
    let minute = two_digits(line, 18)?;
    let second = two_digits(line, 21)?;
    Ok(Civil {
        year,
        month,
        day,
        hour,
        minute,
        second,
    })
}

// GPS time of a date, in seconds since the GPS epoch.
fn moment_stated(date: &Civil) -> Result<Moment, RecordFault>
    ensures { result ≡ moment_stated (moment_to date.now) }
{
    match moment_of(date) {
        Ok(moment) => Ok(moment),
        Err(WeekFault::NoSuchDate) => Err(RecordFault::NoSuchDate),
        Err(WeekFault::BeforeEpoch) => Err(RecordFault::Week),
        Err(WeekFault::TooFar) => Err(RecordFault::Week),
    }
}

/// GPS time of the date of a line, in seconds since the GPS epoch.
pub(crate) fn moment_in(line: &PaddedLine) -> Result<Moment, RecordFault>
    ensures { result ≡ moment_at line.now }
{
    let date = date_of(line)?;
    moment_stated(&date)
}

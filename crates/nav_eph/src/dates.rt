ghost use Rattle.std.specs.Prelude.{◌≡◌, ℕ, ◌+◌, ◌*◌};
ghost use Rattle.std.specs.Prelude.{◌%◌, ◌/◌, ◌<◌, ◌≤◌};
ghost use Rattle.std.specs.Prelude.{pos, ◌≤ℤ◌, ◌+ℤ◌, MatchOption, IfOk};
ghost use Rattle.jiff_core.specs.Calendar.{IsEpochDay};
ghost use Rattle.jiff_core.specs.Date.{epoch_day};
ghost use Rattle.nav_eph.specs.Dates.{Exists, GivesMoment, IsCivilOf, day_of, first_day};
ghost use Rattle.nav_eph.specs.Functions.{civil_to, moment_to};
ghost use Rattle.nav_eph.specs.declared.calendar.Civil.{Civil as CivilDate};

use crate::calendar::{Civil, WeekFault};
use crate::moment::Moment;
use jiff::civil::Date;
use jiff_core::civil as plain;

/// The day number of 1980-01-06, counted from 1970-01-01.
const FIRST_DAY: i32 = 3_657;

/// The days of the 16,384 weeks that are represented.
const DAYS: i32 = 7 * 16_384;

const SECONDS_OF_DAY: u64 = 86_400;

/// The date and time of day of a GPS time.
pub fn civil(moment: Moment) -> Civil
    ensures date { IsCivilOf result moment }
    ensures again { GivesMoment result (Ok moment) }
    ensures value { result ≡ civil_to moment }
{
    let days = moment.value() / SECONDS_OF_DAY;
    let date = date_of((FIRST_DAY as u64 + days) as i64);
    let time = (moment.value() % SECONDS_OF_DAY) as u32;
    Civil {
        year: date.year as u16,
        month: date.month,
        day: date.day,
        hour: (time / 3_600) as u8,
        minute: (time % 3_600 / 60) as u8,
        second: (time % 60) as u8,
    }
}

/// The GPS time of a date and time of day.
///
/// Errors, the first that applies: `NoSuchDate` if the date or the time of day does not exist
/// (years above 9999 and second 60 do not), `BeforeEpoch` if the day is before 1980-01-06, `TooFar`
/// if it is in week 16384 or later.
pub fn moment_of(date: &Civil) -> Result<Moment, WeekFault>
    ensures answer { GivesMoment date.now result }
    ensures again { IfOk result (λ m. (c : CivilDate) → IsCivilOf c m → c ≡ date.now) }
    ensures value { result ≡ moment_to date.now }
{
    let Some(number) = day_number(date) else {
        return Err(WeekFault::NoSuchDate);
    };
    if number < FIRST_DAY {
        return Err(WeekFault::BeforeEpoch);
    }
    if number - FIRST_DAY >= DAYS {
        return Err(WeekFault::TooFar);
    }
    let days = (number - FIRST_DAY) as u64;
    Ok(Moment::from_seconds(SECONDS_OF_DAY * days + time_of(date) as u64))
}

// The seconds since midnight of a time of day.
fn time_of(date: &Civil) -> u32
    ensures { result ≡ 3600 * date.now.hour + 60 * date.now.minute + date.now.second }
{
    3_600 * date.hour as u32 + 60 * date.minute as u32 + date.second as u32
}

// The day number of a date; None where the date or the time of day does not exist.
fn day_number(date: &Civil) -> Option<i32>
    ensures { MatchOption result (Exists date.now → ⊥)
        (λ day. Exists date.now × (day ≡ day_of date.now) × IsEpochDay day) }
{
    if date.year > 9_999 || date.month > 12 || date.day > 31 {
        return None;
    }
    if date.hour > 23 || date.minute > 59 || date.second > 59 {
        return None;
    }
    match Date::new(date.year as i16, date.month as i8, date.day as i8) {
        Ok(day) => Some(day.to_plain().to_unix_epoch_day()),
        Err(_) => None,
    }
}

// The date with this day number, counted from 1970-01-01.
fn date_of(number: i64) -> plain::Date
    requires first { pos 0 ≤ℤ number }
    requires last { number ≤ℤ pos 200000 }
    ensures { epoch_day result ≡ number }
{
    plain::Date::from_unix_epoch_day(number).unwrap()
}

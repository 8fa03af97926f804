//! Names of navigation files by the convention of RINEX 3 and 4.

ghost use Rattle.std.specs.Prelude.{◌≡◌, ◌==◌, ◌++◌, ◌<◌};
ghost use Rattle.std.specs.Prelude.{◌≤◌, IfOk, OnOk, nat_lt};
ghost use Rattle.std.specs.String.{string_bytes};
ghost use Rattle.file_conversion.specs.Long.{long_name, is_site, is_leap};
ghost use Rattle.file_conversion.specs.Long.{day_of_year, is_one_hour, period_of, start_time};
ghost use Rattle.file_conversion.specs.Long.{site_times, start_date};

use crate::digits::{push_four, push_three, push_two};
use crate::form::fits;
use nav_eph::{Civil, Moment, civil};
use std::alloc::{AllocError, Global};

// The days of a common year before a month.
static DAYS_BEFORE: [u32; 12] = [0, 31, 59, 90, 120, 151, 181, 212, 243, 273, 304, 334];

/// Whether the text is the nine characters of a site, such as `BRDC00XXX`.
#[tactic(auto, unfolding(crate::specs::Long::is_site))]
pub fn is_site(text: &str) -> bool
    ensures { result ≡ is_site text.now }
{
    fits(b"NNNN00AAA", text.as_bytes())
}

/// The name of a navigation file with data of this site from the first time to the last, such as
/// `BRDC00XXX_R_20240010000_01D_MN.rnx`. The type of the data is `MN` for several systems, and
/// `GN`, `RN`, `EN`, `CN`, `JN`, `IN` or `SN` for one.
///
/// The period starts at the full hour if both times are in one hour, and else at the midnight
/// before the first. A period of more than 99 days is unspecified (`00U`).
pub fn long_name(
    alloc: Global,
    site: &str,
    first: Moment,
    last: Moment,
    data_type: &str,
) -> Result<String, AllocError>
    ensures { IfOk result (λ name. string_bytes name
        ≡ long_name site.now first last data_type.now) }
{
    let mut name = String::from_str(alloc, site)?;
    push_times(&mut name, first, last)?;
    name.push_str(data_type)?;
    name.push_str(".rnx")?;
    Ok(name)
}

// Appends these times to a site.
#[tactic(auto, unfolding(crate::specs::Long::site_times))]
fn push_times(name: &mut String, first: Moment, last: Moment) -> Result<(), AllocError>
    ensures { OnOk result (string_bytes name.new ≡ site_times (string_bytes name.old) first last) }
{
    name.push_str("_R_")?;
    push_date(name, &civil(first))?;
    push_time(name, first, last)?;
    name.push_str("_")?;
    push_period(name, first, last)?;
    name.push_str("_")
}

// Whether both times lie in one hour.
fn is_one_hour(first: Moment, last: Moment) -> bool
    ensures { result ≡ is_one_hour first last }
{
    last.value() / 3600 == first.value() / 3600
}

// Appends the year and the day of the year.
fn push_date(name: &mut String, date: &Civil) -> Result<(), AllocError>
    requires month { date.now.month ≤ 12 }
    requires some { 1 ≤ date.now.month }
    ensures { OnOk result (string_bytes name.new ≡ string_bytes name.old ++ start_date date.now) }
{
    push_four(name, u32::from(date.year))?;
    push_three(name, day_of_year(date))
}

// The day of the year, from 1.
fn day_of_year(date: &Civil) -> u32
    requires month { date.now.month ≤ 12 }
    requires some { 1 ≤ date.now.month }
    ensures { result ≡ day_of_year date.now }
{
    let before = DAYS_BEFORE[date.month as usize - 1] + u32::from(date.day);
    if is_leap(date.year) && date.month > 2 {
        before + 1
    } else {
        before
    }
}

// Whether the year has 366 days.
fn is_leap(year: u16) -> bool
    ensures { result ≡ is_leap year }
{
    year % 4 == 0 && (year % 100 != 0 || year % 400 == 0)
}

// Appends the hour and the minute at which the period starts.
#[tactic(auto, unfolding(crate::specs::Long::start_time))]
fn push_time(name: &mut String, first: Moment, last: Moment) -> Result<(), AllocError>
    ensures { OnOk result (string_bytes name.new
        ≡ string_bytes name.old ++ start_time first last) }
{
    if !is_one_hour(first, last) {
        return name.push_str("0000");
    }
    push_two(name, u32::from(civil(first).hour))?;
    name.push_str("00")
}

// Whether a period from one day to that so many days later has its days as a number: 1 to 99.
fn is_numbered(days: u64) -> bool
    ensures { result ≡ nat_lt days 99 }
{
    days < 99
}

// Appends the period.
#[tactic(auto, unfolding(crate::specs::Long::period_of))]
fn push_period(name: &mut String, first: Moment, last: Moment) -> Result<(), AllocError>
    ensures { OnOk result (string_bytes name.new
        ≡ string_bytes name.old ++ period_of first last) }
{
    if is_one_hour(first, last) {
        return name.push_str("01H");
    }
    let days = (last.value() / 86_400).saturating_sub(first.value() / 86_400);
    if !is_numbered(days) {
        return name.push_str("00U");
    }
    push_two(name, days as u32 + 1)?;
    name.push_str("D")
}

//! GPS times in messages.

ghost use Rattle.std.specs.Prelude.{◌≡◌, ◌+◌, ◌-◌, ◌*◌, ◌/◌};
ghost use Rattle.std.specs.Prelude.{◌%◌, ◌^◌, ◌<◌, ◌≤◌, nat_lt, IsTrue};
ghost use Rattle.receiver_log.specs.Times.{digits_of as double_digits, exponent_of};
ghost use Rattle.receiver_log.specs.Times.{is_in_week};
ghost use Rattle.receiver_log.specs.Times.{is_week as in_weeks, nearest_to, places_of};
ghost use Rattle.receiver_log.specs.Times.{time_in as moment_in, nearest_time as moment_near};
ghost use Rattle.receiver_log.specs.Times.{time_of_date as date_time};
ghost use Rattle.nav_eph.specs.Functions.{moment_to};
ghost use Rattle.receiver_log.specs.Times.{time_of_raw as raw_time};
ghost use Rattle.receiver_log.specs.Times.{time_of_seconds as seconds_time};
ghost use Rattle.receiver_log.specs.Times.{time_of_week as week_time};
ghost use Rattle.receiver_log.specs.Times.{nearest_week as near_week};

use crate::numbers::{eight, four, two};
use nav_eph::{Civil, Moment, moment_of};

// The seconds of a week.
const WEEK: u64 = 604_800;

// Whether a week number is plausible: 1025 to 8191.
fn is_week(week: u64) -> bool
    ensures { result ≡ in_weeks week }
{
    1025 <= week && week <= 8191
}

// The time at this many milliseconds of a week, rounded to a second.
#[tactic(auto, unfolding(crate::specs::Times::time_in))]
pub fn time_in(week: u64, milliseconds: u32) -> Option<Moment>
    ensures { result ≡ moment_in week milliseconds }
{
    if !is_week(week) || milliseconds >= 604_800_000 {
        return None;
    }
    let second = WEEK * week + (u64::from(milliseconds) + 500) / 1000;
    Some(Moment::from_seconds(second))
}

// The time of NAV-TIMEGPS.
#[tactic(auto, unfolding(crate::specs::Times::time_of_week))]
pub fn time_of_week(payload: &[u8]) -> Option<Moment>
    ensures { result ≡ week_time payload.now }
{
    if payload.len() < 12 || payload[11] % 4 != 3 {
        return None;
    }
    time_in(u64::from(two(payload, 8)), four(payload, 0))
}

// The week in which this time of week, in milliseconds, is within half a week of `second`.
fn nearest_week(second: u64, milliseconds: u32) -> u64
    requires { second < 2 ^ 40 }
    ensures { result ≡ near_week second milliseconds }
{
    (1000 * second + 302_400_000).saturating_sub(u64::from(milliseconds)) / 604_800_000
}

// The time of NAV-PVT.
#[tactic(auto, unfolding(crate::specs::Times::time_of_date))]
pub fn time_of_date(payload: &[u8]) -> Option<Moment>
    ensures { result ≡ date_time payload.now }
{
    if payload.len() < 12 || payload[11] % 4 != 3 || payload[10] > 60 {
        return None;
    }
    let minute = Civil {
        year: two(payload, 4) as u16,
        month: payload[6],
        day: payload[7],
        hour: payload[8],
        minute: payload[9],
        second: 0,
    };
    nearest_time(&minute, payload[10], four(payload, 0))
}

// The GPS time with this time of week, in milliseconds, nearest to a second of a minute.
fn nearest_time(minute: &Civil, second: u8, milliseconds: u32) -> Option<Moment>
    ensures { result ≡ moment_near (moment_to minute.now) second milliseconds }
{
    match moment_of(minute) {
        Ok(moment) => {
            let week = nearest_week(moment.value() + u64::from(second), milliseconds);
            time_in(week, milliseconds)
        }
        Err(_) => None,
    }
}

// The time of RXM-RAWX.
#[tactic(auto, unfolding(crate::specs::Times::time_of_raw))]
pub fn time_of_raw(payload: &[u8]) -> Option<Moment>
    ensures { result ≡ raw_time payload.now }
{
    if payload.len() < 16 {
        return None;
    }
    time_of_seconds(u64::from(two(payload, 8)), eight(payload, 0))
}

// The time at a number of seconds of a week, given as the bits of a double.
#[tactic(auto, unfolding(crate::specs::Times::time_of_seconds))]
fn time_of_seconds(week: u64, double: u64) -> Option<Moment>
    ensures { result ≡ seconds_time week double }
{
    if !is_week(week) {
        return None;
    }
    if !is_below_week(double) {
        return None;
    }
    Some(Moment::from_seconds(WEEK * week + nearest(double)))
}

// The exponent field of a double.
fn exponent(double: u64) -> u64
    ensures { result ≡ exponent_of double }
{
    (double >> 52) % 2048
}

// The significand of a double, as an integer.
#[tactic(auto, unfolding(crate::specs::Times::digits_of))]
fn digits(double: u64) -> u64
    ensures value { result ≡ double_digits double }
    ensures fits { result < 2 ^ 53 }
{
    let fraction = double % (1 << 52);
    if exponent(double) == 0 {
        fraction
    } else {
        (1 << 52) + fraction
    }
}

// How many fraction bits the significand has.
#[tactic(auto, unfolding(crate::specs::Times::places_of))]
fn places(double: u64) -> u64
    ensures { result ≡ places_of double }
{
    if exponent(double) == 0 {
        1074
    } else {
        1075u64.saturating_sub(exponent(double))
    }
}

// Whether the double is from 0 to below 604,800.
#[tactic(auto, unfolding(crate::specs::Times::is_in_week))]
fn is_below_week(double: u64) -> bool
    ensures { result ≡ is_in_week double }
{
    let digits = digits(double);
    if double >= 1 << 63 && digits != 0 {
        return false;
    }
    exponent(double) <= 1075 && whole(digits, places(double)) < WEEK
}

// The integer part.
fn whole(digits: u64, places: u64) -> u64
    requires { digits < 2 ^ 53 }
    ensures { result ≡ digits / 2 ^ places }
{
    if places > 60 { 0 } else { digits >> places }
}

// Whether the fraction is less than a half.
fn is_low(digits: u64, places: u64) -> bool
    requires { digits < 2 ^ 53 }
    ensures { result ≡ nat_lt (2 * (digits % 2 ^ places)) (2 ^ places) }
{
    if places > 60 {
        return true;
    }
    2 * (digits % (1 << places)) < 1 << places
}

// The nearest integer, halves up.
#[tactic(auto, unfolding(crate::specs::Times::is_in_week, crate::specs::Times::nearest_to))]
fn nearest(double: u64) -> u64
    requires { IsTrue (is_in_week double) }
    ensures value { result ≡ nearest_to double }
    ensures most { result ≤ 604800 }
{
    let digits = digits(double);
    let places = places(double);
    let whole = whole(digits, places);
    if is_low(digits, places) {
        whole
    } else {
        whole + 1
    }
}

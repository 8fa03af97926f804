//! The values of options: numbers of one to ten decimal digits, and the date of a header.

ghost use Rattle.std.specs.Prelude.{◌≡◌, ◌<◌, ◌≤◌, ◌^◌, ℕ, List, Option};
ghost use Rattle.std.specs.Prelude.{MatchOption, IsTrue, ◌↔◌, option_map, length};
ghost use Rattle.std.specs.List.{list_all};
ghost use Rattle.std.specs.Char.{is_ascii_digit};
ghost use Rattle.std.specs.Str.Parse.{digits_value};
ghost use Rattle.bridge_engine.specs.Job.{Writes, IsWeekText, IsLeapText, IsDateText};
ghost use Rattle.bridge_engine.specs.Job.{IsSeedText, IsSatsText, Reads, ReadsAs};
ghost use Rattle.bridge_engine.specs.WordsFound.{given_of};

use crate::Found;
use nav_eph::RefWeek;
use sent_captures::Sats;

/// The values of the options other than `--from` and `--to`; `None` if the option is absent.
#[derive(Clone, Copy)]
pub struct OptionValues {
    /// The reference week, against which truncated week numbers are resolved.
    pub week: Option<RefWeek>,
    /// The leap seconds between UTC and GPS time, 0 to 99.
    pub leap: Option<u8>,
    /// The date of a header, in 19 characters as `20240101 000000 UTC`.
    pub date: Option<[u8; 19]>,
    /// The seed of a generated capture.
    pub seed: Option<u32>,
    /// Its number of satellites of each system.
    pub sats: Option<Sats>,
}

// The values of the options, where each is in its range; `None` otherwise.
pub(crate) fn values_of(found: &Found) -> Option<OptionValues>
    ensures { MatchOption result ((values : OptionValues) → ¬ ReadsAs (given_of found.now) values)
        (ReadsAs (given_of found.now)) }
{
    let week = match week_of(found.week) {
        Some(week) => week,
        None => return None,
    };
    let leap = leap_of(found.leap)?;
    let date = date_of(found.date)?;
    let seed = seed_of(found.seed)?;
    let sats = sats_of(found.sats)?;
    Some(OptionValues {
        week,
        leap,
        date,
        seed,
        sats,
    })
}

// The week of the option, where the option is present.
fn week_of(text: Option<&str>) -> Option<Option<RefWeek>>
    ensures { MatchOption result
        ((week : Option ℕ) → ¬ Reads IsWeekText (option_map (λ t. t.now) text.entry) week)
        (Reads IsWeekText (option_map (λ t. t.now) text.entry)) }
{
    match text {
        None => Some(None),
        Some(text) => match RefWeek::new(number_of_text(text)?) {
            None => None,
            Some(week) => Some(Some(week)),
        },
    }
}

// The leap seconds of the option.
fn leap_of(text: Option<&str>) -> Option<Option<u8>>
    ensures { MatchOption result
        ((leap : Option ℕ) → ¬ Reads IsLeapText (option_map (λ t. t.now) text.entry) leap)
        (Reads IsLeapText (option_map (λ t. t.now) text.entry)) }
{
    match text {
        None => Some(None),
        Some(text) => {
            let leap = number_of_text(text)?;
            if leap > 99 {
                None
            } else {
                Some(Some(leap as u8))
            }
        }
    }
}

// The date of the option.
fn date_of(text: Option<&str>) -> Option<Option<[u8; 19]>>
    ensures { MatchOption result
        ((date : Option (List ℕ)) → ¬ Reads IsDateText (option_map (λ t. t.now) text.entry) date)
        (Reads IsDateText (option_map (λ t. t.now) text.entry)) }
{
    match text {
        None => Some(None),
        Some(text) => {
            let text = text.as_bytes();
            let date = <[u8; 19]>::try_from(text).ok()?;
            if is_date(text) {
                Some(Some(date))
            } else {
                None
            }
        }
    }
}

// The seed of the option.
fn seed_of(text: Option<&str>) -> Option<Option<u32>>
    ensures { MatchOption result
        ((seed : Option ℕ) → ¬ Reads IsSeedText (option_map (λ t. t.now) text.entry) seed)
        (Reads IsSeedText (option_map (λ t. t.now) text.entry)) }
{
    match text {
        None => Some(None),
        Some(text) => Some(Some(number_of_text(text)?)),
    }
}

// The number of satellites of the option.
fn sats_of(text: Option<&str>) -> Option<Option<Sats>>
    ensures { MatchOption result
        ((sats : Option ℕ) → ¬ Reads IsSatsText (option_map (λ t. t.now) text.entry) sats)
        (Reads IsSatsText (option_map (λ t. t.now) text.entry)) }
{
    match text {
        None => Some(None),
        Some(text) => {
            let sats = number_of_text(text)?;
            if sats > 32 {
                return None;
            }
            match Sats::new(sats as u8) {
                None => None,
                Some(sats) => Some(Some(sats)),
            }
        }
    }
}

// The number below 2^32 that one to ten decimal digits write.
fn number_of_text(text: &str) -> Option<u32>
    ensures { MatchOption result ((number : ℕ) → Writes text.now number → 2 ^ 32 ≤ number)
        (Writes text.now) }
{
    let digits = text.as_bytes();
    if digits.is_empty() || digits.len() > 10 || !are_digits(digits) {
        return None;
    }
    let value = value_of_digits(digits);
    if value > u64::from(u32::MAX) {
        return None;
    }
    Some(value as u32)
}

// Whether all characters are digits.
fn are_digits(text: &[u8]) -> bool
    ensures { result ≡ list_all is_ascii_digit text.now }
{
    text.iter().all(|byte| byte.is_ascii_digit())
}

// The value of at most ten digits.
fn value_of_digits(text: &[u8]) -> u64
    requires digits { IsTrue (list_all is_ascii_digit text.now) }
    requires few { length text.now ≤ 10 }
    ensures { result ≡ digits_value 10 text.now }
{
    let mut value = 0u64;
    'digits: for i in 0..text.len() {
        value = value * 10 + u64::from(text[i] - b'0');
    }
    value
}

/// Whether a text has the form of a date in a RINEX header: eight digits, a space, six digits, and
/// ` UTC`.
pub fn is_date(text: &[u8]) -> bool
    ensures { IsTrue result ↔ IsDateText text.now text.now }
{
    if text.len() != 19 {
        return false;
    }
    if text[8] != b' ' {
        return false;
    }
    if !is_same(&text[15..], b" UTC") {
        return false;
    }
    if !are_digits(&text[..8]) {
        return false;
    }
    are_digits(&text[9..15])
}

// Whether two texts are the same.
fn is_same(one: &[u8], other: &[u8]) -> bool
    ensures { IsTrue result ↔ (one.now ≡ other.now) }
{
    one == other
}

//! The values of options, read once.

ghost use Rattle.std.specs.Prelude.{◌<◌, IfOk};

use crate::clock::{date_of, now, week_of};
use crate::command::Asked;
use bridge_engine::is_date;
use file_conversion::{Kinds, Plan, Refusal, Target, is_site};
use nav_eph::{Moment, RefWeek};
use rinex_write::HeaderWords;
use std::alloc::{AllocError, Global};
use whole_file::Kind;

/// What is asked of each file: a plan without the kinds of ephemerides, which are constants.
#[derive(Clone, Copy)]
pub(crate) struct Wanted {
    /// The format that is named; none, if each file is recognised.
    pub form: Option<Kind>,
    /// What is made.
    pub target: Target,
    /// The reference week, if one is named.
    pub week: Option<RefWeek>,
    /// The current GPS week, from the clock.
    pub clock_week: RefWeek,
    /// The date and the leap seconds of a header.
    pub header: HeaderWords,
    /// Whether these leap seconds are named.
    pub is_leap_named: bool,
}

impl Wanted {
    /// The plan for it.
    pub(crate) fn plan(&self) -> Plan {
        Plan {
            form: self.form,
            target: self.target,
            week: self.week,
            clock_week: self.clock_week,
            header: self.header,
            kinds: Kinds::all(),
        }
    }
}

/// What is asked of each file, by the clock if a value is not named.
pub(crate) fn wanted_of<'a>(rt: &HostRuntime, asked: &Asked<'a>) -> Result<Wanted, Refusal<'a>> {
    let leap = match leap_of(asked.leap()) {
        Ok(leap) => leap,
        Err(refusal) => return Err(refusal),
    };
    let week = match named_week(asked.value("week")) {
        Ok(week) => week,
        Err(refusal) => return Err(refusal),
    };
    if let Some(refusal) = refused_site(asked.value("long-name")) {
        return Err(refusal);
    }
    let moment = now(rt);
    let date = match date_at(rt.alloc(), moment, asked.value("date")) {
        Ok(date) => date,
        Err(refusal) => return Err(refusal),
    };
    match week_of(moment) {
        None => Err(Refusal::Week("of the clock")),
        Some(clock_week) => Ok(Wanted {
            form: asked.from(),
            target: asked.to(),
            week,
            clock_week,
            header: HeaderWords { date, leap },
            is_leap_named: asked.value("leap").is_some(),
        }),
    }
}

// The leap seconds that a text names.
fn leap_of(text: &str) -> Result<u8, Refusal>
    ensures { IfOk result (λ leap. leap < 100) }
{
    match number_of(text) {
        Some(leap) if leap < 100 => Ok(leap as u8),
        _ => Err(Refusal::Leap(text)),
    }
}

// The week that a text names.
fn named_week(text: Option<&str>) -> Result<Option<RefWeek>, Refusal> {
    let Some(text) = text else {
        return Ok(None);
    };
    match RefWeek::new(number_of(text).unwrap_or(0)) {
        Some(week) => Ok(Some(week)),
        None => Err(Refusal::Week(text)),
    }
}

// Why a text names no site, where one is there.
fn refused_site(text: Option<&str>) -> Option<Refusal> {
    match text {
        Some(site) if !is_site(site) => Some(Refusal::Site(site)),
        _ => None,
    }
}

// The date that a text names, or that of a moment.
fn date_at<'a>(
    alloc: Global,
    moment: Moment,
    text: Option<&'a str>,
) -> Result<[u8; 19], Refusal<'a>> {
    match text {
        Some(text) => parsed_date(text, text),
        None => match date_of(alloc, moment) {
            Ok(text) => parsed_date(text.as_str(), "of the clock"),
            Err(AllocError) => Err(Refusal::NoMemory),
        },
    }
}

// A date, which is called so.
fn parsed_date<'a>(text: &str, name: &'a str) -> Result<[u8; 19], Refusal<'a>> {
    match <[u8; 19]>::try_from(text.as_bytes()) {
        Ok(date) if is_date(text.as_bytes()) => Ok(date),
        _ => Err(Refusal::Date(name)),
    }
}

// The number that is written in digits alone, as `navbridge` reads it: in ten, at most.
fn number_of(text: &str) -> Option<u32> {
    if text.starts_with('+') || text.len() > 10 {
        return None;
    }
    match text.parse::<u32>() {
        Ok(number) => Some(number),
        Err(_) => None,
    }
}

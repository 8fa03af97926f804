//! What became of a file: as a line, or as the members of an object of JSON.

use crate::dry::week_in;
use crate::files::Settings;
use crate::forms::format_word;
use crate::json::Quoted;
use crate::place::Seen;
use crate::systems::{COUNT, SYSTEMS, Skips};
use bridge_engine::{CaptureCounts, Done as JobDone, Times};
use file_conversion::{Done, Shown, Target, task_for};
use receiver_log::LogCounts;
use std::fmt;
use whole_file::Kind;

/// What a conversion has counted.
#[derive(Clone, Copy)]
pub(crate) struct JobCounts {
    /// The ephemerides and ionosphere records that were made; none, if they are not counted.
    pub items: Option<u64>,
    /// What was rejected, and what else is amiss, in the order of [`AMISS`].
    pub amiss: [u64; KINDS],
    /// The records or messages that were skipped.
    pub skipped: u64,
    /// Those of `items` and `carried` for which the output format has no record or message; none,
    /// if they are not counted.
    pub unwritten: Option<u64>,
    /// The records of other kinds whose lines are written; none, if they are not counted.
    pub carried: Option<u64>,
    /// The GPS week of their last epoch, if it is known.
    pub last_week: Option<u32>,
}

/// What is counted of what a conversion has done. Of a capture the messages that are not used are
/// not told apart.
pub(crate) fn counted(done: &Option<Done>) -> JobCounts {
    match done {
        None => counts_of(None, [0; KINDS], 0),
        Some(Done::Job(done)) => counted_by(done),
        Some(Done::Stream(c)) => JobCounts {
            last_week: week_of(c.times),
            ..counts_of(Some(c.items), rejected(c.refused), c.unused)
        },
        Some(Done::File(c)) => JobCounts {
            unwritten: Some(c.unwritten),
            carried: Some(c.carried),
            ..counts_of(Some(c.items), rejected(c.refused), c.passed)
        },
        Some(Done::Merged(c)) => {
            let again = c.items.saturating_sub(c.kept);
            let amiss = [c.refused, 0, 0, 0, 0, 0, again, 0];
            JobCounts {
                unwritten: Some(c.unwritten),
                carried: Some(c.carried),
                ..counts_of(Some(c.kept), amiss, c.passed)
            }
        }
    }
}

// The week of the last of the epochs.
fn week_of(times: Option<Times>) -> Option<u32> {
    match times {
        None => None,
        Some(times) => Some(times.last.week()),
    }
}

// The same of a conversion of navbridge.
fn counted_by(done: &JobDone) -> JobCounts {
    match done {
        JobDone::Frames(_) | JobDone::Generated(_) => counts_of(None, [0; KINDS], 0),
        JobDone::Capture(c) => counts_of(Some(c.whole), of_capture(c), 0),
        JobDone::Stream(c) => counts_of(Some(c.items), rejected(c.refused), c.unused),
        JobDone::File(c) | JobDone::Sent(c) | JobDone::Covered(c) => {
            counts_of(Some(c.items), rejected(c.refused), c.passed)
        }
        JobDone::Merged(c) => {
            let again = c.items.saturating_sub(c.kept);
            counts_of(Some(c.kept), [c.refused, 0, 0, 0, 0, 0, again, 0], c.passed)
        }
    }
}

// Counts of a conversion whose output has whatever was made.
fn counts_of(items: Option<u64>, amiss: [u64; KINDS], skipped: u64) -> JobCounts {
    JobCounts {
        items,
        amiss,
        skipped,
        unwritten: None,
        carried: None,
        last_week: None,
    }
}

// Nothing is amiss but that so many were rejected.
fn rejected(count: u64) -> [u64; KINDS] {
    [count, 0, 0, 0, 0, 0, 0, 0]
}

// What is amiss in a capture.
fn of_capture(c: &CaptureCounts) -> [u64; KINDS] {
    [
        c.refused,
        c.malformed,
        c.late,
        c.partial,
        c.contradicted,
        c.nohealth,
        c.again,
        0,
    ]
}

/// What became of a file: of what its output is made, what was rejected and skipped of it, and the
/// week of the clock if it was read by that.
#[derive(Clone, Copy)]
pub(crate) struct Summary<'x, 'a> {
    /// What is asked for all files.
    pub settings: &'x Settings<'a>,
    /// What the line begins with: the name of the output, or of the input if there is none.
    pub name: &'x str,
    /// The name of the output, if there is one.
    pub output: Option<&'x str>,
    /// The format under which its input was read.
    pub kind: Option<Kind>,
    /// What was counted.
    pub counted: JobCounts,
    /// What was counted of a log.
    pub log: Option<LogCounts>,
    /// What was seen of its input and its output.
    pub seen: Seen,
}

impl fmt::Display for Summary<'_, '_> {
    fn fmt<W: fmt::Write>(&self, f: &mut fmt::Formatter<W>) -> fmt::Result {
        if self.settings.rejections.is_json {
            return self.write_members(f);
        }
        Shown(self.name).fmt(f)?;
        self.write_made(f)?;
        let amiss = self.write_amiss(f)?;
        let skipped = self.write_skipped(f)?;
        if !amiss && !skipped {
            f.write_str("; nothing rejected")?;
            if !is_capture(self.kind) {
                f.write_str(", nothing skipped")?;
            }
        }
        write_some(f, false, self.header_lines(), HEADER_LINES)?;
        match self.clock_week() {
            None => Ok(()),
            Some(week) => {
                write!(f, "; read near week {week} of the clock")?;
                match self.counted.last_week {
                    Some(last) if last > week.saturating_add(1) => {
                        write!(f, ", with dates up to week {last}: name the week by --week")
                    }
                    _ => Ok(()),
                }
            }
        }
    }
}

impl Summary<'_, '_> {
    // What was made: ephemerides and ionosphere records, where they are told apart.
    fn parts(&self) -> Option<(u64, u64)> {
        match (self.settings.wanted.target, self.counted.items) {
            (Target::Rinex | Target::Merged, Some(_)) => {
                Some((self.seen.made.ephemerides, self.seen.made.ionospheres))
            }
            _ => None,
        }
    }

    // What was rejected, and what else is amiss, of the inputs that were converted before too.
    fn amiss(&self, place: usize) -> u64 {
        let counted = self.counted.amiss.get(place).copied().unwrap_or(0);
        match (place, &self.log) {
            (0, _) => counted.saturating_add(self.settings.before.rejected),
            (MESSAGES, Some(counts)) => counts.capture.refused,
            _ => counted,
        }
    }

    // How many records or messages are skipped, and how many of them of each system.
    fn skipped(&self) -> (u64, Skips) {
        let all = match &self.log {
            Some(counts) => counts.log.other,
            None => self
                .counted
                .skipped
                .saturating_add(self.settings.before.passed),
        };
        let mut skips = self.seen.skips;
        skips.join(&self.settings.before.skips);
        if skips.sum() > all {
            skips = Skips::new();
        }
        (all, skips)
    }

    // The header lines of ionosphere and time.
    fn header_lines(&self) -> u64 {
        let before = self.settings.before.header_lines;
        self.seen.header_lines.saturating_add(before)
    }

    // The week of the clock, if the file was read by it: its task has a week, and none is named.
    fn clock_week(&self) -> Option<u32> {
        let wanted = &self.settings.wanted;
        let Some(kind) = self.kind else {
            return None;
        };
        match task_for(&wanted.plan(), kind) {
            Some(task) if wanted.week.is_none() => match week_in(&task) {
                None => None,
                Some(_) => Some(wanted.clock_week.value()),
            },
            _ => None,
        }
    }

    // Writes what was made.
    fn write_made<W: fmt::Write>(&self, f: &mut fmt::Formatter<W>) -> fmt::Result {
        match (self.parts(), self.counted.items, &self.log) {
            (Some((ephemerides, ionospheres)), _, _) => {
                write_count(f, ": ", ephemerides, ("ephemeris", "ephemerides"))?;
                write_some(f, true, ionospheres, ("ionosphere record", ""))?;
                let carried = self.counted.carried.unwrap_or(0);
                write_some(f, true, carried, ("other record", ""))?;
                Ok(())
            }
            (None, Some(items), _) => {
                write_count(f, ": made of ", items, ITEMS)?;
                match self.counted.unwritten {
                    None | Some(0) => Ok(()),
                    Some(count) => write!(f, ", {count} not in the output format"),
                }
            }
            (None, None, None) => f.write_str(": written"),
            (None, None, Some(counts)) => {
                write_count(f, ": ", counts.capture.subframes, ("subframe", "subframes"))?;
                write_count(f, ", ", counts.capture.pages, ("page", "pages"))
            }
        }
    }

    // Writes each count of what is amiss that is not 0; whether there is one.
    fn write_amiss<W: fmt::Write>(&self, f: &mut fmt::Formatter<W>) -> Result<bool, fmt::Error> {
        let (unit, _) = units_of(self.kind);
        let mut any = write_some(f, false, self.amiss(0), (unit, " rejected"))?;
        for place in 1..KINDS {
            any = write_some(f, any, self.amiss(place), (AMISS[place].1, AMISS[place].2))?;
        }
        Ok(any)
    }

    // Writes what is skipped, if something is; whether that is so.
    fn write_skipped<W: fmt::Write>(&self, f: &mut fmt::Formatter<W>) -> Result<bool, fmt::Error> {
        let (all, skips) = self.skipped();
        if all == 0 {
            return Ok(false);
        }
        let mut before = "; skipped: ";
        for system in 0..COUNT {
            let count = skips.of(system);
            if count > 0 {
                let name = SYSTEMS[system];
                write!(f, "{before}{count} {name}")?;
                before = ", ";
            }
        }
        let other = all - skips.sum().min(all);
        if other > 0 {
            write!(f, "{before}{other}")?;
            f.write_str(if before == ", " { " other" } else { "" })?;
        }
        let (_, unit) = units_of(self.kind);
        let s = plural(all);
        write!(f, " {unit}{s}")?;
        Ok(true)
    }

    // Writes the members of the object of JSON.
    fn write_members<W: fmt::Write>(&self, f: &mut fmt::Formatter<W>) -> fmt::Result {
        let format = match self.kind {
            None => "",
            Some(kind) => format_word(kind),
        };
        write!(f, ",\"error\":null,\"format\":\"{format}\",\"output\":")?;
        match self.output {
            None => f.write_str("null")?,
            Some(name) => {
                let name = Quoted(name);
                write!(f, "{name}")?;
            }
        }
        let (ephemerides, ionospheres) = match self.parts() {
            None => (None, None),
            Some((ephemerides, ionospheres)) => (Some(ephemerides), Some(ionospheres)),
        };
        write_member(f, ",", "made", self.counted.items)?;
        write_member(f, ",", "ephemerides", ephemerides)?;
        write_member(f, ",", "ionospheres", ionospheres)?;
        write_member(f, ",", "unwritten", self.counted.unwritten)?;
        write_member(f, ",", "carried", self.counted.carried)?;
        for place in 0..KINDS {
            write_member(f, ",", AMISS[place].0, Some(self.amiss(place)))?;
        }
        let (all, skips) = self.skipped();
        write_member(f, ",", "skipped", Some(all))?;
        let mut before = ",\"skipped_systems\":{";
        for system in 0..COUNT {
            write_member(f, before, SYSTEMS[system], Some(skips.of(system)))?;
            before = ",";
        }
        write_member(f, "},", "header_lines", Some(self.header_lines()))?;
        let week = match self.clock_week() {
            None => None,
            Some(week) => Some(u64::from(week)),
        };
        write_member(f, ",", "clock_week", week)
    }
}

// What is made, one and many.
const ITEMS: (&str, &str) = (
    "ephemeris or ionosphere record",
    "ephemerides and ionosphere records",
);

// What is said of header lines that are not converted.
const HEADER_LINES: (&str, &str) = ("header line", " of ionosphere and time not converted");

// What is amiss: its key, its unit, and what is said of so many; the first is of the format's unit.
const KINDS: usize = 8;

const MESSAGES: usize = 7;

const AMISS: [(&str, &str, &str); KINDS] = [
    ("rejected", "", ""),
    ("malformed", "line", " malformed"),
    ("late", "line", " late"),
    ("partial", "issue", " partial"),
    ("contradicted", "issue", " contradicted"),
    ("nohealth", "issue", " without health"),
    ("again", "", "repeated"),
    ("rejected_messages", "message", " rejected"),
];

// Writes a count, of one thing or of many, behind a text.
fn write_count<W: fmt::Write>(
    f: &mut fmt::Formatter<W>,
    before: &str,
    count: u64,
    names: (&str, &str),
) -> fmt::Result {
    let name = if count == 1 { names.0 } else { names.1 };
    write!(f, "{before}{count} {name}")
}

// Writes a count that is not 0, of a unit and what is said of it, behind others where there are
// any; whether there are now.
fn write_some<W: fmt::Write>(
    f: &mut fmt::Formatter<W>,
    any: bool,
    count: u64,
    names: (&str, &str),
) -> Result<bool, fmt::Error> {
    if count == 0 {
        return Ok(any);
    }
    f.write_str(if any { ", " } else { "; " })?;
    let unit = names.0;
    write!(f, "{count} {unit}")?;
    if count > 1 && !unit.is_empty() {
        f.write_str("s")?;
    }
    f.write_str(names.1)?;
    Ok(true)
}

// Writes a member of an object of JSON behind a text; `null` if there is no such count.
fn write_member<W: fmt::Write>(
    f: &mut fmt::Formatter<W>,
    before: &str,
    key: &str,
    count: Option<u64>,
) -> fmt::Result {
    match count {
        None => write!(f, "{before}\"{key}\":null"),
        Some(count) => write!(f, "{before}\"{key}\":{count}"),
    }
}

// What is rejected and what is skipped of a file that is read under this format.
fn units_of(kind: Option<Kind>) -> (&'static str, &'static str) {
    match kind {
        Some(Kind::Stream) => ("frame", "message"),
        Some(Kind::Rinex4 | Kind::Rinex3 | Kind::Rinex2) => ("record", "record"),
        _ => ("line", "message"),
    }
}

// The end of the name of so many.
fn plural(count: u64) -> &'static str {
    if count == 1 { "" } else { "s" }
}

// Whether a file is a capture, of which no message is told from those that hold no ephemeris.
fn is_capture(kind: Option<Kind>) -> bool {
    matches!(kind, Some(Kind::Capture1 | Kind::Capture2))
}

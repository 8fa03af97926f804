//! The conversions that the program does.

ghost use Rattle.std.specs.Prelude.{IfOk, MatchOption, map};
ghost use Rattle.std.specs.String.{string_bytes};
ghost use Rattle.bridge_engine.specs.Job.{IsJob, GivesJob, Asks};
ghost use Rattle.bridge_engine.specs.WordsFound.{given_of};

use crate::table::job_in;
use crate::values::values_of;
use crate::{Found, options_of};
use captures::{CaptureTo, SeedTo};
use nav_eph::RefWeek;
use nav_files::RinexTo;
use rinex_write::HeaderWords;
use sent_captures::Sats;
use std::alloc::{AllocError, Global};
use streams::StreamTo;

/// The conversion that a command line asks for.
#[derive(Clone, Copy)]
pub enum Job {
    /// `--from stream --to frames`: a line for each RTCM 3 frame of a stream.
    StreamToFrames,
    /// `--from capture`: a capture to a navigation file, to frames, to a list or to counts.
    Capture(CaptureJob),
    /// `--from stream`: the distinct ephemerides of a stream, to a navigation file or to frames.
    Stream(StreamJob),
    /// `--from rinex`: a navigation file of RINEX 4 to another one, to frames or to a list.
    Rinex(RinexTo),
    /// `--from rinex3`: the same of a file of RINEX 3.
    Rinex3(RinexTo),
    /// `--from rinex --to capture`: the capture that transmits the records of a RINEX 4 navigation
    /// file, with this reference week.
    SendRinex(RefWeek),
    /// `--from rinex3 --to capture`: the same of a file of RINEX 3.
    SendRinex3(RefWeek),
    /// `--from rinex --to merged`: concatenated navigation files of RINEX 4, to one file.
    Merge(HeaderWords),
    /// `--from rinex --to cover`: the times for which such files have an ephemeris.
    Cover,
    /// `--from seed`: a generated capture, or its counts.
    Seed(SeedJob),
}

/// A conversion of a capture.
#[derive(Clone, Copy)]
pub struct CaptureJob {
    /// The reference week, if the arguments name one.
    pub week: Option<RefWeek>,
    /// What it is converted to.
    pub to: CaptureTo,
}

/// A conversion of the ephemerides of a stream.
#[derive(Clone, Copy)]
pub struct StreamJob {
    /// The reference week, against which truncated week numbers are resolved.
    pub week: RefWeek,
    /// What it is converted to.
    pub to: StreamTo,
}

/// The generation of a capture.
#[derive(Clone, Copy)]
pub struct SeedJob {
    /// The seed of the generator.
    pub seed: u32,
    /// How many satellites of each system it has.
    pub sats: Sats,
    /// The week in which it begins.
    pub week: RefWeek,
    /// Whether the capture or its counts are written.
    pub to: SeedTo,
}

/// The conversion that the arguments name: they spell the options of one row of the table of
/// conversions, in any order, each once and each in its range. `None` if there is no such row.
///
/// # Errors
///
/// `AllocError` when there is no memory to parse the arguments.
pub fn job_of(alloc: Global, words: &[String]) -> Result<Option<Job>, AllocError>
    ensures { IfOk result (λ r. MatchOption r (¬ GivesJob (map string_bytes words.now))
        (IsJob (map string_bytes words.now))) }
{
    let spelled = options_of(alloc, words)?;
    match spelled {
        None => Ok(None),
        Some(found) => Ok(job_with(&found)),
    }
}

// The job that has exactly these options, each in its range.
fn job_with(found: &Found) -> Option<Job>
    ensures { MatchOption result ((job : Job) → ¬ Asks (given_of found.now) job)
        (Asks (given_of found.now)) }
{
    let (from, to) = (found.from?, found.to?);
    match values_of(found) {
        None => None,
        Some(values) => job_in(from.as_bytes(), to.as_bytes(), &values),
    }
}

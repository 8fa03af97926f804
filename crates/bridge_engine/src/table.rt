//! The table of conversions as code: the conversion whose row has the given values of `--from`,
//! `--to` and the other options.

ghost use Rattle.std.specs.Prelude.{◌≡◌, ◌↔◌, None, Some, MatchOption, IsFalse, codes};
ghost use Rattle.rinex_write.specs.declared.words.HeaderWords.{HeaderWords};
ghost use Rattle.captures.specs.declared.seed_target.SeedTo.{SeedTo};
ghost use Rattle.bridge_engine.specs.Job.{capture_target, file_target};
ghost use Rattle.bridge_engine.specs.Job.{row_of, seed_word, stream_target};
ghost use Rattle.bridge_engine.specs.Found.{IsRow, IsTarget};
ghost use Rattle.bridge_engine.specs.declared.job.Job.{Job};

use crate::job::{CaptureJob, Job, SeedJob, StreamJob};
use crate::values::OptionValues;
use captures::{CaptureTo, SeedTo};
use nav_files::RinexTo;
use rinex_write::HeaderWords;
use streams::StreamTo;

// The job with these `--from` and `--to` words and exactly these values.
pub(crate) fn job_in(from: &[u8], to: &[u8], values: &OptionValues) -> Option<Job>
    ensures { MatchOption result ((job : Job) → ¬ IsRow (row_of job) from.now to.now values.now)
        (λ job. IsRow (row_of job) from.now to.now values.now) }
{
    if from == b"seed".as_slice() {
        return from_seed(to, values);
    }
    if values.seed.is_some() || values.sats.is_some() {
        return None;
    }
    if from == b"capture".as_slice() {
        let week = values.week;
        return match capture_to(to, values) {
            None => None,
            Some(to) => Some(Job::Capture(CaptureJob { week, to })),
        };
    }
    if from == b"stream".as_slice() {
        return from_stream(to, values);
    }
    if from == b"rinex".as_slice() {
        return from_rinex(to, values);
    }
    if from == b"rinex3".as_slice() {
        return from_rinex3(to, values);
    }
    None
}

// The job from a seed to this form that has exactly these values.
fn from_seed(to: &[u8], values: &OptionValues) -> Option<Job>
    ensures { MatchOption result
        ((job : Job) → ¬ IsRow (row_of job) (codes "seed") to.now values.now)
        (λ job. IsRow (row_of job) (codes "seed") to.now values.now) }
{
    if has_header(values) {
        return None;
    }
    let seed = values.seed?;
    let sats = values.sats?;
    let week = values.week?;
    let to = seed_to(to)?;
    Some(Job::Seed(SeedJob {
        seed,
        sats,
        week,
        to,
    }))
}

// What a job from a seed writes.
fn seed_to(to: &[u8]) -> Option<SeedTo>
    ensures { MatchOption result ((target : SeedTo) → ¬ (to.now ≡ seed_word target))
        (λ target. to.now ≡ seed_word target) }
{
    if to == b"capture".as_slice() {
        return Some(SeedTo::Capture);
    }
    if to == b"count".as_slice() {
        return Some(SeedTo::Count);
    }
    None
}

// The job from a stream to this form that has exactly these values.
fn from_stream(to: &[u8], values: &OptionValues) -> Option<Job>
    requires seed { values.now.seed ≡ None }
    requires sats { values.now.sats ≡ None }
    ensures { MatchOption result
        ((job : Job) → ¬ IsRow (row_of job) (codes "stream") to.now values.now)
        (λ job. IsRow (row_of job) (codes "stream") to.now values.now) }
{
    match values.week {
        None => {
            if to == b"frames".as_slice() && !has_header(values) {
                Some(Job::StreamToFrames)
            } else {
                None
            }
        }
        Some(week) => match stream_to(to, values) {
            None => None,
            Some(to) => Some(Job::Stream(StreamJob { week, to })),
        },
    }
}

// The job from a navigation file of RINEX 4 to this form that has exactly these values.
fn from_rinex(to: &[u8], values: &OptionValues) -> Option<Job>
    requires seed { values.now.seed ≡ None }
    requires sats { values.now.sats ≡ None }
    ensures { MatchOption result
        ((job : Job) → ¬ IsRow (row_of job) (codes "rinex") to.now values.now)
        (λ job. IsRow (row_of job) (codes "rinex") to.now values.now) }
{
    match values.week {
        None => whole_file(to, values),
        Some(week) => {
            if to == b"capture".as_slice() && !has_header(values) {
                Some(Job::SendRinex(week))
            } else {
                None
            }
        }
    }
}

// The job from a navigation file of RINEX 4 without a week.
fn whole_file(to: &[u8], values: &OptionValues) -> Option<Job>
    requires week { values.now.week ≡ None }
    requires seed { values.now.seed ≡ None }
    requires sats { values.now.sats ≡ None }
    ensures { MatchOption result
        ((job : Job) → ¬ IsRow (row_of job) (codes "rinex") to.now values.now)
        (λ job. IsRow (row_of job) (codes "rinex") to.now values.now) }
{
    if to == b"merged".as_slice() {
        return match header_of(values) {
            None => None,
            Some(words) => Some(Job::Merge(words)),
        };
    }
    if to == b"cover".as_slice() {
        return if has_header(values) {
            None
        } else {
            Some(Job::Cover)
        };
    }
    match file_to(to, values) {
        None => None,
        Some(to) => Some(Job::Rinex(to)),
    }
}

// The job from a navigation file of RINEX 3 to this form that has exactly these values.
fn from_rinex3(to: &[u8], values: &OptionValues) -> Option<Job>
    requires seed { values.now.seed ≡ None }
    requires sats { values.now.sats ≡ None }
    ensures { MatchOption result
        ((job : Job) → ¬ IsRow (row_of job) (codes "rinex3") to.now values.now)
        (λ job. IsRow (row_of job) (codes "rinex3") to.now values.now) }
{
    match values.week {
        None => match file_to(to, values) {
            None => None,
            Some(to) => Some(Job::Rinex3(to)),
        },
        Some(week) => {
            if to == b"capture".as_slice() && !has_header(values) {
                Some(Job::SendRinex3(week))
            } else {
                None
            }
        }
    }
}

// The target of a capture.
fn capture_to(to: &[u8], values: &OptionValues) -> Option<CaptureTo>
    ensures { MatchOption result
        ((target : CaptureTo) → ¬ IsTarget (capture_target target) to.now values.now)
        (λ target. IsTarget (capture_target target) to.now values.now) }
{
    if to == b"rinex".as_slice() {
        return match header_of(values) {
            None => None,
            Some(words) => Some(CaptureTo::Rinex(words)),
        };
    }
    if to == b"rinex3".as_slice() {
        return match header_of(values) {
            None => None,
            Some(words) => Some(CaptureTo::Rinex3(words)),
        };
    }
    if has_header(values) {
        return None;
    }
    if to == b"rtcm".as_slice() {
        return Some(CaptureTo::Rtcm);
    }
    if to == b"list".as_slice() {
        return Some(CaptureTo::ToList);
    }
    if to == b"count".as_slice() {
        return Some(CaptureTo::Count);
    }
    None
}

// The target of the ephemerides of a stream.
fn stream_to(to: &[u8], values: &OptionValues) -> Option<StreamTo>
    ensures { MatchOption result
        ((target : StreamTo) → ¬ IsTarget (stream_target target) to.now values.now)
        (λ target. IsTarget (stream_target target) to.now values.now) }
{
    if to == b"rtcm".as_slice() {
        return if has_header(values) {
            None
        } else {
            Some(StreamTo::Rtcm)
        };
    }
    let words = header_of(values)?;
    if to == b"rinex".as_slice() {
        return Some(StreamTo::Rinex(words));
    }
    if to == b"rinex3".as_slice() {
        return Some(StreamTo::Rinex3(words));
    }
    None
}

// The target of a navigation file.
fn file_to(to: &[u8], values: &OptionValues) -> Option<RinexTo>
    ensures { MatchOption result
        ((target : RinexTo) → ¬ IsTarget (file_target target) to.now values.now)
        (λ target. IsTarget (file_target target) to.now values.now) }
{
    if to == b"rinex".as_slice() {
        return match header_of(values) {
            None => None,
            Some(words) => Some(RinexTo::Rinex(words)),
        };
    }
    if to == b"rinex3".as_slice() {
        return match header_of(values) {
            None => None,
            Some(words) => Some(RinexTo::Rinex3(words)),
        };
    }
    if has_header(values) {
        return None;
    }
    if to == b"rtcm".as_slice() {
        return Some(RinexTo::Rtcm);
    }
    if to == b"list".as_slice() {
        return Some(RinexTo::ToList);
    }
    None
}

// The header's leap seconds and date, where both are given and the leap seconds are at most 99.
fn header_of(values: &OptionValues) -> Option<HeaderWords>
    ensures { MatchOption result ((words : HeaderWords)
        → ¬ ((values.now.leap ≡ Some words.leap) × (values.now.date ≡ Some words.date)))
        (λ words. (values.now.leap ≡ Some words.leap) × (values.now.date ≡ Some words.date)) }
{
    let date = values.date?;
    let leap = values.leap?;
    if leap > 99 {
        return None;
    }
    Some(HeaderWords { date, leap })
}

// Whether the leap seconds or the date of a header is given.
fn has_header(values: &OptionValues) -> bool
    ensures { IsFalse result ↔ ((values.now.leap ≡ None) × (values.now.date ≡ None)) }
{
    values.leap.is_some() || values.date.is_some()
}

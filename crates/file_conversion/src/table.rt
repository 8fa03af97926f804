//! The table of conversions: what is done with a file of a format, for each target.

ghost use Rattle.std.specs.Prelude.{◌≡◌, IfSome, true};
ghost use Rattle.file_conversion.specs.Table.{capture_task, capture_to, file3_task, file4_task};
ghost use Rattle.file_conversion.specs.Table.{log_task, merge_task, stream_task, system_task};
ghost use Rattle.file_conversion.specs.Table.{systems_to, task_for, week_of};
ghost use Rattle.file_conversion.specs.Tasks.{reads_input};

use crate::targets::Target;
use all_systems::{Kinds, Version};
use bridge_engine::{CaptureJob, CaptureTo, Job};
use nav_eph::RefWeek;
use rinex_write::HeaderWords;
use whole_file::Kind;

/// What is asked of each file.
#[derive(Clone, Copy)]
pub struct Plan {
    /// The format that is named; none, if each file is recognised.
    pub form: Option<Kind>,
    /// What is made.
    pub target: Target,
    /// The reference week, if one is named.
    pub week: Option<RefWeek>,
    /// The current GPS week, from the clock.
    pub clock_week: RefWeek,
    /// The date and the leap seconds of a header.
    pub header: HeaderWords,
    /// The kinds of ephemerides that are read of a stream or a navigation file.
    pub kinds: Kinds,
}

/// A conversion of the ephemerides of all systems in a stream.
#[derive(Clone, Copy)]
pub struct SystemsJob {
    /// The kinds of ephemerides.
    pub kinds: Kinds,
    /// The reference week.
    pub week: RefWeek,
    /// What is made of them.
    pub to: streams::Target,
}

/// A conversion of the ephemerides of all systems in a navigation file.
#[derive(Clone, Copy)]
pub struct SystemFileJob {
    /// The kinds of ephemerides.
    pub kinds: Kinds,
    /// The version of the file.
    pub version: Version,
    /// What is made of them.
    pub to: streams::Target,
}

/// A merge of the ephemerides of all systems in navigation files of RINEX 4.
#[derive(Clone, Copy)]
pub struct SystemMergeJob {
    /// The kinds of ephemerides.
    pub kinds: Kinds,
    /// The version of the merged file.
    pub to: Version,
    /// The date and the leap seconds of its header.
    pub header: HeaderWords,
}

/// What is done with a file.
#[derive(Clone, Copy)]
pub enum Task {
    /// What is read is written: of a log its capture.
    Copied,
    /// A conversion of `navbridge`.
    Does(Job),
    /// The ephemerides of all systems in a stream are converted.
    Systems(SystemsJob),
    /// Those in a navigation file are.
    SystemFile(SystemFileJob),
    /// Those in several are merged.
    SystemMerge(SystemMergeJob),
}

/// What is done with a file that is read under this format, if there is a conversion of it.
///
/// A capture that names no week, and a stream, are read near the week that is named, or else near
/// that of the clock. A capture that names its week gets one only if one is named.
pub fn task_for(plan: &Plan, kind: Kind) -> Option<Task>
    ensures is { result ≡ task_for plan.now kind }
    ensures reads { IfSome result (λ task. reads_input task ≡ true) }
{
    row_of(plan, kind)
}

// The same, by the table.
fn row_of(plan: &Plan, kind: Kind) -> Option<Task>
    ensures { result ≡ task_for plan.now kind }
{
    match kind {
        Kind::Capture1 => capture_task(plan, Some(week_of(plan))),
        Kind::Capture2 => capture_task(plan, plan.week),
        Kind::Ubx | Kind::Sbf => log_task(plan),
        Kind::Stream => stream_task(plan),
        Kind::Rinex4 => file4_task(plan),
        Kind::Rinex3 => file3_task(plan),
        Kind::Rinex2 => file3_task(plan),
        _ => None,
    }
}

/// Whether a file of this format, which can be read again, is converted to the target: one of RINEX
/// 3 or 2 is merged as the file of RINEX 4 to which it is converted.
pub fn is_converted(kind: Kind, target: Target) -> bool {
    let kind = match kind {
        Kind::Rinex3 | Kind::Rinex2 if target.takes_several() => Kind::Rinex4,
        _ => kind,
    };
    match RefWeek::new(1024) {
        None => false,
        Some(clock_week) => {
            let plan = Plan {
                form: None,
                target,
                week: None,
                clock_week,
                header: HeaderWords {
                    date: *b"19800106 000000 UTC",
                    leap: 0,
                },
                kinds: Kinds::all(),
            };
            task_for(&plan, kind).is_some()
        }
    }
}

// The week that is named, or else that of the clock.
fn week_of(plan: &Plan) -> RefWeek
    ensures { result ≡ week_of plan.now }
{
    match plan.week {
        None => plan.clock_week,
        Some(week) => week,
    }
}

// What is done with a capture that is given this week.
fn capture_task(plan: &Plan, week: Option<RefWeek>) -> Option<Task>
    ensures { result ≡ capture_task plan.now week }
{
    match capture_to(plan.target, plan.header) {
        None => None,
        Some(to) => Some(Task::Does(Job::Capture(CaptureJob { week, to }))),
    }
}

// What is done with a log.
fn log_task(plan: &Plan) -> Option<Task>
    ensures { result ≡ log_task plan.now plan.now.target }
{
    match plan.target {
        Target::Capture => Some(Task::Copied),
        _ => capture_task(plan, plan.week),
    }
}

// What is done with a stream.
fn stream_task(plan: &Plan) -> Option<Task>
    ensures { result ≡ stream_task plan.now plan.now.target }
{
    match plan.target {
        Target::Frames => Some(Task::Does(Job::StreamToFrames)),
        target => match systems_to(target, plan.header) {
            None => None,
            Some(to) => Some(Task::Systems(SystemsJob {
                kinds: plan.kinds,
                week: week_of(plan),
                to,
            })),
        },
    }
}

// What is done with navigation files that are merged to one of a version.
fn merge_task(plan: &Plan, to: Version) -> Option<Task>
    ensures { result ≡ merge_task plan.now to }
{
    Some(Task::SystemMerge(SystemMergeJob {
        kinds: plan.kinds,
        to,
        header: plan.header,
    }))
}

// What is done with a navigation file of RINEX 4.
fn file4_task(plan: &Plan) -> Option<Task>
    ensures { result ≡ file4_task plan.now plan.now.target }
{
    match plan.target {
        Target::Merged => merge_task(plan, Version::Four),
        Target::Merged3 => merge_task(plan, Version::Three),
        Target::Cover => Some(Task::Does(Job::Cover)),
        Target::Capture => Some(Task::Does(Job::SendRinex(week_of(plan)))),
        _ => system_task(plan, Version::Four),
    }
}

// What is done with a navigation file of RINEX 3, and with one as which RINEX 2 is read.
fn file3_task(plan: &Plan) -> Option<Task>
    ensures { result ≡ file3_task plan.now plan.now.target }
{
    match plan.target {
        Target::Capture => Some(Task::Does(Job::SendRinex3(week_of(plan)))),
        _ => system_task(plan, Version::Three),
    }
}

// What is done with a navigation file of a version whose ephemerides of all systems are converted.
fn system_task(plan: &Plan, version: Version) -> Option<Task>
    ensures { result ≡ system_task plan.now version plan.now.target }
{
    match systems_to(plan.target, plan.header) {
        None => None,
        Some(to) => Some(Task::SystemFile(SystemFileJob {
            kinds: plan.kinds,
            version,
            to,
        })),
    }
}

// The target of a capture.
fn capture_to(target: Target, header: HeaderWords) -> Option<CaptureTo>
    ensures { result ≡ capture_to target header }
{
    match target {
        Target::Rinex => Some(CaptureTo::Rinex(header)),
        Target::Rinex3 => Some(CaptureTo::Rinex3(header)),
        Target::Rtcm => Some(CaptureTo::Rtcm),
        Target::List => Some(CaptureTo::ToList),
        Target::Count => Some(CaptureTo::Count),
        Target::Frames | Target::Merged | Target::Merged3 | Target::Cover | Target::Capture => None,
    }
}

// The target of ephemerides of all systems.
fn systems_to(target: Target, header: HeaderWords) -> Option<streams::Target>
    ensures { result ≡ systems_to target header }
{
    match target {
        Target::Rinex => Some(streams::Target::Rinex(header)),
        Target::Rinex3 => Some(streams::Target::Rinex3(header)),
        Target::Rtcm => Some(streams::Target::Rtcm),
        Target::List => Some(streams::Target::ToList),
        Target::Count => Some(streams::Target::Count),
        _ => None,
    }
}

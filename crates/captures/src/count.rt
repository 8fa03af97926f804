//! The two branches of a run from a seed: a text is written, or counted as a capture.

ghost use Rattle.std.specs.Prelude.{◌≡◌, ◌^◌, ◌<◌, Some, length, IsSome};
ghost use Rattle.captures.specs.Captures.{capture_of};
ghost use Rattle.one_run.specs.Causes.{faults_of};
ghost use Rattle.captures.specs.Counting.{CountsText, WritesText};

use crate::capture::run_capture;
use crate::seed_target::SeedCounts;
use crate::target::CaptureTo;
use nav_eph::RefWeek;
use nav_io::{Failed, MemSource, Sink};
use one_run::BridgeFault;
use std::alloc::Global;

// Writes a text.
pub(crate) fn write_text<T: Sink>(text: &[u8], output: &mut T) -> Result<SeedCounts, BridgeFault>
    ensures { WritesText text.now (T.written output.old) (T.written output.new)
        (faults_of 0 (T.faults output.old) 0) (faults_of 0 (T.faults output.new) 0) result }
{
    match output.write(text) {
        Ok(()) => Ok(SeedCounts::Written {
            bytes: text.len() as u64,
        }),
        Err(Failed) => Err(BridgeFault::WriteFault),
    }
}

// Counts the capture that a text is, with this reference week.
pub(crate) fn count_text<T: Sink, U: Sink>(
    alloc: Global,
    week: RefWeek,
    text: Vec<u8>,
    output: &mut T,
    report: &mut U,
) -> Result<SeedCounts, BridgeFault>
    requires short { length text.items < 2 ^ 32 }
    requires accepted { IsSome (capture_of (Some week) text.items) }
    ensures { CountsText week text.items (T.written output.old) (T.written output.new)
        (U.written report.old) (U.written report.new)
        (faults_of 0 (T.faults output.old) (U.faults report.old))
        (faults_of 0 (T.faults output.new) (U.faults report.new)) result }
{
    let mut input = MemSource::new(text, Vec::new(alloc), Vec::new(alloc));
    match run_capture(
        alloc,
        Some(week),
        &CaptureTo::Count,
        &mut input,
        output,
        report,
    ) {
        Ok(counts) => Ok(SeedCounts::Counted(counts)),
        Err(fault) => Err(fault),
    }
}

//! The run over a generated capture.

ghost use Rattle.std.specs.Prelude.{None, true};
ghost use Rattle.one_run.specs.Runs.{Ran};
ghost use Rattle.captures.specs.Seeds.{seed_meaning};

use crate::count::{count_text, write_text};
use crate::laws::generated_captures_are_accepted;
use crate::seed_target::{SeedCounts, SeedTo};
use nav_eph::RefWeek;
use nav_io::Sink;
use one_run::BridgeFault;
use sent_captures::{Sats, captures_are_short, make_capture};
use std::alloc::Global;

/// Makes the capture of a seed, for `sats` satellites of each system in this week, and writes it,
/// or counts it as a run over that capture does.
///
/// Nothing is reported of the capture. With the counts, the report
/// has a line for each refusal in the capture, and then the counts. The result is the number of
/// bytes of the capture, or its counts.
///
/// # Errors
///
/// - `WriteFault`, `ReportFault` only if the error count of the output or the report rose, or is at
///   its maximum. A prefix was written and reported then.
/// - `NoMemory` if out of memory.
pub fn run_seed<T: Sink, U: Sink>(
    alloc: Global,
    seed: u32,
    sats: Sats,
    week: RefWeek,
    to: SeedTo,
    output: &mut T,
    report: &mut U,
) -> Result<SeedCounts, BridgeFault>
    // The run ends as its meaning states: it reads nothing, so `ReadFault`, `NotThisForm` and
    // `TooLong` do not occur; and writing the capture itself reports nothing.
    ensures { Ran (seed_meaning to seed sats week)
        (λ _. None) (λ _. true) (λ _. 0) T.written T.faults U.written U.faults
        (tt {0}) (tt {0}) output.old output.new report.old report.new result }
{
    generated_captures_are_accepted();
    captures_are_short();
    let _count = sats.value();
    let text = match make_capture(alloc, seed, sats, week) {
        Ok(text) => text,
        Err(_) => return Err(BridgeFault::NoMemory),
    };
    match to {
        SeedTo::Capture => write_text(text.as_slice(), output),
        SeedTo::Count => count_text(alloc, week, text, output, report),
    }
}

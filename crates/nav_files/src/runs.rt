//! The runs.

ghost use Rattle.one_run.specs.Runs.{Ran};
ghost use Rattle.nav_files.specs.Archives.{cover_meaning, merge_meaning};

use crate::counts::RinexCounts;
use crate::cover::{Covered, Covers};
use crate::merge::{Merged, Merging};
use crate::merge_counts::MergeCounts;
use crate::taker::run_file;
use nav_io::{Sink, Source};
use nav_lists::{Cover, Merge, covering};
use one_run::BridgeFault;
use rinex_read::{ItemRead, Rinex4};
use rinex_write::HeaderWords;
use std::alloc::Global;

/// Reads navigation files of RINEX 4, concatenated, to their end, and writes one file with the
/// merged list of their items.
///
/// The header is checked first, and that of the merged file is written. A rejected record gives a
/// line of the report, with the number of its first line. At the end of the input the items are
/// written in order of rank, of repeats the one with the earliest transmission time, and the counts
/// are reported.
///
/// # Errors
///
/// - `NotThisForm` exactly if the header is rejected; nothing is written then.
/// - `ReadFault`, `WriteFault`, `ReportFault` only if the error count of the input, the output or
///   the report rose, or is at its maximum. After a failed read only the header was written, and
///   exactly the refusals of the records that are complete in the bytes read were reported. After
///   any other error the header was written if a record is complete in all bytes read but the last
///   4,096.
/// - `TooLong` only if 4,294,967,295 bytes were read and there was one more.
/// - `NoMemory` when memory for the items is missing.
pub fn run_merge<S: Source, T: Sink, U: Sink>(
    alloc: Global,
    words: &HeaderWords,
    input: &mut S,
    output: &mut T,
    report: &mut U,
) -> Result<MergeCounts, BridgeFault>
    ensures { Ran (merge_meaning words.now)
        S.left S.never_fails S.faults T.written T.faults U.written U.faults
        input.old input.new output.old output.new report.old report.new result }
{
    let mut state = Merged {
        merge: Merge::new(alloc),
        counts: RinexCounts::new(),
    };
    let merging = Merging { words: *words };
    run_file::<ItemRead, Rinex4, Merging, S, T, U>(
        &Rinex4, &merging, &mut state, input, output, report,
    )
}

/// Reads navigation files of RINEX 4, concatenated, to their end, and writes the times for which
/// they have an ephemeris: a line for each range, with the satellite, the first second and the
/// second after the last, in GPS time.
///
/// Refusals and counts are reported as by [`run_merge`].
///
/// # Errors
///
/// As those of [`run_merge`].
pub fn run_cover<S: Source, T: Sink, U: Sink>(
    alloc: Global,
    input: &mut S,
    output: &mut T,
    report: &mut U,
) -> Result<RinexCounts, BridgeFault>
    ensures { Ran cover_meaning
        S.left S.never_fails S.faults T.written T.faults U.written U.faults
        input.old input.new output.old output.new report.old report.new result }
{
    let mut state = Covered {
        cover: Cover::new(alloc),
        counts: RinexCounts::new(),
    };
    covering();
    run_file::<ItemRead, Rinex4, Covers, S, T, U>(
        &Rinex4, &Covers, &mut state, input, output, report,
    )
}

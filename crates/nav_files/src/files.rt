//! The runs over navigation files.

ghost use Rattle.rinex_read.specs.Forms.{rinex4};
ghost use Rattle.rinex_read.specs.Form3.{rinex3};
ghost use Rattle.one_run.specs.Runs.{Ran};
ghost use Rattle.nav_files.specs.Files.{convert_meaning};
ghost use Rattle.nav_files.specs.Targets.{target_of_file};

use crate::counts::RinexCounts;
use crate::taker::run_file;
use crate::target::RinexTo;
use nav_io::{Sink, Source};
use one_run::BridgeFault;
use rinex_read::{ItemRead, Rinex3, Rinex4};
use streams::Target;

/// Reads a navigation file of RINEX 4 to its end, and writes what it is converted to while it
/// reads.
///
/// First the header is checked. Then the leading text is written, and after each record the
/// conversion of its item, repeats included: a RINEX record, an RTCM frame or a line of a list. A
/// rejected record gives a line of the report, with the number of its first line, and the report
/// ends with the counts.
///
/// # Errors
///
/// - `NotThisForm` exactly if the header is rejected; nothing is written then.
/// - `ReadFault`, `WriteFault`, `ReportFault` only if the error count of the input, the output or
///   the report rose, or is at its maximum. After a failed read exactly what the records give that
///   are complete in the bytes read was written and reported: those that are followed by the
///   complete first line of another. After any other error at least what is written before the last
///   of the records that are complete in all bytes read but the last 4,096.
/// - `TooLong` only if 4,294,967,295 bytes were read and there was one more.
///
/// It allocates no memory.
pub fn run_rinex<S: Source, T: Sink, U: Sink>(
    to: &RinexTo,
    input: &mut S,
    output: &mut T,
    report: &mut U,
) -> Result<RinexCounts, BridgeFault>
    ensures { Ran (convert_meaning rinex4 (target_of_file to.now))
        S.left S.never_fails S.faults T.written T.faults U.written U.faults
        input.old input.new output.old output.new report.old report.new result }
{
    let mut counts = RinexCounts::new();
    run_file::<ItemRead, Rinex4, Target, S, T, U>(
        &Rinex4,
        &to.target(),
        &mut counts,
        input,
        output,
        report,
    )
}

/// Reads a navigation file of RINEX 3 to its end, and writes what it is converted to while it
/// reads, as [`run_rinex`] does: the ephemerides of GPS and those of Galileo from I/NAV (RINEX
/// 3.05).
///
/// # Errors
///
/// As those of [`run_rinex`].
pub fn run_rinex3<S: Source, T: Sink, U: Sink>(
    to: &RinexTo,
    input: &mut S,
    output: &mut T,
    report: &mut U,
) -> Result<RinexCounts, BridgeFault>
    ensures { Ran (convert_meaning rinex3 (target_of_file to.now))
        S.left S.never_fails S.faults T.written T.faults U.written U.faults
        input.old input.new output.old output.new report.old report.new result }
{
    let mut counts = RinexCounts::new();
    run_file::<ItemRead, Rinex3, Target, S, T, U>(
        &Rinex3,
        &to.target(),
        &mut counts,
        input,
        output,
        report,
    )
}

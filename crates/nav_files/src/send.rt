//! The runs over navigation files.

ghost use Rattle.rinex_read.specs.Forms.{rinex4};
ghost use Rattle.rinex_read.specs.Form3.{rinex3};
ghost use Rattle.one_run.specs.Runs.{Ran};
ghost use Rattle.nav_files.specs.Sends.{send_meaning};

use crate::counts::RinexCounts;
use crate::sending::{Sending, SoFar};
use crate::sent_counts::no_counts;
use crate::taker::run_file;
use nav_eph::RefWeek;
use nav_io::{Sink, Source};
use one_run::BridgeFault;
use rinex_read::{ItemRead, Rinex3, Rinex4};

/// Reads a navigation file of RINEX 4 to its end, and writes while it reads the capture that
/// transmits it, for a receiver that resolves week numbers against the reference week `r`.
///
/// First the header is checked. Then the first line, `NAVCAP 1`, is written, and after each record
/// of an ephemeris that may be transmitted the lines of its slot, repeats included; slots are
/// counted from 0. A rejected record, and an ephemeris that may not be transmitted, give a line of
/// the report, with the number of their first line; such an ephemeris counts as rejected, and not
/// as an item. The report ends with the counts. Ionospheres are items, and are not transmitted.
///
/// # Errors
///
/// - `NotThisForm` exactly if the header is rejected; nothing is written then.
/// - `ReadFault`, `WriteFault`, `ReportFault` only if the error count of the input, the output or
///   the report rose, or is at its maximum. After a failed read exactly what the records give that
///   are complete in the bytes read was written and reported. After any other error at least what
///   is written before the last of the records that are complete in all bytes read but the last
///   4,096.
/// - `TooLong` only if 4,294,967,295 bytes were read and there was one more.
///
/// It allocates no memory.
pub fn send_rinex<S: Source, T: Sink, U: Sink>(
    r: RefWeek,
    input: &mut S,
    output: &mut T,
    report: &mut U,
) -> Result<RinexCounts, BridgeFault>
    ensures { Ran (send_meaning rinex4 r)
        S.left S.never_fails S.faults T.written T.faults U.written U.faults
        input.old input.new output.old output.new report.old report.new result }
{
    let mut state = SoFar {
        counts: no_counts(),
        slot: 0,
    };
    run_file::<ItemRead, Rinex4, Sending, S, T, U>(
        &Rinex4,
        &Sending { r },
        &mut state,
        input,
        output,
        report,
    )
}

/// The same for a navigation file of RINEX 3.
///
/// # Errors
///
/// Those of [`send_rinex`].
pub fn send_rinex3<S: Source, T: Sink, U: Sink>(
    r: RefWeek,
    input: &mut S,
    output: &mut T,
    report: &mut U,
) -> Result<RinexCounts, BridgeFault>
    ensures { Ran (send_meaning rinex3 r)
        S.left S.never_fails S.faults T.written T.faults U.written U.faults
        input.old input.new output.old output.new report.old report.new result }
{
    let mut state = SoFar {
        counts: no_counts(),
        slot: 0,
    };
    run_file::<ItemRead, Rinex3, Sending, S, T, U>(
        &Rinex3,
        &Sending { r },
        &mut state,
        input,
        output,
        report,
    )
}

//! What is reported of a record.

ghost use Rattle.std.specs.Prelude.{◌≡◌, IfErr, OnOk, OnErr};
ghost use Rattle.std.specs.Io.KnownBytes.{Appends};
ghost use Rattle.nav_io.specs.Prefix.{AppendsPrefix};
ghost use Rattle.one_run.specs.Causes.{HasItsCause, faults_of};
ghost use Rattle.nav_files.specs.Files.{read_report};

use crate::records::reason_word;
use nav_io::{Failed, Sink};
use one_run::{BridgeFault, report_text};
use rinex_read::ItemRead;

// Reports why a record is refused, if it is.
pub(crate) fn report_read<U: Sink>(read: &ItemRead, report: &mut U) -> Result<(), BridgeFault>
    ensures report { OnOk result (Appends (U.written report.old) (U.written report.new)
        (read_report read.now)) }
    ensures part { OnErr result (AppendsPrefix (U.written report.old) (U.written report.new)
        (read_report read.now)) }
    ensures cause { HasItsCause (faults_of 0 0 (U.faults report.old))
        (faults_of 0 0 (U.faults report.new)) result }
    ensures fault { IfErr result (λ fault. fault ≡ BridgeFault.ReportFault) }
{
    match read {
        ItemRead::Refused { line, reason } => {
            let text = report_text(b"line", u64::from(*line), reason_word(*reason));
            match report.write(text.as_slice()) {
                Ok(()) => Ok(()),
                Err(Failed) => Err(BridgeFault::ReportFault),
            }
        }
        ItemRead::Item { .. } => Ok(()),
        ItemRead::PassedOver { .. } => Ok(()),
    }
}

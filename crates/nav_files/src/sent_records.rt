//! What is written and reported of a record.

ghost use Rattle.std.specs.Prelude.{◌≡◌, ◌⊎◌, ◌<◌, ◌≤◌, IfErr, OnOk};
ghost use Rattle.std.specs.Prelude.{OnErr, length, codes};
ghost use Rattle.std.specs.Io.KnownBytes.{Appends};
ghost use Rattle.nav_io.specs.Prefix.{AppendsPrefix};
ghost use Rattle.one_run.specs.Causes.{HasItsCause, faults_of};
ghost use Rattle.one_run.specs.Reports.{report_line};
ghost use Rattle.nav_files.specs.Following.{IsSendReported};
ghost use Rattle.nav_files.specs.Sends.{outcome_report, outcome_text};

use crate::outcome::{SendOutcome, fault_word};
use crate::records::reason_word;
use nav_eph::RefWeek;
use nav_io::{Failed, Sink};
use one_run::{BridgeFault, report_text};
use sent_captures::send_item;

// Reports a record by its first line and a word.
fn report_word<U: Sink>(line: u32, word: &[u8], report: &mut U) -> Result<(), BridgeFault>
    requires short { length word.now ≤ 32 }
    ensures report { OnOk result (Appends (U.written report.old) (U.written report.new)
        (report_line (codes "line") line word.now)) }
    ensures part { OnErr result (AppendsPrefix (U.written report.old) (U.written report.new)
        (report_line (codes "line") line word.now)) }
    ensures cause { HasItsCause (faults_of 0 0 (U.faults report.old))
        (faults_of 0 0 (U.faults report.new)) result }
    ensures kinds { IfErr result (λ fault. fault ≡ BridgeFault.ReportFault) }
{
    let text = report_text(b"line", u64::from(line), word);
    match report.write(text.as_slice()) {
        Ok(()) => Ok(()),
        Err(Failed) => Err(BridgeFault::ReportFault),
    }
}

// Writes an ephemeris that is transmitted, or reports a record that is refused or may not be.
pub(crate) fn tell<T: Sink, U: Sink>(
    r: RefWeek,
    told: &SendOutcome,
    output: &mut T,
    report: &mut U,
) -> Result<(), BridgeFault>
    requires may { IsSendReported r told.now }
    ensures output { OnOk result (Appends (T.written output.old) (T.written output.new)
        (outcome_text told.now)) }
    ensures report { OnOk result (Appends (U.written report.old) (U.written report.new)
        (outcome_report told.now)) }
    ensures part { OnErr result (AppendsPrefix (T.written output.old) (T.written output.new)
        (outcome_text told.now)) }
    ensures report_part { OnErr result (AppendsPrefix (U.written report.old) (U.written report.new)
        (outcome_report told.now)) }
    ensures cause { HasItsCause (faults_of 0 (T.faults output.old) (U.faults report.old))
        (faults_of 0 (T.faults output.new) (U.faults report.new)) result }
    ensures kinds { IfErr result (λ fault. (fault ≡ BridgeFault.WriteFault)
        ⊎ (fault ≡ BridgeFault.ReportFault)) }
{
    match told {
        SendOutcome::Sent { slot, item } => match send_item(item, r, *slot, output) {
            Ok(()) => Ok(()),
            Err(Failed) => Err(BridgeFault::WriteFault),
        },
        SendOutcome::NotSent => Ok(()),
        SendOutcome::Withheld { line, fault } => report_word(*line, fault_word(*fault), report),
        SendOutcome::Refused { line, reason } => report_word(*line, reason_word(*reason), report),
        SendOutcome::PassedOver => Ok(()),
    }
}

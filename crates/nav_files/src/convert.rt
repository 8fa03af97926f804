//! What is done with the records of a file that is converted.

ghost use Rattle.std.specs.Prelude.{◌≡◌, ◌⊎◌, ◌++◌, IfErr, OnErr, OnOk, false};
ghost use Rattle.std.specs.List.{flat_map};
ghost use Rattle.std.specs.Io.KnownBytes.{Appends};
ghost use Rattle.nav_io.specs.Prefix.{AppendsPrefix};
ghost use Rattle.streams.specs.Targets.{item_text};
ghost use Rattle.one_run.specs.Causes.{HasItsCause, faults_of};
ghost use Rattle.rinex_read.specs.RoundTrip.{IsWholeRead};
ghost use Rattle.nav_files.specs.Files.{convert_report, convert_text};
ghost use Rattle.nav_files.specs.Files.{counts_of_reads, read_report, read_text};
ghost use Rattle.nav_files.specs.Mirrors.{AreCounted};

use crate::counts::{RinexCounts, file_counts_text};
use crate::records::{count_read, reason_word};
use crate::taker::Taker;
use nav_io::{Failed, Sink};
use one_run::{BridgeFault, Text, report_text};
use rinex_read::ItemRead;
use streams::Target;

// Writes the item of a record, or reports why the record is refused.
fn report_item<T: Sink, U: Sink>(
    to: &Target,
    read: &ItemRead,
    output: &mut T,
    report: &mut U,
) -> Result<(), BridgeFault>
    ensures output { OnOk result (Appends (T.written output.old) (T.written output.new)
        (read_text (item_text to.now) read.now)) }
    ensures report { OnOk result (Appends (U.written report.old) (U.written report.new)
        (read_report read.now)) }
    ensures part { OnErr result (AppendsPrefix (T.written output.old) (T.written output.new)
        (read_text (item_text to.now) read.now)) }
    ensures report_part { OnErr result (AppendsPrefix (U.written report.old) (U.written report.new)
        (read_report read.now)) }
    ensures cause { HasItsCause (faults_of 0 (T.faults output.old) (U.faults report.old))
        (faults_of 0 (T.faults output.new) (U.faults report.new)) result }
    ensures kinds { IfErr result (λ fault. (fault ≡ BridgeFault.WriteFault)
        ⊎ (fault ≡ BridgeFault.ReportFault)) }
{
    match read {
        ItemRead::Item { line, item } => match to.put(*line, item, output) {
            Ok(()) => Ok(()),
            Err(Failed) => Err(BridgeFault::WriteFault),
        },
        ItemRead::Refused { line, reason } => {
            let text = report_text(b"line", u64::from(*line), reason_word(*reason));
            match report.write(text.as_slice()) {
                Ok(()) => Ok(()),
                Err(Failed) => Err(BridgeFault::ReportFault),
            }
        }
        ItemRead::PassedOver { .. } => Ok(()),
    }
}

// Each item is written as soon as its record was read.
impl Taker<ItemRead> for Target {
    type State = RinexCounts;

    type Counts = RinexCounts;

    ghost known = { IsWholeRead };

    ghost text = { convert_text };

    ghost told = { λ to reads. flat_map read_report reads };

    ghost whole = { convert_text };

    ghost reported = { λ to reads. convert_report reads };

    ghost count = { λ to reads. counts_of_reads reads };

    ghost memory = { false };

    ghost holds = { λ to counts reads. (counts ≡ counts_of_reads reads) × AreCounted counts };

    fn begins(&self) {}

    fn begin<T: Sink>(&self, output: &mut T) -> Result<(), Failed> {
        Target::begin(self, output)
    }

    fn take<T: Sink, U: Sink>(
        &self,
        state: &mut RinexCounts,
        read: &ItemRead,
        output: &mut T,
        report: &mut U,
    ) -> Result<(), BridgeFault> {
        report_item(self, read, output, report)?;
        count_read(read, state);
        Ok(())
    }

    fn counts(&self, state: &RinexCounts) -> RinexCounts {
        *state
    }

    fn finish<T: Sink>(&self, _state: &mut RinexCounts, _output: &mut T) -> Result<(), Failed> {
        Ok(())
    }

    fn counts_text(&self, counts: &RinexCounts) -> Text {
        file_counts_text(counts)
    }
}

//! The run over a navigation file of all systems.

ghost use Rattle.std.specs.Prelude.{◌≡◌, ◌⊎◌, IfErr, IfOk, OnErr, OnOk, true, if◌then◌else◌};
ghost use Rattle.std.specs.Io.KnownBytes.{Appends};
ghost use Rattle.nav_io.specs.Prefix.{AppendsPrefix};
ghost use Rattle.one_run.specs.Causes.{HasItsCause, faults_of};
ghost use Rattle.one_run.specs.Runs.{Ran};
ghost use Rattle.all_systems.specs.Files.{counts_of, files_meaning, first_text, held_by};
ghost use Rattle.all_systems.specs.Files.{is_unwritten, reported_by, text_by, decided_by, whole_by};
ghost use Rattle.all_systems.specs.FileMirrors.{AreCounted, HasFields, view_given};
ghost use Rattle.all_systems.specs.FileReadings.{reading_report};

use crate::Kinds;
use crate::counts::{SystemCounts, count_read, counts_text};
use crate::file_read::{Given, RecordRead};
use crate::file_text::{has_carried, hold_given, write_behind, write_nav, write_row};
use crate::form::SystemForm;
use crate::held::Held;
use crate::version::Version;
use nav_files::{Taker, reason_word, run_file};
use nav_io::{Failed, Sink, Source};
use one_run::{BridgeFault, Text, report_text};
use std::alloc::Global;
use streams::Target;

// Writes the item of a record, unless it is held back, or reports why the record is rejected;
// whether an item or carried lines have a text.
fn report_item<T: Sink, U: Sink>(
    to: &Target,
    line: u32,
    given: &Given,
    output: &mut T,
    report: &mut U,
) -> Result<bool, BridgeFault>
    requires { HasFields given.now }
    ensures output { OnOk result (Appends (T.written output.old) (T.written output.new)
        (first_text to.now line (view_given given.now))) }
    ensures report { OnOk result (Appends (U.written report.old) (U.written report.new)
        (reading_report line (view_given given.now))) }
    ensures has { IfOk result (λ written. (if written then 0 else 1)
        ≡ is_unwritten to.now (view_given given.now)) }
    ensures part { OnErr result (AppendsPrefix (T.written output.old) (T.written output.new)
        (first_text to.now line (view_given given.now))) }
    ensures report_part { OnErr result (AppendsPrefix (U.written report.old) (U.written report.new)
        (reading_report line (view_given given.now))) }
    ensures cause { HasItsCause (faults_of 0 (T.faults output.old) (U.faults report.old))
        (faults_of 0 (T.faults output.new) (U.faults report.new)) result }
    ensures kinds { IfErr result (λ fault. (fault ≡ BridgeFault.WriteFault)
        ⊎ (fault ≡ BridgeFault.ReportFault)) }
{
    match given {
        Given::Nav(item) => match write_nav(to, line, item, output) {
            Ok(has) => Ok(has),
            Err(Failed) => Err(BridgeFault::WriteFault),
        },
        Given::Further(kind, row) => match write_row(to, line, kind, row, output) {
            Ok(has) => Ok(has),
            Err(Failed) => Err(BridgeFault::WriteFault),
        },
        Given::Refused(reason) => {
            let text = report_text(b"line", u64::from(line), reason_word(*reason));
            match report.write(text.as_slice()) {
                Ok(()) => Ok(true),
                Err(Failed) => Err(BridgeFault::ReportFault),
            }
        }
        Given::Carried(_) => Ok(has_carried(to)),
        Given::Passed => Ok(true),
    }
}

// The state of a conversion: the counts, and the text that is held back.
#[derive(Drop)]
struct SystemsWritten {
    counts: SystemCounts,
    held: Held,
}

// The conversion that writes each item as soon as its record was read, and what is held back
// after them.
#[derive(Drop)]
struct Systems {
    to: Target,
}

impl Taker<RecordRead> for Systems {
    type State = SystemsWritten;

    type Counts = SystemCounts;

    ghost known = { λ read. Unit {0} };

    ghost text = { λ s reads. text_by s.to reads };

    ghost told = { λ s reads. decided_by reads };

    ghost whole = { λ s reads. whole_by s.to reads };

    ghost reported = { λ s reads. reported_by s.to reads };

    ghost count = { λ s reads. counts_of s.to reads };

    ghost memory = { true };

    ghost holds = { λ s state reads. (state.counts ≡ counts_of s.to reads)
        × AreCounted state.counts × (state.held.bytes.items ≡ held_by s.to reads) };

    fn begins(&self) {}

    fn begin<T: Sink>(&self, output: &mut T) -> Result<(), Failed> {
        self.to.begin(output)
    }

    fn take<T: Sink, U: Sink>(
        &self,
        state: &mut SystemsWritten,
        read: &RecordRead,
        output: &mut T,
        report: &mut U,
    ) -> Result<(), BridgeFault> {
        let given = read.given();
        let line = read.line();
        let written = report_item(&self.to, line, given, output, report)?;
        hold_given(&self.to, line, given, &mut state.held)?;
        count_read(given, written, &mut state.counts);
        Ok(())
    }

    fn counts(&self, state: &SystemsWritten) -> SystemCounts {
        state.counts
    }

    fn finish<T: Sink>(&self, state: &mut SystemsWritten, output: &mut T) -> Result<(), Failed> {
        let counts = counts_text(&state.counts);
        write_behind(
            &self.to,
            state.held.bytes.as_slice(),
            counts.as_slice(),
            output,
        )
    }

    fn counts_text(&self, counts: &SystemCounts) -> Text {
        counts_text(counts)
    }
}

/// Reads a navigation file of a version to its end, and writes the items of all systems in it while
/// it reads.
///
/// The header is checked first. Then the leading text is written, and after each record the text of
/// its item, repeats included. A rejected record gives a line of the report, with the number of its
/// first line, and the report ends with the counts. Of a record of RINEX 4 of another kind
/// the lines are carried, if there are at most 12. In RINEX 4 the carried records and those of
/// ionosphere parameters are written after all ephemerides, in the order of the input. Further
/// records of kinds that are not read are counted. So are items and carried records that have no
/// text in the output format.
///
/// # Errors
///
/// As those of [`nav_files::run_rinex`], and `NoMemory`: the text of the records that are written
/// after all ephemerides is held until the input ends. Without such records no memory is allocated.
pub fn run_system_file<S: Source, T: Sink, U: Sink>(
    alloc: Global,
    kinds: &Kinds,
    version: Version,
    to: &Target,
    input: &mut S,
    output: &mut T,
    report: &mut U,
) -> Result<SystemCounts, BridgeFault>
    ensures { Ran (files_meaning kinds.now version to.now)
        S.left S.never_fails S.faults T.written T.faults U.written U.faults
        input.old input.new output.old output.new report.old report.new result }
{
    let mut state = SystemsWritten {
        counts: SystemCounts::new(),
        held: Held {
            bytes: Vec::new(alloc),
            faults: 0,
        },
    };
    let form = SystemForm {
        kinds: *kinds,
        version,
    };
    let systems = Systems { to: *to };
    run_file::<RecordRead, SystemForm, Systems, S, T, U>(
        &form, &systems, &mut state, input, output, report,
    )
}

//! The records of a navigation file, one after another.

ghost use Rattle.std.specs.Prelude.{◌≡◌, ◌+◌, ◌^◌, ◌<◌, ◌≤◌};
ghost use Rattle.std.specs.Prelude.{length, IsTrue, IsErrOf, IfOk, IfErr, IfSome};
ghost use Rattle.rinex_read.specs.States.{GivesRead};
ghost use Rattle.rinex_read.specs.declared.judged.HeaderState.TheVariants.{Passed};
ghost use Rattle.one_run.specs.Causes.{HasItsCause, fault_by, faults_of};
ghost use Rattle.nav_files.specs.Files.{reason_text};
ghost use Rattle.nav_files.specs.Mirrors.{AreCounted, BreaksRead, counted};

use crate::counts::RinexCounts;
use nav_io::{LineFault, Source};
use one_run::BridgeFault;
use rinex_read::{FileForm, ItemRead, RecordFault, RecordReader};
use streams::with_item;

/// The error of a run whose reading of lines failed so.
pub fn fault_of(fault: LineFault) -> BridgeFault
    ensures { result ≡ fault_by fault }
{
    match fault {
        LineFault::ReadFault => BridgeFault::ReadFault,
        LineFault::TooLong => BridgeFault::TooLong,
    }
}

/// Why a record is rejected, in one word.
pub fn reason_word(reason: RecordFault) -> &'static [u8]
    ensures word { result.now ≡ reason_text reason }
    ensures short { length result.now ≤ 32 }
{
    match reason {
        RecordFault::BadSat => b"satellite",
        RecordFault::Short => b"short",
        RecordFault::NotANumber => b"number",
        RecordFault::Blank => b"blank",
        RecordFault::OutOfRange => b"range",
        RecordFault::NoSuchDate => b"date",
        RecordFault::Week => b"week",
        RecordFault::Fit => b"fit",
        RecordFault::EpochStep => b"step",
        RecordFault::EpochFar => b"far",
    }
}

/// Counts a record.
pub fn count_read(read: &ItemRead, counts: &mut RinexCounts)
    requires room { counts.old.records + 1 < 2 ^ 64 }
    requires counted { AreCounted counts.old }
    ensures counts { counts.new ≡ counted counts.old read.now }
    ensures counted { AreCounted counts.new }
{
    match read {
        ItemRead::Item { item, .. } => {
            counts.items += 1;
            counts.times = with_item(counts.times, item);
        }
        ItemRead::Refused { .. } => counts.refused += 1,
        ItemRead::PassedOver { .. } => counts.passed += 1,
    }
    counts.records += 1;
}

/// The next record; `None` at the end of the file.
///
/// # Errors
///
/// `ReadFault` only if the input's error count rose or is at its maximum; `TooLong` only if
/// 4,294,967,295 bytes were read and there was one more.
pub fn next_read<R, F: FileForm<R>, S: Source>(
    form: &F,
    records: &mut RecordReader,
    input: &mut S,
) -> Result<Option<R>, BridgeFault>
    requires header { records.old.header ≡ Passed }
    ensures read { IfOk result (λ given.
        GivesRead (F.form form.now) given (S.left input.old)
        (S.left input.new) records.old records.new) }
    ensures whole { IfOk result (λ given. IfSome given F.whole) }
    ensures header { records.new.header ≡ Passed }
    ensures broken { IfErr result
        (λ fault. BreaksRead (F.form form.now) (S.left input.old) (S.left input.new)
        records.old records.new fault) }
    ensures cause { HasItsCause (faults_of (S.faults input.old) 0 0)
        (faults_of (S.faults input.new) 0 0) result }
    ensures never { IsTrue (S.never_fails input.old)
        → (IsErrOf result BridgeFault.ReadFault → ⊥) × IsTrue (S.never_fails input.new) }
{
    match records.next_item(form, input) {
        Ok(read) => Ok(read),
        Err(fault) => Err(fault_of(fault)),
    }
}

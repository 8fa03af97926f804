//! The header of a navigation file.

ghost use Rattle.std.specs.Prelude.{IsTrue, IsErrOf, IfErr, OnOk};
ghost use Rattle.rinex_read.specs.States.{IsNew, PassesHeader};
ghost use Rattle.one_run.specs.Causes.{HasItsCause, faults_of};
ghost use Rattle.nav_files.specs.Mirrors.{NoHeader};

use crate::records::fault_of;
use nav_io::Source;
use one_run::BridgeFault;
use rinex_read::{FileForm, HeaderFault, RecordReader};

/// Reads the header.
///
/// # Errors
///
/// `NotThisForm` if the header is rejected; `ReadFault` only if the input's error count rose or is
/// at its maximum; `TooLong` only if 4,294,967,295 bytes were read and there was one more.
pub fn pass_header<R, F: FileForm<R>, S: Source>(
    form: &F,
    records: &mut RecordReader,
    input: &mut S,
) -> Result<(), BridgeFault>
    requires first { IsNew records.old }
    ensures header { OnOk result (PassesHeader (F.form form.now) (S.left input.old)
        (S.left input.new)
        records.old records.new) }
    ensures broken { IfErr result (NoHeader (F.form form.now) (S.left input.old) (S.left input.new)
        records.old records.new) }
    ensures cause { HasItsCause (faults_of (S.faults input.old) 0 0)
        (faults_of (S.faults input.new) 0 0) result }
    ensures never { IsTrue (S.never_fails input.old)
        → (IsErrOf result BridgeFault.ReadFault → ⊥) × IsTrue (S.never_fails input.new) }
{
    match records.read_header(form, input) {
        Ok(()) => Ok(()),
        Err(HeaderFault::NotRinexNav) => Err(BridgeFault::NotThisForm),
        Err(HeaderFault::Version) => Err(BridgeFault::NotThisForm),
        Err(HeaderFault::Line(fault)) => Err(fault_of(fault)),
    }
}

//! A copy of a source.

ghost use Rattle.std.specs.Prelude.{◌≡◌, ◌<◌, ◌≤◌, ◌^◌, IfErr, IfOk, IfSome, IsOk, None, OnOk};
ghost use Rattle.std.specs.Prelude.{length};
ghost use Rattle.std.specs.Io.KnownBytes.{Appends};
ghost use Rattle.nav_io.specs.Causes.{Rose};
ghost use Rattle.whole_file.specs.Steps.{EndsFor, error_counts};
ghost use Rattle.file_conversion.specs.Tasks.{accepts, breaks_by, cause_in};
ghost use Rattle.file_conversion.specs.declared.table.Task.TheVariants.{Copied};

use crate::done::Done;
use bridge_engine::BridgeFault;
use nav_io::{Failed, MOST_TAKEN, Sink, Source, read_piece};

/// Writes what a source gives, and counts nothing.
///
/// # Errors
///
/// A read or a write failed, or there are more than 4,294,967,295 bytes. A part is written then.
pub fn copy<S: Source, T: Sink>(input: &mut S, output: &mut T) -> Result<Option<Done>, BridgeFault>
    ensures text { OnOk result (IfSome (S.left input.old) (λ bytes.
        Appends (T.written output.old) (T.written output.new) bytes)) }
    ensures none { IfOk result (λ done. done ≡ None) }
    ensures complete { IfSome (S.left input.old) (λ bytes. length bytes < 2 ^ 32
        → ¬ Rose (S.faults input.old) (S.faults input.new)
        → ¬ Rose (T.faults output.old) (T.faults output.new)
        → IsOk result) }
    ensures accepts { OnOk result (IfSome (S.left input.old) (λ bytes. length bytes < 2 ^ 32)) }
    ensures causes { EndsFor cause_in
        (error_counts (S.faults input.old) (T.faults output.old) 0)
        (error_counts (S.faults input.new) (T.faults output.new) 0) result }
    ensures breaks { IfErr result (λ fault. IfSome (S.left input.old) (λ bytes.
        breaks_by (accepts Copied bytes) bytes fault)) }
{
    let mut piece = [0; 16_384];
    let mut taken: u64 = 0;
    while taken <= MOST_TAKEN {
        match read_piece(input, taken, &mut piece) {
            Err(Failed) => return Err(BridgeFault::ReadFault),
            Ok(0) => return Ok(None),
            Ok(count) => {
                if output.write(&piece[..count]).is_err() {
                    return Err(BridgeFault::WriteFault);
                }
                taken += count as u64;
            }
        }
    }
    Err(BridgeFault::TooLong)
}

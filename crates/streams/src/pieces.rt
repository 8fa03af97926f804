//! The bytes of a stream, read piece by piece.

ghost use Rattle.std.specs.Prelude.{◌≡◌, ◌⊎◌, ◌+◌, ◌^◌, ◌<◌, ◌≤◌};
ghost use Rattle.std.specs.Prelude.{[], false, length, IsTrue, IsErrOf, IfErr, OnOk};
ghost use Rattle.streams.specs.Targets.{prefix_text, item_text};
ghost use Rattle.one_run.specs.Causes.{HasItsCause, faults_of};
ghost use Rattle.streams.specs.Mirrors.{StreamAll, StreamPart};
ghost use Rattle.streams.specs.Streams.{counts_of_readings};

use crate::Target;
use crate::counts::StreamCounts;
use crate::frames::{process_frames, process_piece};
use crate::given::ItemsGiven;
use framing::Deframer;
use nav_eph::RefWeek;
use nav_io::{Failed, MOST_TAKEN, Sink, Source, read_piece};
use one_run::BridgeFault;

// The number of bytes that one read asks for.
const PIECE: usize = 16_384;

// The error of a run that ended in a piece by this fault, after so many bytes: without memory in a
// byte too many it is `TooLong`.
pub(crate) fn fault_at(taken: u64, fault: BridgeFault) -> BridgeFault
    ensures same { (result ≡ fault) ⊎ ((result ≡ BridgeFault.TooLong)
        × (fault ≡ BridgeFault.NoMemory) × (2 ^ 32 ≤ taken)) }
    ensures memory { result ≡ BridgeFault.NoMemory → taken < 2 ^ 32 }
{
    match fault {
        BridgeFault::NoMemory if taken > MOST_TAKEN => BridgeFault::TooLong,
        fault => fault,
    }
}

// Processes the frames of a stream up to its end.
pub(crate) fn process_pieces<S: Source, T: Sink, U: Sink>(
    to: &Target,
    r: RefWeek,
    given: &mut ItemsGiven,
    input: &mut S,
    output: &mut T,
    report: &mut U,
    counts: &mut StreamCounts,
) -> Result<(), BridgeFault>
    requires nothing { counts.old ≡ counts_of_readings [] }
    ensures all { OnOk result (StreamAll r (prefix_text to.now) (item_text to.now 0)
        (S.left input.old) (S.left input.new) (T.written output.old) (T.written output.new)
        (U.written report.old) (U.written report.new) given.old given.new counts.old counts.new) }
    ensures part { IfErr result (StreamPart r (prefix_text to.now) (item_text to.now 0)
        (S.left input.old) (S.left input.new) (T.written output.old) (T.written output.new)
        (U.written report.old) (U.written report.new) given.old given.new counts.old counts.new) }
    ensures cause { HasItsCause
        (faults_of (S.faults input.old) (T.faults output.old) (U.faults report.old))
        (faults_of (S.faults input.new) (T.faults output.new) (U.faults report.new)) result }
    ensures never { IsTrue (S.never_fails input.old) → IsErrOf result BridgeFault.ReadFault → ⊥ }
{
    let mut deframer = Deframer::new();
    let mut buffer = [0; PIECE];
    let mut taken = 0;
    while taken <= MOST_TAKEN {
        match read_piece(input, taken, &mut buffer) {
            Err(Failed) => return Err(BridgeFault::ReadFault),
            Ok(0) => {
                deframer.finish();
                return process_frames(to, r, &mut deframer, given, output, report, counts);
            }
            Ok(count) => {
                taken += count as u64;
                let piece = &buffer[..count];
                match process_piece(to, r, &mut deframer, piece, given, output, report, counts) {
                    Ok(()) => {}
                    Err(fault) => return Err(fault_at(taken, fault)),
                }
            }
        }
    }
    Err(BridgeFault::TooLong)
}

//! Why a file is not converted, as a message states it.

ghost use Rattle.std.specs.Prelude.{◌≡◌};
ghost use Rattle.file_conversion.specs.Says.{refusal_of, refused_form, run_refusal};

use crate::says::Refusal;
use crate::stops::Stop;
use bridge_engine::BridgeFault;
use whole_file::{FileFault, Kind};

/// Why a file is not converted, as a message states it: the names are those of the output and of
/// its part.
pub fn refusal_of<'a>(stop: Stop, name: &'a str, part: &'a str) -> Refusal<'a>
    ensures { result ≡ refusal_of stop name.entry part.entry }
{
    match stop {
        Stop::Open(fault) => Refusal::NotOpened(fault),
        Stop::Look(fault) => Refusal::ReadFault(0, fault.unwrap_or(FileFault::Other)),
        Stop::NoConversion(kind) => Refusal::NoSuchConversion(kind),
        Stop::Begin(FileFault::AlreadyThere) => Refusal::PartThere(part),
        Stop::Begin(fault) | Stop::Publish(fault) => Refusal::WriteFault(name, fault),
        Stop::Run(kind, fault, count, read, put) => {
            run_refusal(kind, fault, count, read, put, name)
        }
        Stop::Unnamed => Refusal::NoTimes,
        Stop::NoMemory => Refusal::NoMemory,
    }
}

// Why a run over a file of this form broke off with this fault, after so many bytes: what the input
// and the output said of it, and the name of the output.
fn run_refusal<'a>(
    kind: Kind,
    fault: BridgeFault,
    count: u64,
    read: Option<FileFault>,
    put: Option<FileFault>,
    name: &'a str,
) -> Refusal<'a>
    ensures { result ≡ run_refusal kind fault count read put name.entry }
{
    match fault {
        BridgeFault::ReadFault => Refusal::ReadFault(count, read.unwrap_or(FileFault::Other)),
        BridgeFault::WriteFault => Refusal::WriteFault(name, put.unwrap_or(FileFault::Other)),
        BridgeFault::NotThisForm => Refusal::NotAccepted(refused_form(kind)),
        BridgeFault::NoMemory => Refusal::NoMemory,
        BridgeFault::ReportFault => Refusal::ReportFault,
        BridgeFault::TooLong => Refusal::TooLong,
    }
}

// The form of which a message tells. A week is always given with a capture that names none, so that
// it is none.
fn refused_form(kind: Kind) -> Kind
    ensures { result ≡ refused_form kind }
{
    match kind {
        Kind::Capture1 => Kind::Unknown,
        _ => kind,
    }
}

//! Why a file is not converted.

ghost use Rattle.std.specs.Prelude.{◌≡◌};
ghost use Rattle.file_conversion.specs.Stops.{stopped_by};

use crate::done::Done;
use bridge_engine::BridgeFault;
use whole_file::{FileFault, Kind, Named, StepFault};

/// An output, and what the conversion for it has counted, if one was done.
pub type Made = Named<Option<Done>>;

/// Why a file is not converted.
#[derive(Clone, Copy, Drop)]
pub enum Stop {
    /// It was not opened.
    Open(FileFault),
    /// Its first bytes were not read: what the input reported.
    Look(Option<FileFault>),
    /// A file of this format is not converted to that.
    NoConversion(Kind),
    /// The part was not begun.
    Begin(FileFault),
    /// The conversion ended with this error, after so many bytes; what the input and the output
    /// reported.
    Run(Kind, BridgeFault, u64, Option<FileFault>, Option<FileFault>),
    /// The output has no name, or may not have it.
    Unnamed,
    /// The output was not written to its end, or did not get its name.
    Publish(FileFault),
    /// There was no memory.
    NoMemory,
}

/// How the conversion of a file of this format ended, after so many bytes, by how its step did.
/// What the input reports of a failed read is not known yet.
pub(crate) fn stopped_by(
    kind: Kind,
    done: Result<Made, StepFault<BridgeFault>>,
    count: u64,
) -> Result<Made, Stop>
    ensures { result ≡ stopped_by kind done count }
{
    match done {
        Ok(made) => Ok(made),
        Err(StepFault::Begin(fault)) => Err(Stop::Begin(fault)),
        Err(StepFault::Unnamed) => Err(Stop::Unnamed),
        Err(StepFault::Publish(fault)) => Err(Stop::Publish(fault)),
        Err(StepFault::Run(fault, told)) => Err(Stop::Run(kind, fault, count, None, told.err())),
    }
}

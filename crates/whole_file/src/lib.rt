//! From one file to another: afterwards the output's name has the complete output for the bytes of
//! the input, or every name is as it was.
//!
//! - [`kind_of`], the format of a file: that of its first line or signature, or else of the first
//!   complete unit in its first 65,536 bytes: a UBX message, an SBF block or an RTCM 3 frame of
//!   right checksum. These bytes show the same format as the complete file
//!   ([`first_bytes_decide`]);
//! - [`look`], the format of a source, of which no more is looked at than decides it, and
//!   [`form_of`], the format under which it is read;
//! - [`Folder`], where files are read and written, and [`FileFault`], why a call of it failed:
//!   [`HostFolder`], the files of the system, and [`MemFolder`], a directory in memory, whose
//!   contracts state the bytes of each of its files;
//! - [`Conversion`], a conversion from the bytes of one file to those of another, and
//!   [`Namer`], which names its output by what it has counted; [`Given`] is a name that was
//!   known before;
//! - [`put_output`], which writes an output as a part, and gives it its name once it is
//!   complete;
//! - [`Peeked`], a source whose first bytes can be looked at, which gives them again, and then what
//!   follows, so that a pipe can be looked at like a file; and [`Counted`], which counts the bytes
//!   that are read and notifies a [`Progress`];
//! - [`Gathered`], a sink that gathers what is written to a file.
//!
//! ```rust
//! let part = part_of(rt.alloc(), "station.rnx")?;
//! let mut name = Given::new(String::from_str(rt.alloc(), "station.rnx")?);
//! let mut folder = HostFolder::new(rt.alloc(), &rt);
//! let mut input = folder.open("station.navcap")?;
//! put_output(&mut folder, &mut run, &mut input, &mut name, part.as_str())?;
//! ```
#![tactic(auto)]

mod counted;
mod entries;
mod fault_counts;
mod faults;
mod folder;
mod gathered;
mod host;
mod kinds;
mod laws;
mod looking;
mod memory;
mod names;
mod peeked;
mod step;
mod units;

pub use crate::counted::{Counted, NoProgress, Progress};
pub use crate::entries::MemDraft;
pub use crate::fault_counts::fault_of;
pub use crate::faults::FileFault;
pub use crate::folder::Folder;
pub use crate::gathered::{GATHERED, Gathered};
pub use crate::host::HostFolder;
pub use crate::kinds::{Kind, LOOKED_AT, kind_of, kind_so_far};
pub use crate::laws::{a_frame_decides_a_stream, first_bytes_decide};
pub use crate::looking::{form_of, look};
pub use crate::memory::{MemFolder, MemInput};
pub use crate::names::{Given, Namer, part_of};
pub use crate::peeked::{PeekFault, Peeked};
pub use crate::step::{Conversion, Named, StepFault, put_output};

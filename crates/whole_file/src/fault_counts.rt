//! Why calls of a directory failed, and how many did.

ghost use Rattle.std.specs.Prelude.{◌≡◌, ◌≤◌, ◌↔◌, ◌+◌, ◌-◌, ◌^◌, min, IsNone, IsOk};
ghost use Rattle.nav_io.specs.Causes.{HasCause, Rose};
ghost use Rattle.whole_file.specs.Faults.{fault_of, told};

use crate::faults::FileFault;
use std::io::ErrorKind;

/// What an error of this kind states.
pub fn fault_of(kind: ErrorKind) -> FileFault
    ensures { result ≡ fault_of kind }
{
    match kind {
        ErrorKind::NotFound => FileFault::NotFound,
        ErrorKind::AlreadyExists => FileFault::AlreadyThere,
        ErrorKind::PermissionDenied => FileFault::NotAllowed,
        ErrorKind::IsADirectory => FileFault::IsFolder,
        ErrorKind::NotADirectory => FileFault::NoFolder,
        ErrorKind::StorageFull => FileFault::DiskFull,
        ErrorKind::QuotaExceeded => FileFault::QuotaFull,
        ErrorKind::FileTooLarge => FileFault::TooLarge,
        ErrorKind::InvalidFilename => FileFault::NameTooLong,
        ErrorKind::ReadOnlyFilesystem => FileFault::ReadOnly,
        ErrorKind::BrokenPipe => FileFault::ReaderGone,
        ErrorKind::OutOfMemory => FileFault::NoMemory,
        _ => FileFault::Other,
    }
}

/// How often a call of a directory failed: at most 2^64 - 1.
#[derive(Drop)]
pub struct Faults {
    /// The count.
    pub count: u64,
}

impl Faults {
    /// No error yet.
    pub fn none() -> Faults
        ensures { result.count ≡ 0 }
    {
        Faults { count: 0 }
    }

    /// Counts an error.
    pub fn failed(&mut self, fault: FileFault) -> FileFault
        ensures same { result ≡ fault }
        ensures counts { self.new.count ≡ min (self.old.count + 1) (2 ^ 64 - 1) }
        ensures later { self.old.count ≤ self.new.count }
        ensures rose { Rose self.old.count self.new.count }
    {
        self.count = self.count.saturating_add(1);
        fault
    }

    /// Counts an error of this kind, if there was one.
    pub fn told(&mut self, kind: Option<ErrorKind>) -> Result<(), FileFault>
        ensures tells { result ≡ told kind }
        ensures some { IsOk result ↔ IsNone kind }
        ensures cause { HasCause self.old.count self.new.count result }
    {
        match kind {
            None => Ok(()),
            Some(kind) => Err(self.failed(fault_of(kind))),
        }
    }
}

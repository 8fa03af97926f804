//! The files of the system.

ghost use Rattle.std.specs.Prelude.{◌≡◌, ◌≤◌, ◌↔◌, ◌+◌, ◌-◌, ◌^◌, min, IfOk, IsNone, IsOk};
ghost use Rattle.nav_io.specs.Causes.{HasCause, Rose};
ghost use Rattle.whole_file.specs.Faults.{told};

use crate::fault_counts::{Faults, fault_of};
use crate::faults::FileFault;
use crate::folder::Folder;
use crate::gathered::{GATHERED, Gathered};
use nav_io::{ReadSource, Sink};
use std::alloc::Global;
use std::fs::{OpenFile, OpenOptions};
use std::io::ErrorKind;
use std::os::unix::fs::{MetadataExt, chown};
use std::rt::Files;
use std::{fs, io};

/// The files of the system, or simulated ones in a test. Its contracts state none of their bytes.
#[derive(Drop)]
pub struct HostFolder<'a, R: Files> {
    alloc: Global,
    files: &'a R,
    replaces: bool,
    faults: Faults,
}

impl<'a, R: Files> HostFolder<'a, R> {
    /// A directory with an error count of 0, in which an output replaces the file of its name.
    pub fn new(alloc: Global, files: &'a R) -> HostFolder<'a, R>
        ensures { ⟦<HostFolder<'a, R> as Folder>⟧.faults result ≡ 0 }
    {
        HostFolder::with(alloc, files, true)
    }

    /// A directory with an error count of 0, in which an output replaces the file of its name or
    /// not.
    pub fn with(alloc: Global, files: &'a R, replaces: bool) -> HostFolder<'a, R>
        ensures { ⟦<HostFolder<'a, R> as Folder>⟧.faults result ≡ 0 }
    {
        HostFolder {
            alloc,
            files,
            replaces,
            faults: Faults::none(),
        }
    }

    /// Counts an error of another call.
    pub fn failed(&mut self, fault: FileFault) -> FileFault
        ensures same { result ≡ fault }
        ensures counts { ⟦<HostFolder<'a, R> as Folder>⟧.faults self.new
            ≡ min (⟦<HostFolder<'a, R> as Folder>⟧.faults self.old + 1) (2 ^ 64 - 1) }
        ensures later { ⟦<HostFolder<'a, R> as Folder>⟧.faults self.old
            ≤ ⟦<HostFolder<'a, R> as Folder>⟧.faults self.new }
        ensures rose { Rose (⟦<HostFolder<'a, R> as Folder>⟧.faults self.old)
            (⟦<HostFolder<'a, R> as Folder>⟧.faults self.new) }
    {
        self.faults.failed(fault)
    }

    /// Counts an error of this kind of another call, if there was one.
    pub fn told(&mut self, kind: Option<ErrorKind>) -> Result<(), FileFault>
        ensures tells { result ≡ told kind }
        ensures some { IsOk result ↔ IsNone kind }
        ensures cause { HasCause (⟦<HostFolder<'a, R> as Folder>⟧.faults self.old)
            (⟦<HostFolder<'a, R> as Folder>⟧.faults self.new) result }
    {
        self.faults.told(kind)
    }
}

impl<R: Files> Folder for HostFolder<'_, R> {
    ghost use Rattle.std.specs.Prelude.{None};

    type Input = ReadSource<R::File>;

    type Draft = Gathered<R::File>;

    ghost files = { λ _. None };

    ghost faults = { λ s. s.faults.count };

    /// Opens the file to read it.
    fn open(&mut self, name: &str) -> Result<ReadSource<R::File>, FileFault> {
        match fs::open(self.files, name) {
            Ok(file) => Ok(ReadSource::new(file)),
            Err(error) => Err(self.faults.failed(fault_of(error.kind()))),
        }
    }

    /// Returns the last error of a read, if any.
    fn close(&mut self, input: ReadSource<R::File>) -> Result<(), FileFault> {
        self.faults.told(input.fault())
    }

    /// Creates a file that must not exist (`O_EXCL`).
    fn draft(&mut self, part: &str) -> Result<Gathered<R::File>, FileFault> {
        match begun(self.alloc, self.files, part) {
            Ok(draft) => Ok(draft),
            Err(kind) => Err(self.faults.failed(fault_of(kind))),
        }
    }

    /// Writes the buffer, syncs the file, and renames it. A file that is replaced keeps its mode
    /// and, if the system allows it, its owner; if none is to be replaced and one has the name by
    /// now, it is `AlreadyThere`. The part is removed if one of these fails.
    fn publish(
        &mut self,
        draft: Gathered<R::File>,
        part: &str,
        name: &str,
    ) -> Result<(), FileFault> {
        let fault = unnamed(self.files, draft, part, name, self.replaces);
        if fault.is_some() {
            let _ = fs::remove_file(self.files, part);
        }
        self.faults.told(fault)
    }

    /// Removes the part, and returns the last error of a write, if any, or why the part could not
    /// be removed.
    fn discard(&mut self, draft: Gathered<R::File>, part: &str) -> Result<(), FileFault> {
        let removed = removed(self.files, part);
        self.faults.told(draft.fault().or(removed))
    }
}

// Creates a file that must not exist, with a buffer.
fn begun<R: Files>(alloc: Global, files: &R, part: &str) -> Result<Gathered<R::File>, ErrorKind>
    ensures { IfOk result (λ draft. ⟦<Gathered<R::File> as Sink>⟧.faults draft ≡ 0) }
{
    let Ok(buffer) = Vec::with_capacity(alloc, GATHERED) else {
        return Err(ErrorKind::OutOfMemory);
    };
    let mut options = OpenOptions::new();
    options.write(true).create_new(true);
    match options.open(files, part) {
        Ok(file) => Ok(Gathered::new(buffer, file)),
        Err(error) => Err(error.kind()),
    }
}

// Removes a file, and returns why that failed, if it did.
fn removed<R: Files>(files: &R, name: &str) -> Option<ErrorKind> {
    match fs::remove_file(files, name) {
        Ok(()) => None,
        Err(error) => Some(error.kind()),
    }
}

// Writes the buffer, syncs the file, and renames it; returns why one of these failed, if it did.
fn unnamed<R: Files>(
    files: &R,
    draft: Gathered<R::File>,
    part: &str,
    name: &str,
    replaces: bool,
) -> Option<ErrorKind>
    ensures { IsNone result → ⟦<Gathered<R::File> as Sink>⟧.faults draft ≡ 0 }
{
    match draft.finish() {
        Ok(file) => match synced(files, file, part, name, replaces) {
            Ok(()) => None,
            Err(error) => Some(error.kind()),
        },
        Err(draft) => Some(draft.fault().unwrap_or(ErrorKind::Other)),
    }
}

// Syncs a file, and gives it its name.
fn synced<R: Files>(
    files: &R,
    file: R::File,
    part: &str,
    name: &str,
    replaces: bool,
) -> io::Result<()> {
    if replaces {
        keep_access(files, part, name);
    }
    match file.sync_all() {
        Ok(()) if replaces => fs::rename(files, part, name),
        Ok(()) => renamed_new(files, part, name),
        Err(error) => Err(error),
    }
}

// Gives the part the owner and the mode of the file that it replaces, as far as the system allows.
fn keep_access<R: Files>(files: &R, part: &str, name: &str) {
    if let Ok(there) = fs::metadata(files, name) {
        let _ = chown(files, part, Some(there.uid()), Some(there.gid()));
        let _ = fs::set_permissions(files, part, there.permissions());
    }
}

// Renames a file to a name that none has. A file system without hard links is asked first whether
// one has it.
fn renamed_new<R: Files>(files: &R, part: &str, name: &str) -> io::Result<()> {
    match fs::hard_link(files, part, name) {
        Ok(()) => {
            let _ = fs::remove_file(files, part);
            Ok(())
        }
        Err(error) if error.kind() == ErrorKind::AlreadyExists => Err(error),
        Err(_) if fs::symlink_metadata(files, name).is_ok() => {
            Err(io::Error::from(ErrorKind::AlreadyExists))
        }
        Err(_) => fs::rename(files, part, name),
    }
}

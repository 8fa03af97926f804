//! A directory in memory.

ghost use Rattle.std.specs.Prelude.{◌≡◌, Some};
ghost use Rattle.std.specs.Prelude.{OnOk, IfOk, []};
ghost use Rattle.std.specs.Option.{option_map};
ghost use Rattle.whole_file.specs.Files.{Opens};
ghost use Rattle.whole_file.specs.Entries.{Sets, bytes_at};

use crate::entries::{Entry, MemDraft, begun, found, published, set};
use crate::fault_counts::Faults;
use crate::faults::FileFault;
use crate::folder::Folder;
use nav_io::{ReadSource, Source};
use std::alloc::{AllocError, Global};
use std::io::Cursor;

/// A file in memory that is read.
pub type MemInput = ReadSource<Cursor<Vec<u8>>>;

/// A directory in memory. Its calls fail only if out of memory, or if `Folder` requires it.
#[derive(Drop)]
pub struct MemFolder {
    alloc: Global,
    // the newest first
    entries: Vec<Entry>,
    faults: Faults,
}

impl MemFolder {
    /// An empty directory, with an error count of 0.
    pub fn new(alloc: Global) -> MemFolder
        ensures files { result.entries.items ≡ [] }
        ensures faults { ⟦<MemFolder as Folder>⟧.faults result ≡ 0 }
    {
        MemFolder {
            alloc,
            entries: Vec::new(alloc),
            faults: Faults::none(),
        }
    }

    /// Gives the name these bytes.
    pub fn put(&mut self, name: &str, bytes: &[u8]) -> Result<(), AllocError>
        ensures sets { OnOk result (Sets (bytes_at self.old.entries.items)
            (bytes_at self.new.entries.items) name.now (Some bytes.now)) }
        ensures faults { self.new.faults ≡ self.old.faults }
    {
        let copy = bytes.to_vec(self.alloc)?;
        set(self.alloc, &mut self.entries, name, Some(copy))
    }

    /// The bytes of the file of this name.
    pub fn get(&self, name: &str) -> Option<&[u8]>
        ensures { option_map (λ bytes. bytes.now) result
            ≡ bytes_at self.now.entries.items name.now }
    {
        found(&self.entries, name)
    }
}

impl Folder for MemFolder {
    ghost use Rattle.std.specs.Prelude.{Some};
    ghost use Rattle.whole_file.specs.Entries.{bytes_at};

    type Input = MemInput;

    type Draft = MemDraft;

    ghost files = { λ s. Some (bytes_at s.entries.items) };

    ghost faults = { λ s. s.faults.count };

    /// Returns a source over the bytes.
    fn open(&mut self, name: &str) -> Result<MemInput, FileFault> {
        let alloc = self.alloc;
        match opened(alloc, &self.entries, name) {
            Ok(input) => Ok(input),
            Err(fault) => Err(self.faults.failed(fault)),
        }
    }

    /// Returns the last error of a read, if any.
    fn close(&mut self, input: MemInput) -> Result<(), FileFault> {
        self.faults.told(input.fault())
    }

    /// Creates an empty file with this name, which no file has.
    fn draft(&mut self, part: &str) -> Result<MemDraft, FileFault> {
        match begun(self.alloc, &mut self.entries, part) {
            Ok(draft) => Ok(draft),
            Err(fault) => Err(self.faults.failed(fault)),
        }
    }

    /// Gives the name the bytes, and removes the part.
    fn publish(&mut self, draft: MemDraft, part: &str, name: &str) -> Result<(), FileFault> {
        match published(self.alloc, &mut self.entries, draft, part, name) {
            Ok(()) => Ok(()),
            Err(fault) => Err(self.faults.failed(fault)),
        }
    }

    /// Removes the part.
    fn discard(&mut self, draft: MemDraft, part: &str) -> Result<(), FileFault> {
        if set(self.alloc, &mut self.entries, part, None).is_err() || draft.fault().is_some() {
            return Err(self.faults.failed(FileFault::NoMemory));
        }
        Ok(())
    }
}

// A source over the bytes of the file of this name.
fn opened(alloc: Global, entries: &[Entry], name: &str) -> Result<MemInput, FileFault>
    ensures bytes { IfOk result (λ input. Opens (Some (bytes_at entries.now)) name.now
        (⟦<ReadSource<Cursor<Vec<u8>>> as Source>⟧.left input)) }
    ensures faults { IfOk result (λ input.
        ⟦<ReadSource<Cursor<Vec<u8>>> as Source>⟧.faults input ≡ 0) }
{
    let bytes = found(entries, name).ok_or(FileFault::NotFound)?;
    match bytes.to_vec(alloc) {
        Ok(copy) => Ok(ReadSource::new(Cursor::new(copy))),
        Err(_) => Err(FileFault::NoMemory),
    }
}

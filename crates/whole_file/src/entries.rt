//! Files in memory, as changes of their names.

ghost use Rattle.std.specs.Prelude.{◌≡◌, ◌≢◌, ℕ, List, [], Some, None};
ghost use Rattle.std.specs.Prelude.{◌⊎◌, OnOk, OnErr, IfErr, IfOk, IsSome};
ghost use Rattle.std.specs.Option.{option_map};
ghost use Rattle.whole_file.specs.Files.{Publishes, Stays};
ghost use Rattle.whole_file.specs.Entries.{Sets, bytes_at, contents_of};

use crate::faults::FileFault;
use nav_io::{Sink, WriteSink};
use std::alloc::{AllocError, Global};

/// A file in memory that is written.
pub type MemDraft = WriteSink<Vec<u8>>;

/// A change of a name: now a file with these bytes, or none.
#[derive(Drop)]
pub struct Entry {
    name: String,
    bytes: Option<Vec<u8>>,
}

/// Adds a change of a name, as the newest.
///
/// # Errors
///
/// There was no memory; nothing is changed.
pub fn set(
    alloc: Global,
    entries: &mut Vec<Entry>,
    name: &str,
    bytes: Option<Vec<u8>>,
) -> Result<(), AllocError>
    ensures sets { OnOk result (Sets (bytes_at entries.old.items) (bytes_at entries.new.items)
        name.now (contents_of bytes)) }
    ensures same { OnErr result (entries.new.items ≡ entries.old.items) }
{
    let name = String::from_str(alloc, name)?;
    entries.insert(0, Entry { name, bytes })?;
    Ok(())
}

// The bytes of an entry.
fn bytes_in(entry: &Entry) -> Option<&[u8]>
    ensures { option_map (λ bytes. bytes.now) result ≡ contents_of entry.now.bytes }
{
    match &entry.bytes {
        Some(bytes) => Some(bytes.as_slice()),
        None => None,
    }
}

/// The bytes of the file of this name, by changes of which the newest is the first.
pub fn found<'a>(entries: &'a [Entry], name: &str) -> Option<&'a [u8]>
    ensures { option_map (λ bytes. bytes.now) result ≡ bytes_at entries.now name.now }
{
    for entry in entries {
        if entry.name.as_str() == name {
            return bytes_in(entry);
        }
    }
    None
}

/// Creates an empty file with this name, which no file has.
///
/// # Errors
///
/// `AlreadyThere` if a file has the name, or `NoMemory`.
pub fn begun(alloc: Global, entries: &mut Vec<Entry>, part: &str) -> Result<MemDraft, FileFault>
    ensures none { OnOk result (bytes_at entries.old.items part.now ≡ None) }
    ensures empty { IfOk result (λ draft. ⟦<WriteSink<Vec<u8>> as Sink>⟧.written draft ≡ Some []) }
    ensures faults { IfOk result (λ draft. ⟦<WriteSink<Vec<u8>> as Sink>⟧.faults draft ≡ 0) }
    ensures others { (other : List ℕ) → other ≢ part.now
        → bytes_at entries.new.items other ≡ bytes_at entries.old.items other }
    ensures cause { IfErr result (λ fault. (fault ≡ FileFault.NoMemory)
        ⊎ ((fault ≡ FileFault.AlreadyThere) × IsSome (bytes_at entries.old.items part.now))) }
{
    if found(entries, part).is_some() {
        return Err(FileFault::AlreadyThere);
    }
    match set(alloc, entries, part, Some(Vec::new(alloc))) {
        Ok(()) => Ok(WriteSink::new(Vec::new(alloc))),
        Err(_) => Err(FileFault::NoMemory),
    }
}

/// Gives the name the bytes, and removes the part.
///
/// # Errors
///
/// `NoMemory`, in this call or in a write of the draft; every name but the part's is as it was.
pub fn published(
    alloc: Global,
    entries: &mut Vec<Entry>,
    draft: MemDraft,
    part: &str,
    name: &str,
) -> Result<(), FileFault>
    requires { part.now ≢ name.now }
    ensures put { OnOk result (Publishes (Some (bytes_at entries.old.items))
        (Some (bytes_at entries.new.items)) part.now name.now
        (⟦<WriteSink<Vec<u8>> as Sink>⟧.written draft)) }
    ensures whole { OnOk result (⟦<WriteSink<Vec<u8>> as Sink>⟧.faults draft ≡ 0) }
    ensures stays { OnErr result (Stays (Some (bytes_at entries.old.items))
        (Some (bytes_at entries.new.items)) part.now) }
    ensures cause { IfErr result (λ fault. fault ≡ FileFault.NoMemory) }
{
    if draft.fault().is_some() {
        return Err(FileFault::NoMemory);
    }
    if set(alloc, entries, part, None).is_err() {
        return Err(FileFault::NoMemory);
    }
    match set(alloc, entries, name, Some(draft.into_writer())) {
        Ok(()) => Ok(()),
        Err(_) => Err(FileFault::NoMemory),
    }
}

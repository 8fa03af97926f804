//! Parts: outputs while they are written, under names of their own.

use std::alloc::{AllocError, Global};
use std::fs::{File, Metadata, OpenOptions};
use std::io::ErrorKind;
use std::os::unix::fs::MetadataExt;
use std::path::Path;
use std::{fs, io};
use whole_file::{FileFault, fault_of, part_of};

// The most bytes of a name without its folder that leave room for the suffix, in the 255 that file
// systems have; and those that are kept of a longer one.
const MOST: usize = 239;

const SHORT: usize = 200;

/// The name of the part of an output: that name, without its end if it would be too long, with
/// `.navconvert.part` after it.
pub(crate) fn part_name(alloc: Global, name: &str) -> Result<String, AllocError> {
    let own = match Path::new(name).file_name() {
        Some(own) => own.len(),
        None => 0,
    };
    let mut kept = name;
    if own > MOST {
        let before = name.len().saturating_sub(own);
        let end = name.floor_char_boundary(before.saturating_add(SHORT));
        kept = name.get(..end).unwrap_or(name);
    }
    let own = format!(in alloc; "{kept}.navconvert")?;
    part_of(alloc, own.as_str())
}

/// Begins a part: a new file, locked while it is written. One that no run holds was left by a run
/// that was interrupted, and is removed.
pub(crate) fn begun(rt: &HostRuntime, part: &str) -> Result<File, FileFault> {
    match created(rt, part) {
        Err(error) if error.kind() == ErrorKind::AlreadyExists => {
            if !is_left(rt, part) {
                return Err(FileFault::AlreadyThere);
            }
            held(rt, part, created(rt, part))
        }
        file => held(rt, part, file),
    }
}

// Creates a file that is not there.
fn created(rt: &HostRuntime, part: &str) -> io::Result<File> {
    let mut options = OpenOptions::new();
    options.write(true).create_new(true);
    options.open(rt, part)
}

// The file, where this run holds it under its name; a file system without locks holds none.
fn held(rt: &HostRuntime, part: &str, file: io::Result<File>) -> Result<File, FileFault> {
    match file {
        Err(error) => Err(fault_of(error.kind())),
        Ok(file) => {
            if is_locked_out(&file) || !has_name(rt, &file, part) {
                return Err(FileFault::AlreadyThere);
            }
            Ok(file)
        }
    }
}

// Whether another run holds the file.
fn is_locked_out(file: &File) -> bool {
    match file.try_lock() {
        Ok(()) => false,
        Err(error) => io::Error::from(error).kind() == ErrorKind::WouldBlock,
    }
}

// Whether the file has this name.
fn has_name(rt: &HostRuntime, file: &File, name: &str) -> bool {
    match (file.metadata(), fs::symlink_metadata(rt, name)) {
        (Ok(file), Ok(there)) => is_one(&file, &there),
        _ => false,
    }
}

// Whether both are one file.
fn is_one(file: &Metadata, there: &Metadata) -> bool {
    file.dev() == there.dev() && file.ino() == there.ino()
}

// Takes away the part that a run which was cut off has left, and no run holds; whether that was
// done.
fn is_left(rt: &HostRuntime, part: &str) -> bool {
    match fs::symlink_metadata(rt, part) {
        Ok(there) if there.is_file() => {
            let mut options = OpenOptions::new();
            options.write(true);
            match options.open(rt, part) {
                Ok(file) => is_removed(rt, &file, part),
                Err(_) => false,
            }
        }
        _ => false,
    }
}

// Removes a part that this run could lock; whether that was done.
fn is_removed(rt: &HostRuntime, file: &File, part: &str) -> bool {
    file.try_lock().is_ok() && has_name(rt, file, part) && fs::remove_file(rt, part).is_ok()
}

//! What is read: standard input, or files, concatenated.

ghost use Rattle.std.specs.Prelude.{◌≡◌, IfOk};
ghost use Rattle.std.specs.Io.{ReadsAtMost};

use nav_io::{ReadSource, Source};
use std::fs::File;
use std::io::{Read, Stdin};
use std::{fs, io};
use whole_file::{FileFault, fault_of};

/// An input that is opened.
pub(crate) type Input<'a> = ReadSource<Bytes<'a>>;

/// The bytes of standard input, or of files.
#[derive(Drop)]
pub(crate) enum Bytes<'a> {
    /// Of standard input, after those that were read of it before.
    Standard(&'a [u8], Stdin),
    /// Of files, concatenated.
    Files(Files<'a>),
}

/// The bytes that replace a file, if it was converted before; of standard input the first bytes, if
/// they were read before.
pub(crate) type Staged = Option<Vec<u8>>;

/// Files that are read as one: their names, and the bytes that replace them, if there are any.
#[derive(Clone, Copy)]
pub(crate) struct Inputs<'a> {
    /// The names, `-` alone for standard input.
    pub names: &'a [&'a str],
    /// The bytes that replace the first of them.
    pub staged: &'a [Staged],
}

impl<'a> Inputs<'a> {
    // What is read of the file at this place.
    fn open(&self, rt: &HostRuntime, place: usize) -> io::Result<Option<Open<'a>>> {
        if let Some(Some(bytes)) = self.staged.get(place) {
            return Ok(Some(Open::Memory(bytes.as_slice())));
        }
        match self.names.get(place) {
            None => Ok(None),
            Some(name) => Ok(Some(Open::File(fs::open(rt, name)?))),
        }
    }
}

// What is read of one file.
#[derive(Drop)]
enum Open<'a> {
    File(File),
    Memory(&'a [u8]),
}

impl Open<'_> {
    // Reads some of it.
    fn read_some(&mut self, buf: &mut [u8]) -> io::Result<usize>
        ensures { ReadsAtMost result buf.new }
    {
        match self {
            Open::File(file) => file.read(buf),
            Open::Memory(bytes) => bytes.read(buf),
        }
    }
}

/// The file that is open, and those after it, of which some were opened.
#[derive(Drop)]
pub(crate) struct Files<'a> {
    rt: &'a HostRuntime,
    open: Open<'a>,
    inputs: Inputs<'a>,
    place: usize,
}

impl Files<'_> {
    // Opens the next file; whether there is one.
    fn open_next(&mut self) -> io::Result<bool> {
        let next = self.place.saturating_add(1);
        match self.inputs.open(self.rt, next)? {
            None => Ok(false),
            Some(open) => {
                self.open = open;
                self.place = next;
                Ok(true)
            }
        }
    }

    // Reads of the first file that has bytes left.
    fn read_some(&mut self, buf: &mut [u8]) -> io::Result<usize>
        ensures { ReadsAtMost result buf.new }
    {
        for _ in 0..self.inputs.names.len() {
            let count = self.open.read_some(buf)?;
            if count > 0 || !self.open_next()? {
                return Ok(count);
            }
        }
        self.open.read_some(buf)
    }
}

impl Read for Bytes<'_> {
    /// One `read` of standard input, or of the first file that has bytes left.
    fn read(&mut self, buf: &mut [u8]) -> io::Result<usize> {
        match self {
            Bytes::Standard(ahead, input) => {
                if ahead.is_empty() {
                    input.read(buf)
                } else {
                    ahead.read(buf)
                }
            }
            Bytes::Files(files) => files.read_some(buf),
        }
    }
}

/// Opens files. No read of them has failed.
pub(crate) fn opened<'a>(rt: &'a HostRuntime, inputs: Inputs<'a>) -> Result<Input<'a>, FileFault>
    ensures { IfOk result (λ input. ⟦<ReadSource<Bytes<'a>> as Source>⟧.faults input ≡ 0) }
{
    if let [file] = inputs.names {
        if *file == "-" {
            let ahead: &[u8] = match inputs.staged {
                [Some(bytes), ..] => bytes.as_slice(),
                _ => &[],
            };
            return Ok(ReadSource::new(Bytes::Standard(ahead, rt.stdin())));
        }
    }
    match inputs.open(rt, 0) {
        Ok(Some(open)) => Ok(ReadSource::new(Bytes::Files(Files {
            rt,
            open,
            inputs,
            place: 0,
        }))),
        Ok(None) => Err(FileFault::NotFound),
        Err(error) => Err(fault_of(error.kind())),
    }
}

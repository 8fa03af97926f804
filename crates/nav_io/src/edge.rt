//! A source over a `Read`, and a sink over a `Write`.

ghost use Rattle.std.specs.Prelude.{◌≡◌, ◌<◌, ◌↔◌, false};
ghost use Rattle.std.specs.Prelude.{IfOk, IsNone, MatchResult, length, take};
ghost use Rattle.std.specs.Io.{WritesAtMost};
ghost use Rattle.std.specs.Io.KnownBytes.{Appends, Keeps};
ghost use Rattle.nav_io.specs.Causes.{HasCause};

use crate::{Failed, Sink, Source};
use std::io::{ErrorKind, Read, Write};

/// A source over a reader. Contracts know its bytes if they know those of the reader: over memory,
/// not of a file, a pipe or a terminal.
#[derive(Drop)]
pub struct ReadSource<R: Read> {
    reader: R,
    faults: u64,
    // of the last fault
    kind: ErrorKind,
}

impl<R: Read> ReadSource<R> {
    /// A source over this reader, with no error counted.
    pub fn new(reader: R) -> Self
        ensures left { ⟦<ReadSource<R> as Source>⟧.left result ≡ R.remaining reader }
        ensures faults { ⟦<ReadSource<R> as Source>⟧.faults result ≡ 0 }
    {
        ReadSource {
            reader,
            faults: 0,
            kind: ErrorKind::Other,
        }
    }

    /// The kind of the last error, if any.
    pub fn fault(&self) -> Option<ErrorKind>
        ensures { IsNone result ↔ (⟦<ReadSource<R> as Source>⟧.faults self.now ≡ 0) }
    {
        if self.faults == 0 {
            None
        } else {
            Some(self.kind)
        }
    }
}

impl<R: Read> Source for ReadSource<R> {
    ghost left = { λ s. R.remaining s.reader };

    ghost faults = { λ s. s.faults };

    ghost never_fails = { λ _. false };

    /// One `read` of the reader. Each `Err` counts one error.
    fn read(&mut self, into: &mut [u8]) -> Result<usize, Failed> {
        match self.reader.read(into) {
            Ok(count) => Ok(count),
            Err(error) => {
                self.faults = self.faults.saturating_add(1);
                self.kind = error.kind();
                Err(Failed)
            }
        }
    }
}

/// A sink over a writer. Contracts know its bytes if they know those of the writer: over memory,
/// not of a file, a pipe or a terminal.
#[derive(Drop)]
pub struct WriteSink<W: Write> {
    writer: W,
    faults: u64,
    // of the last fault
    kind: ErrorKind,
}

impl<W: Write> WriteSink<W> {
    /// A sink over this writer, with no error counted.
    pub fn new(writer: W) -> Self
        ensures written { ⟦<WriteSink<W> as Sink>⟧.written result ≡ W.contents writer }
        ensures faults { ⟦<WriteSink<W> as Sink>⟧.faults result ≡ 0 }
    {
        WriteSink {
            writer,
            faults: 0,
            kind: ErrorKind::Other,
        }
    }

    /// The kind of the last error, if any: `WriteZero` for a `write` that took no byte.
    pub fn fault(&self) -> Option<ErrorKind>
        ensures { IsNone result ↔ (⟦<WriteSink<W> as Sink>⟧.faults self.now ≡ 0) }
    {
        if self.faults == 0 {
            None
        } else {
            Some(self.kind)
        }
    }

    /// The writer.
    pub fn into_writer(self) -> W
        ensures { W.contents result ≡ ⟦<WriteSink<W> as Sink>⟧.written self }
    {
        let WriteSink {
            writer,
            faults: _,
            kind: _,
        } = self;
        writer
    }

    /// One `write` of the writer, of a piece that isn't empty. An `Err`, and a `write` that takes
    /// no byte, counts one error.
    pub fn put(&mut self, piece: &[u8]) -> Result<usize, Failed>
        requires { 0 < length piece.now }
        ensures bound { WritesAtMost result piece.now }
        ensures some { IfOk result (λ count. 0 < count) }
        ensures bytes { MatchResult result
            (λ count. Appends (⟦<WriteSink<W> as Sink>⟧.written self.old)
            (⟦<WriteSink<W> as Sink>⟧.written self.new) (take count piece.now))
            (λ _. Keeps (⟦<WriteSink<W> as Sink>⟧.written self.old)
            (⟦<WriteSink<W> as Sink>⟧.written self.new)) }
        ensures cause { HasCause (⟦<WriteSink<W> as Sink>⟧.faults self.old)
            (⟦<WriteSink<W> as Sink>⟧.faults self.new) result }
    {
        let kind = match self.writer.write(piece) {
            Ok(0) => ErrorKind::WriteZero,
            Ok(count) => return Ok(count),
            Err(error) => error.kind(),
        };
        self.faults = self.faults.saturating_add(1);
        self.kind = kind;
        Err(Failed)
    }
}

impl<W: Write> Sink for WriteSink<W> {
    ghost written = { λ s. W.contents s.writer };

    ghost faults = { λ s. s.faults };

    /// Calls `write` of the writer until the piece is written, and then `flush`. An `Err` of
    /// either, and a `write` that takes no byte of a piece that isn't empty, counts one error and
    /// fails.
    fn write(&mut self, piece: &[u8]) -> Result<(), Failed> {
        let mut rest = piece;
        while !rest.is_empty() {
            match self.put(rest) {
                Ok(count) => rest = &rest[count..],
                Err(Failed) => return Err(Failed),
            }
        }
        match self.writer.flush() {
            Ok(()) => Ok(()),
            Err(error) => {
                self.faults = self.faults.saturating_add(1);
                self.kind = error.kind();
                Err(Failed)
            }
        }
    }
}

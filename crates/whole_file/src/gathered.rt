//! A buffered sink.

ghost use Rattle.std.specs.Prelude.{◌≡◌, ◌≤◌, ◌+◌, [], length};
ghost use Rattle.std.specs.Prelude.{◌↔◌, IfErr, IfOk, IsNone, IsOk};
ghost use Rattle.std.specs.Prelude.{OnOk, vec_capacity};
ghost use Rattle.std.specs.Io.KnownBytes.{Appends, Keeps};
ghost use Rattle.nav_io.specs.Causes.{HasCause, Rose};

use nav_io::{Failed, Sink, WriteSink};
use std::io::{ErrorKind, Write};

/// How many bytes a [`Gathered`] gathers.
pub const GATHERED: usize = 65_536;

/// A buffered sink over a writer, which writes 65,536 bytes at a time. Its known bytes are those
/// that the writer states, and then those in the buffer.
#[derive(Drop)]
pub struct Gathered<W: Write> {
    output: WriteSink<W>,
    kept: Vec<u8>,
    // how many of the buffered bytes are written
    out: usize,
    ghost within: { out ≤ length kept.items },
    ghost fits: { length kept.items ≤ 65536 },
    ghost room: { 65536 ≤ vec_capacity kept },
}

impl<W: Write> Gathered<W> {
    /// A sink over this writer with this buffer, which is empty and holds 65,536 bytes. Its error
    /// count is 0.
    pub fn new(kept: Vec<u8>, writer: W) -> Gathered<W>
        requires empty { kept.items ≡ [] }
        requires room { 65536 ≤ vec_capacity kept }
        ensures written { Keeps (W.contents writer) (⟦<Gathered<W> as Sink>⟧.written result) }
        ensures faults { ⟦<Gathered<W> as Sink>⟧.faults result ≡ 0 }
    {
        Gathered {
            output: WriteSink::new(writer),
            kept,
            out: 0,
        }
    }

    /// The writer, after the buffer was written; the sink itself if a write of it has failed, or
    /// fails now.
    pub fn finish(self) -> Result<W, Gathered<W>>
        // No byte is lost between the sink and the writer.
        ensures out { IfOk result (λ writer.
            Keeps (⟦<Gathered<W> as Sink>⟧.written self) (W.contents writer)) }
        ensures sound { OnOk result (⟦<Gathered<W> as Sink>⟧.faults self ≡ 0) }

        // It fails only where a write fails, or one had.
        ensures kept { IfErr result (λ sink. Keeps (⟦<Gathered<W> as Sink>⟧.written self)
            (⟦<Gathered<W> as Sink>⟧.written sink)) }
        ensures later { IfErr result (λ sink.
            ⟦<Gathered<W> as Sink>⟧.faults self ≤ ⟦<Gathered<W> as Sink>⟧.faults sink) }
        ensures failed { IfErr result (λ sink. Rose 0 (⟦<Gathered<W> as Sink>⟧.faults sink)) }
    {
        let mut sink = self;
        if sink.fault().is_some() || sink.put_out().is_err() {
            return Err(sink);
        }
        let Gathered {
            output,
            kept: _,
            out: _,
        } = sink;
        Ok(output.into_writer())
    }

    /// The kind of the last error, if any.
    pub fn fault(&self) -> Option<ErrorKind>
        ensures { IsNone result ↔ (⟦<Gathered<W> as Sink>⟧.faults self.now ≡ 0) }
    {
        self.output.fault()
    }

    // Buffers a piece, for which there is room.
    fn keep(&mut self, piece: &[u8]) -> Result<(), Failed>
        requires { length self.old.kept.items + length piece.now ≤ 65536 }
        ensures kept { IsOk result }
        ensures bytes { Appends (⟦<Gathered<W> as Sink>⟧.written self.old)
            (⟦<Gathered<W> as Sink>⟧.written self.new) piece.now }
        ensures faults { ⟦<Gathered<W> as Sink>⟧.faults self.new
            ≡ ⟦<Gathered<W> as Sink>⟧.faults self.old }
    {
        if self.kept.extend_from_slice(piece).is_err() {
            return Err(Failed);
        }
        Ok(())
    }

    // Writes the buffer.
    fn put_out(&mut self) -> Result<(), Failed>
        ensures none_lost { Keeps (⟦<Gathered<W> as Sink>⟧.written self.old)
            (⟦<Gathered<W> as Sink>⟧.written self.new) }
        ensures out { OnOk result (self.new.kept.items ≡ []) }
        ensures cause { HasCause (⟦<Gathered<W> as Sink>⟧.faults self.old)
            (⟦<Gathered<W> as Sink>⟧.faults self.new) result }
    {
        while self.out < self.kept.len() {
            match self.output.put(&self.kept[self.out..]) {
                Ok(count) => self.out += count,
                Err(_) => return Err(Failed),
            }
        }
        self.out = 0;
        self.kept.clear();
        Ok(())
    }
}

impl<W: Write> Sink for Gathered<W> {
    ghost use Rattle.std.specs.Prelude.{drop};
    ghost use Rattle.std.specs.Io.KnownBytes.{append_known};

    ghost written = { λ s. append_known (⟦<WriteSink<W> as Sink>⟧.written s.output)
        (drop s.out s.kept.items) };

    ghost faults = { λ s. ⟦<WriteSink<W> as Sink>⟧.faults s.output };

    /// Buffers the piece, and first writes the buffer if both do not fit. A piece longer than the
    /// buffer is written at once.
    fn write(&mut self, piece: &[u8]) -> Result<(), Failed> {
        if piece.len() <= GATHERED - self.kept.len() {
            return self.keep(piece);
        }
        self.put_out()?;
        if piece.len() > GATHERED {
            return self.output.write(piece);
        }
        self.keep(piece)
    }
}

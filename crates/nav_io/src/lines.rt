//! Splitting a source into lines.

ghost use Rattle.std.specs.Prelude.{◌≡◌, ◌+◌, ◌^◌, ◌<◌};
ghost use Rattle.std.specs.Prelude.{◌≤◌, [], ◌++◌, length, take};
ghost use Rattle.std.specs.Prelude.{drop, false, IsTrue, IsOk, IsErrOf, IfOk, IfErr};
ghost use Rattle.std.specs.Prelude.{IfSome, IfNone, OnOk, OnErr, MatchResult};
ghost use Rattle.std.specs.Io.KnownBytes.{Consumes, IsAtEnd, Keeps};
ghost use Rattle.nav_io.specs.Causes.{HasCause, Rose};
ghost use Rattle.nav_io.specs.Lines.{ends, without_cr};
ghost use Rattle.nav_io.specs.Mirrors.{EndsAt};

use crate::pieces::{MOST_TAKEN, read_piece};
use crate::{Failed, Source};
use arrayvec::ArrayVec;
use memchr::memchr;
use std::marker::Model;

// The most bytes of a line that is not `Long`.
const LONGEST: usize = 2200;

// The most bytes kept of a line not yet ended: the longest line, a CR and one byte more, which
// shows that it is long.
const KEPT: usize = 2202;

// The most bytes held: those and one piece read.
const HELD: usize = 6298;

/// What `Lines::next` found.
#[derive(Clone, Copy, PartialEq, Eq)]
pub enum LineKind {
    /// A line of at most 2,200 bytes.
    Text,
    /// A line of more than 2,200 bytes.
    Long,
    /// No line is left.
    End,
}

/// Why `Lines::next` failed.
#[derive(Clone, Copy, PartialEq, Eq, Debug)]
pub enum LineFault {
    /// A read failed. No byte read so far is lost, and a further call continues.
    ReadFault = 1,
    /// The source has more than 4,294,967,295 bytes. Each further call gives the same error.
    TooLong = 2,
}

/// Splits what a source gives into lines, in a buffer of fixed size.
///
/// A contract sees `rest`, the bytes read and not yet returned; `ended`, whether a read gave no
/// byte; `taken`, the count of bytes read; `number`, the count of lines so far; and `text`, the
/// last line.
#[derive(Drop)]
pub struct Lines {
    held: ArrayVec<u8, HELD>,
    // the buffer of one read
    piece: [u8; 4096],
    // offset of the first byte not yet returned
    start: usize,
    text_start: usize,
    text_len: usize,
    taken: u64,
    number: u32,
    ended: bool,
}

impl Model for Lines {
    ghost use Rattle.std.specs.Prelude.{◌+◌, ◌-◌, ◌^◌, ◌≤◌, length, take, drop};
    ghost use Rattle.nav_io.specs.LinesState.{LinesState};

    ghost Value = { LinesState };

    ghost view = { λ l. record {
      rest = drop l.start l.held.items;
      ended = l.ended;
      taken = l.taken;
      number = l.number;
      text = take l.text_len (drop l.text_start l.held.items);
    } };

    ghost invariant = { λ l. (l.start ≤ length l.held.items)
        × (l.text_start + l.text_len ≤ length l.held.items)
        × (l.number + (length l.held.items - l.start) ≤ l.taken)
        × (l.taken ≤ 2 ^ 32) };
}

impl Lines {
    ghost use Rattle.std.specs.Prelude.{◌≡◌, ◌^◌, ◌<◌, ◌≤◌};
    ghost use Rattle.std.specs.Prelude.{[], length, take, true, false, IsTrue};
    ghost use Rattle.std.specs.Prelude.{IsOk, IsErrOf, IfOk, IfErr, IfSome, IfNone, OnOk, OnErr};
    ghost use Rattle.std.specs.Io.KnownBytes.{Keeps};
    ghost use Rattle.nav_io.specs.Causes.{HasCause, Rose};
    ghost use Rattle.nav_io.specs.Lines.{ends, line_of};
    ghost use Rattle.nav_io.specs.LineAnswers.{Answers, Breaks};
    ghost use Rattle.nav_io.specs.Mirrors.{EndsAt, kind_of, PassesLine};
    ghost use Rattle.nav_io.specs.Mirrors.{GivesLast, KeepsOpen, Fills};

    /// A line reader that has read nothing.
    pub fn new() -> Lines
        ensures rest { result.rest ≡ [] }
        ensures ended { result.ended ≡ false }
        ensures taken { result.taken ≡ 0 }
        ensures number { result.number ≡ 0 }
        ensures text { result.text ≡ [] }
    {
        Lines {
            held: ArrayVec::new(),
            piece: [0; 4096],
            start: 0,
            text_start: 0,
            text_len: 0,
            taken: 0,
            number: 0,
            ended: false,
        }
    }

    /// The line that the last `next` found, of a `Long` one its first 2,200 bytes; empty if it
    /// found none.
    pub fn text(&self) -> &[u8]
        ensures { result.now ≡ self.now.text }
    {
        &self.held[self.text_start..self.text_start + self.text_len]
    }

    /// The number of the last line, counted from 1.
    pub fn number(&self) -> u32
        ensures { result ≡ self.now.number }
    {
        self.number
    }

    /// The next line: its kind, after which `text` gives it.
    ///
    /// A line ends at LF, and one CR before it is dropped, also at the end of the last line, which
    /// may lack its LF if it has a byte. Reads only while the bytes held have no LF, at most 4,096
    /// bytes at a time, and never after a read that gave no byte.
    ///
    /// `ReadFault`: a read failed, and the source's count of errors rose. `TooLong`: 4,294,967,295
    /// bytes were read and one more was there.
    pub fn next<S: Source>(&mut self, source: &mut S) -> Result<LineKind, LineFault>
        ensures answer { IfOk result (λ kind.
            Answers kind (S.left source.old) (S.left source.new) self.old self.new) }
        ensures fault { IfErr result (λ fault.
            Breaks fault (S.left source.old) (S.left source.new) self.old self.new) }

        // A read fails only where the source counts a fault.
        ensures read { IsErrOf result LineFault.ReadFault
            → Rose (S.faults source.old) (S.faults source.new) }
        ensures quiet { OnOk result (S.faults source.new ≡ S.faults source.old) }
        ensures long { IsErrOf result LineFault.TooLong
            → (S.faults source.new ≡ S.faults source.old) }
        ensures never { IsTrue (S.never_fails source.old)
            → (IsErrOf result LineFault.ReadFault → ⊥) × IsTrue (S.never_fails source.new) }

        // Nothing is read while a complete line is held, nor after the end.
        ensures held { ends self.old.rest ≡ true → source.new ≡ source.old }
        ensures after_end { self.old.ended ≡ true → source.new ≡ source.old }
    {
        self.text_len = 0;
        let mut looked = 0;
        'reading: while self.taken <= MOST_TAKEN {
            if let Some(len) = self.end_behind(looked) {
                return Ok(self.give(len, len + 1));
            }
            if self.ended {
                return Ok(self.give_last());
            }
            match self.fill(source) {
                Ok(kept) => looked = kept,
                Err(Failed) => return Err(LineFault::ReadFault),
            }
        }
        Err(LineFault::TooLong)
    }

    // The bytes read and not yet returned.
    fn rest(&self) -> &[u8]
        ensures { result.now ≡ self.now.rest }
    {
        &self.held[self.start..]
    }

    // The offset of the first LF of the rest, where none is before offset `looked`.
    fn end_behind(&self, looked: usize) -> Option<usize>
        requires looked { looked ≤ length self.now.rest }
        requires none { ends (take looked self.now.rest) ≡ false }
        ensures some { IfSome result (λ place. EndsAt self.now.rest place × (looked ≤ place)) }
        ensures none { IfNone result (ends self.now.rest ≡ false) }
    {
        match first_end(&self.rest()[looked..]) {
            Some(place) => Some(looked + place),
            None => None,
        }
    }

    // Returns the first `len` bytes of the rest as a line, and passes `passed` bytes.
    fn give(&mut self, len: usize, passed: usize) -> LineKind
        requires len { len ≤ passed }
        requires some { 0 < passed }
        requires within { passed ≤ length self.old.rest }
        requires low { self.old.taken < 2 ^ 32 }
        ensures passes { PassesLine self.old self.new len passed }
        ensures kind { result ≡ kind_of (line_of (take len self.old.rest)) }
    {
        let rest = &self.held[self.start..];
        let length = length_without_cr(&rest[..len]);
        self.text_start = self.start;
        self.text_len = length.min(LONGEST);
        self.start += passed;
        self.number += 1;
        if length > LONGEST {
            LineKind::Long
        } else {
            LineKind::Text
        }
    }

    // Returns all of the rest as the last line, or `End` where it is empty.
    fn give_last(&mut self) -> LineKind
        requires low { self.old.taken < 2 ^ 32 }
        ensures { GivesLast result self.old self.new }
    {
        let len = self.held.len() - self.start;
        if len == 0 {
            self.text_len = 0;
            return LineKind::End;
        }
        self.give(len, len)
    }

    // Drops all but the first 2,202 bytes of the rest, and reads a piece after them. Gives how many
    // bytes were kept.
    fn fill<S: Source>(&mut self, source: &mut S) -> Result<usize, Failed>
        requires low { self.old.taken < 2 ^ 32 }
        ensures ok { IfOk result (λ kept.
            Fills (S.left source.old) (S.left source.new) self.old self.new
            × (kept ≡ length (take 2202 self.old.rest))) }
        ensures err { OnErr result
            (Keeps (S.left source.old) (S.left source.new) × KeepsOpen self.old self.new) }
        ensures cause { HasCause (S.faults source.old) (S.faults source.new) result }
        ensures never { IsTrue (S.never_fails source.old)
            → IsOk result × IsTrue (S.never_fails source.new) }
    {
        keep_open(&mut self.held, self.start);
        self.start = 0;
        self.text_start = 0;
        self.text_len = 0;
        let kept = self.held.len();
        match read_piece(source, self.taken, &mut self.piece) {
            Ok(count) => {
                append(&mut self.held, &self.piece[..count]);
                self.taken += count as u64;
                self.ended = count == 0;
                Ok(kept)
            }
            Err(Failed) => Err(Failed),
        }
    }
}

/// The offset of the first LF.
pub fn first_end(bytes: &[u8]) -> Option<usize>
    ensures some { IfSome result (λ place. EndsAt bytes.now place) }
    ensures none { IfNone result (ends bytes.now ≡ false) }
{
    memchr(b'\n', bytes)
}

/// The length of a line without a CR at its end.
pub fn length_without_cr(line: &[u8]) -> usize
    ensures within { result ≤ length line.now }
    ensures value { take result line.now ≡ without_cr line.now }
{
    if line.is_empty() {
        return 0;
    }
    let last = line.len() - 1;
    if line[last] == b'\r' { last } else { last + 1 }
}

// Drops the bytes before offset `start`, and keeps the first 2,202 of the others.
fn keep_open(held: &mut ArrayVec<u8, HELD>, start: usize)
    requires { start ≤ length held.old.items }
    ensures { held.new.items ≡ take 2202 (drop start held.old.items) }
{
    if start != 0 {
        held.drain(..start);
    }
    held.truncate(KEPT);
}

// Appends a piece, for which there is room.
fn append(held: &mut ArrayVec<u8, HELD>, piece: &[u8])
    requires { length held.old.items + length piece.now ≤ 6298 }
    ensures { held.new.items ≡ held.old.items ++ piece.now }
{
    if held.try_extend_from_slice(piece).is_err() {
        unreachable!();
    }
}

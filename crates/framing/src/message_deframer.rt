//! Finding messages in bytes that come in pieces.

ghost use Rattle.std.specs.Prelude.{◌≡◌, ◌+◌, ◌-◌, ◌<◌, ◌≤◌};
ghost use Rattle.std.specs.Prelude.{◌↔◌, [], ◌++◌, length, take, drop};
ghost use Rattle.std.specs.Prelude.{true, false, not, IsTrue};
ghost use Rattle.arrayvec.specs.ArrayVec.{array_vec_len};
ghost use Rattle.framing.specs.Headings.{format_of};
ghost use Rattle.framing.specs.MessageState.{IsWaiting};
ghost use Rattle.framing.specs.MessageMirrors.{Promises};

use crate::judge::Judge;
use crate::message_form::{waits, wanted_of};
use crate::search::find;
use arrayvec::ArrayVec;
use std::marker::Model;

// The most bytes held before a piece is fed: 16,384 less than there is room for.
const FULL: usize = 81_920;

/// Takes the bytes of a stream in pieces and gives the messages in them, in order.
///
/// A contract sees `rest`, the bytes fed and not yet passed; `finished`, whether `finish` was
/// called; and `message`, the message found last.
#[derive(Drop)]
pub struct MessageDeframer<J: Judge> {
    bytes: ArrayVec<u8, 98_304>,
    judge: J,
    // offset of the message found last
    found: usize,
    // offset of the first byte not yet passed: the end of that message
    start: usize,
    // while fewer bytes are held, no message is decided
    wanted: usize,
    finished: bool,
}

impl<J: Judge> Model for MessageDeframer<J> {
    ghost use Rattle.std.specs.Prelude.{◌-◌, ◌≤◌, length, take, drop};
    ghost use Rattle.framing.specs.Headings.{format_of};
    ghost use Rattle.framing.specs.MessageState.{DeframerState};
    ghost use Rattle.framing.specs.MessageMirrors.{Promises};

    ghost Value = { DeframerState };

    ghost view = { λ d. record {
      rest = drop d.start d.bytes.items;
      finished = d.finished;
      message = take (d.start - d.found) (drop d.found d.bytes.items);
    } };

    ghost invariant = { λ d. (d.found ≤ d.start) × (d.start ≤ length d.bytes.items)
        × Promises (format_of J.heading) (drop d.start d.bytes.items) (d.wanted - d.start)
        × J.IsBeside d.judge d.bytes.items };
}

impl<J: Judge> MessageDeframer<J> {
    ghost use Rattle.std.specs.Prelude.{◌≡◌, ◌<◌, ◌≤◌};
    ghost use Rattle.std.specs.Prelude.{◌↔◌, [], ◌++◌, length, take};
    ghost use Rattle.std.specs.Prelude.{true, false, not, IsTrue};
    ghost use Rattle.framing.specs.Headings.{format_of};
    ghost use Rattle.framing.specs.MessageState.{MayFeed, TakesMessage, TakesNone};

    /// A deframer that holds no byte.
    pub fn new() -> Self
        ensures rest { result.rest ≡ [] }
        ensures finished { result.finished ≡ false }
    {
        MessageDeframer {
            bytes: ArrayVec::new(),
            judge: J::new(),
            found: 0,
            start: 0,
            wanted: 0,
            finished: false,
        }
    }

    /// Takes a piece of at most 16,384 bytes.
    ///
    /// Allowed where `may_feed` holds: after `new`, and after each `next_message` that gave
    /// `false`, until `finish` is called.
    pub fn feed(&mut self, piece: &[u8])
        requires may_feed { MayFeed (format_of J.heading) self.old }
        requires short { length piece.now ≤ 16384 }
        ensures rest { self.new.rest ≡ self.old.rest ++ piece.now }
        ensures finished { self.new.finished ≡ self.old.finished }
    {
        make_room(
            &mut self.bytes,
            &mut self.judge,
            &mut self.start,
            &mut self.wanted,
        );
        self.found = self.start;
        append(&mut self.bytes, piece);
    }

    /// Finds the next message, which `message` then gives, and passes the bytes up to its end;
    /// `false` if there is none.
    ///
    /// Before `finish` it gives `false` exactly if no message is decided: the bytes held then begin
    /// with an incomplete message, or none are held. After `finish` it gives `false` exactly if no
    /// message is left, and then holds nothing.
    pub fn next_message(&mut self) -> bool
        ensures message { IsTrue result → TakesMessage (format_of J.heading)
            (not self.old.finished) self.old.rest self.new.message self.new.rest }
        ensures none { result ≡ false → TakesNone (format_of J.heading)
            (not self.old.finished) self.old.rest self.new.rest }
        ensures finished { self.new.finished ≡ self.old.finished }
    {
        if !self.finished && self.bytes.len() < self.wanted {
            return false;
        }
        let (place, size) = find(
            &mut self.judge,
            self.bytes.as_slice(),
            self.start,
            !self.finished,
        );
        self.found = place;
        self.start = place + size;
        if size == 0 {
            self.wanted = wanted_from::<J>(self.bytes.as_slice(), place);
            return false;
        }
        self.wanted = 0;
        true
    }

    /// The message found last.
    pub fn message(&self) -> &[u8]
        ensures { result.now ≡ self.now.message }
    {
        &self.bytes.as_slice()[self.found..self.start]
    }

    /// Ends the input: an incomplete message stays incomplete, and messages inside its bytes are
    /// searched for.
    pub fn finish(&mut self)
        ensures rest { self.new.rest ≡ self.old.rest }
        ensures finished { self.new.finished ≡ true }
    {
        self.finished = true;
    }

    /// Whether bytes may be fed: `finish` was not called, and no message is decided.
    pub fn may_feed(&self) -> bool
        ensures { IsTrue result ↔ MayFeed (format_of J.heading) self.now }
    {
        !self.finished && waits::<J>(&self.bytes.as_slice()[self.start..])
    }
}

// The count of bytes below which no message is decided, for the waiting bytes from offset `place`.
fn wanted_from<J: Judge>(bytes: &[u8], place: usize) -> usize
    requires inside { place ≤ length bytes.now }
    requires few { length bytes.now ≤ 98304 }
    requires waiting { IsWaiting (format_of J.heading) (drop place bytes.now) }
    ensures { Promises (format_of J.heading) (drop place bytes.now) (result - place) }
{
    place + wanted_of::<J>(&bytes[place..])
}

// Appends bytes, for which there is room.
fn append(bytes: &mut ArrayVec<u8, 98_304>, piece: &[u8])
    requires { array_vec_len bytes.old + length piece.now ≤ 98304 }
    ensures { bytes.new.items ≡ bytes.old.items ++ piece.now }
{
    if bytes.try_extend_from_slice(piece).is_err() {
        unreachable!();
    }
}

// Moves the bytes not yet passed to the start of the buffer, where none are left or a piece has no
// room behind them.
fn make_room<J: Judge>(
    bytes: &mut ArrayVec<u8, 98_304>,
    judge: &mut J,
    start: &mut usize,
    wanted: &mut usize,
)
    requires inside { start.old ≤ length bytes.old.items }
    requires short { length (drop start.old bytes.old.items) ≤ 81920 }
    requires beside { J.IsBeside judge.old bytes.old.items }
    ensures inside { start.new ≤ length bytes.new.items }
    ensures rest { drop start.new bytes.new.items ≡ drop start.old bytes.old.items }
    ensures wanted { wanted.new - start.new ≡ wanted.old - start.old }
    ensures room { length bytes.new.items ≤ 81920 }
    ensures beside { J.IsBeside judge.new bytes.new.items }
{
    if *start == bytes.len() || bytes.len() > FULL {
        cut_prefix(bytes, judge, *start);
        *wanted = wanted.saturating_sub(*start);
        *start = 0;
    }
}

// Removes the first `count` bytes.
fn cut_prefix<J: Judge>(bytes: &mut ArrayVec<u8, 98_304>, judge: &mut J, count: usize)
    requires { count ≤ length bytes.old.items }
    ensures bytes { bytes.new.items ≡ drop count bytes.old.items }
    ensures beside { J.IsBeside judge.old bytes.old.items
        → J.IsBeside judge.new bytes.new.items }
{
    bytes.drain(..count);
    judge.cut_prefix(count);
}

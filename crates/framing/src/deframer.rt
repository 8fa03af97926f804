//! Finds the frames in a stream that is fed byte by byte or in pieces.

ghost use Rattle.std.specs.Prelude.{◌≡◌, ◌+◌, ◌-◌, ◌<◌, ◌≤◌};
ghost use Rattle.std.specs.Prelude.{◌↔◌, [], ◌∷◌, ◌++◌, length, take};
ghost use Rattle.std.specs.Prelude.{drop, true, false, not, IsTrue, IfSome, IfNone};
ghost use Rattle.framing.specs.Frames.{frame_size};
ghost use Rattle.framing.specs.State.{IsWaiting};
ghost use Rattle.framing.specs.Mirrors.{from_first, Promises};

use crate::form::{is_held, next_start, waits, wanted_of};
use crate::frame::Frame;
use crate::window::Window;
use std::marker::Model;

/// Finds the frames in a stream of bytes and gives them in order (RTCM 10403.3, the transport
/// layer).
///
/// Contracts see `rest`, the bytes that were fed and are not yet consumed, and `finished`, whether
/// `finish` was called.
#[derive(Drop)]
pub struct Deframer {
    window: Window,
    // the offset of the first byte that is not yet consumed
    start: usize,
    // while the window has fewer bytes than this, no frame can be decided
    wanted: usize,
    finished: bool,
}

impl Model for Deframer {
    ghost use Rattle.std.specs.Prelude.{◌-◌, ◌≤◌, length, drop};
    ghost use Rattle.framing.specs.State.{DeframerState};
    ghost use Rattle.framing.specs.Mirrors.{Promises};

    ghost Value = { DeframerState };

    ghost view = { λ d. record { rest = drop d.start d.window; finished = d.finished } };

    ghost invariant = { λ d. (d.start ≤ length d.window)
        × Promises (drop d.start d.window) (d.wanted - d.start) };
}

impl Deframer {
    ghost use Rattle.std.specs.Prelude.{◌≡◌, ◌<◌, ◌≤◌, ◌↔◌, []};
    ghost use Rattle.std.specs.Prelude.{◌∷◌, ◌++◌, length, take, false};
    ghost use Rattle.std.specs.Prelude.{not, IsTrue, IfSome, IfNone};
    ghost use Rattle.framing.specs.State.{MayFeed, TakesFrame, TakesNone};

    /// A deframer that has been fed no byte.
    pub fn new() -> Self
        ensures rest { result.rest ≡ [] }
        ensures finished { result.finished ≡ false }
    {
        Deframer {
            window: Window::new(),
            start: 0,
            wanted: 0,
            finished: false,
        }
    }

    /// Feeds one byte. Allowed where `may_feed` holds: after `new`, and after each `next_frame`
    /// that returned `None`, until `finish` is called.
    pub fn feed(&mut self, byte: u8)
        requires { MayFeed self.old }
        ensures rest { self.new.rest ≡ self.old.rest ++ byte ∷ [] }
        ensures finished { self.new.finished ≡ self.old.finished }
    {
        make_room(&mut self.window, &mut self.start, &mut self.wanted);
        self.window.push(byte);
    }

    /// Feeds bytes from the start of a piece, as many as fit but at least one, and gives how many.
    ///
    /// Allowed where `may_feed` holds, as `feed`. This is faster than feeding the bytes one by one.
    pub fn feed_some(&mut self, piece: &[u8]) -> usize
        requires may_feed { MayFeed self.old }
        requires some { 0 < length piece.now }
        ensures some { 0 < result }
        ensures within { result ≤ length piece.now }
        ensures rest { self.new.rest ≡ self.old.rest ++ take result piece.now }
        ensures finished { self.new.finished ≡ self.old.finished }
    {
        make_room(&mut self.window, &mut self.start, &mut self.wanted);
        let count = piece.len().min(4096 - self.window.len());
        self.window.append(&piece[..count]);
        count
    }

    /// Gives the next frame and consumes the bytes up to its end.
    ///
    /// Before `finish`, `None` means that no frame is decided yet: what is left is empty or begins
    /// with an incomplete frame. After `finish`, `None` means that there is no further frame, and
    /// nothing is left.
    pub fn next_frame(&mut self) -> Option<Frame>
        ensures frame { IfSome result (λ frame.
            TakesFrame (not self.old.finished) self.old.rest frame self.new.rest) }
        ensures none { IfNone result
            (TakesNone (not self.old.finished) self.old.rest self.new.rest) }
        ensures finished { self.new.finished ≡ self.old.finished }
    {
        let mut frame = Frame::without_payload();
        if self.next_into(&mut frame) {
            Some(frame)
        } else {
            None
        }
    }

    /// Whether there is a next frame, as [`Deframer::next_frame`]. It takes the place of the one in
    /// the caller's buffer, so that none is moved.
    pub fn next_into(&mut self, frame: &mut Frame) -> bool
        ensures frame { result ≡ true →
            TakesFrame (not self.old.finished) self.old.rest frame.new self.new.rest }
        ensures none { result ≡ false →
            TakesNone (not self.old.finished) self.old.rest self.new.rest }
        ensures finished { self.new.finished ≡ self.old.finished }
    {
        if !self.finished && self.window.len() < self.wanted {
            return false;
        }
        let size = decide(
            &mut self.window,
            &mut self.start,
            &mut self.wanted,
            !self.finished,
        );
        if size == 0 {
            return false;
        }
        put_frame(&self.window, self.start, size, frame);
        self.start += size;
        self.wanted = 0;
        true
    }

    /// Ends the input: no byte follows. A frame that is incomplete stays so; the bytes after its
    /// preamble are then searched for frames.
    pub fn finish(&mut self)
        ensures rest { self.new.rest ≡ self.old.rest }
        ensures finished { self.new.finished ≡ true }
    {
        self.finished = true;
    }

    /// Whether a byte may be fed: `finish` was not called, and no frame is decided.
    pub fn may_feed(&self) -> bool
        ensures { IsTrue result ↔ MayFeed self.now }
    {
        !self.finished && waits(&self.window.bytes()[self.start..])
    }
}

// Consumes the bytes before the first frame or, where more may come, the first incomplete frame.
// Gives the size of the frame there, or 0 where it is incomplete or there is none.
#[inline(never)]
fn decide(window: &mut Window, start: &mut usize, wanted: &mut usize, more: bool) -> usize
    requires { start.old ≤ length window.old }
    ensures inside { start.new ≤ length window.new }
    ensures rest { drop start.new window.new ≡ from_first more (drop start.old window.old) }
    ensures size { result ≡ frame_size (drop start.new window.new) }
    ensures end { 0 < result → start.new + result ≤ 4096 }
    ensures promise { result ≡ 0 → Promises (drop start.new window.new) (wanted.new - start.new) }
{
    let (place, size) = find(window, *start, more);
    *start = place;
    if size == 0 {
        *wanted = undecided_below(window, start);
    }
    size
}

// The first offset from `start` on where a frame begins or, where more bytes may come, an
// incomplete one does; and the size of the frame there, or 0.
#[tactic(auto, using(crate::proofs::Takes::steps))]
fn find(window: &mut Window, start: usize, more: bool) -> (usize, usize)
    requires { start ≤ length window.old }
    ensures inside { result.0 ≤ length window.old }
    ensures place { drop result.0 window.old ≡ from_first more (drop start window.old) }
    ensures size { result.1 ≡ frame_size (drop result.0 window.old) }
    ensures end { result.0 + result.1 ≤ 4096 }
    ensures same { window.new ≡ window.old }
{
    let mut place = start;
    while place < window.len() {
        if is_held(&window.bytes()[place..], more) {
            return (place, 0);
        }
        let size = window.size_at(place);
        if size != 0 {
            return (place, size);
        }
        place = next_start(window.bytes(), place + 1);
    }
    (place, 0)
}

// Puts the frame of `size` bytes at this offset into the caller's room.
#[tactic(auto, using(crate::proofs::Takes::sizes))]
fn put_frame(window: &Window, place: usize, size: usize, frame: &mut Frame)
    requires size { size ≡ frame_size (drop place window.now) }
    requires some { 0 < size }
    requires end { place + size ≤ 4096 }
    ensures { frame.new ≡ take size (drop place window.now) }
{
    frame.set(&window.bytes()[place..place + size]);
}

// The number of bytes in the window below which no frame is decided. An all-consumed window is
// cleared.
#[tactic(auto, using(crate::proofs::Promising::promises))]
fn undecided_below(window: &mut Window, start: &mut usize) -> usize
    requires inside { start.old ≤ length window.old }
    requires waiting { IsWaiting (drop start.old window.old) }
    ensures inside { start.new ≤ length window.new }
    ensures rest { drop start.new window.new ≡ drop start.old window.old }
    ensures promise { Promises (drop start.new window.new) (result - start.new) }
{
    if *start == window.len() {
        window.clear();
        *start = 0;
        return 1;
    }
    *start + wanted_of(&window.bytes()[*start..])
}

// Moves the unconsumed bytes to the start of a full window.
fn make_room(window: &mut Window, start: &mut usize, wanted: &mut usize)
    requires inside { start.old ≤ length window.old }
    requires short { length (drop start.old window.old) < 4096 }
    ensures inside { start.new ≤ length window.new }
    ensures rest { drop start.new window.new ≡ drop start.old window.old }
    ensures wanted { wanted.new - start.new ≡ wanted.old - start.old }
    ensures room { length window.new < 4096 }
{
    if window.len() == 4096 {
        window.cut_prefix(*start);
        *wanted = wanted.saturating_sub(*start);
        *start = 0;
    }
}

//! A source and a sink over memory, with short reads and failing calls.

ghost use Rattle.std.specs.Prelude.{◌≡◌, ◌+◌, ◌-◌, ◌^◌};
ghost use Rattle.std.specs.Prelude.{◌<◌, ◌≤◌, ◌↔◌, ◌⊎◌, []};
ghost use Rattle.std.specs.Prelude.{min, length, take, drop, IsTrue, IsOk, IsErr};
ghost use Rattle.std.specs.Prelude.{IfOk, OnErr, MatchResult, Contains, None, Some};
ghost use Rattle.std.specs.Io.{ReadsAtMost};
ghost use Rattle.std.specs.Io.KnownBytes.{Appends, ReadConsumes};
ghost use Rattle.nav_io.specs.Causes.{HasCause};
ghost use Rattle.nav_io.specs.Prefix.{AppendsPrefix};
ghost use Rattle.nav_io.specs.Memory.{cut_of};

use crate::{Failed, Sink, Source};
use std::alloc::{AllocError, Global};
use std::marker::Model;

/// A source over bytes in memory that gives them in pieces of chosen sizes and fails at chosen
/// calls.
#[derive(Drop)]
pub struct MemSource {
    bytes: Vec<u8>,
    taken: usize,
    cuts: Vec<u32>,
    successes: usize,
    fails: Vec<u32>,
    calls: u64,
    faults: u64,
}

impl Model for MemSource {
    ghost use Rattle.std.specs.Prelude.{◌≤◌, length, drop};
    ghost use Rattle.nav_io.specs.Memory.{SourceState};

    ghost Value = { SourceState };

    ghost view = { λ s. record {
      left = drop s.taken s.bytes.items;
      cuts = drop s.successes s.cuts.items;
      fails = s.fails.items;
      calls = s.calls;
      faults = s.faults;
    } };

    ghost invariant = { λ s. (s.taken ≤ length s.bytes.items)
        × (s.successes ≤ length s.cuts.items) };
}

impl MemSource {
    /// A source over these bytes, with no error counted.
    ///
    /// The k-th call that succeeds gives at most `cuts[k]` bytes, where 0 counts as 1; past the end
    /// of `cuts` there is no limit. The calls listed in `fails` fail, counted from 0 over all
    /// calls.
    pub fn new(bytes: Vec<u8>, cuts: Vec<u32>, fails: Vec<u32>) -> MemSource
        ensures left { result.left ≡ bytes.items }
        ensures cuts { result.cuts ≡ cuts.items }
        ensures fails { result.fails ≡ fails.items }
        ensures calls { result.calls ≡ 0 }
        ensures faults { result.faults ≡ 0 }
    {
        MemSource {
            bytes,
            taken: 0,
            cuts,
            successes: 0,
            fails,
            calls: 0,
            faults: 0,
        }
    }

    /// The bytes that are left.
    pub fn left(&self) -> &[u8]
        ensures { result.now ≡ self.now.left }
    {
        &self.bytes[self.taken..]
    }
}

impl Source for MemSource {
    ghost use Rattle.std.specs.Prelude.{Some, length, ◌==◌};

    ghost left = { λ s. Some s.left };

    ghost faults = { λ s. s.faults };

    ghost never_fails = { λ s. length s.fails == 0 };

    /// Gives the bytes left, up to the limit of this call.
    fn read(&mut self, into: &mut [u8]) -> Result<usize, Failed>
        ensures bound { ReadsAtMost result into.new }
        ensures bytes { ReadConsumes (Some self.old.left) (Some self.new.left) result into.new }
        ensures cause { HasCause self.old.faults self.new.faults result }
        ensures never { IsTrue (length self.old.fails == 0)
            → IsOk result × IsTrue (length self.new.fails == 0) }

        ensures fails { self.new.fails ≡ self.old.fails }
        ensures calls { self.new.calls ≡ min (self.old.calls + 1) (2 ^ 64 - 1) }
        ensures failed { IsErr result ↔ Contains self.old.fails self.old.calls }

        // A call that succeeds uses up its cut.
        ensures cut { IfOk result (λ count. count ≤ cut_of self.old.cuts) }
        ensures cuts { MatchResult result (λ _. self.new.cuts ≡ drop 1 self.old.cuts)
            (λ _. self.new.cuts ≡ self.old.cuts) }
    {
        let call = self.calls;
        self.calls = call.saturating_add(1);
        if is_listed(&self.fails, call) {
            self.faults = self.faults.saturating_add(1);
            return Err(Failed);
        }
        let most = next_cut(&self.cuts[self.successes..]);
        let count = give(&self.bytes[self.taken..], most, into);
        self.taken += count;
        self.successes = (self.successes + 1).min(self.cuts.len());
        Ok(count)
    }
}

/// A sink in memory for `room` bytes that fails at chosen calls.
#[derive(Drop)]
pub struct MemSink {
    bytes: Vec<u8>,
    room: usize,
    fails: Vec<u32>,
    calls: u64,
    faults: u64,
}

impl Model for MemSink {
    ghost use Rattle.std.specs.Prelude.{◌≤◌, ◌+◌, length, vec_capacity};
    ghost use Rattle.nav_io.specs.Memory.{SinkState};

    ghost Value = { SinkState };

    ghost view = { λ s. record {
      bytes = s.bytes.items;
      room = s.room;
      fails = s.fails.items;
      calls = s.calls;
      faults = s.faults;
    } };

    ghost invariant = { λ s. length s.bytes.items + s.room ≤ vec_capacity s.bytes };
}

impl MemSink {
    /// An empty sink with no error counted, for which `room` bytes are reserved.
    ///
    /// A call listed in `fails`, counted from 0 over all calls, or whose piece exceeds the free
    /// space left, appends nothing and fails. `AllocError`: there is not enough memory for `room`
    /// bytes.
    pub fn new(alloc: Global, room: usize, fails: Vec<u32>) -> Result<MemSink, AllocError>
        ensures bytes { IfOk result (λ sink. sink.bytes ≡ []) }
        ensures room { IfOk result (λ sink. sink.room ≡ room) }
        ensures fails { IfOk result (λ sink. sink.fails ≡ fails.items) }
        ensures calls { IfOk result (λ sink. sink.calls ≡ 0) }
        ensures faults { IfOk result (λ sink. sink.faults ≡ 0) }
    {
        let bytes = Vec::with_capacity(alloc, room)?;
        Ok(MemSink {
            bytes,
            room,
            fails,
            calls: 0,
            faults: 0,
        })
    }

    /// The bytes so far.
    pub fn bytes(&self) -> &[u8]
        ensures { result.now ≡ self.now.bytes }
    {
        &self.bytes
    }
}

impl Sink for MemSink {
    ghost use Rattle.std.specs.Prelude.{Some};

    ghost written = { λ s. Some s.bytes };

    ghost faults = { λ s. s.faults };

    /// Appends the complete piece, or fails and appends nothing.
    fn write(&mut self, piece: &[u8]) -> Result<(), Failed>
        ensures bytes { MatchResult result
            (λ _. Appends (Some self.old.bytes) (Some self.new.bytes) piece.now)
            (λ _. AppendsPrefix (Some self.old.bytes) (Some self.new.bytes) piece.now) }
        ensures cause { HasCause self.old.faults self.new.faults result }

        ensures nothing { OnErr result (self.new.bytes ≡ self.old.bytes) }
        ensures room { self.new.room + length self.new.bytes
            ≡ self.old.room + length self.old.bytes }
        ensures fails { self.new.fails ≡ self.old.fails }
        ensures calls { self.new.calls ≡ min (self.old.calls + 1) (2 ^ 64 - 1) }
        ensures failed { IsErr result
            ↔ (Contains self.old.fails self.old.calls ⊎ (self.old.room < length piece.now)) }
    {
        let call = self.calls;
        self.calls = call.saturating_add(1);
        let is_short = piece.len() > self.room;
        if is_short || is_listed(&self.fails, call) {
            self.faults = self.faults.saturating_add(1);
            return Err(Failed);
        }
        self.room -= piece.len();
        // The room was reserved, so no memory is taken here.
        if self.bytes.extend_from_slice(piece).is_err() {
            unreachable!();
        }
        Ok(())
    }
}

// Whether the call of this number is one of those that fail.
fn is_listed(fails: &[u32], call: u64) -> bool
    ensures { IsTrue result ↔ Contains fails.now call }
{
    fails.iter().any(|number| u64::from(*number) == call)
}

// The most bytes that the next call gives, by the first of the cuts left.
fn next_cut(cuts: &[u32]) -> usize
    ensures cut { result ≡ cut_of cuts.now }
    ensures positive { 1 ≤ result }
{
    match cuts.first() {
        Some(cut) => (*cut as usize).max(1),
        None => usize::MAX,
    }
}

// Copies the first bytes left into `into`, at most `most`; gives how many.
fn give(left: &[u8], most: usize, into: &mut [u8]) -> usize
    requires { 1 ≤ most }
    ensures left { result ≤ length left.now }
    ensures fits { result ≤ length into.new }
    ensures most { result ≤ most }
    ensures bytes { take result into.new ≡ take result left.now }
    ensures end { result ≡ 0 → 0 < length into.new → left.now ≡ [] }
{
    let count = most.min(into.len()).min(left.len());
    into[..count].copy_from_slice(&left[..count]);
    count
}

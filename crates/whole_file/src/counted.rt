//! A source that counts the bytes read.

ghost use Rattle.std.specs.Prelude.{◌≡◌, ◌+◌, ◌-◌, ◌^◌};
ghost use Rattle.std.specs.Prelude.{◌≤◌, min, length, IsTrue, IsOk, IfOk};
ghost use Rattle.std.specs.Prelude.{OnErr};
ghost use Rattle.std.specs.Io.{ReadsAtMost};
ghost use Rattle.std.specs.Io.KnownBytes.{ReadConsumes};
ghost use Rattle.nav_io.specs.Causes.{HasCause};

use nav_io::{Failed, Source};

/// Receives the number of bytes that were read. Nothing that it does changes what is read.
pub trait Progress: Drop {
    /// The number of bytes read so far, at most 2^64 - 1.
    fn taken(&mut self, count: u64);
}

/// Ignores the count.
#[derive(Clone, Copy, Drop)]
pub struct NoProgress;

impl Progress for NoProgress {
    fn taken(&mut self, _count: u64) {}
}

/// A source that gives what its inner source gives, and counts the bytes.
#[derive(Drop)]
pub struct Counted<S: Source, P: Progress> {
    source: S,
    progress: P,
    count: u64,
}

impl<S: Source, P: Progress> Counted<S, P> {
    /// A source over this one, with a count of 0.
    pub fn new(source: S, progress: P) -> Counted<S, P>
        ensures left { ⟦<Counted<S, P> as Source>⟧.left result ≡ S.left source }
        ensures faults { ⟦<Counted<S, P> as Source>⟧.faults result ≡ S.faults source }
        ensures never { ⟦<Counted<S, P> as Source>⟧.never_fails result ≡ S.never_fails source }
        ensures count { result.count ≡ 0 }
    {
        Counted {
            source,
            progress,
            count: 0,
        }
    }

    /// The number of bytes read so far, at most 2^64 - 1.
    pub fn count(&self) -> u64
        ensures { result ≡ self.now.count }
    {
        self.count
    }

    /// The inner source, and the receiver of counts.
    pub fn into_parts(self) -> (S, P)
        ensures { result ≡ (self.source, self.progress) }
    {
        let Counted {
            source,
            progress,
            count: _,
        } = self;
        (source, progress)
    }
}

impl<S: Source, P: Progress> Source for Counted<S, P> {
    ghost left = { λ s. S.left s.source };

    ghost faults = { λ s. S.faults s.source };

    ghost never_fails = { λ s. S.never_fails s.source };

    /// One `read` of the inner source.
    fn read(&mut self, into: &mut [u8]) -> Result<usize, Failed>
        requires asks { length into.old ≤ 16384 }
        ensures bound { ReadsAtMost result into.new }
        ensures bytes { ReadConsumes (S.left self.old.source) (S.left self.new.source)
            result into.new }
        ensures cause { HasCause (S.faults self.old.source) (S.faults self.new.source) result }
        ensures never { IsTrue (S.never_fails self.old.source)
            → IsOk result × IsTrue (S.never_fails self.new.source) }
        ensures counts { IfOk result (λ n.
            self.new.count ≡ min (self.old.count + n) (2 ^ 64 - 1)) }
        ensures stays { OnErr result (self.new.count ≡ self.old.count) }
    {
        let count = self.source.read(into)?;
        self.count = self.count.saturating_add(count as u64);
        self.progress.taken(self.count);
        Ok(count)
    }
}

//! A source over a file of RINEX 2.

ghost use Rattle.std.specs.Prelude.{◌≡◌, ◌+◌, ◌-◌, ◌^◌, ◌<◌, ◌≤◌, length};
ghost use Rattle.std.specs.Prelude.{option_map, false, IsTrue, IsOk};
ghost use Rattle.std.specs.Io.{ReadsAtMost};
ghost use Rattle.std.specs.Io.KnownBytes.{ReadConsumes};
ghost use Rattle.nav_io.specs.Causes.{HasCause};
ghost use Rattle.rinex_lines.specs.Files.{rinex3_of};
ghost use Rattle.rinex_lines.specs.OlderMirrors.{begun, left_of};

use crate::held::{Held, TOO_MANY};
use nav_io::{Failed, Source};

/// What is left of a reader of a file of RINEX 2.
#[derive(Drop)]
pub struct Rinex2Parts<S: Source> {
    /// The source of the file's bytes.
    pub source: S,
    /// How many bytes were read, at most 18,446,744,073,709,551,615.
    pub taken: u64,
}

/// The file of RINEX 3 as which a file of RINEX 2 is read, while the bytes of that come.
///
/// If the bytes of the file are known to a contract, so are those of the other. A read fails if a
/// read of the source inside fails, or if 18,446,744,073,709,551,615 bytes were read of it; the
/// next one continues where this one began.
#[derive(Drop)]
pub struct Rinex2Source<S: Source> {
    source: S,
    held: Held,
    // the count of reads refused because the file is too long
    faults: u64,
    ghost sound: { held.taken < 2 ^ 64 - 1 → faults ≡ 0 },
}

impl<S: Source> Rinex2Source<S> {
    /// A source that gives the file as which that of this source is read.
    pub fn new(source: S) -> Self
        ensures left { ⟦<Rinex2Source<S> as Source>⟧.left result
            ≡ option_map rinex3_of (S.left source) }
        ensures faults { ⟦<Rinex2Source<S> as Source>⟧.faults result ≡ S.faults source }
        ensures source { result.source ≡ source }
        ensures held { result.held ≡ begun }
    {
        Rinex2Source {
            source,
            held: Held::new(),
            faults: 0,
        }
    }

    /// The source of the file's bytes, and how many were read.
    pub fn into_parts(self) -> Rinex2Parts<S>
        ensures source { result.source ≡ self.source }
        ensures taken { result.taken ≡ self.held.taken }
        // Where there were not too many bytes, it has failed as often as the source inside.
        ensures faults { result.taken < 2 ^ 64 - 1
            → ⟦<Rinex2Source<S> as Source>⟧.faults self ≡ S.faults result.source }
    {
        let Rinex2Source {
            source,
            held,
            faults: _,
        } = self;
        Rinex2Parts {
            source,
            taken: held.taken(),
        }
    }
}

impl<S: Source> Source for Rinex2Source<S> {
    ghost left = { λ s. left_of s.held (S.left s.source) };

    ghost faults = { λ s. S.faults s.source + s.faults };

    ghost never_fails = { λ _. false };

    /// Gives what waits of a line, or the next.
    ///
    /// Fails only if a read of the source inside failed in this call, or if
    /// 18,446,744,073,709,551,615 bytes were read of it.
    fn read(&mut self, into: &mut [u8]) -> Result<usize, Failed> {
        while self.held.taken() < TOO_MANY {
            if self.held.next_line() {
                return Ok(self.held.give(into));
            }
            if self.held.is_ended() {
                self.held.is_over();
                return Ok(0);
            }
            self.held.fill(&mut self.source)?;
        }
        self.faults = self.faults.saturating_add(1);
        Err(Failed)
    }
}

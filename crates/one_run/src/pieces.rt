//! Reads from a source up to the limit of a run.

ghost use Rattle.std.specs.Prelude.{◌≡◌, ◌<◌, ◌≤◌, length, take};
ghost use Rattle.std.specs.Prelude.{IsTrue, IsOk, IfOk, MatchResult};
ghost use Rattle.std.specs.Io.KnownBytes.{Consumes, IsAtEnd, Keeps};
ghost use Rattle.nav_io.specs.Causes.{HasCause};

use nav_io::{Failed, Source};

/// Reads a piece of a source of which a run may still read `left` bytes, and gives its length in
/// bytes.
///
/// The piece is written from the start of the slice, which holds 1 to 16,384 bytes. 0 only if the
/// source is at its end.
///
/// # Errors
///
/// `Failed` only if the source's count of errors rose in this call, or is saturated; nothing is
/// read then.
pub fn read_piece<S: Source>(source: &mut S, left: u64, piece: &mut [u8]) -> Result<usize, Failed>
    requires more { 0 < left }
    requires some { 0 < length piece.old }
    requires asks { length piece.old ≤ 16384 }
    ensures within { IfOk result (λ count. count ≤ length piece.old) }
    ensures most { IfOk result (λ count. count ≤ left) }
    ensures count { IfOk result (λ count. length (take count piece.new) ≡ count) }
    ensures bytes { MatchResult result
        (λ count. Consumes (S.left source.old) (S.left source.new) (take count piece.new)
        × (count ≡ 0 → IsAtEnd (S.left source.new)))
        (λ _. Keeps (S.left source.old) (S.left source.new)) }
    ensures cause { HasCause (S.faults source.old) (S.faults source.new) result }
    ensures never { IsTrue (S.never_fails source.old)
        → IsOk result × IsTrue (S.never_fails source.new) }
{
    let most = left.min(piece.len() as u64) as usize;
    source.read(&mut piece[..most])
}

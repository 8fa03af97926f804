//! Reads from a source with a limit on the total of bytes.

ghost use Rattle.std.specs.Prelude.{◌≡◌, ◌+◌, ◌^◌, ◌<◌, ◌≤◌, length, take};
ghost use Rattle.std.specs.Prelude.{IsTrue, IsOk, IfOk, MatchResult};
ghost use Rattle.std.specs.Io.KnownBytes.{Consumes, IsAtEnd, Keeps};
ghost use Rattle.nav_io.specs.Causes.{HasCause};

use crate::{Failed, Source};

/// The most bytes that a reader accepts: 4,294,967,295.
pub const MOST_TAKEN: u64 = 4_294_967_295;

/// Reads a piece of a source of which `taken` bytes were read before, and gives its length in
/// bytes.
///
/// The piece is written from the start of the slice. At most 4,294,967,296 bytes are read in all,
/// one more than [`MOST_TAKEN`], so that an excess shows. 0 only if the source is at its end. The
/// slice holds 1 to 16,384 bytes.
///
/// # Errors
///
/// `Failed` only if the source's count of errors rose in this call, or is saturated; nothing is
/// read then.
pub fn read_piece<S: Source>(source: &mut S, taken: u64, piece: &mut [u8]) -> Result<usize, Failed>
    requires low { taken < 2 ^ 32 }
    requires some { 0 < length piece.old }
    requires asks { length piece.old ≤ 16384 }
    ensures within { IfOk result (λ count. count ≤ length piece.old) }
    ensures most { IfOk result (λ count. taken + count ≤ 2 ^ 32) }
    ensures count { IfOk result (λ count. length (take count piece.new) ≡ count) }
    ensures bytes { MatchResult result
        (λ count. Consumes (S.left source.old) (S.left source.new) (take count piece.new)
        × (count ≡ 0 → IsAtEnd (S.left source.new)))
        (λ _. Keeps (S.left source.old) (S.left source.new)) }
    ensures cause { HasCause (S.faults source.old) (S.faults source.new) result }
    ensures never { IsTrue (S.never_fails source.old)
        → IsOk result × IsTrue (S.never_fails source.new) }
{
    let most = (MOST_TAKEN + 1 - taken).min(piece.len() as u64) as usize;
    source.read(&mut piece[..most])
}

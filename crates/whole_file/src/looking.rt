//! A source whose first bytes are looked at, for its format.

ghost use Rattle.std.specs.Prelude.{◌≡◌, ◌⊎◌, [], IfErr, IfOk, IfSome, OnOk};
ghost use Rattle.std.specs.Io.KnownBytes.{Keeps};
ghost use Rattle.nav_io.specs.Causes.{Rose};
ghost use Rattle.whole_file.specs.Kinds.{form_of, kind_of};

use crate::kinds::{Kind, LOOKED_AT, kind_of, kind_so_far};
use crate::laws::first_bytes_decide;
use crate::peeked::{PeekFault, Peeked};
use nav_io::Source;

/// Looks at an input that was not looked at, and returns the format under which it is read: that
/// which is named, or else that of its bytes, in whatever pieces they come. It waits for no more
/// bytes than decide that.
///
/// # Errors
///
/// The source has failed, or there was no memory.
pub fn look<S: Source>(named: Option<Kind>, input: &mut Peeked<S>) -> Result<Kind, PeekFault>
    requires { input.old.prefix.items ≡ [] }
    ensures left { OnOk result (Keeps (⟦<Peeked<S> as Source>⟧.left input.old)
        (⟦<Peeked<S> as Source>⟧.left input.new)) }
    ensures kind { IfOk result (λ kind. IfSome (S.left input.old.source) (λ bytes.
        kind ≡ form_of named (kind_of bytes))) }
    ensures faults { OnOk result
        (S.faults input.new.source ≡ S.faults input.old.source) }
    ensures cause { IfErr result (λ fault. (fault ≡ PeekFault.NoMemory)
        ⊎ Rose (S.faults input.old.source) (S.faults input.new.source)) }
    ensures memory { IfErr result (λ fault. fault ≡ PeekFault.NoMemory
        → S.faults input.new.source ≡ S.faults input.old.source) }
{
    first_bytes_decide();
    let mut place = 0;
    while input.prefix().len() < LOOKED_AT {
        if let Some(told) = kind_so_far(input.prefix(), &mut place) {
            return Ok(form_of(named, told));
        }
        if input.look_on(LOOKED_AT)? == 0 {
            return Ok(form_of(named, kind_of(input.prefix())));
        }
    }
    Ok(form_of(named, kind_of(input.prefix())))
}

/// The format under which a file is read: that which is named, or else the one that is recognised.
/// A capture that names its week is read as one that does, and where RINEX is named a file by its
/// version.
pub fn form_of(named: Option<Kind>, told: Kind) -> Kind
    ensures { result ≡ form_of named told }
{
    match (named, told) {
        (None, _) => told,
        (Some(Kind::Capture1), Kind::Capture2) => Kind::Capture2,
        (Some(Kind::Rinex4), Kind::Rinex3) => Kind::Rinex3,
        (Some(Kind::Rinex4), Kind::Rinex2) => Kind::Rinex2,
        (Some(named), _) => named,
    }
}

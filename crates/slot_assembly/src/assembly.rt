ghost use Rattle.std.specs.Prelude.{◌≡◌, ◌↔◌, ◌+◌, ◌<◌, ◌≤◌, ℕ, List};
ghost use Rattle.std.specs.Prelude.{Contains, All, IfOk, IfSome, IfNone, OnOk, OnErr};
ghost use Rattle.nav_eph.specs.Values.{IsPartValue};
ghost use Rattle.periods.specs.Verdicts.{closed_place};
ghost use Rattle.slot_assembly.specs.Standing.{Standing, Stood, Tells, Carries, IsNext, NoneDue};
ghost use Rattle.slot_assembly.specs.Standing.{giving, reaching, taking, unchanged, with_parts};
ghost use Rattle.nav_eph.specs.declared.part.Part.{Part};

use nav_eph::Part;
use periods::Closed;
use std::alloc::AllocError;

/// Assembles parts into periods.
///
/// Its contract is over what it represents: the parts taken, the greatest watermark given, and the
/// last period given. An implementation may store less; each clause holds of every such state that
/// it may represent.
pub trait Assembly {
    // The reference week near which week numbers are resolved.
    ghost reference: { Self → ℕ };

    // The window in seconds: how long after a part another one of its key may belong to the same
    // period.
    ghost window: { Self → ℕ };

    // The states that it stands for.
    ghost stands_for: { Self → Standing → Type 0 };

    // A bound on the periods that it may still give before it takes another part.
    ghost left: { Self → ℕ };

    // The greatest watermark at which no period was due; it may have removed the data that no
    // longer count at it.
    ghost none_at: { Self → ℕ };

    /// Takes a part whose time tag is at least the greatest watermark given so far; a repeated part
    /// changes no period. `AllocError` where memory runs out; nothing is changed then.
    fn take(&mut self, part: &Part) -> Result<(), AllocError>
        requires { Stood (stands_for self.old) (λ at. at.watermark ≤ part.now.stamp) }
        ensures reference { reference self.new ≡ reference self.old }
        ensures window { window self.new ≡ window self.old }
        ensures ok { OnOk result
            (Carries (stands_for self.old) (stands_for self.new) (taking part.now)) }
        ensures err { OnErr result
            (Carries (stands_for self.old) (stands_for self.new) unchanged) }
        ensures none_at { none_at self.new ≡ none_at self.old };

    /// The first period not given yet whose end plus the window is below the watermark, with its
    /// verdict; `None` exactly if there is none. The watermark is at least the greatest given so
    /// far. `AllocError` where memory runs out; nothing is changed then.
    fn next_closed(&mut self, watermark: u64) -> Result<Option<Closed>, AllocError>
        requires { Stood (stands_for self.old) (λ at. at.watermark ≤ watermark) }
        ensures reference { reference self.new ≡ reference self.old }
        ensures window { window self.new ≡ window self.old }

        // The period given, or that none is due.
        ensures next { IfOk result (λ answer. IfSome answer (λ closed.
            Tells (stands_for self.old) (λ at. IsNext (reference self.old) (window self.old)
            (Contains at.parts) watermark at.last closed))) }
        ensures none { IfOk result (λ answer. IfNone answer
            (Tells (stands_for self.old) (λ at. NoneDue (window self.old)
            (Contains at.parts) watermark at.last))) }

        // The state after the call.
        ensures given { IfOk result (λ answer. IfSome answer (λ closed.
            Carries (stands_for self.old) (stands_for self.new)
            (giving watermark (closed_place closed)))) }
        ensures reached { IfOk result (λ answer. IfNone answer
            (Carries (stands_for self.old) (stands_for self.new) (reaching watermark))) }
        ensures err { OnErr result (Carries (stands_for self.old) (stands_for self.new) unchanged) }

        // The bound decreases, so repeated calls end with `None`.
        ensures fewer { IfOk result (λ answer. IfSome answer
            (λ _. left self.new < left self.old)) }

        // The watermark is recorded where no period is due, and only there.
        ensures none_there { IfOk result (λ answer. IfNone answer (none_at self.new ≡ watermark)) }
        ensures none_stays { IfOk result (λ answer. IfSome answer
            (λ _. none_at self.new ≡ none_at self.old)) }
        ensures none_kept { OnErr result (none_at self.new ≡ none_at self.old) };

    // Each part that it stands for is a value of its type.
    ghost parts_are_values: { (assembly : Self) (at : Standing)
        → stands_for assembly at → All IsPartValue at.parts };

    // Order and repetition of its parts do not matter.
    ghost parts_are_a_set: { (assembly : Self) (at : Standing) (other : List Part)
        → stands_for assembly at → ((p : Part) → Contains at.parts p ↔ Contains other p)
        → stands_for assembly (with_parts other at) };
}

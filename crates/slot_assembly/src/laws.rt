//! A theorem about assemblies: the function does nothing, and its contract is the theorem.

ghost use Rattle.std.specs.Prelude.{◌≡◌, ℕ, List, Option, All, Contains};
ghost use Rattle.nav_eph.specs.Values.{IsPartValue};
ghost use Rattle.nav_eph.specs.declared.part.Part.{Part};
ghost use Rattle.periods.specs.declared.key.PeriodId.{PeriodId};
ghost use Rattle.periods.specs.declared.closed.Closed.{Closed};
ghost use Rattle.slot_assembly.specs.Standing.{IsNext};

/// The next period due at a watermark is unique, and so is its verdict.
pub fn one_next()
    ensures { (r window watermark : ℕ) (parts : List Part) (last : Option PeriodId) (a b : Closed)
        → All IsPartValue parts → IsNext r window (Contains parts) watermark last a
        → IsNext r window (Contains parts) watermark last b → a ≡ b }
{}

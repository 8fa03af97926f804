//! A theorem about what lies far before a watermark: the contract of an empty function.

ghost use Rattle.std.specs.Prelude.{◌≡◌, ◌+◌, ◌*◌, ◌<◌, ◌≤◌, ◌++◌};
ghost use Rattle.std.specs.Prelude.{ℕ, List, Option, All, Contains};
ghost use Rattle.nav_eph.specs.declared.part.Part.{Part};
ghost use Rattle.periods.specs.declared.key.PeriodId.{PeriodId};
ghost use Rattle.periods.specs.Periods.{IsPeriod};
ghost use Rattle.slot_assembly.specs.Standing.{IsAfter, NoneDue};

/// If no period is due at a watermark and later parts have time tags from it on, a time tag more
/// than two windows before the watermark is more than a window before the end of each period not
/// yet given.
pub fn old_is_far()
    ensures { (window watermark : ℕ) (parts later : List Part) (last : Option PeriodId)
        (place : PeriodId) (stamp : ℕ)
        → NoneDue window (Contains parts) watermark last → All (λ p. watermark ≤ p.stamp) later
        → IsPeriod window (Contains (parts ++ later)) place → IsAfter last place
        → stamp + 2 * window < watermark → stamp + window < place.end }
{}

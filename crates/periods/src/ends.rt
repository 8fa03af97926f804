//! Theorems about ends: each function does nothing, and its contract is the theorem.

ghost use Rattle.std.specs.Prelude.{◌≡◌, ◌+◌, ◌∷◌, ◌++◌, ◌<◌, ◌≤◌};
ghost use Rattle.std.specs.Prelude.{ℕ, List, [], All, Contains};
ghost use Rattle.periods.specs.Ends.{IsEnd, IsEndOf};
ghost use Rattle.periods.specs.Joining.{IsJoinedEnd, IsTouchedEnd, StaysEnd};

/// Each time tag has exactly one end.
pub fn each_stamp_has_one_end()
    ensures some { (window : ℕ) (stamps : List ℕ) (s : ℕ) → Contains stamps s
        → (e : ℕ) × IsEndOf window (Contains stamps) e s }
    ensures only { (window : ℕ) (stamps : List ℕ) (d e s : ℕ)
        → IsEndOf window (Contains stamps) d s
        → IsEndOf window (Contains stamps) e s → d ≡ e }
{}

/// One more time tag: the ends within the window of it, at most two, become one end with it; all
/// others stay.
pub fn one_more_stamp()
    ensures one { (window : ℕ) (stamps : List ℕ) (stamp : ℕ)
        → (e : ℕ)
        × IsJoinedEnd window (Contains stamps) (Contains (stamps ++ stamp ∷ [])) stamp e }
    ensures at_most_two { (window : ℕ) (stamps : List ℕ) (stamp a b c : ℕ)
        → IsTouchedEnd window (Contains stamps) stamp a
        → IsTouchedEnd window (Contains stamps) stamp b
        → IsTouchedEnd window (Contains stamps) stamp c → a < b → b < c → ⊥ }
    ensures rest { (window : ℕ) (stamps : List ℕ) (stamp e : ℕ)
        → IsEnd window (Contains stamps) e
        → (IsTouchedEnd window (Contains stamps) stamp e → ⊥)
        → StaysEnd window (Contains stamps) (Contains (stamps ++ stamp ∷ [])) e }
{}

/// Later time tags change neither the ends whose window they do not reach nor the time tags of
/// these, and add no end there.
pub fn later_stamps_change_no_closed_end()
    ensures end_stays { (window watermark : ℕ) (stamps later : List ℕ) (e : ℕ)
        → All (λ s. watermark ≤ s) later → e + window < watermark → IsEnd window (Contains stamps) e
        → IsEnd window (Contains (stamps ++ later)) e }
    ensures end_was { (window watermark : ℕ) (stamps later : List ℕ) (e : ℕ)
        → All (λ s. watermark ≤ s) later → e + window < watermark
        → IsEnd window (Contains (stamps ++ later)) e → IsEnd window (Contains stamps) e }
    ensures stamp_stays { (window watermark : ℕ) (stamps later : List ℕ) (e s : ℕ)
        → All (λ s. watermark ≤ s) later → e + window < watermark
        → IsEndOf window (Contains stamps) e s
        → IsEndOf window (Contains (stamps ++ later)) e s }
    ensures stamp_was { (window watermark : ℕ) (stamps later : List ℕ) (e s : ℕ)
        → All (λ s. watermark ≤ s) later → e + window < watermark
        → IsEndOf window (Contains (stamps ++ later)) e s
        → IsEndOf window (Contains stamps) e s }
{}

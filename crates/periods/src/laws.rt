//! Theorems about periods: each function does nothing, and its contract is the theorem.

ghost use Rattle.std.specs.Prelude.{◌≡◌, ◌+◌, ◌*◌, ◌<◌, ◌≤◌};
ghost use Rattle.std.specs.Prelude.{◌∷◌, ◌++◌, ◌↔◌, ◌⊎◌, ℕ, List, []};
ghost use Rattle.std.specs.Prelude.{Option, Some, true, All, Contains};
ghost use Rattle.nav_eph.specs.Weeks.{IsReference};
ghost use Rattle.nav_eph.specs.Conditions.{IsPart};
ghost use Rattle.nav_eph.specs.Ranges.{IsItem};
ghost use Rattle.nav_eph.specs.declared.items.NavItem.{NavItem};
ghost use Rattle.nav_eph.specs.declared.part.Part.{Part};
ghost use Rattle.periods.specs.declared.key.PeriodKey.{PeriodKey};
ghost use Rattle.periods.specs.declared.key.PeriodId.{PeriodId};
ghost use Rattle.periods.specs.declared.closed.Closed.{Closed};
ghost use Rattle.periods.specs.declared.closed.Verdict.TheVariants.{Whole, Again};
ghost use Rattle.periods.specs.declared.closed.Finding.{Finding};
ghost use Rattle.periods.specs.Verdicts.{IsClosed, IsFound, IsOfEphemeris};
ghost use Rattle.nav_eph.specs.Values.{HasPartRanges, IsPartValue};
ghost use Rattle.periods.specs.Parts.{key_of};
ghost use Rattle.periods.specs.Periods.{IsMember, IsPeriod};
ghost use Rattle.periods.specs.declared.digest.Digest.{Digest};
ghost use Rattle.periods.specs.Digests.{IsDigest};
ghost use Rattle.periods.specs.KeyTests.{is_of};
ghost use Rattle.periods.specs.DigestsOf.{digest_finding, digest_join, digest_of, health_at};
ghost use Rattle.periods.specs.PeriodLists.{ArePeriods, AreClosed, IsPeriodPrefix, items_in};
ghost use Rattle.periods.specs.PeriodsOf.{periods_of, closed_of};
ghost use Rattle.periods.specs.Touching.{IsTouched, IsJoined, Stays};

/// Each list of parts has exactly one list of periods, and one of the periods closed at a
/// watermark: those that `periods_of` and `closed_of` give.
pub fn periods_are()
    ensures are { (r window : ℕ) (parts : List Part) → All IsPartValue parts
        → ArePeriods r window (Contains parts) (periods_of r window parts) }
    ensures only { (r window : ℕ) (parts : List Part) (xs : List Closed) → All IsPartValue parts
        → ArePeriods r window (Contains parts) xs → xs ≡ periods_of r window parts }
    ensures closed { (r window watermark : ℕ) (parts : List Part) → All IsPartValue parts
        → AreClosed r window (Contains parts) watermark (closed_of r window watermark parts) }
    ensures only_closed { (r window watermark : ℕ) (parts : List Part) (xs : List Closed)
        → All IsPartValue parts → AreClosed r window (Contains parts) watermark xs
        → xs ≡ closed_of r window watermark parts }
{}

/// Order and repetition of the parts do not matter.
pub fn order_does_not_matter()
    ensures { (r window : ℕ) (some other : List Part) → All IsPartValue some
        → ((p : Part) → Contains some p ↔ Contains other p)
        → periods_of r window some ≡ periods_of r window other }
{}

/// Closed periods stay: parts from the watermark on change none of them, a higher watermark adds
/// periods after them, and they are a prefix of all periods.
pub fn closed_stays()
    ensures later { (r window watermark : ℕ) (parts later : List Part)
        → All IsPartValue (parts ++ later) → All (λ p. watermark ≤ p.stamp) later
        → closed_of r window watermark (parts ++ later) ≡ closed_of r window watermark parts }
    ensures rise { (r window watermark higher : ℕ) (parts : List Part) → watermark ≤ higher
        → IsPeriodPrefix (closed_of r window watermark parts) (closed_of r window higher parts) }
    ensures prefix { (r window watermark : ℕ) (parts : List Part)
        → IsPeriodPrefix (closed_of r window watermark parts) (periods_of r window parts) }
    ensures all { (r window watermark : ℕ) (parts : List Part)
        → All (λ p. p.stamp + window < watermark) parts
        → closed_of r window watermark parts ≡ periods_of r window parts }
{}

/// One more part: the periods of its key within the window of it, at most two, become one period
/// with it; all others stay.
pub fn one_more_part()
    ensures one { (window : ℕ) (parts : List Part) (part : Part) (key : PeriodKey)
        → key_of part ≡ Some key → (place : PeriodId)
        × IsJoined window (Contains parts) part (Contains (parts ++ part ∷ [])) place }
    ensures at_most_two { (window : ℕ) (parts : List Part) (part : Part) (a b c : PeriodId)
        → IsTouched window (Contains parts) part a → IsTouched window (Contains parts) part b
        → IsTouched window (Contains parts) part c → a.end < b.end → b.end < c.end → ⊥ }
    ensures rest { (window : ℕ) (parts : List Part) (part : Part) (place : PeriodId)
        → IsPeriod window (Contains parts) place
        → (IsTouched window (Contains parts) part place → ⊥)
        → Stays window (Contains parts) (Contains (parts ++ part ∷ [])) place }
{}

/// Parts that lie more than a window before others change none of their periods, and vice versa:
/// the periods of both together are those of either, with the same findings. Verdicts may differ,
/// since a period may repeat an earlier one.
pub fn parts_far_apart()
    ensures periods { (window watermark : ℕ) (some more : List Part) (place : PeriodId)
        → All (λ p. p.stamp + window < watermark) some → All (λ p. watermark ≤ p.stamp) more
        → IsPeriod window (Contains (some ++ more)) place
        ↔ (IsPeriod window (Contains some) place ⊎ IsPeriod window (Contains more) place) }
    ensures first { (r window watermark : ℕ) (some more : List Part) (place : PeriodId)
        (finding : Finding) → All (λ p. p.stamp + window < watermark) some
        → All (λ p. watermark ≤ p.stamp) more
        → IsPeriod window (Contains some) place
        → IsFound r window (Contains (some ++ more)) place finding
        ↔ IsFound r window (Contains some) place finding }
    ensures second { (r window watermark : ℕ) (some more : List Part) (place : PeriodId)
        (finding : Finding) → All (λ p. p.stamp + window < watermark) some
        → All (λ p. watermark ≤ p.stamp) more
        → IsPeriod window (Contains more) place
        → IsFound r window (Contains (some ++ more)) place finding
        ↔ IsFound r window (Contains more) place finding }
{}

/// The computed digests and findings are the specified ones: for one part, for the union of two
/// sets of parts, and for the members of a period with the health near its end.
pub fn digests_are()
    ensures one { (part : Part) (key : PeriodKey) (d : Digest)
        → key_of part ≡ Some key → digest_of part ≡ Some d
        → IsDigest key (Contains (part ∷ [])) d }
    ensures joined { (key : PeriodKey) (some more : List Part) (x y : Digest)
        → IsDigest key (Contains some) x → IsDigest key (Contains more) y
        → IsDigest key (Contains (some ++ more)) (digest_join x y) }
    ensures finding { (r window : ℕ) (parts : List Part) (place : PeriodId) (d : Digest)
        → IsDigest place.key (IsMember window (Contains parts) place) d
        → IsFound r window (Contains parts) place
        (digest_finding r place.key d (health_at window parts place.key place.end)) }
{}

/// The test `is_of` holds exactly if the key is that of the part.
pub fn keys_are_decided()
    ensures { (key : PeriodKey) (part : Part)
        → (is_of key part ≡ true) ↔ (key_of part ≡ Some key) }
{}

/// Only the period of an ephemeris has the verdict `Again`, never that of an ionosphere.
pub fn only_ephemerides_are_repeated()
    ensures { (r window : ℕ) (parts : List Part) (c : Closed)
        → IsClosed r window (Contains parts) c → c.verdict ≡ Again → IsOfEphemeris c.key }
{}

/// The items of concatenated lists of periods are the concatenated items.
pub fn items_concatenate()
    ensures { (some more : List Closed)
        → items_in (some ++ more) ≡ items_in some ++ items_in more }
{}

/// The item of a period meets the conditions of the item constructors, if each part is of a
/// satellite of the right system and its fields are within their widths: field ranges, system,
/// issue of data, transmission time, week of an ionosphere.
pub fn items_fit_together()
    ensures { (r window : ℕ) (parts : List Part) (c : Closed) (item : NavItem) → IsReference r
        → All IsPartValue parts → All (λ p. IsPart p.sat p.body) parts → All HasPartRanges parts
        → IsClosed r window (Contains parts) c → c.verdict ≡ Whole item → IsItem item }
{}

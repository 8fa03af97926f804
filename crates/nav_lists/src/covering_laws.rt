ghost use Rattle.std.specs.Prelude.{◌≡◌, ◌↔◌, ◌⊎◌, List};
ghost use Rattle.std.specs.List.{Contains};
ghost use Rattle.nav_eph.specs.declared.items.NavItem.{NavItem};
ghost use Rattle.nav_lists.specs.Covering.{AreCovering, AreCovers, CoversSecond, IsIn, covers_of};
ghost use Rattle.nav_lists.specs.declared.range.CoverRange.{CoverRange};

/// `covers_of` is the only list of the ranges that the items cover, and it depends on the set of
/// the items alone.
pub fn covering()
    ensures are { (items : List NavItem) →
        AreCovers (AreCovering (Contains items)) (covers_of items) }
    ensures only { (items : List NavItem) (xs : List CoverRange) →
        AreCovers (AreCovering (Contains items)) xs → xs ≡ covers_of items }
    ensures set { (some other : List NavItem) →
        ((i : NavItem) → Contains some i ↔ Contains other i) → covers_of some ≡ covers_of other }
{}

/// The ranges of a cover together with that of one more item form exactly one list of ranges: the
/// contract of `Cover::add` determines its result.
pub fn one_cover()
    ensures { (old xs ys : List CoverRange) (item : NavItem) →
        AreCovers (λ sat m. IsIn old sat m ⊎ CoversSecond item sat m) xs →
        AreCovers (λ sat m. IsIn old sat m ⊎ CoversSecond item sat m) ys → xs ≡ ys }
{}

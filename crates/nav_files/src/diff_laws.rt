//! Theorems about sets and their differences: each is the contract of an empty function.

ghost use Rattle.std.specs.Prelude.{◌≡◌, ◌↔◌, [], List};
ghost use Rattle.std.specs.List.{Contains};
ghost use Rattle.nav_eph.specs.declared.items.NavItem.{NavItem};
ghost use Rattle.nav_files.specs.Differences.{differences};
ghost use Rattle.nav_files.specs.Numbers.{set_of};

/// The set of items contains exactly these items.
pub fn sets_contain_their_items()
    ensures { (items : List NavItem) (item : NavItem) →
        Contains (set_of items) item ↔ Contains items item }
{}

/// Two sets have no difference exactly if they are of the same items, in whatever order and however
/// often these are given.
pub fn no_difference_means_the_same_items()
    ensures { (first second : List NavItem) →
        (differences (set_of first) (set_of second) ≡ [])
        ↔ ((item : NavItem) → Contains first item ↔ Contains second item) }
{}

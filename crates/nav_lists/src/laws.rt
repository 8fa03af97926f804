ghost use Rattle.std.specs.Prelude.{◌≡◌, ◌↔◌, List, ◌++◌};
ghost use Rattle.std.specs.List.{Contains};
ghost use Rattle.nav_eph.specs.declared.items.NavItem.{NavItem};
ghost use Rattle.nav_lists.specs.Merging.{IsMerged, merged_of};

/// `merged_of` is the only merged list of the items. It depends on the set of the items alone:
/// their order and repetition do not matter, and items may be merged in several steps.
pub fn merging()
    ensures are { (items : List NavItem) → IsMerged (Contains items) (merged_of items) }
    ensures only { (items xs : List NavItem) →
        IsMerged (Contains items) xs → xs ≡ merged_of items }
    ensures set { (some other : List NavItem) →
        ((i : NavItem) → Contains some i ↔ Contains other i) → merged_of some ≡ merged_of other }
    ensures swapped { (some more : List NavItem) →
        merged_of (some ++ more) ≡ merged_of (more ++ some) }
    ensures twice { (some : List NavItem) → merged_of (some ++ some) ≡ merged_of some }
    ensures again { (some more : List NavItem) →
        merged_of (merged_of some ++ more) ≡ merged_of (some ++ more) }
{}

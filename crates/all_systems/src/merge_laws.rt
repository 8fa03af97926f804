//! Theorems about merged lists of all systems.

ghost use Rattle.std.specs.Prelude.{◌≡◌, ◌↔◌, ◌++◌, ℕ, List};
ghost use Rattle.std.specs.List.{Contains};
ghost use Rattle.std.specs.List.Sorted.{IsStrictlySortedBy};
ghost use Rattle.nav_eph.specs.declared.items.NavItem.{NavItem};
ghost use Rattle.nav_lists.specs.Merging.{merged_of};
ghost use Rattle.nav_rows.specs.Order.{by_place, by_rank};
ghost use Rattle.nav_lists.specs.Ranks.{ranked_of};
ghost use Rattle.rinex_read.specs.Files.{list_by};
ghost use Rattle.all_systems.specs.Readings.{Item};
ghost use Rattle.all_systems.specs.declared.kinds.Kinds.{Kinds};
ghost use Rattle.all_systems.specs.CarriedOrder.{CarriedRecord, by_text};
ghost use Rattle.all_systems.specs.Files.{nav_form};
ghost use Rattle.all_systems.specs.Merging.{AreNamed, carried_of, file_merged, firsts, items_of};
ghost use Rattle.all_systems.specs.Merging.{merged_entries, merged_items, navs_of, rows_of};
ghost use Rattle.all_systems.specs.Merging.{seconds};
ghost use Rattle.all_systems.specs.NavOrder.{by_numbers};
ghost use Rattle.all_systems.specs.FileReadings.{LineRead};
ghost use Rattle.all_systems.specs.declared.version.Version.{Version};

use crate::carried_key::CarriedKey;
use crate::nav_key::NavKey;
use crate::row_key::RowKey;
use nav_lists::{merging, ranking};

/// The merged list has the items of GPS and Galileo of their merged list, and each row once, in the
/// order of rank, no two of one rank. Items may be merged in several steps. The list depends on the
/// set of the items alone, not on their order nor on repetition, if rows of one system and message
/// type are of one kind.
pub fn merging_of_all_systems()
    ensures navs { (items : List Item) (item : NavItem) →
        Contains (navs_of (merged_items items)) item ↔ Contains (merged_of (navs_of items)) item }
    ensures rows { (items : List Item) →
        rows_of (merged_items items) ≡ ranked_of by_rank by_place (rows_of items) }
    ensures order { (items : List Item) →
        IsStrictlySortedBy by_numbers (navs_of (merged_items items))
        × IsStrictlySortedBy by_rank (rows_of (merged_items items)) }
    ensures again { (some more : List Item) →
        merged_items (merged_items some ++ more) ≡ merged_items (some ++ more) }
    ensures set { (some other : List Item) → AreNamed (rows_of some) →
        ((i : Item) → Contains some i ↔ Contains other i) →
        merged_items some ≡ merged_items other }
{
    merging();
    ranking::<NavKey>();
    ranking::<RowKey>();
}

/// A merged file has the items of the merged list, and each carried record once; these are in the
/// order of their dates, types, systems, satellites and message types, and then of their texts.
pub fn merging_of_carried_records()
    ensures items { (reads : List LineRead) →
        firsts (merged_entries reads) ≡ merged_items (items_of reads) }
    ensures records { (reads : List LineRead) (x : CarriedRecord) →
        Contains (seconds (merged_entries reads)) x ↔ Contains (carried_of reads) x }
    ensures order { (reads : List LineRead) →
        IsStrictlySortedBy by_text (seconds (merged_entries reads)) }
{
    ranking::<CarriedKey>();
}

/// Of any bytes, the items of GPS and Galileo in the merged list are those that
/// [`nav_files::run_merge`] writes.
pub fn a_merged_file_has_the_merge_of_gps_and_galileo()
    ensures { (ks : Kinds) (v : Version) (bytes : List ℕ) (item : NavItem) →
        Contains (navs_of (file_merged ks v bytes)) item
        ↔ Contains (merged_of (list_by (nav_form v) bytes)) item }
{
    merging_of_all_systems();
}

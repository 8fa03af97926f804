//! Theorems about the raw numbers.

ghost use Rattle.std.specs.Prelude.{◌≡◌, Some};
ghost use Rattle.nav_eph.specs.Ranges.{IsItem};
ghost use Rattle.nav_eph.specs.declared.items.NavItem.{NavItem};
ghost use Rattle.raw_values.specs.Items.{item_in, raw_item};
ghost use Rattle.raw_values.specs.Laws.{IsPlain};
ghost use Rattle.raw_values.specs.declared.item_raw.ItemRaw.{ItemRaw};

/// The numbers that were put for an item encode it.
pub fn items_come_back()
    ensures { (item : NavItem) (old : ItemRaw) → IsItem item →
        item_in (raw_item item old) ≡ Some item }
{}

/// Numbers that encode an item are those that are put for it.
pub fn numbers_come_back()
    ensures { (item : NavItem) (raw : ItemRaw) → IsPlain raw → item_in raw ≡ Some item →
        raw_item item raw ≡ raw }
{}

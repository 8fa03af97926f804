//! A few items of a merged list, copied out of it.

ghost use Rattle.std.specs.Prelude.{◌≡◌, ◌<◌, length};

use nav_eph::NavItem;
use std::marker::Model;

// The most items that are copied at once.
pub(crate) const FEW: usize = 8;

/// The next items of a merged list, one to eight.
#[derive(Drop)]
pub struct Few {
    pub(crate) items: [NavItem; FEW],
    pub(crate) count: usize,
}

impl Model for Few {
    ghost use Rattle.std.specs.Prelude.{◌<◌, ◌≤◌, List, take};
    ghost use Rattle.nav_eph.specs.declared.items.NavItem.{NavItem};

    ghost Value = { List NavItem };

    ghost view = { λ f. take f.count f.items };

    ghost invariant = { λ f. (0 < f.count) × (f.count ≤ 8) };
}

impl Few {
    /// The items, in order.
    pub fn as_slice(&self) -> &[NavItem]
        ensures { result.now ≡ self.now }
    {
        &self.items[..self.count]
    }
}

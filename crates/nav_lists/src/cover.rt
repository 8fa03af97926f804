//! The times that items cover, collected item by item.

ghost use Rattle.std.specs.Prelude.{◌≡◌, ◌↔◌, ◌⊎◌, ℕ, []};
ghost use Rattle.std.specs.Prelude.{◌∷◌, IfSome, IfNone, OnOk, OnErr};
ghost use Rattle.nav_eph.specs.Satellite.{Satellite};
ghost use Rattle.nav_lists.specs.Covering.{AreRanges, CoversSecond, IsIn};

use crate::range::{CoverRange, span};
use crate::sweep::take_range;
use nav_eph::NavItem;
use std::alloc::{AllocError, Global};
use std::collections::BTreeSet;
use std::marker::Model;

/// The ranges of time that the added items cover.
#[derive(Drop)]
pub struct Cover {
    // The range of each ephemeris, without duplicates; overlapping ranges are joined as they are
    // taken.
    spans: BTreeSet<CoverRange>,
}

impl Model for Cover {
    ghost use Rattle.std.specs.Prelude.{List};
    ghost use Rattle.nav_lists.specs.declared.range.CoverRange.{CoverRange};
    ghost use Rattle.nav_lists.specs.Ranges.{AreFilled, joined};

    ghost Value = { List CoverRange };

    ghost view = { λ c. joined c.spans.keys };

    ghost invariant = { λ c. AreFilled c.spans.keys };
}

impl Cover {
    /// A cover without ranges.
    pub fn new(alloc: Global) -> Cover
        ensures { result ≡ [] }
    {
        Cover {
            spans: BTreeSet::new(alloc),
        }
    }

    /// Adds the range that an item covers; an ionosphere item covers none. Costs one search in an
    /// ordered set.
    ///
    /// # Errors
    ///
    /// `AllocError` where memory runs out; the cover is then unchanged.
    pub fn add(&mut self, item: &NavItem) -> Result<(), AllocError>
        ensures form { OnOk result (AreRanges self.new) }
        ensures covers { OnOk result ((sat : Satellite) (m : ℕ)
            → IsIn self.new sat m ↔ (IsIn self.old sat m ⊎ CoversSecond item.now sat m)) }
        ensures err { OnErr result (self.new ≡ self.old) }
    {
        let _count = self.spans.len();
        match span(item) {
            Some(range) => {
                self.spans.insert(range)?;
                Ok(())
            }
            None => Ok(()),
        }
    }

    /// Removes and returns the first range; `None` if there is none.
    pub fn take_first(&mut self) -> Option<CoverRange>
        ensures first { IfSome result (λ range. self.old ≡ range ∷ self.new) }
        ensures none { IfNone result ((self.old ≡ []) × (self.new ≡ [])) }
    {
        take_range(&mut self.spans)
    }
}

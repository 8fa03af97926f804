//! The merged list of items, built item by item.

ghost use Rattle.std.specs.Prelude.{◌≡◌, [], ◌∷◌, ◌++◌, OnOk, OnErr, length};
ghost use Rattle.nav_lists.specs.Merging.{merged_of};

use crate::items::Items;
use crate::ranked::{Ranked, is_earlier};
use nav_eph::NavItem;
use std::alloc::{AllocError, Global};
use std::collections::BTreeSet;
use std::marker::Model;

/// The merged list of the added items.
#[derive(Drop)]
pub struct Merge {
    // Of alike items the one that was sent first.
    held: BTreeSet<Ranked>,
    alloc: Global,
}

impl Model for Merge {
    ghost use Rattle.std.specs.Prelude.{List};
    ghost use Rattle.nav_eph.specs.declared.items.NavItem.{NavItem};

    ghost Value = { List NavItem };

    ghost view = { λ m. m.held.keys };
}

impl Merge {
    /// A list without items.
    pub fn new(alloc: Global) -> Merge
        ensures { result ≡ [] }
    {
        Merge {
            held: BTreeSet::new(alloc),
            alloc,
        }
    }

    /// Adds an item at its place in the order of rank. If the list has an item that repeats it, the
    /// one of the two that was sent first stays. Costs a search in an ordered set, and one more if
    /// the list changes.
    ///
    /// # Errors
    ///
    /// `AllocError` where memory runs out; the list is then unchanged.
    pub fn add(&mut self, item: &NavItem) -> Result<(), AllocError>
        ensures ok { OnOk result (self.new ≡ merged_of (self.old ++ item.now ∷ [])) }
        ensures err { OnErr result (self.new ≡ self.old) }
    {
        let _count = self.held.len();
        let key = Ranked::new(self.alloc, item)?;
        match self.held.get(&key) {
            None => {
                self.held.insert(key)?;
                Ok(())
            }
            Some(known) => {
                if is_earlier(item, known.item()) {
                    self.held.replace(key)?;
                }
                Ok(())
            }
        }
    }

    /// The number of items.
    pub fn len(&self) -> usize
        ensures { result ≡ length self.now }
    {
        self.held.len()
    }

    /// The items, in order.
    pub fn items(&self) -> Items<'_>
        ensures { result ≡ self.now }
    {
        Items {
            left: self.held.iter(),
        }
    }
}

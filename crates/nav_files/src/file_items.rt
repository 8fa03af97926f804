//! The set of the items of a file.

ghost use Rattle.std.specs.Prelude.{◌≡◌, ◌<◌, [], ◌∷◌, OnErr, OnOk, MatchOption, drop, length};
ghost use Rattle.std.specs.BTreeSet.{insert_key};
ghost use Rattle.nav_files.specs.Differences.{lacking};
ghost use Rattle.nav_files.specs.DiffMirrors.{begun_by};
ghost use Rattle.nav_files.specs.Numbers.{by_numbers};

use crate::ordered::Ordered;
use nav_eph::NavItem;
use std::alloc::{AllocError, Global};
use std::collections::BTreeSet;
use std::collections::btree_set::Difference;
use std::marker::Model;

/// The items of a navigation file, sorted and without repeats.
#[derive(Drop)]
pub struct FileItems {
    held: BTreeSet<Ordered>,
}

impl Model for FileItems {
    ghost use Rattle.std.specs.Prelude.{List};
    ghost use Rattle.nav_eph.specs.declared.items.NavItem.{NavItem};

    ghost Value = { List NavItem };

    ghost view = { λ f. f.held.keys };
}

impl FileItems {
    /// No items.
    pub fn new(alloc: Global) -> FileItems
        ensures { result ≡ [] }
    {
        FileItems {
            held: BTreeSet::new(alloc),
        }
    }

    /// Adds an item, unless an equal one is there.
    ///
    /// # Errors
    ///
    /// `AllocError` where memory runs out; the set is then unchanged.
    pub fn add(&mut self, item: &NavItem) -> Result<(), AllocError>
        ensures ok { OnOk result (self.new ≡ insert_key by_numbers self.old item.now) }
        ensures err { OnErr result (self.new ≡ self.old) }
    {
        self.held.insert(Ordered::new(item))?;
        Ok(())
    }

    /// The number of items.
    pub fn len(&self) -> usize
        ensures { result ≡ length self.now }
    {
        self.held.len()
    }

    // The items that another file lacks.
    pub(crate) fn lacking<'a>(&'a self, other: &'a FileItems) -> Lacking<'a>
        ensures { result ≡ lacking self.now other.now }
    {
        let mut left = self.held.difference(&other.held);
        Lacking {
            next: next_of(&mut left),
            left,
        }
    }
}

/// The items of a file that are left of those that another lacks, in order.
#[derive(Drop)]
pub(crate) struct Lacking<'a> {
    next: Option<NavItem>,
    left: Difference<'a, Ordered, Global>,
}

impl<'a> Model for Lacking<'a> {
    ghost use Rattle.std.specs.Prelude.{List};
    ghost use Rattle.nav_eph.specs.declared.items.NavItem.{NavItem};
    ghost use Rattle.nav_files.specs.DiffMirrors.{begun_by};

    ghost Value = { List NavItem };

    ghost view = { λ a. begun_by a.next a.left };
}

// The next item of those that are left.
fn next_of(left: &mut Difference<'_, Ordered, Global>) -> Option<NavItem>
    ensures { left.old ≡ begun_by result left.new }
{
    match left.next() {
        Some(ordered) => Some(*ordered.item()),
        None => None,
    }
}

impl<'a> Lacking<'a> {
    // The first item; `None` where none is left.
    pub(crate) fn first(&self) -> Option<NavItem>
        ensures { MatchOption result (self.now ≡ []) (λ item. self.now ≡ item ∷ drop 1 self.now) }
    {
        self.next
    }

    // Passes the first item.
    pub(crate) fn pass(&mut self)
        requires { 0 < length self.old }
        ensures { self.new ≡ drop 1 self.old }
    {
        self.next = next_of(&mut self.left);
    }
}

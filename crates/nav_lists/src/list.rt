//! A ranked list, built value by value.

ghost use Rattle.std.specs.Prelude.{◌≡◌, [], ◌∷◌, ◌++◌, OnOk, OnErr, length};
ghost use Rattle.nav_lists.specs.Ranks.{ranked_of};

use std::alloc::{AllocError, Global};
use std::cmp::Ordering;
use std::collections::BTreeSet;
use std::collections::btree_set::Iter;
use std::marker::Model;

/// Values with a rank, which `cmp` compares, and a choice between those of one rank.
pub trait Ranked: Ord {
    ghost use Rattle.std.specs.Cmp.{IsTotalOrder};
    ghost use Rattle.std.specs.declared.cmp.Ordering.{Ordering as OrderingOf};

    // Which of two values of one rank stays: the first.
    ghost choice: { Self → Self → OrderingOf };

    /// Which of two values of one rank stays: the first.
    fn choice(&self, other: &Self) -> Ordering
        ensures { result ≡ choice self.now other.now };

    ghost choice_total: { IsTotalOrder choice };
}

/// The ranked list of the added values.
#[derive(Drop)]
pub struct RankedList<K: Ranked + Drop> {
    held: BTreeSet<K>,
}

impl<K: Ranked + Drop> Model for RankedList<K> {
    ghost use Rattle.std.specs.Prelude.{List};

    ghost Value = { List K };

    ghost view = { λ l. l.held.keys };
}

impl<K: Ranked + Drop> RankedList<K> {
    /// A list without values.
    pub fn new(alloc: Global) -> RankedList<K>
        ensures { result ≡ [] }
    {
        RankedList {
            held: BTreeSet::new(alloc),
        }
    }

    /// Adds a value at its place in the order of rank. If the list has a value of its rank, the
    /// first of the two by choice stays. Costs a search in an ordered set, and one more if the list
    /// changes.
    ///
    /// # Errors
    ///
    /// `AllocError` where memory runs out; the list is then unchanged.
    pub fn add(&mut self, value: K) -> Result<(), AllocError>
        ensures ok { OnOk result (self.new ≡ ranked_of K.cmp K.choice (self.old ++ value ∷ [])) }
        ensures err { OnErr result (self.new ≡ self.old) }
    {
        let _count = self.held.len();
        match self.held.get(&value) {
            None => {
                self.held.insert(value)?;
                Ok(())
            }
            Some(known) => {
                if value.choice(known).is_lt() {
                    self.held.replace(value)?;
                }
                Ok(())
            }
        }
    }

    /// The number of values.
    pub fn len(&self) -> usize
        ensures { result ≡ length self.now }
    {
        self.held.len()
    }

    /// The values, in order.
    pub fn values(&self) -> Iter<'_, K>
        ensures { result ≡ self.now }
    {
        self.held.iter()
    }
}

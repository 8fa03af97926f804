//! Items of GPS and Galileo in memory of their own, in the order of rank.

ghost use Rattle.std.specs.Prelude.{◌≡◌, IfOk, Some};
ghost use Rattle.std.proofs.Common.{refl};
ghost use Rattle.std.specs.Cmp.Lexicographic.{lists_total, slice_cmp};
ghost use Rattle.std.specs.Cmp.{eq_by_cmp_equiv, int_cmp_total, on_total};
ghost use Rattle.std.specs.Cmp.{partial_equiv_from_equiv, partial_order_from_agreeing_total};
ghost use Rattle.std.specs.Ordering.{int_cmp, is_eq};
ghost use Rattle.nav_eph.specs.Ranks.{sent_of};
ghost use Rattle.all_systems.specs.NavOrder.{by_numbers, by_sent, nav_front, nav_numbers};
ghost use Rattle.all_systems.specs.NavOrder.{nav_rank, sent_place};

use crate::nav_numbers::{item_sent_place, nav_front, nav_numbers};
use nav_eph::NavItem;
use nav_lists::Ranked;
use std::alloc::{AllocError, Global};
use std::cmp::Ordering;
use std::marker::Model;

// An item, compared by its rank. It lies in memory of its own, so that an ordered set moves little.
#[derive(Drop)]
pub(crate) struct NavKey {
    // What comes first in its rank: most comparisons read no more.
    front: [i64; 5],
    item: Box<NavItem>,
}

impl Model for NavKey {
    ghost use Rattle.std.specs.Prelude.{◌≡◌};
    ghost use Rattle.nav_eph.specs.declared.items.NavItem.{NavItem};
    ghost use Rattle.all_systems.specs.NavOrder.{nav_front};

    ghost Value = { NavItem };

    ghost view = { λ k. k.item.value };

    ghost invariant = { λ k. k.front ≡ nav_front k.item.value };
}

impl NavKey {
    // A copy of an item.
    pub(crate) fn new(alloc: Global, item: &NavItem) -> Result<NavKey, AllocError>
        ensures { IfOk result (λ key. key ≡ item.now) }
    {
        Ok(NavKey {
            front: nav_front(item),
            item: Box::new(alloc, *item)?,
        })
    }

    // What comes first in its rank.
    pub(crate) fn front(&self) -> &[i64; 5]
        ensures { result.now ≡ nav_front self.now }
    {
        &self.front
    }

    pub(crate) fn item(&self) -> &NavItem
        ensures { result.now ≡ self.now }
    {
        &self.item
    }
}

// Compares items by the numbers behind what comes first.
fn compare_numbers(a: &NavItem, b: &NavItem) -> Ordering
    ensures { result ≡ slice_cmp int_cmp (nav_numbers a.now) (nav_numbers b.now) }
{
    let numbers = nav_numbers(a);
    let others = nav_numbers(b);
    numbers.as_slice().cmp(others.as_slice())
}

// Compares items by rank; numbers are compared only where what comes first is equal.
fn compare(a: &NavKey, b: &NavKey) -> Ordering
    ensures { result ≡ by_numbers a.now b.now }
{
    let order = a.front.cmp(&b.front);
    match order {
        Ordering::Less => order,
        Ordering::Equal => compare_numbers(&a.item, &b.item),
        Ordering::Greater => order,
    }
}

impl PartialEq for NavKey {
    ghost eq = { λ a b. is_eq (by_numbers a b) };

    ghost laws = { partial_equiv_from_equiv
        (eq_by_cmp_equiv (on_total nav_rank (lists_total int_cmp_total))) };

    fn eq(&self, other: &NavKey) -> bool {
        compare(self, other).is_eq()
    }
}

impl Eq for NavKey {
    ghost laws = { eq_by_cmp_equiv (on_total nav_rank (lists_total int_cmp_total)) };
}

impl PartialOrd for NavKey {
    ghost partial_cmp = { λ a b. Some (by_numbers a b) };

    ghost laws = { partial_order_from_agreeing_total (λ a b. by_numbers a b)
        (on_total nav_rank (lists_total int_cmp_total)) (λ a b. refl) (λ a b. refl) };

    fn partial_cmp(&self, other: &NavKey) -> Option<Ordering> {
        Some(compare(self, other))
    }
}

impl Ord for NavKey {
    ghost cmp = { λ a b. by_numbers a b };

    ghost total = { on_total nav_rank (lists_total int_cmp_total) };

    ghost matches_partial_cmp = { λ a b. refl };

    ghost matches_eq = { λ a b. refl };

    fn cmp(&self, other: &NavKey) -> Ordering {
        compare(self, other)
    }
}

// Of duplicates the one that was sent first.
impl Ranked for NavKey {
    ghost choice = { λ a b. by_sent a b };

    ghost choice_total = { on_total (λ x. sent_place (sent_of x)) (lists_total int_cmp_total) };

    fn choice(&self, other: &NavKey) -> Ordering {
        item_sent_place(&self.item).cmp(&item_sent_place(&other.item))
    }
}

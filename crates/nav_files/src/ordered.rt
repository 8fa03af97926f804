//! Items in the order of their numbers.

ghost use Rattle.std.specs.Prelude.{◌≡◌, Some};
ghost use Rattle.std.proofs.Common.{refl};
ghost use Rattle.std.specs.Cmp.{eq_by_cmp_equiv, int_cmp_total, on_total};
ghost use Rattle.std.specs.Cmp.{partial_equiv_from_equiv, partial_order_from_agreeing_total};
ghost use Rattle.std.specs.Cmp.Lexicographic.{lists_total};
ghost use Rattle.std.specs.Ordering.{is_eq};
ghost use Rattle.nav_files.specs.Numbers.{by_key, by_numbers, numbers_of};

use crate::numbers::{key, numbers};
use nav_eph::NavItem;
use std::cmp::Ordering;
use std::marker::Model;

/// An item, compared by its numbers.
#[derive(Drop)]
pub(crate) struct Ordered {
    item: NavItem,
}

impl Model for Ordered {
    ghost use Rattle.nav_eph.specs.declared.items.NavItem.{NavItem};

    ghost Value = { NavItem };

    ghost view = { λ o. o.item };
}

impl Ordered {
    pub(crate) fn new(item: &NavItem) -> Ordered
        ensures { result ≡ item.now }
    {
        Ordered { item: *item }
    }

    pub(crate) fn item(&self) -> &NavItem
        ensures { result.now ≡ self.now }
    {
        &self.item
    }
}

/// Compares items by their keys.
pub(crate) fn compare_keys(a: &NavItem, b: &NavItem) -> Ordering
    ensures { result ≡ by_key a.now b.now }
{
    key(a).cmp(&key(b))
}

// Compares items by their numbers.
fn compare(a: &Ordered, b: &Ordered) -> Ordering
    ensures { result ≡ by_numbers a.now b.now }
{
    numbers(&a.item)
        .as_slice()
        .cmp(&numbers(&b.item).as_slice())
}

impl PartialEq for Ordered {
    ghost eq = { λ a b. is_eq (by_numbers a b) };

    ghost laws = { partial_equiv_from_equiv (eq_by_cmp_equiv (on_total numbers_of
        (lists_total int_cmp_total))) };

    fn eq(&self, other: &Ordered) -> bool {
        compare(self, other).is_eq()
    }
}

impl Eq for Ordered {
    ghost laws = { eq_by_cmp_equiv (on_total numbers_of (lists_total int_cmp_total)) };
}

impl PartialOrd for Ordered {
    ghost partial_cmp = { λ a b. Some (by_numbers a b) };

    ghost laws = { partial_order_from_agreeing_total (λ a b. by_numbers a b)
        (on_total numbers_of (lists_total int_cmp_total)) (λ a b. refl) (λ a b. refl) };

    fn partial_cmp(&self, other: &Ordered) -> Option<Ordering> {
        Some(compare(self, other))
    }
}

impl Ord for Ordered {
    ghost cmp = { λ a b. by_numbers a b };

    ghost total = { on_total numbers_of (lists_total int_cmp_total) };

    ghost matches_partial_cmp = { λ a b. refl };

    ghost matches_eq = { λ a b. refl };

    fn cmp(&self, other: &Ordered) -> Ordering {
        compare(self, other)
    }
}

//! The items of a merged list, one after another.

ghost use Rattle.std.specs.Prelude.{◌≡◌, ◌<◌, ◌++◌, [], length, IfSome, IfNone};
ghost use Rattle.std.specs.Iterator.{YieldsFirstRef, item_count};

use crate::few::{FEW, Few};
use crate::ranked::Ranked;
use nav_eph::NavItem;
use std::collections::btree_set::Iter;
use std::marker::Model;

/// The items of a merged list that are left, in order.
#[derive(Drop)]
pub struct Items<'a> {
    pub(crate) left: Iter<'a, Ranked>,
}

impl<'a> Model for Items<'a> {
    ghost use Rattle.std.specs.Prelude.{List};
    ghost use Rattle.nav_eph.specs.declared.items.NavItem.{NavItem};

    ghost Value = { List NavItem };

    ghost view = { λ a. a.left };
}

impl<'a> Iterator for Items<'a> {
    type Item = &'a NavItem;

    ghost next_gives = { YieldsFirstRef (λ s. s) };

    ghost remaining = { item_count (λ s. s) };

    fn next(&mut self) -> Option<&'a NavItem> {
        match self.left.next() {
            Some(ranked) => Some(ranked.item()),
            None => None,
        }
    }
}

impl<'a> Items<'a> {
    /// The next items, up to eight, copied; `None` if none is left.
    ///
    /// Each item lies elsewhere in memory. Copies that follow one another wait for it together.
    pub fn next_few(&mut self) -> Option<Few>
        ensures few { IfSome result (λ few. self.old ≡ few ++ self.new) }
        ensures some { IfSome result (λ few. 0 < length few) }
        ensures none { IfNone result (self.old ≡ []) }
    {
        let mut items = [*self.next()?; FEW];
        let mut count = 1;
        'copying: while count < FEW {
            match self.next() {
                Some(item) => {
                    items[count] = *item;
                    count += 1;
                }
                None => break,
            }
        }
        Some(Few { items, count })
    }
}

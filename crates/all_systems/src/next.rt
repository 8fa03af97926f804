//! Items, rows and carried records, each in order, as one list.

ghost use Rattle.std.specs.Prelude.{◌≡◌};
ghost use Rattle.std.specs.List.{flat_map};
ghost use Rattle.nav_io.specs.Writes.{Writes};
ghost use Rattle.all_systems.specs.MergeMirrors.{IsNext, IsNextItem};
ghost use Rattle.all_systems.specs.Merging.{all_entries, entry_text};

use crate::carried_key::CarriedKey;
use crate::nav_key::NavKey;
use crate::row_key::RowKey;
use nav_io::{Failed, Sink};
use nav_lists::RankedList;
use streams::Target;

// What comes next.
#[derive(Clone, Copy)]
pub(crate) enum Next<'a> {
    // An item of GPS or Galileo.
    Nav(&'a NavKey),
    // An ephemeris of a further kind.
    Further(&'a RowKey),
    // A carried record.
    Carried(&'a CarriedKey),
}

// The first of an item and a row.
fn next_item<'a>(item: Option<&'a NavKey>, row: Option<&'a RowKey>) -> Option<Next<'a>>
    ensures { IsNextItem item.entry row.entry result }
{
    match item {
        None => match row {
            None => None,
            Some(key) => Some(Next::Further(key)),
        },
        Some(nav) => match row {
            None => Some(Next::Nav(nav)),
            Some(key) => Some(first_item(nav, key)),
        },
    }
}

// The same, where both are left.
fn first_item<'a>(nav: &'a NavKey, key: &'a RowKey) -> Next<'a>
    ensures { IsNextItem (Some nav.entry) (Some key.entry) (Some result) }
{
    if key.is_before(nav) {
        Next::Further(key)
    } else {
        Next::Nav(nav)
    }
}

// The first of an item, a row and a carried record, where such a record is left.
fn first_of<'a>(
    item: Option<&'a NavKey>,
    row: Option<&'a RowKey>,
    carried: &'a CarriedKey,
) -> Next<'a>
    ensures { IsNext item.entry row.entry (Some carried.entry) (Some result) }
{
    match next_item(item, row) {
        None => Next::Carried(carried),
        Some(next) => match next {
            Next::Nav(nav) => {
                if carried.is_before(nav.front()) {
                    Next::Carried(carried)
                } else {
                    next
                }
            }
            Next::Further(key) => {
                if carried.is_before(key.front()) {
                    Next::Carried(carried)
                } else {
                    next
                }
            }
            Next::Carried(_) => next,
        },
    }
}

// The first of an item, a row and a carried record.
fn next_of<'a>(
    item: Option<&'a NavKey>,
    row: Option<&'a RowKey>,
    carried: Option<&'a CarriedKey>,
) -> Option<Next<'a>>
    ensures { IsNext item.entry row.entry carried.entry result }
{
    match carried {
        None => next_item(item, row),
        Some(key) => Some(first_of(item, row, key)),
    }
}

/// Writes the items of both lists and the carried records, in order.
pub(crate) fn write_merged<T: Sink>(
    to: &Target,
    navs: &RankedList<NavKey>,
    rows: &RankedList<RowKey>,
    records: &RankedList<CarriedKey>,
    out: &mut T,
) -> Result<(), Failed>
    ensures { Writes (T.written out.old) (T.written out.new) (T.faults out.old) (T.faults out.new)
        result (flat_map (entry_text to.now) (all_entries navs.now rows.now records.now)) }
{
    let mut navs_left = navs.values();
    let mut rows_left = rows.values();
    let mut records_left = records.values();
    let mut nav = navs_left.next();
    let mut row = rows_left.next();
    let mut carried = records_left.next();
    'items: while let Some(next) = next_of(nav, row, carried) {
        match next {
            Next::Nav(item) => {
                to.put(0, item.item(), out)?;
                nav = navs_left.next();
            }
            Next::Further(key) => {
                key.write(to, out)?;
                row = rows_left.next();
            }
            Next::Carried(key) => {
                key.write(to, out)?;
                carried = records_left.next();
            }
        }
    }
    Ok(())
}

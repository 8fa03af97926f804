//! Rows in memory of their own, in the order of rank.

ghost use Rattle.std.specs.Prelude.{◌≡◌, IfOk, Some, length, take};
ghost use Rattle.std.proofs.Common.{refl};
ghost use Rattle.std.specs.Cmp.Lexicographic.{lists_total, slice_cmp};
ghost use Rattle.std.specs.Cmp.{eq_by_cmp_equiv, int_cmp_total, on_total, then_total};
ghost use Rattle.std.specs.Cmp.{partial_equiv_from_equiv, partial_order_from_agreeing_total};
ghost use Rattle.std.specs.Ordering.{int_cmp, is_eq};
ghost use Rattle.nav_io.specs.Writes.{Writes};
ghost use Rattle.nav_tables.specs.Links.{nth};
ghost use Rattle.nav_rows.specs.Kinds.{IsKind};
ghost use Rattle.nav_rows.specs.Order.{by_place, by_rank, front_of};
ghost use Rattle.nav_rows.specs.Order.{rank as rank_in_order};
ghost use Rattle.nav_rows.specs.Rows.{value};
ghost use Rattle.rinex_write.specs.Columns.{AreFields};
ghost use Rattle.all_systems.specs.Streams.{row_text};
ghost use Rattle.all_systems.specs.KeptRows.{IsKept, kept_row};
ghost use Rattle.all_systems.specs.Merging.{is_before};

use crate::nav_key::NavKey;
use crate::put_row;
use arrayvec::ArrayVec;
use nav_io::{Failed, Sink};
use nav_lists::Ranked;
use nav_rows::{Kind, Row, compare_rows, rank_of};
use std::alloc::{AllocError, Global};
use std::cmp::Ordering;
use std::marker::Model;
use streams::Target;

// A row with its kind.
#[derive(Drop)]
pub(crate) struct KeptRow {
    kind: Kind,
    row: Row,
}

// A row, compared by its rank. It lies in memory of its own, so that an ordered set moves little.
#[derive(Drop)]
pub(crate) struct RowKey {
    // What comes first in its rank: most comparisons read no more.
    front: [i64; 5],
    kept: Box<KeptRow>,
}

impl Model for RowKey {
    ghost use Rattle.std.specs.Prelude.{◌≡◌};
    ghost use Rattle.nav_rows.specs.Order.{KindRow, front_of};
    ghost use Rattle.nav_rows.specs.Rows.{value};
    ghost use Rattle.all_systems.specs.KeptRows.{IsKept, kept_row};

    ghost Value = { KindRow };

    ghost view = { λ k. kept_row k.kept.value };

    ghost invariant = { λ k. IsKept k.kept.value
        × (k.front ≡ front_of k.kept.value.kind (value k.kept.value.row)) };
}

// What comes first in the rank of a row.
#[tactic(auto, unfolding(nav_rows::specs::Order::rank_of))]
fn front_of(kind: &Kind, row: &Row) -> [i64; 5]
    requires kind { IsKind kind.now }
    requires fields { AreFields kind.now.layout.columns.now row.now.columns.items }
    ensures { result ≡ front_of kind.now (value row.now) }
{
    let rank = rank_of(kind, row);
    let rank = rank.as_slice();
    [rank[0], rank[1], rank[2], rank[3], rank[4]]
}

// The columns of a row.
fn columns_of(row: &Row) -> ArrayVec<i64, 29>
    ensures { result.items ≡ row.now.columns.items }
{
    let mut columns = ArrayVec::new();
    match columns.try_extend_from_slice(row.columns.as_slice()) {
        Ok(()) => columns,
        Err(_) => columns,
    }
}

// A copy of a row.
fn copied(row: &Row) -> Row
    ensures same { value result ≡ value row.now }
    ensures columns { result.columns.items ≡ row.now.columns.items }
{
    Row {
        number: row.number,
        moment: row.moment,
        columns: columns_of(row),
    }
}

// Compares rows by rank.
fn compare_ranks(a: &KeptRow, b: &KeptRow) -> Ordering
    requires a { IsKept a.now }
    requires b { IsKept b.now }
    ensures { result ≡ by_rank (kept_row a.now) (kept_row b.now) }
{
    let rank = rank_of(&a.kind, &a.row);
    let other = rank_of(&b.kind, &b.row);
    rank.as_slice().cmp(other.as_slice())
}

// Compares rows by rank; columns are compared only where what comes first is equal.
fn compare(a: &RowKey, b: &RowKey) -> Ordering
    ensures { result ≡ by_rank a.now b.now }
{
    let order = a.front.cmp(&b.front);
    match order {
        Ordering::Less => order,
        Ordering::Equal => compare_ranks(&a.kept, &b.kept),
        Ordering::Greater => order,
    }
}

impl RowKey {
    // A copy of a row.
    pub(crate) fn new(alloc: Global, kind: &Kind, row: &Row) -> Result<RowKey, AllocError>
        requires kind { IsKind kind.now }
        requires fields { AreFields kind.now.layout.columns.now row.now.columns.items }
        ensures { IfOk result (λ key. key ≡ record { kind = kind.now; row = value row.now }) }
    {
        let kept = KeptRow {
            kind: *kind,
            row: copied(row),
        };
        Ok(RowKey {
            front: front_of(kind, row),
            kept: Box::new(alloc, kept)?,
        })
    }

    // What comes first in its rank.
    pub(crate) fn front(&self) -> &[i64; 5]
        ensures { result.now ≡ front_of self.now.kind self.now.row }
    {
        &self.front
    }

    // It comes before an item of GPS or Galileo.
    pub(crate) fn is_before(&self, other: &NavKey) -> bool
        ensures { result ≡ is_before self.now other.now }
    {
        self.front.cmp(other.front()).is_lt()
    }

    // Writes its record.
    pub(crate) fn write<T: Sink>(&self, to: &Target, out: &mut T) -> Result<(), Failed>
        ensures { Writes (T.written out.old) (T.written out.new)
            (T.faults out.old) (T.faults out.new)
            result (row_text to.now 0 self.now) }
    {
        put_row(to, 0, &self.kept.kind, &self.kept.row, out)
    }
}

impl PartialEq for RowKey {
    ghost eq = { λ a b. is_eq (by_rank a b) };

    ghost laws = { partial_equiv_from_equiv
        (eq_by_cmp_equiv (on_total rank_in_order (lists_total int_cmp_total))) };

    fn eq(&self, other: &RowKey) -> bool {
        compare(self, other).is_eq()
    }
}

impl Eq for RowKey {
    ghost laws = { eq_by_cmp_equiv (on_total rank_in_order (lists_total int_cmp_total)) };
}

impl PartialOrd for RowKey {
    ghost partial_cmp = { λ a b. Some (by_rank a b) };

    ghost laws = { partial_order_from_agreeing_total (λ a b. by_rank a b)
        (on_total rank_in_order (lists_total int_cmp_total)) (λ a b. refl) (λ a b. refl) };

    fn partial_cmp(&self, other: &RowKey) -> Option<Ordering> {
        Some(compare(self, other))
    }
}

impl Ord for RowKey {
    ghost cmp = { λ a b. by_rank a b };

    ghost total = { on_total rank_in_order (lists_total int_cmp_total) };

    ghost matches_partial_cmp = { λ a b. refl };

    ghost matches_eq = { λ a b. refl };

    fn cmp(&self, other: &RowKey) -> Ordering {
        compare(self, other)
    }
}

// Of duplicates the one that comes first in the order of rows.
impl Ranked for RowKey {
    ghost choice = { λ a b. by_place a b };

    ghost choice_total = { then_total (on_total rank_in_order (lists_total int_cmp_total))
        (then_total (on_total (λ x. nth x.row.columns x.kind.sent) int_cmp_total)
        (on_total (λ x. x.row.columns) (lists_total int_cmp_total))) };

    fn choice(&self, other: &RowKey) -> Ordering {
        compare_rows(
            &self.kept.kind,
            &self.kept.row,
            &other.kept.kind,
            &other.kept.row,
        )
    }
}

//! Ranges of time, and the range that an item covers.

ghost use Rattle.std.specs.Prelude.{◌≡◌, Some};
ghost use Rattle.std.proofs.Common.{refl};
ghost use Rattle.std.specs.Cmp.{eq_by_cmp_equiv};
ghost use Rattle.std.specs.Cmp.{partial_equiv_from_equiv, partial_order_from_agreeing_total};
ghost use Rattle.std.specs.Ordering.{is_eq};
ghost use Rattle.nav_eph.specs.Satellite.{place_of};
ghost use Rattle.nav_lists.specs.Ranges.{by_place, by_place_total, drawn_out};
ghost use Rattle.nav_lists.specs.Ranges.{is_of_one, span_of, touches};

use nav_eph::{NavItem, Sat, System};
use std::cmp::Ordering;

/// A range of seconds of one satellite, start included and end excluded, counted from 1980-01-06
/// 00:00:00 of GPS time.
///
/// Ranges are ordered by system (GPS first), satellite number, start and end.
#[derive(Clone, Copy)]
pub struct CoverRange {
    /// The satellite.
    pub sat: Sat,
    /// The first second.
    pub from: u64,
    /// The second after the last.
    pub to: u64,
}

// The order of systems: GPS before Galileo.
pub(crate) fn place(system: System) -> u8
    ensures { result ≡ place_of system }
{
    match system {
        System::Gps => 0,
        System::Gal => 1,
    }
}

// Compares two ranges.
fn compare(a: &CoverRange, b: &CoverRange) -> Ordering
    ensures { result ≡ by_place a.now b.now }
{
    place(a.sat.system()).cmp(&place(b.sat.system())).then(
        a.sat
            .number()
            .cmp(&b.sat.number())
            .then(a.from.cmp(&b.from).then(a.to.cmp(&b.to))),
    )
}

// Both ranges are of the same satellite.
fn are_of_one(a: &CoverRange, b: &CoverRange) -> bool
    ensures { result ≡ is_of_one a.now b.now }
{
    place(a.sat.system()) == place(b.sat.system()) && a.sat.number() == b.sat.number()
}

// `b`, which starts no earlier than `a`, is of the same satellite and overlaps or touches it.
pub(crate) fn is_touched(a: &CoverRange, b: &CoverRange) -> bool
    ensures { result ≡ touches a.now b.now }
{
    are_of_one(a, b) && b.from <= a.to
}

// The range `a`, extended to the end of `b` where that is later.
pub(crate) fn draw_out(a: CoverRange, b: CoverRange) -> CoverRange
    ensures { result ≡ drawn_out a b }
{
    CoverRange {
        sat: a.sat,
        from: a.from,
        to: a.to.max(b.to),
    }
}

// The range that an item covers; `None` for the ionosphere.
pub(crate) fn span(item: &NavItem) -> Option<CoverRange>
    ensures { result ≡ span_of item.now }
{
    match item {
        NavItem::Gps(e) => {
            let half = if e.fit.value() == 1 { 10_800 } else { 7_200 };
            let toe = e.toe().value();
            Some(CoverRange {
                sat: e.sat,
                from: toe.saturating_sub(half),
                to: toe + half,
            })
        }
        NavItem::Gal(e) => {
            let toe = e.toe().value();
            Some(CoverRange {
                sat: e.sat,
                from: toe.saturating_sub(7_200),
                to: toe + 7_200,
            })
        }
        NavItem::Ion(_) => None,
    }
}

impl PartialEq for CoverRange {
    ghost eq = { λ a b. is_eq (by_place a b) };

    ghost laws = { partial_equiv_from_equiv (eq_by_cmp_equiv by_place_total) };

    fn eq(&self, other: &CoverRange) -> bool {
        compare(self, other).is_eq()
    }
}

impl Eq for CoverRange {
    ghost laws = { eq_by_cmp_equiv by_place_total };
}

impl PartialOrd for CoverRange {
    ghost partial_cmp = { λ a b. Some (by_place a b) };

    ghost laws = { partial_order_from_agreeing_total by_place by_place_total (λ a b. refl)
        (λ a b. refl) };

    fn partial_cmp(&self, other: &CoverRange) -> Option<Ordering> {
        Some(compare(self, other))
    }
}

impl Ord for CoverRange {
    ghost cmp = { by_place };

    ghost total = { by_place_total };

    ghost matches_partial_cmp = { λ a b. refl };

    ghost matches_eq = { λ a b. refl };

    fn cmp(&self, other: &CoverRange) -> Ordering {
        compare(self, other)
    }
}

//! Items in memory of their own, in the order of rank.

ghost use Rattle.std.specs.Prelude.{◌≡◌, IfOk, Some};
ghost use Rattle.std.proofs.Common.{refl};
ghost use Rattle.std.specs.Cmp.Lexicographic.{slice_cmp};
ghost use Rattle.std.specs.Ordering.{is_eq, int_cmp};
ghost use Rattle.nav_eph.specs.Ranks.{content_rank, rank, sent_of};
ghost use Rattle.nav_eph.specs.Weeks.{IsMoment};
ghost use Rattle.nav_eph.specs.declared.items.NavItem.TheVariants.{Gps as GpsItem};
ghost use Rattle.nav_eph.specs.declared.items.NavItem.TheVariants.{Gal as GalItem};
ghost use Rattle.nav_eph.specs.declared.items.NavItem.TheVariants.{Ion as IonItem};
ghost use Rattle.nav_lists.specs.Fronts.{front_of, satellite_of};
ghost use Rattle.nav_lists.specs.Merging.{by_rank, class_of, is_sooner, moment_of};
ghost use Rattle.nav_lists.specs.Merging.{place as place_in_rank};
ghost use Rattle.std.specs.Cmp.{partial_equiv_from_equiv, partial_order_from_agreeing_total};
ghost use Rattle.std.specs.Cmp.{eq_by_cmp_equiv, int_cmp_total, on_total};
ghost use Rattle.std.specs.Cmp.Lexicographic.{lists_total};

use crate::numbers::{
    clock_numbers, fit_and_week, gal_ion_numbers, gps_ion_numbers, health_numbers, orbit_a_numbers,
    orbit_b_numbers, sat_numbers, side_numbers, week_number, word1_numbers, word2_numbers,
    word3_numbers, word4_numbers,
};
use crate::range::place;
use nav_eph::{GalEph, GpsEph, IonContent, IonEph, NavItem, Sat, SentSecond};
use std::alloc::{AllocError, Global};
use std::cmp::Ordering;
use std::marker::Model;

// An item, compared by its rank. It lies in memory of its own, so that an ordered set moves and
// compares no more than two words of it.
#[derive(Drop)]
pub(crate) struct Ranked {
    // What comes first in its rank: most comparisons read no more.
    front: u64,
    item: Box<NavItem>,
}

impl Model for Ranked {
    ghost use Rattle.std.specs.Prelude.{◌≡◌};
    ghost use Rattle.nav_eph.specs.declared.items.NavItem.{NavItem};
    ghost use Rattle.nav_lists.specs.Fronts.{front_of};

    ghost Value = { NavItem };

    ghost view = { λ r. r.item.value };

    ghost invariant = { λ r. r.front ≡ front_of r.item.value };
}

impl Ranked {
    pub(crate) fn new(alloc: Global, item: &NavItem) -> Result<Ranked, AllocError>
        ensures { IfOk result (λ ranked. ranked ≡ item.now) }
    {
        Ok(Ranked {
            front: front(item),
            item: Box::new(alloc, *item)?,
        })
    }

    pub(crate) fn item(&self) -> &NavItem
        ensures { result.now ≡ self.now }
    {
        &self.item
    }
}

// The time of ephemeris or, for the ionosphere, the transmission time, as GPS time in seconds.
fn moment(item: &NavItem) -> u64
    ensures same { result ≡ moment_of item.now }
    ensures fits { IsMoment result }
{
    match item {
        NavItem::Gps(e) => e.toe().value(),
        NavItem::Gal(e) => e.toe().value(),
        NavItem::Ion(e) => e.moment.value(),
    }
}

// The class of an item: GPS ephemeris, Galileo ephemeris, GPS ionosphere, Galileo ionosphere.
fn class(item: &NavItem) -> u8
    ensures { result ≡ class_of item.now }
{
    match item {
        NavItem::Gps(_) => 0,
        NavItem::Gal(_) => 1,
        NavItem::Ion(e) => match &e.content {
            IonContent::Gps(_) => 2,
            IonContent::Gal(_) => 3,
        },
    }
}

// The satellite of an item.
fn satellite(item: &NavItem) -> Sat
    ensures { result ≡ satellite_of item.now }
{
    match item {
        NavItem::Gps(e) => e.sat,
        NavItem::Gal(e) => e.sat,
        NavItem::Ion(e) => e.sat,
    }
}

// What comes first in the rank of an item, as one number.
fn front(item: &NavItem) -> u64
    ensures { result ≡ front_of item.now }
{
    let sat = satellite(item);
    let kind = moment(item) * 4 + class(item) as u64;
    (kind * 2 + place(sat.system()) as u64) * 64 + sat.number().min(63) as u64
}

// Compares GPS ephemerides by their fields, without the transmission time.
fn compare_gps(a: &GpsEph, b: &GpsEph) -> Ordering
    ensures { result ≡ slice_cmp int_cmp (rank (GpsItem a.now)) (rank (GpsItem b.now)) }
{
    sat_numbers(a.sat)
        .cmp(&sat_numbers(b.sat))
        .then(clock_numbers(&a.clock).cmp(&clock_numbers(&b.clock)))
        .then(side_numbers(&a.side).cmp(&side_numbers(&b.side)))
        .then(orbit_a_numbers(&a.a).cmp(&orbit_a_numbers(&b.a)))
        .then(fit_and_week(&a.fit, &a.toe_week).cmp(&fit_and_week(&b.fit, &b.toe_week)))
        .then(orbit_b_numbers(&a.b).cmp(&orbit_b_numbers(&b.b)))
}

// Compares Galileo ephemerides by their fields, without the transmission time.
fn compare_gal(a: &GalEph, b: &GalEph) -> Ordering
    ensures { result ≡ slice_cmp int_cmp (rank (GalItem a.now)) (rank (GalItem b.now)) }
{
    sat_numbers(a.sat)
        .cmp(&sat_numbers(b.sat))
        .then(word1_numbers(&a.w1).cmp(&word1_numbers(&b.w1)))
        .then(word2_numbers(&a.w2).cmp(&word2_numbers(&b.w2)))
        .then(word3_numbers(&a.w3).cmp(&word3_numbers(&b.w3)))
        .then(word4_numbers(&a.w4).cmp(&word4_numbers(&b.w4)))
        .then(week_number(&a.toe_week).cmp(&week_number(&b.toe_week)))
        .then(health_numbers(&a.health).cmp(&health_numbers(&b.health)))
}

// Compares the parameters of the ionosphere; GPS before Galileo.
fn compare_content(a: &IonContent, b: &IonContent) -> Ordering
    ensures { result ≡ slice_cmp int_cmp (content_rank a.now) (content_rank b.now) }
{
    match (a, b) {
        (IonContent::Gps(x), IonContent::Gps(y)) => gps_ion_numbers(x).cmp(&gps_ion_numbers(y)),
        (IonContent::Gps(_), IonContent::Gal(_)) => Ordering::Less,
        (IonContent::Gal(_), IonContent::Gps(_)) => Ordering::Greater,
        (IonContent::Gal(x), IonContent::Gal(y)) => gal_ion_numbers(x).cmp(&gal_ion_numbers(y)),
    }
}

// Compares ionosphere items by their fields.
fn compare_ion(a: &IonEph, b: &IonEph) -> Ordering
    ensures { result ≡ slice_cmp int_cmp (rank (IonItem a.now)) (rank (IonItem b.now)) }
{
    sat_numbers(a.sat)
        .cmp(&sat_numbers(b.sat))
        .then(a.moment.value().cmp(&b.moment.value()))
        .then(compare_content(&a.content, &b.content))
}

// Compares items by their fields, without the transmission time.
fn compare_fields(a: &NavItem, b: &NavItem) -> Ordering
    ensures { result ≡ slice_cmp int_cmp (rank a.now) (rank b.now) }
{
    match (a, b) {
        (NavItem::Gps(x), NavItem::Gps(y)) => compare_gps(x, y),
        (NavItem::Gal(x), NavItem::Gal(y)) => compare_gal(x, y),
        (NavItem::Ion(x), NavItem::Ion(y)) => compare_ion(x, y),
        (NavItem::Gps(_), NavItem::Gal(_)) => Ordering::Less,
        (NavItem::Gps(_), NavItem::Ion(_)) => Ordering::Less,
        (NavItem::Gal(_), NavItem::Ion(_)) => Ordering::Less,
        (NavItem::Gal(_), NavItem::Gps(_)) => Ordering::Greater,
        (NavItem::Ion(_), NavItem::Gps(_)) => Ordering::Greater,
        (NavItem::Ion(_), NavItem::Gal(_)) => Ordering::Greater,
    }
}

// Compares items by rank; fields are compared only where what comes first is equal.
fn compare(a: &Ranked, b: &Ranked) -> Ordering
    ensures { result ≡ by_rank a.now b.now }
{
    let order = a.front.cmp(&b.front);
    match order {
        Ordering::Less => order,
        Ordering::Equal => compare_fields(&a.item, &b.item),
        Ordering::Greater => order,
    }
}

// Transmission time `a` is earlier than `b`; an unknown one is the latest.
fn is_sent_sooner(a: &SentSecond, b: &SentSecond) -> bool
    ensures { result ≡ is_sooner a.now b.now }
{
    match (a, b) {
        (SentSecond::At(s), SentSecond::At(t)) => *s < *t,
        (SentSecond::At(_), SentSecond::Unknown) => true,
        (SentSecond::Unknown, _) => false,
    }
}

// The transmission time of an ephemeris; `Unknown` for an ionosphere, whose time is part of its
// rank.
fn transmission(item: &NavItem) -> SentSecond
    ensures { result ≡ sent_of item.now }
{
    match item {
        NavItem::Gps(e) => e.sent,
        NavItem::Gal(e) => e.sent,
        NavItem::Ion(_) => SentSecond::Unknown,
    }
}

// The first item was sent earlier than the second.
pub(crate) fn is_earlier(a: &NavItem, b: &NavItem) -> bool
    ensures { result ≡ is_sooner (sent_of a.now) (sent_of b.now) }
{
    is_sent_sooner(&transmission(a), &transmission(b))
}

impl PartialEq for Ranked {
    ghost eq = { λ a b. is_eq (by_rank a b) };

    ghost laws = { partial_equiv_from_equiv (eq_by_cmp_equiv (on_total place_in_rank
        (lists_total int_cmp_total))) };

    fn eq(&self, other: &Ranked) -> bool {
        compare(self, other).is_eq()
    }
}

impl Eq for Ranked {
    ghost laws = { eq_by_cmp_equiv (on_total place_in_rank (lists_total int_cmp_total)) };
}

impl PartialOrd for Ranked {
    ghost partial_cmp = { λ a b. Some (by_rank a b) };

    ghost laws = { partial_order_from_agreeing_total (λ a b. by_rank a b)
        (on_total place_in_rank (lists_total int_cmp_total)) (λ a b. refl) (λ a b. refl) };

    fn partial_cmp(&self, other: &Ranked) -> Option<Ordering> {
        Some(compare(self, other))
    }
}

impl Ord for Ranked {
    ghost cmp = { λ a b. by_rank a b };

    ghost total = { on_total place_in_rank (lists_total int_cmp_total) };

    ghost matches_partial_cmp = { λ a b. refl };

    ghost matches_eq = { λ a b. refl };

    fn cmp(&self, other: &Ranked) -> Ordering {
        compare(self, other)
    }
}

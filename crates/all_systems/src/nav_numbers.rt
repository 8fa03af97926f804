//! The numbers of items of GPS and Galileo, in the order of their columns.

ghost use Rattle.std.specs.Prelude.{◌≡◌, ◌≤◌, ◌∷◌, length, pos};
ghost use Rattle.nav_eph.specs.Ranks.{gal_ion_rank, gps_ion_rank, sent_of};
ghost use Rattle.nav_eph.specs.Satellite.{place_of};
ghost use Rattle.rinex_write.specs.Fields.{epoch_of as epoch_in};
ghost use Rattle.all_systems.specs.NavOrder.{galileo_numbers, gps_numbers, ion_numbers};
ghost use Rattle.all_systems.specs.NavOrder.{nav_front, nav_numbers, or_none, sent_place};

use arrayvec::ArrayVec;
use nav_bits::U;
use nav_eph::{
    GalEph, GalIon, GpsEph, GpsIon, IonContent, IonEph, NavItem, Sat, SentSecond, Sisa, Step16,
    Step60, System, Week,
};
use rinex_write::epoch_of;

// The epoch of its record; 0 for an ionosphere.
fn epoch(item: &NavItem) -> i64
    ensures { result ≡ pos (or_none (epoch_in item.now)) }
{
    match epoch_of(item) {
        Some(moment) => moment.value() as i64,
        None => 0,
    }
}

// What comes first in the order of items.
pub(crate) fn nav_front(item: &NavItem) -> [i64; 5]
    ensures { result ≡ nav_front item.now }
{
    let epoch = epoch(item);
    match item {
        NavItem::Gps(e) => [e.toe().value() as i64, 0, e.sat.number() as i64, 0, epoch],
        NavItem::Gal(e) => [e.toe().value() as i64, 1, e.sat.number() as i64, 1, epoch],
        NavItem::Ion(e) => {
            let place = match &e.content {
                IonContent::Gps(_) => 7,
                IonContent::Gal(_) => 8,
            };
            [
                e.moment.value() as i64,
                place,
                e.sat.number() as i64,
                0,
                epoch,
            ]
        }
    }
}

// The place of its system.
fn place(sat: &Sat) -> i64
    ensures { result ≡ pos (place_of sat.now.system) }
{
    match sat.system() {
        System::Gps => 0,
        System::Gal => 1,
    }
}

// An unsigned number.
fn unsigned<const W: u32>(number: &U<W>) -> i64
    requires { W ≤ 32 }
    ensures { result ≡ pos number.now }
{
    number.value() as i64
}

// A GPS time of week, in steps of 16 s.
fn steps16(steps: &Step16) -> i64
    ensures { result ≡ pos steps.now }
{
    steps.value() as i64
}

// A Galileo time of week, in steps of 60 s.
fn steps60(steps: &Step60) -> i64
    ensures { result ≡ pos steps.now }
{
    steps.value() as i64
}

// The week of toe.
fn week(week: &Week) -> i64
    ensures { result ≡ pos week.now }
{
    i64::from(week.value())
}

// A SISA index.
fn accuracy(index: &Sisa) -> i64
    ensures { result ≡ pos index.now }
{
    index.value() as i64
}

fn gps_numbers(e: &GpsEph) -> [i64; 31]
    ensures { result ≡ gps_numbers e.now }
{
    [
        e.clock.af0.value(),
        e.clock.af1.value(),
        e.clock.af2.value(),
        unsigned(&e.a.iode),
        e.a.crs.value(),
        e.a.delta_n.value(),
        e.a.m0.value(),
        e.a.cuc.value(),
        unsigned(&e.a.e),
        e.a.cus.value(),
        unsigned(&e.a.root_a),
        steps16(&e.a.toe),
        e.b.cic.value(),
        e.b.omega0.value(),
        e.b.cis.value(),
        e.b.i0.value(),
        e.b.crc.value(),
        e.b.omega.value(),
        e.b.omega_dot.value(),
        e.b.idot.value(),
        unsigned(&e.side.l2_code),
        week(&e.toe_week),
        unsigned(&e.side.l2p),
        unsigned(&e.side.ura),
        unsigned(&e.side.health),
        e.clock.tgd.value(),
        unsigned(&e.clock.iodc),
        unsigned(&e.fit),
        steps16(&e.clock.toc),
        unsigned(&e.b.iode),
        place(&e.sat),
    ]
}

fn galileo_numbers(e: &GalEph) -> [i64; 33]
    ensures { result ≡ galileo_numbers e.now }
{
    [
        e.w4.af0.value(),
        e.w4.af1.value(),
        e.w4.af2.value(),
        unsigned(&e.w1.iodnav),
        e.w3.crs.value(),
        e.w3.delta_n.value(),
        e.w1.m0.value(),
        e.w3.cuc.value(),
        unsigned(&e.w1.e),
        e.w3.cus.value(),
        unsigned(&e.w1.root_a),
        steps60(&e.w1.toe),
        e.w4.cic.value(),
        e.w2.omega0.value(),
        e.w4.cis.value(),
        e.w2.i0.value(),
        e.w3.crc.value(),
        e.w2.omega.value(),
        e.w3.omega_dot.value(),
        e.w2.idot.value(),
        week(&e.toe_week),
        accuracy(&e.w3.sisa),
        unsigned(&e.health.hs_e5b),
        unsigned(&e.health.dvs_e5b),
        unsigned(&e.health.hs_e1b),
        unsigned(&e.health.dvs_e1b),
        e.health.bgd_a.value(),
        e.health.bgd_b.value(),
        steps60(&e.w4.toc),
        unsigned(&e.w2.iodnav),
        unsigned(&e.w3.iodnav),
        unsigned(&e.w4.iodnav),
        place(&e.sat),
    ]
}

fn gps_ion_numbers(sat: &Sat, x: &GpsIon) -> [i64; 9]
    ensures { result ≡ pos (place_of sat.now.system) ∷ gps_ion_rank x.now }
{
    [
        place(sat),
        x.alpha0.value(),
        x.alpha1.value(),
        x.alpha2.value(),
        x.alpha3.value(),
        x.beta0.value(),
        x.beta1.value(),
        x.beta2.value(),
        x.beta3.value(),
    ]
}

fn galileo_ion_numbers(sat: &Sat, x: &GalIon) -> [i64; 5]
    ensures { result ≡ pos (place_of sat.now.system) ∷ gal_ion_rank x.now }
{
    [
        place(sat),
        x.ai0.value() as i64,
        x.ai1.value(),
        x.ai2.value(),
        x.regions.value() as i64,
    ]
}

// The same numbers.
fn filled(numbers: &[i64]) -> ArrayVec<i64, 33>
    requires { length numbers.now ≤ 33 }
    ensures { result.items ≡ numbers.now }
{
    let mut filled = ArrayVec::new();
    match filled.try_extend_from_slice(numbers) {
        Ok(()) => filled,
        Err(_) => filled,
    }
}

// The numbers of ionosphere parameters.
fn ion_numbers(e: &IonEph) -> ArrayVec<i64, 33>
    ensures { result.items ≡ pos (place_of e.now.sat.system) ∷ ion_numbers e.now.content }
{
    match &e.content {
        IonContent::Gps(x) => filled(&gps_ion_numbers(&e.sat, x)),
        IonContent::Gal(x) => filled(&galileo_ion_numbers(&e.sat, x)),
    }
}

// The numbers of an item behind what comes first.
pub(crate) fn nav_numbers(item: &NavItem) -> ArrayVec<i64, 33>
    ensures { result.items ≡ nav_numbers item.now }
{
    match item {
        NavItem::Gps(e) => filled(&gps_numbers(e)),
        NavItem::Gal(e) => filled(&galileo_numbers(e)),
        NavItem::Ion(e) => ion_numbers(e),
    }
}

// The place of a transmission time.
fn sent_place(sent: &SentSecond) -> [i64; 2]
    ensures { result ≡ sent_place sent.now }
{
    match sent {
        SentSecond::At(second) => [0, i64::from(*second)],
        SentSecond::Unknown => [1, 0],
    }
}

// The place of the transmission time of an item.
pub(crate) fn item_sent_place(item: &NavItem) -> [i64; 2]
    ensures { result ≡ sent_place (sent_of item.now) }
{
    match item {
        NavItem::Gps(e) => sent_place(&e.sent),
        NavItem::Gal(e) => sent_place(&e.sent),
        NavItem::Ion(_) => [1, 0],
    }
}

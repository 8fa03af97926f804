//! Items as numbers, in the order in which they are compared.

ghost use Rattle.std.specs.Prelude.{◌≡◌, ◌+◌, ◌≤◌, [], ◌∷◌, ◌++◌, length, pos};
ghost use Rattle.arrayvec.specs.ArrayVec.{array_vec_len};
ghost use Rattle.nav_eph.specs.Ranks.{clock_rank, content_rank, gal_ion_rank, gps_ion_rank};
ghost use Rattle.nav_eph.specs.Ranks.{health_rank, orbit_a_rank, orbit_b_rank, sat_rank, side_rank};
ghost use Rattle.nav_eph.specs.Ranks.{transmission_rank, word1_rank, word2_rank, word3_rank};
ghost use Rattle.nav_eph.specs.Ranks.{word4_rank};
ghost use Rattle.nav_eph.specs.Satellite.{place_of};
ghost use Rattle.nav_eph.specs.declared.items.NavItem.TheVariants.{Gps as GpsItem};
ghost use Rattle.nav_eph.specs.declared.items.NavItem.TheVariants.{Gal as GalItem};
ghost use Rattle.nav_eph.specs.declared.items.NavItem.TheVariants.{Ion as IonItem};
ghost use Rattle.nav_lists.specs.Fronts.{satellite_of};
ghost use Rattle.nav_lists.specs.Merging.{class_of, class_of_content, moment_of};
ghost use Rattle.nav_files.specs.Numbers.{key_of, numbers_of};

use arrayvec::ArrayVec;
use nav_bits::U;
use nav_eph::{
    GalEph, GalHealth, GalIon, GalWord1, GalWord2, GalWord3, GalWord4, GpsClock, GpsEph, GpsIon,
    GpsOrbitA, GpsOrbitB, GpsSide, IonContent, IonEph, Moment, NavItem, Sat, SentSecond, System,
    Week,
};

/// The numbers of an item.
pub(crate) type Numbers = ArrayVec<i64, 40>;

/// The satellite of an item.
pub(crate) fn satellite(item: &NavItem) -> Sat
    ensures { result ≡ satellite_of item.now }
{
    match item {
        NavItem::Gps(e) => e.sat,
        NavItem::Gal(e) => e.sat,
        NavItem::Ion(e) => e.sat,
    }
}

/// The GPS time of an item: toe, or the transmission time of an ionosphere.
pub(crate) fn moment(item: &NavItem) -> Moment
    ensures { result ≡ moment_of item.now }
{
    match item {
        NavItem::Gps(e) => e.toe(),
        NavItem::Gal(e) => e.toe(),
        NavItem::Ion(e) => e.moment,
    }
}

// The class of an item.
fn class(item: &NavItem) -> i64
    ensures { result ≡ pos (class_of item.now) }
{
    match item {
        NavItem::Gps(_) => 0,
        NavItem::Gal(_) => 1,
        NavItem::Ion(e) => content_class(&e.content),
    }
}

// The class of ionospheric parameters.
fn content_class(content: &IonContent) -> i64
    ensures { result ≡ pos (class_of_content content.now) }
{
    match content {
        IonContent::Gps(_) => 2,
        IonContent::Gal(_) => 3,
    }
}

// A GPS time.
fn seconds(moment: Moment) -> i64
    ensures { result ≡ pos moment }
{
    moment.value() as i64
}

// The system of a satellite.
fn system(sat: &Sat) -> i64
    ensures { result ≡ pos (place_of sat.now.system) }
{
    match sat.system() {
        System::Gps => 0,
        System::Gal => 1,
    }
}

// The number of a satellite.
fn number(sat: &Sat) -> i64
    ensures { result ≡ pos sat.now.number }
{
    i64::from(sat.number())
}

/// The key of an item: its GPS time, class and satellite.
pub(crate) fn key(item: &NavItem) -> [i64; 4]
    ensures { result ≡ key_of item.now }
{
    let sat = satellite(item);
    [
        seconds(moment(item)),
        class(item),
        system(&sat),
        number(&sat),
    ]
}

// The numbers of a transmission time.
fn sent_numbers(sent: &SentSecond) -> [i64; 2]
    ensures { result ≡ transmission_rank sent.now }
{
    match sent {
        SentSecond::Unknown => [0, 0],
        SentSecond::At(second) => [1, i64::from(*second)],
    }
}

// A clock correction of GPS.
fn clock_numbers(x: &GpsClock) -> [i64; 6]
    ensures { result ≡ clock_rank x.now }
{
    [
        x.iodc.value() as i64,
        x.toc.value() as i64,
        x.af2.value(),
        x.af1.value(),
        x.af0.value(),
        x.tgd.value(),
    ]
}

// An SV status.
fn side_numbers(x: &GpsSide) -> [i64; 4]
    ensures { result ≡ side_rank x.now }
{
    [
        x.l2_code.value() as i64,
        x.ura.value() as i64,
        x.health.value() as i64,
        x.l2p.value() as i64,
    ]
}

// GPS subframe 2.
fn orbit_a_numbers(x: &GpsOrbitA) -> [i64; 9]
    ensures { result ≡ orbit_a_rank x.now }
{
    [
        x.iode.value() as i64,
        x.crs.value(),
        x.delta_n.value(),
        x.m0.value(),
        x.cuc.value(),
        x.e.value() as i64,
        x.cus.value(),
        x.root_a.value() as i64,
        x.toe.value() as i64,
    ]
}

// GPS subframe 3.
fn orbit_b_numbers(x: &GpsOrbitB) -> [i64; 9]
    ensures { result ≡ orbit_b_rank x.now }
{
    [
        x.iode.value() as i64,
        x.cic.value(),
        x.omega0.value(),
        x.cis.value(),
        x.i0.value(),
        x.crc.value(),
        x.omega.value(),
        x.omega_dot.value(),
        x.idot.value(),
    ]
}

// I/NAV word type 1.
fn word1_numbers(x: &GalWord1) -> [i64; 5]
    ensures { result ≡ word1_rank x.now }
{
    [
        x.iodnav.value() as i64,
        x.toe.value() as i64,
        x.m0.value(),
        x.e.value() as i64,
        x.root_a.value() as i64,
    ]
}

// I/NAV word type 2.
fn word2_numbers(x: &GalWord2) -> [i64; 5]
    ensures { result ≡ word2_rank x.now }
{
    [
        x.iodnav.value() as i64,
        x.omega0.value(),
        x.i0.value(),
        x.omega.value(),
        x.idot.value(),
    ]
}

// I/NAV word type 3.
fn word3_numbers(x: &GalWord3) -> [i64; 8]
    ensures { result ≡ word3_rank x.now }
{
    [
        x.iodnav.value() as i64,
        x.omega_dot.value(),
        x.delta_n.value(),
        x.cuc.value(),
        x.cus.value(),
        x.crc.value(),
        x.crs.value(),
        x.sisa.value() as i64,
    ]
}

// I/NAV word type 4.
fn word4_numbers(x: &GalWord4) -> [i64; 7]
    ensures { result ≡ word4_rank x.now }
{
    [
        x.iodnav.value() as i64,
        x.cic.value(),
        x.cis.value(),
        x.toc.value() as i64,
        x.af0.value(),
        x.af1.value(),
        x.af2.value(),
    ]
}

// Galileo group delays and health.
fn health_numbers(x: &GalHealth) -> [i64; 6]
    ensures { result ≡ health_rank x.now }
{
    [
        x.bgd_a.value(),
        x.bgd_b.value(),
        x.hs_e5b.value() as i64,
        x.hs_e1b.value() as i64,
        x.dvs_e5b.value() as i64,
        x.dvs_e1b.value() as i64,
    ]
}

// A satellite.
fn sat_numbers(sat: &Sat) -> [i64; 2]
    ensures { result ≡ sat_rank sat.now }
{
    [system(sat), number(sat)]
}

// The fit interval flag and the week of toe.
fn fit_and_week(fit: &U<1>, week: &Week) -> [i64; 2]
    ensures { result ≡ pos fit.now ∷ pos week.now ∷ [] }
{
    [fit.value() as i64, week.value() as i64]
}

// Appends a GPS ephemeris.
fn append_gps(all: &mut Numbers, e: &GpsEph)
    requires { all.old.items ≡ [] }
    ensures { all.new.items ≡ numbers_of (GpsItem e.now) }
{
    append(all, &[seconds(e.toe()), 0, 0]);
    append(all, &sat_numbers(&e.sat));
    append(all, &clock_numbers(&e.clock));
    append(all, &side_numbers(&e.side));
    append(all, &orbit_a_numbers(&e.a));
    append(all, &fit_and_week(&e.fit, &e.toe_week));
    append(all, &orbit_b_numbers(&e.b));
    append(all, &sent_numbers(&e.sent));
}

// Appends a Galileo ephemeris.
fn append_gal(all: &mut Numbers, e: &GalEph)
    requires { all.old.items ≡ [] }
    ensures { all.new.items ≡ numbers_of (GalItem e.now) }
{
    append(all, &[seconds(e.toe()), 1, 1]);
    append(all, &sat_numbers(&e.sat));
    append(all, &word1_numbers(&e.w1));
    append(all, &word2_numbers(&e.w2));
    append(all, &word3_numbers(&e.w3));
    append(all, &word4_numbers(&e.w4));
    append(all, &[i64::from(e.toe_week.value())]);
    append(all, &health_numbers(&e.health));
    append(all, &sent_numbers(&e.sent));
}

// Appends numbers; there must be room for them.
fn append(all: &mut Numbers, more: &[i64])
    requires { array_vec_len all.old + length more.now ≤ 40 }
    ensures items { all.new.items ≡ all.old.items ++ more.now }
    ensures len { array_vec_len all.new ≡ array_vec_len all.old + length more.now }
{
    if all.try_extend_from_slice(more).is_err() {
        unreachable!();
    }
}

// The parameters of the GPS ionosphere, after their system.
fn gps_content(x: &GpsIon) -> [i64; 9]
    ensures { result ≡ pos 0 ∷ gps_ion_rank x.now }
{
    [
        0,
        x.alpha0.value(),
        x.alpha1.value(),
        x.alpha2.value(),
        x.alpha3.value(),
        x.beta0.value(),
        x.beta1.value(),
        x.beta2.value(),
        x.beta3.value(),
    ]
}

// The parameters of the Galileo ionosphere, after their system.
fn gal_content(x: &GalIon) -> [i64; 5]
    ensures { result ≡ pos 1 ∷ gal_ion_rank x.now }
{
    [
        1,
        x.ai0.value() as i64,
        x.ai1.value(),
        x.ai2.value(),
        x.regions.value() as i64,
    ]
}

// Appends ionospheric parameters.
fn append_content(all: &mut Numbers, content: &IonContent)
    requires { array_vec_len all.old + 9 ≤ 40 }
    ensures items { all.new.items ≡ all.old.items ++ content_rank content.now }
    ensures short { array_vec_len all.new ≤ array_vec_len all.old + 9 }
{
    match content {
        IonContent::Gps(x) => append(all, &gps_content(x)),
        IonContent::Gal(x) => append(all, &gal_content(x)),
    }
}

// Appends an ionosphere item.
fn append_ion(all: &mut Numbers, e: &IonEph)
    requires { all.old.items ≡ [] }
    ensures { all.new.items ≡ numbers_of (IonItem e.now) }
{
    append(
        all,
        &[
            seconds(e.moment),
            content_class(&e.content),
            2,
            system(&e.sat),
            number(&e.sat),
            seconds(e.moment),
        ],
    );
    append_content(all, &e.content);
    append(all, &[0, 0]);
}

/// All numbers of an item.
pub(crate) fn numbers(item: &NavItem) -> Numbers
    ensures { result.items ≡ numbers_of item.now }
{
    let mut all = Numbers::new();
    match item {
        NavItem::Gps(e) => append_gps(&mut all, e),
        NavItem::Gal(e) => append_gal(&mut all, e),
        NavItem::Ion(e) => append_ion(&mut all, e),
    }
    all
}

//! The fields of items, in the order of their columns.

ghost use Rattle.std.specs.Prelude.{◌≡◌, ◌<◌, ◌≤◌, pos};
ghost use Rattle.rinex_write.specs.Accuracies.{health_of};
ghost use Rattle.rinex_write.specs.Fields.{sent_field, gps_fields, galileo_fields};
ghost use Rattle.rinex_write.specs.Fields.{gps_ionosphere_fields, galileo_ionosphere_fields};
ghost use Rattle.rinex_write.specs.Mirrors.{IsSmall};

use nav_bits::U;
use nav_eph::{GalEph, GalHealth, GalIon, GpsEph, GpsIon, SentSecond, Sisa, Step16, Step60, Week};

// An unsigned number.
fn unsigned<const W: u32>(number: &U<W>) -> i64
    requires { W ≤ 32 }
    ensures { result ≡ pos number.now }
{
    number.value() as i64
}

// A GPS time of week, in steps of 16 s.
fn steps16(steps: &Step16) -> i64
    ensures { result ≡ pos steps.now }
{
    steps.value() as i64
}

// A Galileo time of week, in steps of 60 s.
fn steps60(steps: &Step60) -> i64
    ensures { result ≡ pos steps.now }
{
    steps.value() as i64
}

// The week of toe.
fn week(week: &Week) -> i64
    ensures { result ≡ pos week.now }
{
    i64::from(week.value())
}

// A SISA index.
fn accuracy(index: &Sisa) -> i64
    ensures { result ≡ pos index.now }
{
    index.value() as i64
}

// The transmission time.
fn sent_field(sent: &SentSecond) -> i64
    ensures same { result ≡ sent_field sent.now }
    ensures small { IsSmall result }
{
    match sent {
        SentSecond::Unknown => 999_900_000,
        SentSecond::At(second) => i64::from(*second),
    }
}

// The SV health of a Galileo satellite.
fn health_of(health: &GalHealth) -> i64
    ensures { result ≡ pos (health_of health.now) }
{
    let number = health.dvs_e1b.value()
        + 2 * health.hs_e1b.value()
        + 64 * health.dvs_e5b.value()
        + 128 * health.hs_e5b.value();
    number as i64
}

pub(crate) fn gps_fields(e: &GpsEph) -> [i64; 29]
    ensures same { result ≡ gps_fields e.now }
    ensures sent { IsSmall (sent_field e.now.sent) }
{
    [
        e.clock.af0.value(),
        e.clock.af1.value(),
        e.clock.af2.value(),
        unsigned(&e.a.iode),
        e.a.crs.value(),
        e.a.delta_n.value(),
        e.a.m0.value(),
        e.a.cuc.value(),
        unsigned(&e.a.e),
        e.a.cus.value(),
        unsigned(&e.a.root_a),
        steps16(&e.a.toe),
        e.b.cic.value(),
        e.b.omega0.value(),
        e.b.cis.value(),
        e.b.i0.value(),
        e.b.crc.value(),
        e.b.omega.value(),
        e.b.omega_dot.value(),
        e.b.idot.value(),
        unsigned(&e.side.l2_code),
        week(&e.toe_week),
        unsigned(&e.side.l2p),
        unsigned(&e.side.ura),
        unsigned(&e.side.health),
        e.clock.tgd.value(),
        unsigned(&e.clock.iodc),
        sent_field(&e.sent),
        unsigned(&e.fit),
    ]
}

pub(crate) fn galileo_fields(e: &GalEph) -> [i64; 27]
    ensures same { result ≡ galileo_fields e.now }
    ensures sent { IsSmall (sent_field e.now.sent) }
{
    [
        e.w4.af0.value(),
        e.w4.af1.value(),
        e.w4.af2.value(),
        unsigned(&e.w1.iodnav),
        e.w3.crs.value(),
        e.w3.delta_n.value(),
        e.w1.m0.value(),
        e.w3.cuc.value(),
        unsigned(&e.w1.e),
        e.w3.cus.value(),
        unsigned(&e.w1.root_a),
        steps60(&e.w1.toe),
        e.w4.cic.value(),
        e.w2.omega0.value(),
        e.w4.cis.value(),
        e.w2.i0.value(),
        e.w3.crc.value(),
        e.w2.omega.value(),
        e.w3.omega_dot.value(),
        e.w2.idot.value(),
        517,
        week(&e.toe_week),
        accuracy(&e.w3.sisa),
        health_of(&e.health),
        e.health.bgd_a.value(),
        e.health.bgd_b.value(),
        sent_field(&e.sent),
    ]
}

pub(crate) fn gps_ionosphere_fields(i: &GpsIon) -> [i64; 9]
    ensures { result ≡ gps_ionosphere_fields i.now }
{
    [
        i.alpha0.value(),
        i.alpha1.value(),
        i.alpha2.value(),
        i.alpha3.value(),
        i.beta0.value(),
        i.beta1.value(),
        i.beta2.value(),
        i.beta3.value(),
        0,
    ]
}

pub(crate) fn galileo_ionosphere_fields(i: &GalIon) -> [i64; 4]
    ensures { result ≡ galileo_ionosphere_fields i.now }
{
    [
        unsigned(&i.ai0),
        i.ai1.value(),
        i.ai2.value(),
        unsigned(&i.regions),
    ]
}

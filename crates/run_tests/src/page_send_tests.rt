//! One ephemeris of each system as an independent encoder writes it, and the reasons not to send.

ghost use Rattle.std.specs.Prelude.{◌↔◌, IsTrue};
ghost use Rattle.sent_captures.specs.Sendable.{IsEphemeris};

use nav_bits::{S, U};
use nav_eph::{
    GalEph, GpsEph, IonContent, IonEph, NavItem, RefWeek, Sat, SentSecond, Sisa, Step16, Step60,
    System, Week,
};
use nav_io::MemSink;
use raw_values::{
    galileo_health, galileo_word1, galileo_word2, galileo_word3, galileo_word4, gps_clock,
    gps_orbit_a, gps_orbit_b, gps_side,
};
use sent_captures::{SendFault, can_send, send_item};
use std::alloc::{AllocError, Global};
use std::test::Fail;

const GPS_LINES: &[u8] = b"\
    0 L G05 8b00004800021043dc000580000029ffffff580000029ffffff580000029ffffff58000008c0\n\
    6 L G05 8b00004800042940000000000000000000000000000000000000000000000000000000000000\n\
    12 L G05 8b000048000631c0000000000000000000000000000000000000000000000000000000000000\n";

const GALILEO_LINES: &[u8] = b"\
    21600 P E11 B 010140000000000000000000000000\n\
    21601 P E11 B 8000000000000000000038a9288000\n\
    21602 P E11 B 020140000000000000000000000000\n\
    21603 P E11 B 8000000000000000000008b5104000\n\
    21604 P E11 B 030140000000000000000000000000\n\
    21605 P E11 B 801ac0000000000000001aca444000\n\
    21606 P E11 B 04014b000000000000000000000000\n\
    21607 P E11 B 80000000000000000000371c7fc000\n\
    21608 P E11 B 05000000000000000009ee00000000\n\
    21609 P E11 B 80000000000000000000244dbcc000\n";

// The item is an ephemeris.
fn is_ephemeris(item: &NavItem) -> bool
    ensures { IsTrue result ↔ IsEphemeris item.now }
{
    match item {
        NavItem::Gps(_) => true,
        NavItem::Gal(_) => true,
        NavItem::Ion(_) => false,
    }
}

// An ephemeris of G05 whose numbers are all 0 but for its iodc and its week.
fn gps(iodc: u64, week: u32) -> Option<NavItem> {
    let zero = Step16::new(0)?;
    let sat = Sat::new(System::Gps, 5)?;
    let clock = gps_clock(U::new(iodc)?, zero);
    let side = gps_side(U::from_bits(0), U::from_bits(0));
    let a = gps_orbit_a(U::from_bits(0), S::from_bits(0), zero);
    let fit = U::from_bits(0);
    let b = gps_orbit_b(U::from_bits(0));
    let sent = SentSecond::At(0);
    let eph = GpsEph::new(sat, clock, side, a, fit, b, Week::new(week)?, sent)?;
    Some(NavItem::Gps(eph))
}

// An ephemeris of E11 of issue 5, whose other numbers are 0 but for the accuracy.
fn galileo(week: u32) -> Option<NavItem> {
    let issue = U::from_bits(5);
    let zero = Step60::new(0)?;
    let sat = Sat::new(System::Gal, 11)?;
    let w1 = galileo_word1(issue, zero);
    let w2 = galileo_word2(issue);
    let w3 = galileo_word3(issue, Sisa::new(107)?);
    let w4 = galileo_word4(issue, zero);
    let health = galileo_health(U::from_bits(0));
    let sent = SentSecond::At(8);
    let eph = GalEph::new(sat, w1, w2, w3, w4, health, Week::new(week)?, sent)?;
    Some(NavItem::Gal(eph))
}

// Whether an item is sent in a slot as these lines.
fn is_sent_as(
    alloc: Global,
    item: Option<NavItem>,
    slot: u32,
    lines: &[u8],
) -> Result<bool, AllocError> {
    let (Some(item), Some(r)) = (item, RefWeek::new(2295)) else {
        return Ok(false);
    };
    if !is_ephemeris(&item) || !item.is_whole() || can_send(&item, r, slot).is_err() {
        return Ok(false);
    }
    let mut out = MemSink::new(alloc, 600, Vec::new(alloc))?;
    let sent = send_item(&item, r, slot, &mut out);
    Ok(sent.is_ok() && out.bytes() == lines)
}

#[test]
fn sends_subframes_and_pages(rt: HostRuntime) -> Result<(), Fail> {
    let is_gps_sent = is_sent_as(rt.alloc(), gps(0, 2295), 0, GPS_LINES)?;
    let is_galileo_sent = is_sent_as(rt.alloc(), galileo(2295), 1, GALILEO_LINES)?;
    assert!(rt; is_gps_sent && is_galileo_sent);
    Ok(())
}

// What a test asks of an ephemeris of GPS.
struct Case {
    name: &'static str,
    iodc: u64,
    week: u32,
    reference_week: u32,
    slot: u32,
    want: Result<(), SendFault>,
}

static CASES: [Case; 8] = [
    Case {
        name: "the last slot",
        iodc: 256,
        week: 2295,
        reference_week: 2295,
        slot: 198_841,
        want: Ok(()),
    },
    Case {
        name: "another issue of data",
        iodc: 1,
        week: 2295,
        reference_week: 3000,
        slot: 198_842,
        want: Err(SendFault::Issue),
    },
    Case {
        name: "another week and no room",
        iodc: 0,
        week: 2295,
        reference_week: 3000,
        slot: 198_842,
        want: Err(SendFault::Week),
    },
    Case {
        name: "no room",
        iodc: 0,
        week: 2295,
        reference_week: 2295,
        slot: 198_842,
        want: Err(SendFault::Room),
    },
    Case {
        name: "the first week that is near",
        iodc: 0,
        week: 1783,
        reference_week: 2295,
        slot: 0,
        want: Ok(()),
    },
    Case {
        name: "the week before that",
        iodc: 0,
        week: 1782,
        reference_week: 2295,
        slot: 0,
        want: Err(SendFault::Week),
    },
    Case {
        name: "the last week that is near",
        iodc: 0,
        week: 2806,
        reference_week: 2295,
        slot: 0,
        want: Ok(()),
    },
    Case {
        name: "the week behind that",
        iodc: 0,
        week: 2807,
        reference_week: 2295,
        slot: 0,
        want: Err(SendFault::Week),
    },
];

// The answer in a case.
fn answer(case: &Case) -> Option<Result<(), SendFault>> {
    let _inside: Option<(GpsEph, GalEph, IonEph, IonContent)> = None;
    let r = RefWeek::new(case.reference_week)?;
    let item = gps(case.iodc, case.week)?;
    if !is_ephemeris(&item) {
        return None;
    }
    Some(can_send(&item, r, case.slot))
}

#[test]
fn says_why_not(rt: HostRuntime) {
    for case in &CASES {
        assert_eq!(rt; answer(case), Some(case.want), "{}", case.name);
    }
}

ghost use Rattle.std.specs.Prelude.{◌≡◌, ◌<◌};
ghost use Rattle.nav_eph.specs.Weeks.{IsSecond};
ghost use Rattle.lnav_subframe.specs.Reading.{content, page_of, start_second};
ghost use Rattle.lnav_subframe.specs.Reading.{read_1, read_2, read_3, read_18};

use crate::clock::Subframe1;
use crate::fault::LnavFault;
use crate::head::Head;
use crate::orbit::{Subframe2, Subframe3};
use crate::page18::Page18;
use nav_bits::{BitForm, Bits, U};
use nav_eph::{Body, GpsClock, GpsIon, GpsOrbitA, GpsOrbitB, GpsSide, Second, SentTag, Step16};

// The subframes of a week, one every 6 s.
const SUBFRAMES_OF_WEEK: u64 = 100_800;

// The SV ID of page 18 of subframe 4, with the ionosphere.
const IONOSPHERE: u64 = 56;

// The second of the week at which the subframe with this TOW count starts.
fn start(tow_count: U<17>) -> Second
    requires { tow_count < 100800 }
    ensures { result ≡ start_second tow_count }
{
    let tow_count = tow_count.value();
    if tow_count == 0 {
        return Second::from_number(604_794);
    }
    Second::from_number((6 * tow_count - 6) as u32)
}

// The body of subframe 1; `BadTime` where toc is past the end of the week.
fn clock_body(fields: &Subframe1) -> Result<Body, LnavFault>
    requires { fields.now.tow_count < 100800 }
    ensures { result ≡ read_1 fields.now }
{
    let toc = match Step16::new(fields.toc.value()) {
        Some(toc) => toc,
        None => return Err(LnavFault::BadTime),
    };
    let clock = GpsClock {
        iodc: fields.iodc,
        toc,
        af2: fields.af2,
        af1: fields.af1,
        af0: fields.af0,
        tgd: fields.tgd,
    };
    let side = GpsSide {
        l2_code: fields.l2_code,
        ura: fields.ura,
        health: fields.health,
        l2p: fields.l2p,
    };
    let tag = SentTag::Sent {
        wn: U::from_bits(fields.wn.value()),
        second: start(fields.tow_count),
    };
    Ok(Body::GpsClock(clock, side, tag))
}

// The body of subframe 2; `BadTime` where toe is past the end of the week.
fn orbit_a_body(fields: &Subframe2) -> Result<Body, LnavFault>
    ensures { result ≡ read_2 fields.now }
{
    let toe = match Step16::new(fields.toe.value()) {
        Some(toe) => toe,
        None => return Err(LnavFault::BadTime),
    };
    let orbit = GpsOrbitA {
        iode: fields.iode,
        crs: fields.crs,
        delta_n: fields.delta_n,
        m0: fields.m0,
        cuc: fields.cuc,
        e: fields.e,
        cus: fields.cus,
        root_a: fields.root_a,
        toe,
    };
    Ok(Body::GpsA(orbit, fields.fit))
}

// The body of subframe 3.
fn orbit_b_body(fields: &Subframe3) -> Result<Body, LnavFault>
    ensures { result ≡ read_3 fields.now }
{
    let orbit = GpsOrbitB {
        iode: fields.iode,
        cic: fields.cic,
        omega0: fields.omega0,
        cis: fields.cis,
        i0: fields.i0,
        crc: fields.crc,
        omega: fields.omega,
        omega_dot: fields.omega_dot,
        idot: fields.idot,
    };
    Ok(Body::GpsB(orbit))
}

// The body of page 18 of subframe 4.
fn ion_body(fields: &Page18) -> Result<Body, LnavFault>
    requires { fields.now.tow_count < 100800 }
    ensures { result ≡ read_18 fields.now }
{
    let ion = GpsIon {
        alpha0: fields.alpha0,
        alpha1: fields.alpha1,
        alpha2: fields.alpha2,
        alpha3: fields.alpha3,
        beta0: fields.beta0,
        beta1: fields.beta1,
        beta2: fields.beta2,
        beta3: fields.beta3,
    };
    Ok(Body::GpsIon(ion, start(fields.tow_count)))
}

// The page in `LnavFault::Unused`: the SV ID in subframes 4 and 5, 0 in others.
fn page(head: &Head) -> u8
    ensures { result ≡ page_of head.now }
{
    let number = head.number.value();
    let page = head.page.value() as u8;
    if number == 4 {
        return page;
    }
    if number == 5 {
        return page;
    }
    0
}

// The body that the data bits of a subframe encode, or the first fault in them.
pub(crate) fn content_of(source: &Bits<38>) -> Result<Body, LnavFault>
    ensures { result ≡ content source.now }
{
    let head: Head = BitForm::<38>::unpack(source, 0);
    if head.tow_count.value() >= SUBFRAMES_OF_WEEK {
        return Err(LnavFault::BadTow);
    }
    let number = head.number.value();
    if number == 1 {
        let fields: Subframe1 = BitForm::<38>::unpack(source, 0);
        return clock_body(&fields);
    }
    if number == 2 {
        let fields: Subframe2 = BitForm::<38>::unpack(source, 0);
        return orbit_a_body(&fields);
    }
    if number == 3 {
        let fields: Subframe3 = BitForm::<38>::unpack(source, 0);
        return orbit_b_body(&fields);
    }
    if number == 4 && head.page.value() == IONOSPHERE {
        let fields: Page18 = BitForm::<38>::unpack(source, 0);
        return ion_body(&fields);
    }
    Err(LnavFault::Unused {
        number: number as u8,
        page: page(&head),
    })
}

ghost use Rattle.std.specs.Prelude.{◌≡◌, ◌<◌};
ghost use Rattle.nav_eph.specs.Bodies.{IsGpsIon, IsGpsSide};
ghost use Rattle.nav_eph.specs.Ranges.{IsGpsClock, IsGpsOrbitA, IsGpsOrbitB};
ghost use Rattle.nav_eph.specs.Steps.{IsStep16};
ghost use Rattle.lnav_subframe.specs.Bytes.{HasBits, subframe_bytes};
ghost use Rattle.lnav_subframe.specs.Writing.{AllReadAs, HasTime, Holds, IsWritable, IsWritten};
ghost use Rattle.lnav_subframe.specs.Writing.{page18_of, read_again};
ghost use Rattle.lnav_subframe.specs.Writing.{subframe1_of, subframe2_of, subframe3_of};

use crate::clock::Subframe1;
use crate::head::Head;
use crate::orbit::{Subframe2, Subframe3};
use crate::out::SubframeOut;
use crate::page18::Page18;
use crate::words::words_of;
use nav_bits::{BitForm, Bits, U};
use nav_eph::{GpsClock, GpsIon, GpsOrbitA, GpsOrbitB, GpsSide};

// The fields of subframe 1.
fn subframe1(clock: &GpsClock, side: &GpsSide, wn: U<10>, tow_count: U<17>) -> Subframe1
    ensures fields { result ≡ subframe1_of clock.now side.now wn tow_count }
    ensures time { IsStep16 clock.now.toc }
{
    Subframe1 {
        tow_count,
        wn,
        l2_code: side.l2_code,
        ura: side.ura,
        health: side.health,
        iodc: clock.iodc,
        l2p: side.l2p,
        tgd: clock.tgd,
        toc: U::from_bits(clock.toc.value()),
        af2: clock.af2,
        af1: clock.af1,
        af0: clock.af0,
    }
}

// The fields of subframe 2.
fn subframe2(orbit: &GpsOrbitA, fit: U<1>, tow_count: U<17>) -> Subframe2
    ensures fields { result ≡ subframe2_of orbit.now fit tow_count }
    ensures time { IsStep16 orbit.now.toe }
{
    Subframe2 {
        tow_count,
        iode: orbit.iode,
        crs: orbit.crs,
        delta_n: orbit.delta_n,
        m0: orbit.m0,
        cuc: orbit.cuc,
        e: orbit.e,
        cus: orbit.cus,
        root_a: orbit.root_a,
        toe: U::from_bits(orbit.toe.value()),
        fit,
    }
}

// The fields of subframe 3.
fn subframe3(orbit: &GpsOrbitB, tow_count: U<17>) -> Subframe3
    ensures { result ≡ subframe3_of orbit.now tow_count }
{
    Subframe3 {
        tow_count,
        cic: orbit.cic,
        omega0: orbit.omega0,
        cis: orbit.cis,
        i0: orbit.i0,
        crc: orbit.crc,
        omega: orbit.omega,
        omega_dot: orbit.omega_dot,
        iode: orbit.iode,
        idot: orbit.idot,
    }
}

// The fields of page 18.
fn page18(ion: &GpsIon, tow_count: U<17>) -> Page18
    ensures { result ≡ page18_of ion.now tow_count }
{
    Page18 {
        tow_count,
        alpha0: ion.alpha0,
        alpha1: ion.alpha1,
        alpha2: ion.alpha2,
        alpha3: ion.alpha3,
        beta0: ion.beta0,
        beta1: ion.beta1,
        beta2: ion.beta2,
        beta3: ion.beta3,
    }
}

// The data bits of a subframe, whose toc or toe is within the week.
fn data_bits(body: &SubframeOut, tow_count: U<17>) -> Bits<38>
    ensures fields { Holds body.now tow_count result }
    ensures time { HasTime body.now }
{
    let mut bits = Bits::<38>::zero();
    match body {
        SubframeOut::Clock { clock, side, wn } => subframe1(clock, side, *wn, tow_count).pack(
            &mut bits, 0,
        ),
        SubframeOut::OrbitA { orbit, fit } => subframe2(orbit, *fit, tow_count).pack(&mut bits, 0),
        SubframeOut::OrbitB { orbit } => subframe3(orbit, tow_count).pack(&mut bits, 0),
        SubframeOut::Ion { ion } => page18(ion, tow_count).pack(&mut bits, 0),
        SubframeOut::Other { number, page } => {
            let head = Head {
                tow_count,
                number: *number,
                page: *page,
            };
            head.pack(&mut bits, 0);
        }
    }
    bits
}

// States that each field of a clock is within its width in bits.
fn clock_bits(clock: GpsClock)
    ensures { IsGpsClock clock }
{}

// States that each field of the SV status is within its width in bits.
fn side_bits(side: GpsSide)
    ensures { IsGpsSide side }
{}

// States that each field of subframe 2's orbit is within its width in bits.
fn orbit_a_bits(orbit: GpsOrbitA)
    ensures { IsGpsOrbitA orbit }
{}

// States that each field of subframe 3's orbit is within its width in bits.
fn orbit_b_bits(orbit: GpsOrbitB)
    ensures { IsGpsOrbitB orbit }
{}

// States that each field of an ionosphere is within its width in bits.
fn ion_bits(ion: GpsIon)
    ensures { IsGpsIon ion }
{}

// States that each field of a subframe is within its width in bits.
fn digits(body: &SubframeOut)
    ensures { HasBits body.now }
{
    match *body {
        SubframeOut::Clock { clock, side, wn } => {
            clock_bits(clock);
            side_bits(side);
            let _wn = wn.value();
        }
        SubframeOut::OrbitA { orbit, fit } => {
            orbit_a_bits(orbit);
            let _fit = fit.value();
        }
        SubframeOut::OrbitB { orbit } => orbit_b_bits(orbit),
        SubframeOut::Ion { ion } => ion_bits(ion),
        SubframeOut::Other { number, page } => {
            let _number = number.value();
            let _page = page.value();
        }
    }
}

/// The 300 bits of a subframe of the LNAV message (IS-GPS-200, figure 20-1), followed by four 0
/// bits. `tow_count` is the TOW count of the HOW: the start of the next subframe in units of 6 s
/// from the start of the week. TLM message, alert and anti-spoof flags, AODO and reserved bits are
/// 0, the data ID of subframes 4 and 5 is 1, and words 2 and 10 end in two 0 bits.
pub fn write_subframe(body: &SubframeOut, tow_count: U<17>) -> Bits<38>
    requires week { tow_count < 100800 }
    requires page { IsWritable body.now }
    ensures written { IsWritten body.now tow_count result }
    ensures again { AllReadAs result (read_again body.now tow_count) }
    ensures bytes { result ≡ subframe_bytes body.now tow_count }
{
    let bits = words_of(&data_bits(body, tow_count));
    digits(body);
    bits.are_bytes();
    bits
}

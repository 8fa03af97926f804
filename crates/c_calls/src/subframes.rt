//! LNAV subframes, read and written.

ghost use Rattle.std.specs.Prelude.{◌≡◌, ◌<◌, ◌≤◌, ◌↔◌, IsSome, IfSome, Some};
ghost use Rattle.nav_eph.specs.Satellite.{IsSat};
ghost use Rattle.nav_eph.specs.declared.sat.System.TheVariants.{Gps};
ghost use Rattle.lnav_subframe.specs.Reading.{subframe_of};
ghost use Rattle.lnav_subframe.specs.Writing.{IsWritable};
ghost use Rattle.c_calls.specs.Subframes.{IsContent, IsSubframeOf, PutsSubframe, content_in};
ghost use Rattle.c_calls.specs.Subframes.{raw_subframe, subframe_status};

use crate::subframe_raw::{SubframeBits, SubframeRaw};
use crate::tags::{second_of, wn_of};
use lnav_subframe::{LnavFault, SubframeOut, read_subframe as part_of, write_subframe as bits_of};
use nav_bits::{Bits, U};
use nav_eph::{Body, System};
use raw_values::reasons::{NO_ITEM, NO_SATELLITE};
use raw_values::{
    clock_of, gps_ion_of, orbit_a_of, orbit_b_of, raw_clock, raw_gps_ion, raw_orbit_a, raw_orbit_b,
    raw_side, sat_of, side_of,
};

// The TOW count is past the end of the week.
const NO_TOW_COUNT: u32 = 63;

// The number of a fault.
fn status_of(fault: &LnavFault) -> u32
    ensures { result ≡ subframe_status fault.now }
{
    match fault {
        LnavFault::Preamble => 48,
        LnavFault::Parity { word } => 48 + u32::from(*word),
        LnavFault::BadTow => 59,
        LnavFault::Unused { number: _, page: _ } => 60,
        LnavFault::BadTime => 61,
    }
}

// Puts the numbers of a body.
fn put_body(body: &Body, into: &mut SubframeRaw)
    ensures { into.new ≡ raw_subframe body.now into.old }
{
    match body {
        Body::GpsClock(clock, side, tag) => {
            into.number = 1;
            into.wn = wn_of(tag);
            into.second = second_of(tag);
            into.clock = raw_clock(clock);
            into.side = raw_side(side);
        }
        Body::GpsA(a, fit) => {
            into.number = 2;
            into.a = raw_orbit_a(a);
            into.fit = fit.value() as u32;
        }
        Body::GpsB(b) => {
            into.number = 3;
            into.b = raw_orbit_b(b);
        }
        Body::GpsIon(ion, second) => {
            into.number = 4;
            into.second = second.value();
            into.ion = raw_gps_ion(ion);
        }
        _ => {}
    }
}

/// Puts the content of a subframe received from that GPS satellite, 1 to 32 (IS-GPS-200, figure
/// 20-1); one with inverted polarity is inverted first.
///
/// 0; or the number of the subframe's first error, 48 to 61, or 62 if there is no such satellite,
/// and then nothing is put.
pub fn read_subframe(bits: &SubframeBits, satellite: u32, into: &mut SubframeRaw) -> u32
    ensures subframe { IsSat Gps satellite → PutsSubframe
        (subframe_of bits.now.bytes (record { system = Gps; number = satellite }) 0)
        into.old into.new result }
    ensures satellite { (IsSat Gps satellite → ⊥) → (result ≡ 62) × (into.new ≡ into.old) }
{
    let sat = match sat_of(System::Gps, satellite) {
        Some(sat) => sat,
        None => return NO_SATELLITE,
    };
    match part_of(&Bits::from_bytes(bits.bytes), sat, 0) {
        Ok(part) => {
            put_body(&part.body, into);
            0
        }
        Err(fault) => status_of(&fault),
    }
}

// Subframe 1 of these numbers.
fn clock_content(raw: &SubframeRaw) -> Option<SubframeOut>
    requires { raw.now.number ≡ 1 }
    ensures exactly { IsSome result ↔ IsContent (content_in raw.now) }
    ensures same { IfSome result (λ content. content_in raw.now ≡ Some content) }
    ensures writable { IfSome result IsWritable }
{
    let clock = clock_of(&raw.clock)?;
    let side = side_of(&raw.side)?;
    let wn = U::<10>::new(u64::from(raw.wn))?;
    Some(SubframeOut::Clock { clock, side, wn })
}

// Subframe 2 of these numbers.
fn orbit_a_content(raw: &SubframeRaw) -> Option<SubframeOut>
    requires { raw.now.number ≡ 2 }
    ensures exactly { IsSome result ↔ IsContent (content_in raw.now) }
    ensures same { IfSome result (λ content. content_in raw.now ≡ Some content) }
    ensures writable { IfSome result IsWritable }
{
    let orbit = orbit_a_of(&raw.a)?;
    let fit = U::<1>::new(u64::from(raw.fit))?;
    Some(SubframeOut::OrbitA { orbit, fit })
}

// The content of these numbers; `None` where there is no such subframe, or one is out of its range.
fn content_of(raw: &SubframeRaw) -> Option<SubframeOut>
    ensures exactly { IsSome result ↔ IsContent (content_in raw.now) }
    ensures same { IfSome result (λ content. content_in raw.now ≡ Some content) }
    ensures writable { IfSome result IsWritable }
{
    match raw.number {
        1 => clock_content(raw),
        2 => orbit_a_content(raw),
        3 => Some(SubframeOut::OrbitB {
            orbit: orbit_b_of(&raw.b)?,
        }),
        4 => Some(SubframeOut::Ion {
            ion: gps_ion_of(&raw.ion)?,
        }),
        _ => None,
    }
}

/// Puts the subframe with this content and this TOW count, the start of the next subframe in units
/// of 6 s from the start of the week (IS-GPS-200, 20.3.3.2). `second` is not looked at.
///
/// 0; or 63 if the TOW count is 100,800 or more, or 23 if the numbers encode no subframe, and then
/// nothing is put.
pub fn write_subframe(raw: &SubframeRaw, tow_count: u32, into: &mut SubframeBits) -> u32
    ensures written { tow_count < 100800 → IsContent (content_in raw.now) →
        (result ≡ 0) × IsSubframeOf (content_in raw.now) tow_count into.new }
    ensures none { tow_count < 100800 → (IsContent (content_in raw.now) → ⊥) →
        (result ≡ 23) × (into.new ≡ into.old) }
    ensures tow_count { 100800 ≤ tow_count → (result ≡ 63) × (into.new ≡ into.old) }
{
    if tow_count >= 100_800 {
        return NO_TOW_COUNT;
    }
    match content_of(raw) {
        Some(content) => {
            into.bytes = *bits_of(&content, U::<17>::from_bits(u64::from(tow_count))).bytes();
            0
        }
        None => NO_ITEM,
    }
}

//! The lines of the capture.

ghost use Rattle.std.specs.Prelude.{◌≡◌, ◌+◌, ◌*◌, ◌-◌, ◌/◌};
ghost use Rattle.std.specs.Prelude.{◌%◌, ◌<◌, ◌≤◌, [], All, OnOk, min};
ghost use Rattle.nav_eph.specs.declared.sat.System.TheVariants.{Gps};
ghost use Rattle.lnav_subframe.specs.declared.out.SubframeOut.TheVariants.{Other};
ghost use Rattle.lnav_subframe.specs.Writing.{IsWritable};
ghost use Rattle.sent_captures.specs.Values.{gal_ion_of, gal_of};
ghost use Rattle.sent_captures.specs.Lines.{ArePage, IsHalfLine, IsLine, IsSubframeLine};
ghost use Rattle.sent_captures.specs.Lines.{subframe_of};
ghost use Rattle.sent_captures.specs.Mirrors.{AreTables, GrowsByLines, IsOf};

use crate::pages::{PAGES, Page, gal_sat};
use crate::senders::Senders;
use crate::sending::Sending;
use crate::values::GpsValues;
use capture_lines::{LineText, write_half_line, write_lnav};
use lnav_subframe::{SubframeOut, write_subframe};
use nav_bits::U;
use nav_eph::{GpsIon, RefWeek, Sat, Signal, System};
use std::alloc::AllocError;

// The GPS satellite with that number.
fn gps_sat(number: u8) -> Sat
    requires low { 1 ≤ number }
    requires high { number ≤ 32 }
    ensures { result ≡ record { system = Gps; number = number } }
{
    let Some(sat) = Sat::new(System::Gps, number) else {
        unreachable!();
    };
    sat
}

// Page 1 of subframe 4 or 5, which is not used.
fn unused(number: u64) -> SubframeOut
    requires low { 4 ≤ number }
    requires high { number ≤ 5 }
    ensures { result ≡ Other number 1 }
{
    SubframeOut::Other {
        number: U::from_bits(number),
        page: U::from_bits(1),
    }
}

// Subframe `k` of the hour.
#[tactic(auto, unfolding(crate::specs::Lines::subframe_of))]
fn subframe(values: &GpsValues, ion: &GpsIon, week: RefWeek, k: u32) -> SubframeOut
    ensures same { result ≡ subframe_of values.now ion.now week k }
    ensures writable { IsWritable result }
{
    match k % 5 {
        0 => SubframeOut::Clock {
            clock: values.clock,
            side: values.side,
            wn: U::from_bits(u64::from(week.value() % 1024)),
        },
        1 => SubframeOut::OrbitA {
            orbit: values.a,
            fit: values.fit,
        },
        2 => SubframeOut::OrbitB { orbit: values.b },
        3 if k / 5 % 25 == 17 => SubframeOut::Ion { ion: *ion },
        3 => unused(4),
        _ => unused(5),
    }
}

// Writes the line of a subframe; its TOW count is that of the next subframe.
fn write_subframe_line(senders: &Senders, stamp: u32, number: u8, line: &mut LineText)
    requires tables { AreTables senders.now }
    requires sats { senders.now.sats ≤ 32 }
    requires stamp { stamp < 3600 }
    requires low { 1 ≤ number }
    requires high { number ≤ senders.now.sats }
    requires empty { line.old.items ≡ [] }
    ensures { IsSubframeLine senders.now.seed senders.now.sats senders.now.week stamp number
        line.new.items }
{
    let k = stamp / 6;
    let values = &senders.gps[usize::from(number) - 1];
    let body = subframe(values, &senders.ion, senders.week, k);
    let bits = write_subframe(&body, U::from_bits(u64::from(k) + 1));
    bits.are_bytes();
    write_lnav(stamp, gps_sat(number), &bits, line);
}

// The index of page `j` of the hour among its satellite's pages that are not empty.
fn slot_of(j: u32) -> u32
    requires page { j < 1800 }
    requires full { j % 15 ≤ 4 }
    ensures inside { result < 124 }
    ensures place { min result 4 ≡ j % 15 }
    ensures second { j % 15 ≡ 4 → 30 * (result - 4) + 8 ≡ 2 * j }
{
    if j % 15 < 4 { j % 15 } else { 4 + j / 15 }
}

// Page `j` of the hour.
fn page_at(senders: &Senders, number: u8, j: u32) -> Page
    requires tables { AreTables senders.now }
    requires sats { senders.now.sats ≤ 32 }
    requires page { j < 1800 }
    requires low { 1 ≤ number }
    requires high { number ≤ senders.now.sats }
    ensures { ArePage (gal_of senders.now.seed senders.now.sats number)
        (gal_ion_of senders.now.seed senders.now.sats) number
        ((senders.now.week - 1024) % 4096) (2 * j) (j % 15) result.even result.odd }
{
    if j % 15 > 4 {
        return senders.empty;
    }
    let slot = slot_of(j) as usize;
    senders.pages[PAGES * (usize::from(number) - 1) + slot]
}

// Writes the line of a page part.
fn write_page_line(senders: &Senders, stamp: u32, number: u8, signal: Signal, line: &mut LineText)
    requires tables { AreTables senders.now }
    requires sats { senders.now.sats ≤ 32 }
    requires stamp { stamp < 3600 }
    requires low { 1 ≤ number }
    requires high { number ≤ senders.now.sats }
    requires empty { line.old.items ≡ [] }
    ensures { IsHalfLine senders.now.seed senders.now.sats senders.now.week stamp number signal
        line.new.items }
{
    let page = page_at(senders, number, stamp / 2);
    let half = if stamp % 2 == 0 { page.even } else { page.odd };
    write_half_line(stamp, gal_sat(number), signal, &half, line);
}

// Writes the line of a transmission.
fn write_line(senders: &Senders, sending: Sending, line: &mut LineText)
    requires tables { AreTables senders.now }
    requires sats { senders.now.sats ≤ 32 }
    requires of { IsOf senders.now.sats sending }
    requires empty { line.old.items ≡ [] }
    ensures { IsLine senders.now.seed senders.now.sats senders.now.week sending line.new.items }
{
    match sending {
        Sending::Subframe { stamp, number } => write_subframe_line(senders, stamp, number, line),
        Sending::Half {
            stamp,
            number,
            signal,
        } => write_page_line(senders, stamp, number, signal, line),
    }
}

// Appends the lines of the transmissions, in that order.
pub(crate) fn push_lines(
    senders: &Senders,
    order: &[Sending],
    text: &mut Vec<u8>,
) -> Result<(), AllocError>
    requires tables { AreTables senders.now }
    requires sats { senders.now.sats ≤ 32 }
    requires of { All (IsOf senders.now.sats) order.now }
    ensures { OnOk result (GrowsByLines senders.now.seed senders.now.sats senders.now.week order.now
        text.old.items text.new.items) }
{
    let mut line = LineText::new();
    'lines: for sending in order {
        line.clear();
        write_line(senders, *sending, &mut line);
        text.extend_from_slice(line.as_slice())?;
    }
    Ok(())
}

//! Whole captures: what a run over them lists, and what the assembly that keeps all parts makes of
//! the parts that their lines yield.

ghost use Rattle.std.specs.Prelude.{◌≤◌};

use capture_lines::{LineItem, read_line};
use captures::{CaptureTo, run_capture};
use inav::{Halves, read_half, read_word};
use lnav_subframe::read_subframe;
use nav_eph::{
    Body, GalEph, GalHealth, GalIon, GalWord1, GalWord2, GalWord3, GalWord4, GpsClock, GpsEph,
    GpsIon, GpsOrbitA, GpsOrbitB, GpsSide, IonContent, IonEph, NavItem, Part, RefWeek, SentTag,
    System,
};
use nav_io::{MemSink, MemSource};
use nav_laws::PlainAssembly;
use one_run::{Text, append, append_decimal, append_hex};
use periods::{Closed, PeriodKey, Verdict};
use sent_captures::{Sats, make_capture};
use slot_assembly::add_periods;
use std::alloc::{AllocError, Global};
use std::test::Fail;
use streams::append_issue;

// The bytes of a capture that are taken with a short window: some 200 seconds.
const PREFIX: usize = 40_000;

// More bytes than a capture has.
const WHOLE: usize = 4_000_000;

// What a part holds, which the check wants to be told of.
type Contents = (
    Body,
    SentTag,
    GpsClock,
    GpsSide,
    GpsOrbitA,
    GpsOrbitB,
    GpsIon,
);

type MoreContents = (GalWord1, GalWord2, GalWord3, GalWord4, GalHealth, GalIon);

// The first line of a generated capture, which tells a window of two hours, and the same with one
// minute.
const TWO_HOURS: &[u8] = b"NAVCAP 1\n";

const ONE_MINUTE: &[u8] = b"NAVCAP 2 2295 60\n";

// The lines behind the first of a generated capture, up to so many bytes of it.
fn lines_of(alloc: Global, seed: u32, week: RefWeek, most: usize) -> Result<Vec<u8>, AllocError> {
    let Some(sats) = Sats::new(2) else {
        return Ok(Vec::new(alloc));
    };
    let mut text = make_capture(alloc, seed, sats, week)?;
    text.truncate(most);
    match text.strip_prefix(TWO_HOURS) {
        Some(lines) => lines.to_vec(alloc),
        None => Ok(Vec::new(alloc)),
    }
}

// Adds the parts that a line yields.
fn add_parts(
    item: &LineItem,
    halves: &mut Halves,
    parts: &mut Vec<Part>,
) -> Result<(), AllocError> {
    let _contents: Option<Contents> = None;
    let _more: Option<MoreContents> = None;
    match item {
        LineItem::Lnav { stamp, sat, bits } => {
            if sat.system() == System::Gps {
                if let Ok(part) = read_subframe(bits, *sat, *stamp) {
                    parts.push(part)?;
                }
            }
        }
        LineItem::Half {
            stamp,
            sat,
            signal,
            bits,
        } => {
            if sat.system() == System::Gal {
                if let Ok(half) = read_half(bits) {
                    let joined = halves.take(*stamp, *sat, *signal, &half)?;
                    for i in 0..joined.len() {
                        let word = joined.word(i);
                        if let Ok(heard) = read_word(word, *sat, joined.stamp()) {
                            parts.push(heard.first)?;
                            if let Some(second) = heard.second {
                                parts.push(second)?;
                            }
                        }
                    }
                }
            }
        }
        _ => {}
    }
    Ok(())
}

// The parts that the lines yield.
fn parts_of(alloc: Global, lines: &[u8], window: u32) -> Result<Vec<Part>, AllocError>
    requires least { 60 ≤ window }
    requires most { window ≤ 14400 }
{
    let _contents: Option<Contents> = None;
    let _more: Option<MoreContents> = None;
    let mut halves = Halves::new(alloc, window);
    let mut parts = Vec::new(alloc);
    for line in lines.split(|c| *c == b'\n') {
        add_parts(&read_line(line), &mut halves, &mut parts)?;
    }
    Ok(parts)
}

// What is said of a period, in a word.
fn word_of(verdict: &Verdict) -> &'static [u8] {
    match verdict {
        Verdict::Whole(_) => b"whole",
        Verdict::Partial => b"partial",
        Verdict::Contradicted => b"contradicted",
        Verdict::NoHealth => b"nohealth",
        Verdict::Again => b"again",
    }
}

// The line of a period in a list.
fn line_of(closed: &Closed) -> Text {
    let mut text = Text::new();
    append_decimal(&mut text, u64::from(closed.end));
    append(&mut text, b" ");
    match &closed.key {
        PeriodKey::Gps(sat, issue) => append_issue(&mut text, *sat, issue.value()),
        PeriodKey::Gal(sat, issue) => append_issue(&mut text, *sat, issue.value()),
        PeriodKey::GpsIon(content) => {
            append(&mut text, b"ION G ");
            append_hex(&mut text, 16, content.number());
        }
        PeriodKey::GalIon(content) => {
            append(&mut text, b"ION E ");
            append_hex(&mut text, 11, content.number());
        }
    }
    append(&mut text, b" ");
    text
}

// The list of the periods of all parts of the lines, by the assembly that keeps them all.
fn plain_list(
    alloc: Global,
    lines: &[u8],
    week: RefWeek,
    window: u32,
) -> Result<Vec<u8>, AllocError>
    requires least { 60 ≤ window }
    requires most { window ≤ 14400 }
{
    let _contents: Option<Contents> = None;
    let _more: Option<MoreContents> = None;
    let _items: Option<(NavItem, GpsEph, GalEph, IonEph, IonContent)> = None;
    let parts = parts_of(alloc, lines, window)?;
    let mut assembly = PlainAssembly::new(alloc, week, window);
    let mut periods = Vec::new(alloc);
    add_periods(&mut assembly, &parts, &mut periods)?;
    let mut list = Vec::new(alloc);
    for closed in &periods {
        list.extend_from_slice(line_of(closed).as_slice())?;
        list.extend_from_slice(word_of(&closed.verdict))?;
        list.extend_from_slice(b"\n")?;
    }
    Ok(list)
}

// Whether a run over the lines behind this first one lists the same, and some.
fn lists(
    alloc: Global,
    first: &[u8],
    lines: &[u8],
    week: RefWeek,
    list: &[u8],
) -> Result<bool, AllocError> {
    let mut output = MemSink::new(alloc, 1_000_000, Vec::new(alloc))?;
    let mut report = MemSink::new(alloc, 1_000_000, Vec::new(alloc))?;
    let text = [first, lines].concat(alloc)?;
    let mut input = MemSource::new(text, Vec::new(alloc), Vec::new(alloc));
    let to = CaptureTo::ToList;
    let counts = run_capture(alloc, Some(week), &to, &mut input, &mut output, &mut report);
    Ok(counts.is_ok() && list.len() > 100 && output.bytes() == list)
}

// Whether both assemblies list the same periods of a generated capture, and some.
fn list_the_same(
    alloc: Global,
    seed: u32,
    first: &[u8],
    window: u32,
    most: usize,
) -> Result<bool, AllocError>
    requires least { 60 ≤ window }
    requires most { window ≤ 14400 }
{
    let Some(week) = RefWeek::new(2295) else {
        return Ok(false);
    };
    let lines = lines_of(alloc, seed, week, most)?;
    let list = plain_list(alloc, &lines, week, window)?;
    lists(alloc, first, &lines, week, &list)
}

#[test]
fn both_assemblies_list_the_same(rt: HostRuntime) -> Result<(), Fail> {
    let seeds: [u32; 5] = [1, 2, 3, 4, 5];
    for seed in seeds {
        let prefix = list_the_same(rt.alloc(), seed, ONE_MINUTE, 60, PREFIX)?;
        let whole = list_the_same(rt.alloc(), seed, TWO_HOURS, 7_200, WHOLE)?;
        assert!(rt; prefix && whole);
    }
    Ok(())
}

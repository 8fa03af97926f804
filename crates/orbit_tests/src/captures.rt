//! Lines of generated captures, computed by an independent program.

use nav_eph::RefWeek;
use sent_captures::{Sats, make_capture};
use std::alloc::{AllocError, Global};
use std::test::Fail;

// A line of a capture, with its number, from 1 on.
struct LineRow {
    number: usize,
    line: &'static [u8],
}

// The capture of so many satellites of each system in a week, how many lines end in it, and some of
// them.
struct CaptureRow {
    seed: u32,
    satellites: u8,
    week: u32,
    ends: usize,
    lines: &'static [LineRow],
}

static CAPTURES: [CaptureRow; 2] = [
    CaptureRow {
        seed: 7,
        satellites: 1,
        week: 2295,
        ends: 7866,
        lines: &[
            LineRow {
                number: 1,
                line: b"NAVCAP 1",
            },
            LineRow {
                number: 2,
                line: b"6 P E01 5 04cd4170f0140701e1322e8e2e35c0",
            },
            LineRow {
                number: 3,
                line: b"6 P E01 B 04cd4170f0140701e1322e8e2e35c0",
            },
            LineRow {
                number: 4,
                line: b"6 L G01 8b00004800042949c527223ecded6ca94ced41aea23f1dbec99d8c69a88eb0a8e1c7f8f7fe00",
            },
            LineRow {
                number: 16,
                line: b"0 P E01 B 01cd40782999e33bc1ad341660a880",
            },
            LineRow {
                number: 17,
                line: b"0 L G01 8b00004800021043df7018dfffffd5ffffff580000029ffffa3558ff8f47babbce288dbe45c0",
            },
            LineRow {
                number: 18,
                line: b"14 P E01 B 000000000000000000000000000000",
            },
            LineRow {
                number: 19,
                line: b"13 P E01 5 800000000000000000003b94958000",
            },
            LineRow {
                number: 41,
                line: b"18 P E01 B 000000000000000000000000000000",
            },
            LineRow {
                number: 42,
                line: b"18 L G01 8b00004800084ec410000e7fffffd6000000a7fffffd6000000a7fffffd6000000a7fffff200",
            },
            LineRow {
                number: 101,
                line: b"49 P E01 5 800000000000000000003b94958000",
            },
            LineRow {
                number: 102,
                line: b"49 P E01 B 800000000000000000003b94958000",
            },
            LineRow {
                number: 501,
                line: b"234 P E01 B 000000000000000000000000000000",
            },
            LineRow {
                number: 502,
                line: b"234 L G01 8b0000480050508410000e7fffffd6000000a7fffffd6000000a7fffffd6000000a7fffff200",
            },
            LineRow {
                number: 2001,
                line: b"915 P E01 5 800000000000000000003b94958000",
            },
            LineRow {
                number: 2002,
                line: b"930 L G01 8b00004801381b83df7018dfffffd5ffffff580000029ffffa3558ff8f47babbce288dbe45c0",
            },
            LineRow {
                number: 5001,
                line: b"2307 P E01 5 800000000000000000003b94958000",
            },
            LineRow {
                number: 5002,
                line: b"2307 P E01 B 800000000000000000003b94958000",
            },
            LineRow {
                number: 7701,
                line: b"3557 P E01 5 800000000000000000003b94958000",
            },
            LineRow {
                number: 7702,
                line: b"3557 P E01 B 800000000000000000003b94958000",
            },
            LineRow {
                number: 7791,
                line: b"3589 P E01 5 800000000000000000003b94958000",
            },
            LineRow {
                number: 7792,
                line: b"3589 P E01 B 800000000000000000003b94958000",
            },
            LineRow {
                number: 7797,
                line: b"3598 P E01 B 000000000000000000000000000000",
            },
            LineRow {
                number: 7798,
                line: b"3597 P E01 5 800000000000000000003b94958000",
            },
            LineRow {
                number: 7799,
                line: b"3597 P E01 B 800000000000000000003b94958000",
            },
            LineRow {
                number: 7800,
                line: b"3596 P E01 5 000000000000000000000000000000",
            },
            LineRow {
                number: 7801,
                line: b"3596 P E01 B 000000000000000000000000000000",
            },
            LineRow {
                number: 7802,
                line: b"0 L G01 8b00004800021043df7018dfffffd5ffffff580000029ffffa3558ff8f47babbce288dbe45c0",
            },
            LineRow {
                number: 7803,
                line: b"0 P E01 B 01cd40782999e33bc1ad341660a880",
            },
            LineRow {
                number: 7821,
                line: b"8 P E01 5 05394e1c4310e15fc009ee00010000",
            },
            LineRow {
                number: 7841,
                line: b"18 L G01 8b00004800084ec410000e7fffffd6000000a7fffffd6000000a7fffffd6000000a7fffff200",
            },
            LineRow {
                number: 7865,
                line: b"29 P E01 B 800000000000000000003b94958000",
            },
            LineRow {
                number: 7866,
                line: b"29 P E01 5 800000000000000000003b94958000",
            },
        ],
    },
    CaptureRow {
        seed: 3,
        satellites: 2,
        week: 1024,
        ends: 15731,
        lines: &[],
    },
];

// Whether the text has the line.
fn has_line(text: &[u8], row: &LineRow) -> bool {
    let found = text
        .split(|byte| *byte == b'\n')
        .nth(row.number.saturating_sub(1));
    found == Some(row.line)
}

// Whether the capture has its lines.
fn is_capture(alloc: Global, row: &CaptureRow) -> Result<bool, AllocError> {
    let (Some(reference), Some(sats)) = (RefWeek::new(row.week), Sats::new(row.satellites)) else {
        return Ok(false);
    };
    let text = make_capture(alloc, row.seed, sats, reference)?;
    let ends = text
        .as_slice()
        .iter()
        .filter(|byte| **byte == b'\n')
        .count();
    let mut all = ends == row.ends;
    for line in row.lines {
        all = all && has_line(text.as_slice(), line);
    }
    Ok(all)
}

#[test]
fn captures(rt: HostRuntime) -> Result<(), Fail> {
    for row in &CAPTURES {
        assert!(rt; is_capture(rt.alloc(), row)?, "seed {}", row.seed);
    }
    Ok(())
}

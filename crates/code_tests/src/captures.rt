//! Lines as they are read and written. The bits are those of a subframe, a page part and a frame of
//! an independent program.

use capture_lines::{
    CaptureHead, LineItem, LineText, read_first, read_line, write_half_line, write_lnav, write_rtcm,
};
use nav_bits::Bits;
use nav_eph::{RefWeek, Sat, Signal, System};

const SUBFRAME: &[u8; 38] =
    b"\x8b\x00\x00\x48\x00\x02\x10\x43\xdc\x00\x05\x80\x00\x00\x29\xff\xff\xff\x58\x00\x00\x02\x9f\
     \xff\xff\xf5\x80\x00\x00\x29\xff\xff\xff\x58\x00\x00\x08\xc0";

const SUBFRAME_LINE: &[u8] = b"4294967295 L G05 \
     8b00004800021043dc000580000029ffffff580000029ffffff580000029ffffff58000008c0\n";

const HALF: &[u8; 15] = b"\x01\x88\xc0\x00\x7f\xff\xff\xff\x5d\x98\x68\x38\x42\xd0\x80";

const HALF_LINE: &[u8] = b"7 P E36 5 0188c0007fffffff5d98683842d080\n";

const FRAME: &[u8; 6] = b"\xd3\x00\x00\x47\xea\x4b";

const FRAME_LINE: &[u8] = b"0 R d3000047ea4b\n";

// A first line, and the window and the week that it tells; `None` where it is no first line.
struct HeadRow {
    line: &'static str,
    head: Option<Head>,
}

#[derive(Clone, Copy)]
struct Head {
    window: u32,
    week: Option<u32>,
}

static HEADS: [HeadRow; 34] = [
    HeadRow {
        line: "NAVCAP 1",
        head: Some(Head {
            window: 7200,
            week: None,
        }),
    },
    HeadRow {
        line: "NAVCAP 2 2295 60",
        head: Some(Head {
            window: 60,
            week: Some(2295),
        }),
    },
    HeadRow {
        line: "NAVCAP 2 1024 14400",
        head: Some(Head {
            window: 14400,
            week: Some(1024),
        }),
    },
    HeadRow {
        line: "NAVCAP 2 8191 7200",
        head: Some(Head {
            window: 7200,
            week: Some(8191),
        }),
    },
    HeadRow {
        line: "NAVCAP 2 0000002295 0000000060",
        head: Some(Head {
            window: 60,
            week: Some(2295),
        }),
    },
    HeadRow {
        line: "NAVCAP 2 02295 061",
        head: Some(Head {
            window: 61,
            week: Some(2295),
        }),
    },
    HeadRow {
        line: "",
        head: None,
    },
    HeadRow {
        line: "NAVCAP",
        head: None,
    },
    HeadRow {
        line: "NAVCAP 1 ",
        head: None,
    },
    HeadRow {
        line: " NAVCAP 1",
        head: None,
    },
    HeadRow {
        line: "NAVCAP 2",
        head: None,
    },
    HeadRow {
        line: "navcap 1",
        head: None,
    },
    HeadRow {
        line: "NAVCAP 1 2295 60",
        head: None,
    },
    HeadRow {
        line: "# x",
        head: None,
    },
    HeadRow {
        line: "NAVCAP 2 1023 60",
        head: None,
    },
    HeadRow {
        line: "NAVCAP 2 8192 60",
        head: None,
    },
    HeadRow {
        line: "NAVCAP 2 2295 59",
        head: None,
    },
    HeadRow {
        line: "NAVCAP 2 2295 14401",
        head: None,
    },
    HeadRow {
        line: "NAVCAP 2 4294969591 60",
        head: None,
    },
    HeadRow {
        line: "NAVCAP 2 2295 4294967356",
        head: None,
    },
    HeadRow {
        line: "NAVCAP 2 00000002295 60",
        head: None,
    },
    HeadRow {
        line: "NAVCAP 2 2295 00000000060",
        head: None,
    },
    HeadRow {
        line: "NAVCAP 2  2295 60",
        head: None,
    },
    HeadRow {
        line: "NAVCAP 2 2295  60",
        head: None,
    },
    HeadRow {
        line: "NAVCAP 2 2295 60 ",
        head: None,
    },
    HeadRow {
        line: " NAVCAP 2 2295 60",
        head: None,
    },
    HeadRow {
        line: "NAVCAP 2 2295",
        head: None,
    },
    HeadRow {
        line: "NAVCAP 2 2295 ",
        head: None,
    },
    HeadRow {
        line: "NAVCAP 2 ",
        head: None,
    },
    HeadRow {
        line: "NAVCAP 2 2295\t60",
        head: None,
    },
    HeadRow {
        line: "NAVCAP 2 +2295 60",
        head: None,
    },
    HeadRow {
        line: "NAVCAP 2 2295 60\r",
        head: None,
    },
    HeadRow {
        line: "NAVCAP 3 2295 60",
        head: None,
    },
    HeadRow {
        line: "navcap 2 2295 60",
        head: None,
    },
];

// Whether the first line is read so.
fn is_head(row: &HeadRow) -> bool {
    match (read_first(row.line.as_bytes()), row.head) {
        (Some(read), Some(Head { window, week })) => {
            let week = match week {
                Some(number) => RefWeek::new(number),
                None => None,
            };
            read == CaptureHead { window, week }
        }
        (None, None) => true,
        _ => false,
    }
}

// A line, and what it stands for: the subframe, the page part or the frame above, or none of these.
struct LineRow {
    line: &'static str,
    item: Item,
}

enum Item {
    Subframe {
        stamp: u32,
        satellite: u8,
    },
    Half {
        stamp: u32,
        satellite: u8,
        signal: Signal,
    },
    Frame {
        stamp: u32,
    },
    Pass,
    Malformed,
}

static LINES: [LineRow; 36] = [
    LineRow {
        line: "0 L G05 8b00004800021043dc000580000029ffffff580000029ffffff580000029ffffff58000008c0",
        item: Item::Subframe {
            stamp: 0,
            satellite: 5,
        },
    },
    LineRow {
        line: "0000000012 L G01 \
             8B00004800021043DC000580000029FFFFFF580000029FFFFFF580000029FFFFFF58000008C0",
        item: Item::Subframe {
            stamp: 12,
            satellite: 1,
        },
    },
    LineRow {
        line: "4294967295 L G32 \
             8b00004800021043dc000580000029ffffff580000029ffffff580000029ffffff58000008c0",
        item: Item::Subframe {
            stamp: 4_294_967_295,
            satellite: 32,
        },
    },
    LineRow {
        line: "5 P E11 B 0188c0007fffffff5d98683842d080",
        item: Item::Half {
            stamp: 5,
            satellite: 11,
            signal: Signal::E1b,
        },
    },
    LineRow {
        line: "05 P E36 5 0188C0007FFFFFFF5D98683842D080",
        item: Item::Half {
            stamp: 5,
            satellite: 36,
            signal: Signal::E5b,
        },
    },
    LineRow {
        line: "9 R d3000047ea4b",
        item: Item::Frame { stamp: 9 },
    },
    LineRow {
        line: "09 R D3000047Ea4B",
        item: Item::Frame { stamp: 9 },
    },
    LineRow {
        line: "",
        item: Item::Pass,
    },
    LineRow {
        line: "   ",
        item: Item::Pass,
    },
    LineRow {
        line: "#5 L G05",
        item: Item::Pass,
    },
    LineRow {
        line: "4294967296 L G05 \
         8b00004800021043dc000580000029ffffff580000029ffffff580000029ffffff58000008c0",
        item: Item::Malformed,
    },
    LineRow {
        line: "00000000005 L G05 \
         8b00004800021043dc000580000029ffffff580000029ffffff580000029ffffff58000008c0",
        item: Item::Malformed,
    },
    LineRow {
        line: "5 L G05 8b00004800021043dc000580000029ffffff580000029ffffff580000029ffffff58000008c",
        item: Item::Malformed,
    },
    LineRow {
        line: "5 L E05 8b00004800021043dc000580000029ffffff580000029ffffff580000029ffffff58000008c0",
        item: Item::Malformed,
    },
    LineRow {
        line: "5 L G33 8b00004800021043dc000580000029ffffff580000029ffffff580000029ffffff58000008c0",
        item: Item::Malformed,
    },
    LineRow {
        line: "5 L G5 8b00004800021043dc000580000029ffffff580000029ffffff580000029ffffff58000008c0",
        item: Item::Malformed,
    },
    LineRow {
        line: "5  L G05 8b00004800021043dc000580000029ffffff580000029ffffff580000029ffffff58000008c0",
        item: Item::Malformed,
    },
    LineRow {
        line: " 5 L G05 8b00004800021043dc000580000029ffffff580000029ffffff580000029ffffff58000008c0",
        item: Item::Malformed,
    },
    LineRow {
        line: "5 L G05 8b00004800021043dc000580000029ffffff580000029ffffff580000029ffffff58000008c0 ",
        item: Item::Malformed,
    },
    LineRow {
        line: "5 P E11 A 0188c0007fffffff5d98683842d080",
        item: Item::Malformed,
    },
    LineRow {
        line: "5 R d30000",
        item: Item::Malformed,
    },
    LineRow {
        line: "5 R d3000047ea4b0",
        item: Item::Malformed,
    },
    LineRow {
        line: "\t",
        item: Item::Malformed,
    },
    LineRow {
        line: "5 L G00 8b00004800021043dc000580000029ffffff580000029ffffff580000029ffffff58000008c0",
        item: Item::Malformed,
    },
    LineRow {
        line: "5 P E37 B 0188c0007fffffff5d98683842d080",
        item: Item::Malformed,
    },
    LineRow {
        line: "5 P G11 B 0188c0007fffffff5d98683842d080",
        item: Item::Malformed,
    },
    LineRow {
        line: "5 l G05 8b00004800021043dc000580000029ffffff580000029ffffff580000029ffffff58000008c0",
        item: Item::Malformed,
    },
    LineRow {
        line: "5 L G05 8b00004800021043dc000580000029ffffff580000029ffffff580000029ffffff58000008c00",
        item: Item::Malformed,
    },
    LineRow {
        line: "5 L G05 8b00004800021043dc000580000029ffffff580000029ffffff580000029ffffff58000008cg",
        item: Item::Malformed,
    },
    LineRow {
        line: "5 P E11 B 0188c0007fffffff5d98683842d0800",
        item: Item::Malformed,
    },
    LineRow {
        line: " # a comment",
        item: Item::Malformed,
    },
    LineRow {
        line: "+5 R d3000047ea4b",
        item: Item::Malformed,
    },
    LineRow {
        line: "5\tR d3000047ea4b",
        item: Item::Malformed,
    },
    LineRow {
        line: "5 R  d3000047ea4b",
        item: Item::Malformed,
    },
    LineRow {
        line: "L G05 8b00004800021043dc000580000029ffffff580000029ffffff580000029ffffff58000008c0",
        item: Item::Malformed,
    },
    LineRow {
        line: "5",
        item: Item::Malformed,
    },
];

// Whether the satellite is that one.
fn is_sat(sat: &Sat, system: System, number: u8) -> bool {
    sat.system() == system && sat.number() == number
}

// Whether the line stands for the item.
fn is_line(row: &LineRow) -> bool {
    match (&read_line(row.line.as_bytes()), &row.item) {
        (
            LineItem::Lnav { stamp, sat, bits },
            Item::Subframe {
                stamp: heard,
                satellite,
            },
        ) => stamp == heard && is_sat(sat, System::Gps, *satellite) && bits.bytes() == SUBFRAME,
        (
            LineItem::Half {
                stamp,
                sat,
                signal,
                bits,
            },
            Item::Half {
                stamp: heard,
                satellite,
                signal: on,
            },
        ) => {
            stamp == heard
                && is_sat(sat, System::Gal, *satellite)
                && signal == on
                && bits.bytes() == HALF
        }
        (LineItem::Frame { stamp, bytes }, Item::Frame { stamp: heard }) => {
            stamp == heard && bytes.as_slice() == FRAME.as_slice()
        }
        (LineItem::Pass, Item::Pass) => true,
        (LineItem::Malformed, Item::Malformed) => true,
        _ => false,
    }
}

// Whether a frame of 1,029 bytes is read, and one of 1,030 is not.
fn reads_1029_bytes() -> bool {
    let mut line = [b'0'; 2064];
    line[1] = b' ';
    line[2] = b'R';
    line[3] = b' ';
    let longest = read_line(&line[..2062]) != LineItem::Malformed;
    longest && read_line(&line) == LineItem::Malformed
}

// Whether a line of 2,200 such bytes is passed, and one of 2,201 is malformed.
fn passes_2200(code: u8) -> bool {
    let line = [code; 2201];
    let passed = read_line(&line[..2200]) == LineItem::Pass;
    passed && read_line(&line) == LineItem::Malformed
}

// Whether the items are written as their lines.
fn are_written() -> Option<bool> {
    let gps = Sat::new(System::Gps, 5)?;
    let gal = Sat::new(System::Gal, 36)?;
    let mut subframe = LineText::new();
    write_lnav(
        4_294_967_295,
        gps,
        &Bits::from_bytes(*SUBFRAME),
        &mut subframe,
    );
    let mut half = LineText::new();
    write_half_line(7, gal, Signal::E5b, &Bits::from_bytes(*HALF), &mut half);
    let mut frame = LineText::new();
    write_rtcm(0, FRAME, &mut frame);
    let pages = subframe.as_slice() == SUBFRAME_LINE && half.as_slice() == HALF_LINE;
    Some(pages && frame.as_slice() == FRAME_LINE)
}

#[test]
fn first_and_other_lines(rt: HostRuntime) {
    for row in &HEADS {
        assert!(rt; is_head(row), "{}", row.line);
    }
    for row in &LINES {
        assert!(rt; is_line(row), "{}", row.line);
    }
    let long = reads_1029_bytes() && passes_2200(b'#') && passes_2200(b' ');
    assert!(rt; long && are_written() == Some(true));
}

//! The words of the command line, the frames of a stream, and the names of faults.

use crate::bits::expand;
use crate::over_memory::{ANYTHING, NOTHING_FAILS, RUN, Run, run_over};
use crate::samples::FRAMES;
use capture_lines::{LineItem, read_line};
use nav_io::{LineKind, Lines, MemSink, MemSource};
use one_run::BridgeFault;
use std::alloc::{AllocError, Global};
use std::test::Fail;
use streams::{FrameCounts, run_frames};

// Words, with `;` between them, and the status of a run by each over no bytes.
struct Judged {
    status: u8,
    words: &'static [&'static str],
}

static JUDGED: [Judged; 3] = [
    Judged {
        status: 2,
        words: &[
            "",
            "--from;stream",
            "--from;stream;--to;frames;--week;2295",
            "--from;stream;--from;stream;--to;frames",
            "--from;capture;--to;list;--week;1023",
            "--from;stream;--to;frames;--",
            "--from;stream;--to;-frames",
            "--help",
            "-h",
            "--version",
            "--from;capture;--to;list;--week;00000002295",
            "--from;capture;--to;list;--week;4294969591",
            "--from;capture;--to;list;--week=",
            "--from;capture;--to;list;--week",
            "--from;stream;--from;capture;--to;list",
            "--from;capture;--to;list;--leap;18",
            "--from;stream;--to;rtcm",
            "--from;stream;--to;list;--week;2295",
            "--from;stream;--to;rinex;--week;2295;--leap;18",
            "--from;rinex;--to;rtcm;--week;2295",
            "--from;rinex;--to;rinex;--leap;18",
            "--from;rinex;--to;list;--leap;18",
            "--from;rinex;--to;count",
            "--from;rinex3;--to;rinex",
            "--from;rinex2;--to;list",
            "--from;rinex;--to;capture",
            "--from;rinex;--to;capture;--week;2295;--leap;18",
            "--from;rinex3;--to;capture;--week;1023",
            "--from;capture;--to;rinex3;--leap;18",
            "--from;capture;--to;capture;--week;2295",
            "--from;seed;--to;capture;--seed;7;--sats;1",
            "--from;rinex;--to;cover;--leap;18",
            "--from;rinex;--to;cover;--week;2295",
            "--from;rinex3;--to;cover",
            "--from;rinex;--to;merged",
            "--from;seed;--to;capture;--seed;7;--week;2295",
            "--from;seed;--to;list;--seed;7;--sats;1;--week;2295",
            "--from;seed;--to;count;--seed;7;--sats;0;--week;2295",
            "--from;capture;--to;count;--seed;7",
            "--from;rinex;--to;list;--sats;1",
            "--from;seed;--to;capture;--seed;7;--sats;33;--week;2295",
            "--from;seed;--to;capture;--seed;4294967296;--sats;1;--week;2295",
        ],
    },
    // of jobs that take no bytes for a whole input
    Judged {
        status: 0,
        words: &[
            "--from=stream;--to=frames",
            "--to;frames;--from=stream",
            "--from;stream;--to;rtcm;--week;2295",
        ],
    },
    // of jobs that do not
    Judged {
        status: 5,
        words: &[
            "--from;capture;--to;list",
            "--week=2295;--to;list;--from;capture",
            "--to=rtcm;--from;capture;--week;2295",
            "--from=capture;--to;count;--week=0000002295",
            "--from;rinex;--to;list",
            "--to;rtcm;--from=rinex",
            "--from;rinex3;--to;rtcm",
            "--from=rinex3;--to=list",
            "--from;rinex;--to;capture;--week;2295",
            "--to=capture;--week=2295;--from;rinex3",
            "--from;rinex;--to;cover",
        ],
    },
];

#[test]
fn judges_the_words(rt: HostRuntime) -> Result<(), Fail> {
    for case in &JUDGED {
        for words in case.words {
            let run = Run {
                words,
                status: case.status,
                output: &[ANYTHING],
                ..RUN
            };
            assert!(rt; run.ends_so(rt.alloc())?, "{words}");
        }
    }
    Ok(())
}

#[test]
fn counts_frames(rt: HostRuntime) -> Result<(), Fail> {
    let frame = b"\xd3\0\0\x47\xea\x4b".to_vec(rt.alloc())?;
    let none = Vec::new(rt.alloc());
    let mut input = MemSource::new(frame, none, Vec::new(rt.alloc()));
    let mut output = MemSink::new(rt.alloc(), 64, Vec::new(rt.alloc()))?;
    let counts = run_frames(&mut input, &mut output);
    assert!(rt; counts == Ok(FrameCounts { frames: 1 }));
    Ok(())
}

// How many bytes the frame of the ephemeris of GPS has.
const LENGTH: usize = 67;

// Whether no frame is found where that frame is cut at this place, or where some bits of the byte
// at this place are turned.
fn finds_none(alloc: Global, place: usize, mask: u8) -> Result<bool, AllocError> {
    let mut frame = expand(alloc, &["{GPS_FRAME}"], "", "")?;
    if mask == 0 {
        frame.truncate(place);
    } else if let Some(byte) = frame.get_mut(place) {
        *byte ^= mask;
    }
    let run = run_over(alloc, FRAMES, frame.as_slice(), &NOTHING_FAILS)?;
    let is_silent = run.output.bytes().is_empty() && run.report.bytes().is_empty();
    Ok(run.status == 0 && is_silent)
}

#[test]
fn finds_no_frame_that_is_cut_or_has_a_wrong_bit(rt: HostRuntime) -> Result<(), Fail> {
    for place in 0..LENGTH {
        for mask in [0, 128, 64, 32, 16, 8, 4, 2, 1] {
            // Bits are turned behind the preamble and the length.
            let holds = mask > 0 && place < 3 || finds_none(rt.alloc(), place, mask)?;
            assert!(rt; holds, "{place} {mask}");
        }
    }
    Ok(())
}

// A fault, and its name.
struct Named {
    fault: BridgeFault,
    name: &'static str,
}

static NAMED: [Named; 6] = [
    Named {
        fault: BridgeFault::ReadFault,
        name: "ReadFault",
    },
    Named {
        fault: BridgeFault::WriteFault,
        name: "WriteFault",
    },
    Named {
        fault: BridgeFault::ReportFault,
        name: "ReportFault",
    },
    Named {
        fault: BridgeFault::NotThisForm,
        name: "NotThisForm",
    },
    Named {
        fault: BridgeFault::TooLong,
        name: "TooLong",
    },
    Named {
        fault: BridgeFault::NoMemory,
        name: "NoMemory",
    },
];

#[test]
fn names_its_faults(rt: HostRuntime) -> Result<(), Fail> {
    for case in &NAMED {
        let said = case.fault.to_string(rt.alloc())?;
        assert!(rt; said.as_str() == case.name, "{}", case.name);
    }
    Ok(())
}

#[test]
fn passes_a_comment_that_is_a_line(rt: HostRuntime) -> Result<(), Fail> {
    let mut bytes = [b'#'; 4402];
    bytes[2200] = b'\n';
    let none = Vec::new(rt.alloc());
    let mut source = MemSource::new(bytes.to_vec(rt.alloc())?, none, Vec::new(rt.alloc()));
    let mut lines = Lines::new();
    let is_passed = lines.next(&mut source) == Ok(LineKind::Text)
        && read_line(lines.text()) == LineItem::Pass;
    let is_long = lines.next(&mut source) == Ok(LineKind::Long) && lines.number() == 2;
    assert!(rt; is_passed && is_long);
    Ok(())
}

//! Whole conversions over a folder in memory.

ghost use Rattle.std.specs.Prelude.{◌≡◌};

use bridge_engine::BridgeFault;
use file_conversion::{
    Kinds, Made, Observers, Outcome, Plan, Refusal, Reporter, Sourced, Stop, Target, convert_one,
    convert_source, finish, kind_text,
};
use nav_eph::RefWeek;
use nav_io::{Failed, MemSink, MemSource};
use receiver_log::Nobody;
use rinex_write::HeaderWords;
use std::alloc::{AllocError, Global};
use std::test::Fail;
use whole_file::{Given, MemFolder, NoProgress};

// How a conversion ended, with what is said of the form under which the file was read.
#[derive(Clone, Copy, PartialEq, Eq)]
enum End {
    Done,
    NotOpened,
    NotRead,
    NoConversion(&'static str),
    NotAccepted(&'static str),
    Other,
}

// How a conversion ended.
fn end_of(done: &Result<Made, Stop>) -> End {
    match done {
        Ok(_) => End::Done,
        Err(Stop::Open(_)) => End::NotOpened,
        Err(Stop::Look(None)) => End::NotRead,
        Err(Stop::NoConversion(kind)) => End::NoConversion(kind_text(*kind)),
        Err(Stop::Run(kind, BridgeFault::NotThisForm, _, _, _)) => End::NotAccepted(kind_text(
            *kind,
        )),
        Err(_) => End::Other,
    }
}

// A file of these bytes, where it is there, and what is asked of it; the output's bytes before and
// afterwards, how it ends, and its status where the report can be ended, or cannot.
struct Case {
    name: &'static str,
    bytes: Option<&'static [u8]>,
    target: Target,
    week: Option<u32>,
    old: Option<&'static [u8]>,
    new: Option<&'static [u8]>,
    end: End,
    fails: bool,
    status: u8,
}

const CAPTURE: &[u8] = b"NAVCAP 2 2295 300\n";

// A frame of message 1020 (examples/systems.rtcm3).
const GLONASS: &[u8] = b"\xd3\x00\x2d\x3f\xc0\x51\xa4\xa6\x93\x26\x19\x75\x2f\xd3\xb0\x40\x0f\
    \xce\xb8\xba\x77\x8f\x91\x9b\x92\xc9\x42\xcf\xea\x51\x80\x4c\x0a\x1b\
    \x9f\xc0\x20\x04\x80\x00\x00\x00\x00\x02\x00\x00\x00\x00\xc6\xeb\x39";

// A navigation file with the ephemeris of that message.
const GLONASS_FILE: &[u8] = b"\
    \x20    3.05           N: GNSS NAV DATA    M: MIXED            RINEX VERSION / TYPE\n\
    \x20                                                           END OF HEADER\n\
    R01 2024 01 02 01 45 00-7.711630314589D-05 3.637978807092D-12 1.788900000000D+05\n\
    \x20    1.224368847656D+04 2.381215095520D+00 0.000000000000D+00 0.000000000000D+00\n\
    \x20   -1.496756054688D+04 9.879684448242D-01-9.313225746155D-10 1.000000000000D+00\n\
    \x20    1.710391503906D+04-1.723336219788D+00-9.313225746155D-10 0.000000000000D+00\n\
    \x20    1.830000000000D+02-1.396983861923D-08 2.000000000000D+00 3.000000000000D+00\n";

static CASES: [Case; 9] = [
    Case {
        name: "a capture",
        bytes: Some(CAPTURE),
        target: Target::List,
        week: None,
        old: None,
        new: Some(b""),
        end: End::Done,
        fails: false,
        status: 0,
    },
    Case {
        name: "the report cannot be ended",
        bytes: Some(CAPTURE),
        target: Target::List,
        week: None,
        old: None,
        new: Some(b""),
        end: End::Done,
        fails: true,
        status: 7,
    },
    Case {
        name: "another week than that of the capture",
        bytes: Some(CAPTURE),
        target: Target::List,
        week: Some(2294),
        old: Some(b"old"),
        new: Some(b"old"),
        end: End::NotAccepted("a capture with a week"),
        fails: false,
        status: 5,
    },
    Case {
        name: "a stream of GLONASS",
        bytes: Some(GLONASS),
        target: Target::List,
        week: Some(2295),
        old: None,
        new: Some(b"1 EPH R01 FDMA 2295 179100\n"),
        end: End::Done,
        fails: false,
        status: 0,
    },
    Case {
        name: "a navigation file of GLONASS",
        bytes: Some(GLONASS_FILE),
        target: Target::List,
        week: None,
        old: None,
        new: Some(b"3 EPH R01 FDMA 2295 179100\n"),
        end: End::Done,
        fails: false,
        status: 0,
    },
    Case {
        name: "a log is copied as its capture",
        bytes: Some(b"\xb5\x62 and no message"),
        target: Target::Capture,
        week: None,
        old: None,
        new: Some(b""),
        end: End::Done,
        fails: false,
        status: 0,
    },
    Case {
        name: "a log with no time",
        bytes: Some(b"\xb5\x62 and no message"),
        target: Target::List,
        week: None,
        old: None,
        new: None,
        end: End::NotAccepted("a receiver's log of UBX messages"),
        fails: false,
        status: 5,
    },
    Case {
        name: "a form with no such conversion",
        bytes: Some(b"NAVCAP 1 300\n"),
        target: Target::Frames,
        week: None,
        old: None,
        new: None,
        end: End::NoConversion("a capture without a week"),
        fails: false,
        status: 2,
    },
    Case {
        name: "no file",
        bytes: None,
        target: Target::List,
        week: None,
        old: None,
        new: None,
        end: End::NotOpened,
        fails: false,
        status: 3,
    },
];

// The values of the header of a file.
fn header_words() -> HeaderWords {
    HeaderWords {
        date: *b"20260101 000000 UTC",
        leap: 18,
    }
}

// Nobody but a report is told.
fn observers(alloc: Global) -> Result<Observers<MemSink, Nobody, NoProgress>, AllocError> {
    Ok(Observers {
        report: MemSink::new(alloc, 1000, Vec::new(alloc))?,
        refusals: Nobody,
        progress: NoProgress,
    })
}

// Who hears what became of a file, and can end its report, or cannot.
#[derive(Drop)]
struct Hearer {
    fails: bool,
    faults: u64,
}

impl Reporter<MemSink> for Hearer {
    ghost faults = { λ s. s.faults };

    ghost told = { λ _ _. Unit {0} };

    fn refused(&mut self, _refusal: &Refusal) {}

    fn done(&mut self, _outcome: &Outcome<MemSink>) -> Result<(), Failed> {
        if !self.fails {
            return Ok(());
        }
        self.faults = self.faults.saturating_add(1);
        Err(Failed)
    }
}

// The folder of a case.
fn folder_of(alloc: Global, case: &Case) -> Result<MemFolder, AllocError> {
    let mut folder = MemFolder::new(alloc);
    if let Some(bytes) = case.bytes {
        folder.put("in", bytes)?;
    }
    if let Some(bytes) = case.old {
        folder.put("out", bytes)?;
    }
    Ok(folder)
}

// Whether the file of this name has these bytes, or none is there.
fn has(folder: &MemFolder, name: &str, bytes: Option<&[u8]>) -> bool {
    match (folder.get(name), bytes) {
        (Some(there), Some(wanted)) => there == wanted,
        (None, None) => true,
        _ => false,
    }
}

// Whether the conversion of a case ends so, and leaves these files.
fn ends_so(alloc: Global, case: &Case) -> Result<bool, Fail> {
    let clock_week = RefWeek::new(2400).ok_or("a reference week")?;
    let week = match case.week {
        None => None,
        Some(week) => RefWeek::new(week),
    };
    let header = header_words();
    let plan = Plan {
        form: None,
        target: case.target,
        week,
        clock_week,
        header,
        kinds: Kinds::all(),
    };
    let mut folder = folder_of(alloc, case)?;
    let observers = observers(alloc)?;
    let mut name = Given::new(String::from_str(alloc, "out")?);
    let outcome = convert_one(
        alloc,
        &plan,
        &mut folder,
        observers,
        "in",
        "part",
        &mut name,
    );
    let is_end = end_of(&outcome.done) == case.end;
    let mut hearer = Hearer {
        fails: case.fails,
        faults: 0,
    };
    let status = finish(&outcome, "out", "part", &mut hearer);
    Ok(
        is_end
            && status == case.status
            && has(&folder, "out", case.new)
            && has(&folder, "part", None),
    )
}

#[test]
fn files_are_converted_as_the_table_says(rt: HostRuntime) -> Result<(), Fail> {
    for case in &CASES {
        assert!(rt; ends_so(rt.alloc(), case)?, "{}", case.name);
    }
    Ok(())
}

// A source of a capture of which this call fails.
fn source_of(alloc: Global, fails: u32) -> Result<MemSource, AllocError> {
    let calls = [fails].to_vec(alloc)?;
    Ok(MemSource::new(CAPTURE.to_vec(alloc)?, Vec::new(alloc), calls))
}

// Whether its conversion to a list ends so, with this output.
fn source_ends_so(
    alloc: Global,
    fails: u32,
    end: End,
    output: Option<&[u8]>,
    named: Option<u32>,
) -> Result<bool, Fail> {
    let clock_week = RefWeek::new(2400).ok_or("a reference week")?;
    let week = match named {
        None => None,
        Some(week) => RefWeek::new(week),
    };
    let header = header_words();
    let plan = Plan {
        form: None,
        target: Target::List,
        week,
        clock_week,
        header,
        kinds: Kinds::all(),
    };
    let observers = observers(alloc)?;
    let source = source_of(alloc, fails)?;
    let mut folder = MemFolder::new(alloc);
    let mut name = Given::new(String::from_str(alloc, "out")?);
    let Sourced { outcome, source: _ } = convert_source(
        alloc,
        &plan,
        &mut folder,
        source,
        observers,
        "part",
        &mut name,
    );
    Ok(end_of(&outcome.done) == end && has(&folder, "out", output))
}

#[test]
fn source_is_converted_unless_a_read_fails(rt: HostRuntime) -> Result<(), Fail> {
    assert!(rt; source_ends_so(rt.alloc(), 0, End::NotRead, None, None)?);
    assert!(rt; source_ends_so(rt.alloc(), 99, End::Done, Some(b""), None)?);
    Ok(())
}

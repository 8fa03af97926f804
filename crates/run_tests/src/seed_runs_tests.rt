//! Runs over memory.

use crate::times::times_from;
use captures::{CaptureCounts, SeedCounts, SeedTo, run_seed};
use nav_eph::RefWeek;
use nav_io::MemSink;
use one_run::BridgeFault;
use sent_captures::Sats;
use std::alloc::{AllocError, Global};
use std::test::Fail;

// The counts of the capture of two satellites of each system from the seed 7 in week 2295, computed
// by an independent program.
fn two() -> CaptureCounts {
    CaptureCounts {
        lines: 15_731,
        malformed: 0,
        late: 0,
        refused: 0,
        unused: 5_274,
        whole: 6,
        partial: 0,
        contradicted: 0,
        nohealth: 0,
        again: 0,
        times: times_from(7200, 7200),
    }
}

#[test]
fn writes_the_capture(rt: HostRuntime) -> Result<(), Fail> {
    let week = RefWeek::new(2295).ok_or("a week")?;
    let mut output = MemSink::new(rt.alloc(), 400_000, Vec::new(rt.alloc()))?;
    let mut report = MemSink::new(rt.alloc(), 0, Vec::new(rt.alloc()))?;
    let sats = Sats::new(1).ok_or("a number of satellites")?;
    let counts = run_seed(
        rt.alloc(),
        7,
        sats,
        week,
        SeedTo::Capture,
        &mut output,
        &mut report,
    );
    let bytes = output.bytes().len() as u64;
    let begins = output.bytes().starts_with(b"NAVCAP 1\n6 P E01 5 ");
    assert!(rt; counts == Ok(SeedCounts::Written { bytes }) && begins && report.bytes().is_empty());
    Ok(())
}

#[test]
fn counts_the_capture(rt: HostRuntime) -> Result<(), Fail> {
    let week = RefWeek::new(2295).ok_or("a week")?;
    let text = b"lines 15731\nmalformed 0\nlate 0\nrefused 0\nunused 5274\nwhole 6\npartial 0\n\
        contradicted 0\nnohealth 0\nagain 0\n";
    let mut output = MemSink::new(rt.alloc(), 200, Vec::new(rt.alloc()))?;
    let mut report = MemSink::new(rt.alloc(), 200, Vec::new(rt.alloc()))?;
    let sats = Sats::new(2).ok_or("a number of satellites")?;
    let counts = run_seed(
        rt.alloc(),
        7,
        sats,
        week,
        SeedTo::Count,
        &mut output,
        &mut report,
    );
    assert!(rt;
        counts == Ok(SeedCounts::Counted(two()))
            && output.bytes() == text.as_slice()
            && report.bytes() == text.as_slice()
    );
    Ok(())
}

// What there is room for in a run, and what it ends with.
struct Fault {
    name: &'static str,
    to: SeedTo,
    room: usize,
    report_room: usize,
    fault: BridgeFault,
}

static FAULTS: [Fault; 3] = [
    Fault {
        name: "a capture with no room",
        to: SeedTo::Capture,
        room: 0,
        report_room: 0,
        fault: BridgeFault::WriteFault,
    },
    Fault {
        name: "counts with no room",
        to: SeedTo::Count,
        room: 0,
        report_room: 200,
        fault: BridgeFault::WriteFault,
    },
    Fault {
        name: "counts with no room in the report",
        to: SeedTo::Count,
        room: 200,
        report_room: 0,
        fault: BridgeFault::ReportFault,
    },
];

// Whether a run ends with the fault.
fn is_answered(alloc: Global, case: &Fault) -> Result<bool, AllocError> {
    let (Some(week), Some(sats)) = (RefWeek::new(2295), Sats::new(1)) else {
        return Ok(false);
    };
    let mut output = MemSink::new(alloc, case.room, Vec::new(alloc))?;
    let mut report = MemSink::new(alloc, case.report_room, Vec::new(alloc))?;
    let counts = run_seed(alloc, 7, sats, week, case.to, &mut output, &mut report);
    Ok(counts == Err(case.fault))
}

#[test]
fn answers_faults(rt: HostRuntime) -> Result<(), Fail> {
    for case in &FAULTS {
        assert!(rt; is_answered(rt.alloc(), case)?, "{}", case.name);
    }
    Ok(())
}

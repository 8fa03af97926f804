//! A capture that is pushed in pieces: it becomes what a run over the whole makes of it.

ghost use Rattle.std.specs.Prelude.{◌<◌};

use captures::{CaptureRun, CaptureTo, run_capture};
use nav_eph::RefWeek;
use nav_io::{MemSink, MemSource};
use one_run::BridgeFault;
use sent_captures::{Sats, make_capture};
use std::alloc::{AllocError, Global};
use std::test::Fail;

// The first line of a generated capture.
const FIRST: &[u8] = b"NAVCAP 1\n";

// The same with a week and a window of one minute, and lines that are malformed: one of them is too
// long for a buffer of lines.
const BEGIN: &[u8] = b"NAVCAP 2 2295 60\nA line\r\n\n";

// The bytes of a generated capture that are taken.
const MOST: usize = 40_000;

// A sink with room for all that is written.
fn sink_of(alloc: Global) -> Result<MemSink, AllocError> {
    MemSink::new(alloc, 1_000_000, Vec::new(alloc))
}

// A capture whose periods close one after another, and whose last line lacks its LF.
fn capture_of(alloc: Global, week: RefWeek) -> Result<Vec<u8>, AllocError> {
    let Some(sats) = Sats::new(2) else {
        return Ok(Vec::new(alloc));
    };
    let mut text = make_capture(alloc, 7, sats, week)?;
    text.truncate(MOST);
    let long = vec![in alloc; b'x'; 9_000]?;
    match text.strip_prefix(FIRST) {
        Some(lines) => [BEGIN, &long, lines].concat(alloc),
        None => Ok(Vec::new(alloc)),
    }
}

// Whether pieces of this size become what the whole does, and that is something.
fn is_the_same(alloc: Global, text: &[u8], size: usize) -> Result<bool, AllocError>
    requires { 0 < size }
{
    let to = CaptureTo::ToList;
    let mut output = sink_of(alloc)?;
    let mut report = sink_of(alloc)?;
    let mut run = CaptureRun::new(alloc, None, &to);
    for piece in text.chunks(size) {
        if run.push(piece, &mut output, &mut report).is_err() {
            return Ok(false);
        }
    }
    let counts = run.finish(&mut output, &mut report);
    let mut listed = sink_of(alloc)?;
    let mut told = sink_of(alloc)?;
    let mut input = MemSource::new(text.to_vec(alloc)?, Vec::new(alloc), Vec::new(alloc));
    let whole = run_capture(alloc, None, &to, &mut input, &mut listed, &mut told);
    Ok(
        whole.is_ok()
            && counts == whole
            && output.bytes().len() > 100
            && output.bytes() == listed.bytes()
            && report.bytes() == told.bytes(),
    )
}

#[test]
fn pieces_become_what_the_whole_does(rt: HostRuntime) -> Result<(), Fail> {
    let week = RefWeek::new(2295).ok_or("a week")?;
    let text = capture_of(rt.alloc(), week)?;
    let sizes: [usize; 4] = [1, 613, 4_096, 100_000];
    for size in sizes {
        assert!(rt; is_the_same(rt.alloc(), &text, size)?);
    }
    Ok(())
}

// What is pushed of a text whose first line is no capture's, and once more after the refusal.
fn is_refused(alloc: Global) -> Result<bool, AllocError> {
    let mut output = sink_of(alloc)?;
    let mut report = sink_of(alloc)?;
    let mut run = CaptureRun::new(alloc, None, &CaptureTo::Rtcm);
    let first = run.push(b"NAVCAP", &mut output, &mut report);
    let line = run.push(b" 3\n", &mut output, &mut report);
    let again = run.push(b"", &mut output, &mut report);
    Ok(
        first == Ok(())
            && line == Err(BridgeFault::NotThisForm)
            && again == Err(BridgeFault::NotThisForm),
    )
}

#[test]
fn another_form_is_refused_with_its_first_line(rt: HostRuntime) -> Result<(), Fail> {
    assert!(rt; is_refused(rt.alloc())?);
    Ok(())
}

//! Small inputs through each run.

use crate::times::times_from;
use nav_eph::RefWeek;
use nav_files::{RinexCounts, RinexTo, run_rinex, run_rinex3};
use nav_io::{MemSink, MemSource};
use one_run::BridgeFault;
use rinex_write::HeaderWords;
use std::alloc::{AllocError, Global};
use std::test::Fail;
use streams::{StreamCounts, StreamRun, StreamTo, run_stream};

// Message 1019 of an ephemeris of G05 in week 2295 whose other fields are 0, as a frame.
const FRAME: &[u8] = b"\xd3\x00\x3d\x3f\xb1\x4f\x70\
    \0\0\0\0\0\0\0\0\0\0\0\0\0\0\0\0\0\0\0\0\0\0\0\0\0\0\0\0\0\
    \0\0\0\0\0\0\0\0\0\0\0\0\0\0\0\0\0\0\0\0\0\0\0\0\0\0\0\0\
    \xd1\xac\x12";

// A frame with no payload.
const EMPTY_FRAME: &[u8] = b"\xd3\x00\x00\x47\xea\x4b";

// What the header of a file says.
const WORDS: HeaderWords = HeaderWords {
    date: *b"20240101 000000 UTC",
    leap: 18,
};

// A source over these bytes, in pieces of one byte.
fn source_of(alloc: Global, bytes: &[u8]) -> Result<MemSource, AllocError> {
    let cuts = vec![in alloc; 1u32; 4000]?;
    Ok(MemSource::new(bytes.to_vec(alloc)?, cuts, Vec::new(alloc)))
}

// An empty sink.
fn sink_of(alloc: Global) -> Result<MemSink, AllocError> {
    MemSink::new(alloc, 4000, Vec::new(alloc))
}

// Runs over a stream, and what it ended with, if well.
fn stream_run(
    alloc: Global,
    to: &StreamTo,
    bytes: &[u8],
    output: &mut MemSink,
    report: &mut MemSink,
) -> Result<Option<StreamCounts>, AllocError> {
    let Some(r) = RefWeek::new(2295) else {
        return Ok(None);
    };
    let mut input = source_of(alloc, bytes)?;
    Ok(run_stream(alloc, r, to, &mut input, output, report).ok())
}

// Whether a run over a stream was done.
fn stream_ended(counts: Result<Option<StreamCounts>, AllocError>) -> Result<bool, AllocError> {
    match counts {
        Ok(Some(_)) => Ok(true),
        Ok(None) => Ok(false),
        Err(fault) => Err(fault),
    }
}

// Whether a stream of one frame becomes a file.
fn becomes_file(alloc: Global, to: &StreamTo, file: &mut MemSink) -> Result<bool, AllocError> {
    let mut report = sink_of(alloc)?;
    stream_ended(stream_run(alloc, to, FRAME, file, &mut report))
}

// Runs over a file of either form, and what it ended with.
fn file_run(
    alloc: Global,
    to: &RinexTo,
    older: bool,
    bytes: &[u8],
    output: &mut MemSink,
    report: &mut MemSink,
) -> Result<Result<RinexCounts, BridgeFault>, AllocError> {
    let mut input = source_of(alloc, bytes)?;
    if older {
        Ok(run_rinex3(to, &mut input, output, report))
    } else {
        Ok(run_rinex(to, &mut input, output, report))
    }
}

// Whether a file of RINEX 4 becomes this, and reports this.
fn file_becomes(
    alloc: Global,
    to: &RinexTo,
    bytes: &[u8],
    text: &[u8],
    reported: &[u8],
) -> Result<bool, AllocError> {
    let mut output = sink_of(alloc)?;
    let mut report = sink_of(alloc)?;
    let counts = file_run(alloc, to, false, bytes, &mut output, &mut report)?;
    let want = RinexCounts {
        records: 1,
        refused: 0,
        passed: 0,
        items: 1,
        times: times_from(0, 0),
    };
    Ok(counts == Ok(want) && output.bytes() == text && report.bytes() == reported)
}

// Whether a run over a file was done; `None` where the file is of another form.
fn file_ended(
    counts: Result<Result<RinexCounts, BridgeFault>, AllocError>,
) -> Result<Option<bool>, AllocError> {
    match counts {
        Ok(Ok(_)) => Ok(Some(true)),
        Ok(Err(BridgeFault::NotThisForm)) => Ok(None),
        Ok(Err(_)) => Ok(Some(false)),
        Err(fault) => Err(fault),
    }
}

// Whether a file of RINEX 3 becomes itself again, and is no file of RINEX 4.
fn stays(alloc: Global, bytes: &[u8]) -> Result<bool, AllocError> {
    let mut again = sink_of(alloc)?;
    let mut none = sink_of(alloc)?;
    let mut report = sink_of(alloc)?;
    let to = RinexTo::Rinex3(WORDS);
    let done = file_ended(file_run(alloc, &to, true, bytes, &mut again, &mut report))?;
    let other = file_ended(file_run(alloc, &to, false, bytes, &mut none, &mut report))?;
    Ok(done == Some(true) && again.bytes() == bytes && other.is_none() && none.bytes().is_empty())
}

// What is counted of two equal frames, and one with no payload between them.
fn twice() -> StreamCounts {
    StreamCounts {
        frames: 3,
        refused: 0,
        unused: 1,
        items: 1,
        times: times_from(0, 0),
    }
}

// What is reported of them.
const TWICE_REPORT: &[u8] = b"frames 3\nrefused 0\nunused 1\nitems 1\n";

// Whether two equal frames, and one with no payload, become one.
fn is_given_once(alloc: Global) -> Result<bool, AllocError> {
    let bytes = [FRAME, EMPTY_FRAME, FRAME].concat(alloc)?;
    let mut output = sink_of(alloc)?;
    let mut report = sink_of(alloc)?;
    let counts = stream_run(alloc, &StreamTo::Rtcm, &bytes, &mut output, &mut report)?;
    let is_reported = report.bytes() == TWICE_REPORT;
    Ok(counts == Some(twice()) && output.bytes() == FRAME && is_reported)
}

// Whether the same frames, pushed in pieces of one byte more than so many, become the same.
fn is_given_once_of_pieces(alloc: Global, more: u8) -> Result<bool, AllocError> {
    let Some(r) = RefWeek::new(2295) else {
        return Ok(false);
    };
    let bytes = [FRAME, EMPTY_FRAME, FRAME].concat(alloc)?;
    let mut output = sink_of(alloc)?;
    let mut report = sink_of(alloc)?;
    let Ok(mut run) = StreamRun::new(alloc, r, &StreamTo::Rtcm, &mut output) else {
        return Ok(false);
    };
    for piece in bytes.chunks(usize::from(more) + 1) {
        if run.push(piece, &mut output, &mut report).is_err() {
            return Ok(false);
        }
    }
    let counts = run.finish(&mut output, &mut report).ok();
    let is_reported = report.bytes() == TWICE_REPORT;
    Ok(counts == Some(twice()) && output.bytes() == FRAME && is_reported)
}

// One less than the sizes of the pieces: single bytes, pieces that end in the middle of a frame, at
// its end and one behind it, and a piece that is all.
static PIECES: [u8; 6] = [0, 1, 6, 66, 67, 255];

#[test]
fn takes_a_stream_in_pieces(rt: HostRuntime) -> Result<(), Fail> {
    for more in &PIECES {
        assert!(rt; is_given_once_of_pieces(rt.alloc(), *more)?);
    }
    Ok(())
}

// Whether a stream becomes a file, and that the list and the stream again.
fn comes_back(alloc: Global) -> Result<bool, AllocError> {
    let one: &[u8] = b"records 1\nrefused 0\npassed 0\nitems 1\n";
    let line: &[u8] = b"5 EPH G05 0 2295 0\n";
    let mut file = sink_of(alloc)?;
    let is_file = becomes_file(alloc, &StreamTo::Rinex(WORDS), &mut file)?;
    let list = file_becomes(alloc, &RinexTo::ToList, file.bytes(), line, one)?;
    Ok(is_file && list && file_becomes(alloc, &RinexTo::Rtcm, file.bytes(), FRAME, one)?)
}

// Whether a stream becomes a file of the older form, and that itself again.
fn is_of_older_form(alloc: Global) -> Result<bool, AllocError> {
    let mut file = sink_of(alloc)?;
    let is_file = becomes_file(alloc, &StreamTo::Rinex3(WORDS), &mut file)?;
    Ok(is_file && stays(alloc, file.bytes())?)
}

#[test]
fn converts_a_stream_once_to_both_forms_and_back(rt: HostRuntime) -> Result<(), Fail> {
    let once = is_given_once(rt.alloc())?;
    let older = is_of_older_form(rt.alloc())?;
    assert!(rt; comes_back(rt.alloc())? && once && older);
    Ok(())
}

//! The capture of a log, read from a source over the log.

use crate::samples::source_of;
use crate::small_log::{ALL, LOG, PAGE};
use framing::UbxJudge;
use nav_io::{MemSink, Source};
use receiver_log::LogSource;
use std::alloc::{AllocError, Global};
use std::test::Fail;

// How the small log is read, and what the source over it gives.
struct Reading {
    name: &'static str,
    // how many bytes the first piece of the log has
    cuts: &'static [u32],
    // how many bytes are asked for at a time
    size: usize,
    // the read of the log that fails, counted from 0
    fails: &'static [u32],
    // what is given before the end or the fault
    capture: &'static str,
}

static READINGS: [Reading; 6] = [
    Reading {
        name: "at once",
        cuts: &[180],
        size: 400,
        fails: &[],
        capture: ALL,
    },
    Reading {
        name: "byte by byte",
        cuts: &[1],
        size: 1,
        fails: &[],
        capture: ALL,
    },
    Reading {
        name: "seven bytes at a time",
        cuts: &[99],
        size: 7,
        fails: &[],
        capture: ALL,
    },
    // the end of the log can't be read
    Reading {
        name: "the read at the end fails",
        cuts: &[180],
        size: 64,
        fails: &[1],
        capture: ALL,
    },
    // the first piece has the page and both times
    Reading {
        name: "the read behind the page fails",
        cuts: &[100],
        size: 64,
        fails: &[1],
        capture: PAGE,
    },
    Reading {
        name: "the first read fails",
        cuts: &[100],
        size: 64,
        fails: &[0],
        capture: "",
    },
];

// Reads so many bytes at a time, and says whether that ended, or failed.
fn read_all<S: Source>(
    source: &mut S,
    size: usize,
    capture: &mut Vec<u8>,
) -> Result<Option<bool>, AllocError> {
    let mut bytes = [0u8; 400];
    let size = size.min(400);
    for _ in 0..1000 {
        match source.read(&mut bytes[..size]) {
            Ok(0) => return Ok(Some(true)),
            Ok(count) => capture.extend_from_slice(&bytes[..count])?,
            Err(_) => return Ok(Some(false)),
        }
    }
    Ok(None)
}

// Whether a source over the log gives this and then ends, or fails where a read of the log does.
fn gives(alloc: Global, reading: &Reading) -> Result<bool, AllocError> {
    let log = source_of(alloc, &LOG, reading.cuts, reading.fails)?;
    let report = MemSink::new(alloc, 1000, Vec::new(alloc))?;
    let mut source = LogSource::<UbxJudge, _, _>::new(log, report);
    let mut capture = Vec::new(alloc);
    let ended = read_all(&mut source, reading.size, &mut capture)?;
    let is_given = capture.as_slice() == reading.capture.as_bytes();
    Ok(is_given && ended == Some(reading.fails.is_empty()))
}

#[test]
fn a_source_over_a_log_gives_its_capture(rt: HostRuntime) -> Result<(), Fail> {
    for reading in &READINGS {
        assert!(rt; gives(rt.alloc(), reading)?, "{}", reading.name);
    }
    Ok(())
}

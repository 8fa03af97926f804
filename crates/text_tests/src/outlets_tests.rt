//! The texts of an ephemeris, and of a report.

use nav_eph::RefWeek;
use nav_io::MemSink;
use one_run::{Text, append_count, report_text};
use raw_values::MESSAGE_1019_OF_G05;
use rtcm_eph::read_item;
use std::alloc::{AllocError, Global};
use std::test::Fail;
use streams::{item_line, write_message};

// Whether an ephemeris is listed and sent.
fn is_listed_and_sent(alloc: Global) -> Result<bool, AllocError> {
    let mut sink = MemSink::new(alloc, 100, Vec::new(alloc))?;
    let Some(reference) = RefWeek::new(2295) else {
        return Ok(false);
    };
    let Ok(item) = read_item(&MESSAGE_1019_OF_G05, reference) else {
        return Ok(false);
    };
    let line = item_line(5, &item);
    let listed = line.as_slice() == b"5 EPH G05 0 2295 0\n".as_slice();
    let written = write_message(&item, &mut sink).is_ok();
    let begins = sink.bytes().starts_with(b"\xd3\x00\x3d\x3f\xb1\x4f\x70");
    Ok(listed && written && begins && sink.bytes().len() == 67)
}

#[test]
fn lists_sends_and_reports(rt: HostRuntime) -> Result<(), Fail> {
    let line = report_text(b"frame", 1, b"short");
    let mut text = Text::new();
    append_count(&mut text, b"frames", 3);
    let is_report = line.as_slice() == b"frame 1 short\n".as_slice()
        && text.as_slice() == b"frames 3\n".as_slice();
    assert!(rt; is_listed_and_sent(rt.alloc())? && is_report);
    Ok(())
}

//! The report of a conversion, which is written if a file is named for it, and whose rejections are
//! printed where files are only checked.

ghost use Rattle.std.specs.Prelude.{◌≡◌};

use crate::rejections::Rejections;
use nav_io::{Failed, Sink};
use std::fs::File;
use std::io::Write;

/// If the report of a file goes.
#[derive(Clone, Copy)]
pub(crate) struct Reported<'a> {
    /// The file for reports, if one is named.
    pub report: Option<&'a File>,
    /// The rejections that are printed.
    pub rejections: &'a Rejections<'a>,
    /// The name of the file that is read.
    pub file: &'a str,
}

impl Reported<'_> {
    /// Writes a line of a report; whether that was done.
    pub(crate) fn is_put(&self, line: &[u8]) -> bool {
        self.rejections.see(self.file, line);
        is_put(self.report, line)
    }
}

/// A sink for a report.
#[derive(Drop)]
pub(crate) struct ReportFile<'a> {
    to: Reported<'a>,
    faults: u64,
}

impl<'a> ReportFile<'a> {
    /// One that goes there.
    pub(crate) fn new(to: Reported<'a>) -> ReportFile<'a> {
        ReportFile { to, faults: 0 }
    }
}

impl Sink for ReportFile<'_> {
    ghost use Rattle.std.specs.Prelude.{None};

    ghost written = { λ _. None };

    ghost faults = { λ s. s.faults };

    /// Writes the piece. An `Err` of the file counts one error.
    fn write(&mut self, piece: &[u8]) -> Result<(), Failed> {
        if self.to.is_put(piece) {
            return Ok(());
        }
        self.faults = self.faults.saturating_add(1);
        Err(Failed)
    }
}

/// Writes a piece, if a file is there; whether that was done.
pub(crate) fn is_put(file: Option<&File>, piece: &[u8]) -> bool {
    match file {
        None => true,
        Some(file) => {
            let mut file = file;
            file.write_all(piece).is_ok()
        }
    }
}

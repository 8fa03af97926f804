//! What is rejected of files that are only checked: each rejection is printed as it is reported.

use crate::json::Quoted;
use file_conversion::Shown;
use std::cell::Cell;
use std::str::from_utf8;

/// The rejections of the file that is read.
#[derive(Drop)]
pub(crate) struct Rejections<'a> {
    /// The runtime.
    pub rt: &'a HostRuntime,
    /// Whether files are only checked.
    pub is_check: bool,
    /// Whether they are printed as JSON.
    pub is_json: bool,
    /// Whether they are not printed.
    pub is_quiet: bool,
    /// How many there are.
    pub count: Cell<u64>,
}

impl Rejections<'_> {
    /// Prints a rejection in this file, if it is checked and the line of its report is one.
    pub(crate) fn see(&self, file: &str, line: &[u8]) {
        let Some((unit, number, reason)) = rejection_of(line) else {
            return;
        };
        if !self.is_check {
            return;
        }
        let before = self.count.get();
        self.count.set(before.saturating_add(1));
        if self.is_json {
            let mark = if before == 0 {
                "{\"rejections\":["
            } else {
                ","
            };
            let _ = print!(self.rt;
                "{mark}{{\"unit\":\"{unit}\",\"number\":{number},\"reason\":\"{reason}\"}}"
            );
        } else if !self.is_quiet {
            let file = Shown(file);
            let _ = println!(self.rt; "{file}: {unit} {number}: {reason}");
        }
    }

    /// The exit status of a file that was read to its end.
    pub(crate) fn status(&self) -> u8 {
        if self.count.get() > 0 { 1 } else { 0 }
    }

    /// What an object of JSON begins with, after the rejections that were printed.
    pub(crate) fn head(&self) -> &'static str {
        match (self.is_check, self.count.get()) {
            (false, _) => "{",
            (true, 0) => "{\"rejections\":[],",
            (true, _) => "],",
        }
    }
}

// The unit, its number and the reason, as of `line 48 parity 3`; none of counts, one a line.
fn rejection_of(line: &[u8]) -> Option<(&str, &str, &str)> {
    let Ok(text) = from_utf8(line.trim_ascii_end()) else {
        return None;
    };
    let (unit, rest) = text.split_once(' ')?;
    let (number, reason) = rest.split_once(' ')?;
    if number.contains('\n') {
        return None;
    }
    Some((unit, number, reason))
}

//! How far a conversion has come, on a terminal.

use file_conversion::Shown;
use std::rt::Clock;
use whole_file::Progress;

// So long nothing is shown, and so long one line stands, in milliseconds.
const PAUSE: u64 = 500;

// The time at which a line is shown that never is.
const NEVER: u64 = u64::MAX;

/// A line on standard error that shows how far a file has come.
#[derive(Drop)]
pub(crate) struct Meter<'a> {
    rt: &'a HostRuntime,
    file: &'a str,
    // the size of the file, where it has one
    size: u64,
    begun: u64,
    next: u64,
}

impl<'a> Meter<'a> {
    /// For a file of this size, 0 if it has none. The line is shown after half a second.
    pub(crate) fn on(rt: &'a HostRuntime, file: &'a str, size: u64) -> Meter<'a> {
        let begun = now(rt);
        Meter {
            rt,
            file,
            size,
            begun,
            next: begun.saturating_add(PAUSE),
        }
    }

    /// One that never shows its line.
    pub(crate) fn off(rt: &'a HostRuntime) -> Meter<'a> {
        Meter {
            rt,
            file: "",
            size: 0,
            begun: 0,
            next: NEVER,
        }
    }

    // Shows the bytes that were read in so many milliseconds.
    fn show(&self, count: u64, time: u64) {
        let rate = count / time.max(1) / 1000;
        let done = count / 1_000_000;
        let file = Shown(self.file);
        let _ = eprint!(self.rt; "\r{file}: {done} MB, {rate} MB/s ");
        if count < self.size {
            let percents = count / (self.size / 100).max(1);
            let left = time_left(count, self.size, time);
            let _ = eprint!(self.rt; "{percents} %, {left} s left ");
        }
    }
}

impl Progress for Meter<'_> {
    fn taken(&mut self, count: u64) {
        if self.next == NEVER {
            return;
        }
        let time = now(self.rt);
        if time >= self.next {
            self.next = time.saturating_add(PAUSE);
            self.show(count, time.saturating_sub(self.begun));
        }
    }
}

// The seconds that are left, where so many bytes of a size took so many milliseconds.
fn time_left(count: u64, size: u64, time: u64) -> u64 {
    let rate = (count / time.max(1)).max(1);
    size.saturating_sub(count) / rate / 1000
}

// The time of a clock that never goes back, in milliseconds.
fn now(rt: &HostRuntime) -> u64 {
    match rt.monotonic() {
        Ok(time) => {
            let whole = time.as_secs().saturating_mul(1000);
            whole.saturating_add(u64::from(time.subsec_millis()))
        }
        Err(_) => 0,
    }
}

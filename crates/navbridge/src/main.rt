//! `navbridge` converts GNSS broadcast ephemerides between their formats.
//!
//! The program reads standard input and writes standard output. Its arguments name a conversion,
//! such as `navbridge --from stream --to frames`, which writes a line for each RTCM 3 frame of a
//! stream (RTCM 10403.3, section 4): its message number and the length of its payload. The exit
//! status states how it ended; [`bridge_engine::bridge`] lists them.
#![tactic(auto)]

use bridge_engine::bridge;
use nav_io::{ReadSource, WriteSink};
use std::env;
use std::io::ErrorKind;
use std::process::ExitCode;

// No memory for the arguments.
const NO_MEMORY: u8 = 6;

// An argument cannot be read, for instance because it is not UTF-8.
const NO_WORD: u8 = 9;

fn main(rt: HostRuntime) -> ExitCode {
    let args = match env::args(&rt) {
        Ok(args) => args,
        Err(error) if error.kind() == ErrorKind::OutOfMemory => return ExitCode::from(NO_MEMORY),
        Err(_) => return ExitCode::from(NO_WORD),
    };
    let mut words = Vec::new(rt.alloc());
    for word in args.skip(1) {
        if words.push(word).is_err() {
            return ExitCode::from(NO_MEMORY);
        }
    }
    let mut input = ReadSource::new(rt.stdin());
    let mut output = WriteSink::new(rt.stdout());
    let mut report = WriteSink::new(rt.stderr());
    let status = bridge(rt.alloc(), &words, &mut input, &mut output, &mut report);
    ExitCode::from(status)
}

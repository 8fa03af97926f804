//! Streams of RTCM frames, converted over memory.

use crate::over_memory::{Failing, NOTHING_FAILS, RUN, Run, first_wrong};
use crate::samples::{
    FRAMES, FRAMES_TO_RINEX, FRAMES_TO_RTCM, HEADER, OLDER_HEADER, ORBIT_LINE, UNSENT,
};
use std::test::Fail;

const TO_RINEX3: &str =
    "--from=stream;--to=rinex3;--week=2295;--date=20240101 000000 UTC;--leap=18";

// Reads of one byte.
const IN_BYTES: Failing<'static> = Failing {
    cuts: &[1, 1, 1, 1, 1, 1, 1, 1, 1, 1, 1, 1],
    ..NOTHING_FAILS
};

// Streams, and what they are converted to: each ephemeris once, or a line for each frame.
static STREAMS: [Run; 20] = [
    Run {
        name: "a frame three times to rinex",
        words: FRAMES_TO_RINEX,
        input: &["{GPS_FRAME}{GPS_FRAME}{GPS_FRAME}"],
        output: &[HEADER, ORBIT_LINE, UNSENT],
        report: &["frames 3\nrefused 0\nunused 0\nitems 1\n"],
        ..RUN
    },
    Run {
        name: "a frame three times to rtcm",
        words: FRAMES_TO_RTCM,
        input: &["{GPS_FRAME}{GPS_FRAME}{GPS_FRAME}"],
        output: &["{GPS_FRAME}"],
        report: &["frames 3\nrefused 0\nunused 0\nitems 1\n"],
        ..RUN
    },
    Run {
        name: "a short frame to rinex",
        words: FRAMES_TO_RINEX,
        input: &["{SHORT_FRAME}"],
        output: &[HEADER],
        report: &["frame 1 short\nframes 1\nrefused 1\nunused 0\nitems 0\n"],
        ..RUN
    },
    Run {
        name: "a short frame to rtcm",
        words: FRAMES_TO_RTCM,
        input: &["{SHORT_FRAME}"],
        report: &["frame 1 short\nframes 1\nrefused 1\nunused 0\nitems 0\n"],
        ..RUN
    },
    Run {
        name: "an empty frame to rinex",
        words: FRAMES_TO_RINEX,
        input: &["{EMPTY_FRAME}"],
        output: &[HEADER],
        report: &["frames 1\nrefused 0\nunused 1\nitems 0\n"],
        ..RUN
    },
    Run {
        name: "an empty frame to rtcm",
        words: FRAMES_TO_RTCM,
        input: &["{EMPTY_FRAME}"],
        report: &["frames 1\nrefused 0\nunused 1\nitems 0\n"],
        ..RUN
    },
    Run {
        name: "noise and two frames to rinex",
        words: FRAMES_TO_RINEX,
        input: &["{NOISE}{SHORT_FRAME}{GPS_FRAME}"],
        output: &[HEADER, ORBIT_LINE, UNSENT],
        report: &["frame 1 short\nframes 2\nrefused 1\nunused 0\nitems 1\n"],
        ..RUN
    },
    Run {
        name: "noise and two frames to rtcm",
        words: FRAMES_TO_RTCM,
        input: &["{NOISE}{SHORT_FRAME}{GPS_FRAME}"],
        output: &["{GPS_FRAME}"],
        report: &["frame 1 short\nframes 2\nrefused 1\nunused 0\nitems 1\n"],
        ..RUN
    },
    Run {
        name: "a frame to rinex3",
        words: TO_RINEX3,
        input: &["{GPS_FRAME}"],
        output: &[OLDER_HEADER, UNSENT],
        report: &["frames 1\nrefused 0\nunused 0\nitems 1\n"],
        ..RUN
    },
    // the lines of their frames
    Run {
        name: "an empty frame",
        words: FRAMES,
        input: &["{EMPTY_FRAME}"],
        output: &["- 0\n"],
        report: &[],
        ..RUN
    },
    Run {
        name: "an empty frame in bytes",
        words: FRAMES,
        input: &["{EMPTY_FRAME}"],
        failing: IN_BYTES,
        output: &["- 0\n"],
        report: &[],
        ..RUN
    },
    Run {
        name: "a start in front",
        words: FRAMES,
        input: &["{START}{EMPTY_FRAME}"],
        output: &["- 0\n"],
        report: &[],
        ..RUN
    },
    Run {
        name: "a start in front in bytes",
        words: FRAMES,
        input: &["{START}{EMPTY_FRAME}"],
        failing: IN_BYTES,
        output: &["- 0\n"],
        report: &[],
        ..RUN
    },
    Run {
        name: "a frame cut short",
        words: FRAMES,
        input: &["{CUT_FRAME}"],
        report: &[],
        ..RUN
    },
    Run {
        name: "a frame cut short in bytes",
        words: FRAMES,
        input: &["{CUT_FRAME}"],
        failing: IN_BYTES,
        report: &[],
        ..RUN
    },
    Run {
        name: "no byte",
        words: FRAMES,
        input: &[],
        report: &[],
        ..RUN
    },
    Run {
        name: "no byte in pieces",
        words: FRAMES,
        input: &[],
        failing: IN_BYTES,
        report: &[],
        ..RUN
    },
    // a read, and a write of a line, that fail
    Run {
        name: "a read that fails",
        words: FRAMES,
        input: &["{EMPTY_FRAME}{EMPTY_FRAME}"],
        failing: Failing {
            reads: &[8],
            ..IN_BYTES
        },
        status: 3,
        output: &["- 0\n"],
        report: &[],
        ..RUN
    },
    Run {
        name: "a write that fails",
        words: FRAMES,
        input: &["{EMPTY_FRAME}{EMPTY_FRAME}"],
        failing: Failing {
            writes: &[1],
            ..IN_BYTES
        },
        status: 4,
        output: &["- 0\n"],
        report: &[],
        ..RUN
    },
    // The lines of one piece are one write.
    Run {
        name: "two lines in one write",
        words: FRAMES,
        input: &["{EMPTY_FRAME}{EMPTY_FRAME}"],
        failing: Failing {
            writes: &[1],
            ..NOTHING_FAILS
        },
        output: &["- 0\n- 0\n"],
        report: &[],
        ..RUN
    },
];

#[test]
fn converts_streams(rt: HostRuntime) -> Result<(), Fail> {
    assert_eq!(rt; first_wrong(rt.alloc(), &STREAMS)?, None);
    Ok(())
}

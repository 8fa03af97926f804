//! Runs of which a read, a write or a report fails.

use crate::bits::expand;
use crate::over_memory::{
    ANYTHING, Failing, NOTHING_FAILS, PREFIX, REPORT_FAILS, RUN, Run, first_wrong, run_over,
};
use crate::samples::{
    COVER, FILE_TO_RINEX, FIRST, FRAMES_TO_RINEX, FRAMES_TO_RTCM, GALILEO, GALILEO_EPH, GPS,
    HEADER, MERGE, ONE_TO_COUNT, RECORD, TO_CAPTURE, TO_LIST, TO_RINEX, WORD_5, WORDS,
};
use std::test::Fail;

// The lines behind an ephemeris of GPS, of which the last ones close a period or not.
const CLOSING: &str = "14412 L G07 {A}\n14413 L G07 {A}\n";

// The same with a line of the first issue in time for it to go on.
const GOING_ON: &str = "7212 L G05 {A}\n14412 L G07 {A}\n14413 L G07 {A}\n";

// Reads of seven bytes, of which 60 are the capture of five words.
const IN_PIECES: Failing<'static> = Failing {
    cuts: &[7; 419],
    ..NOTHING_FAILS
};

// A run over the capture of five words, in which it writes the header and two records.
const FIVE_WORDS: Run = Run {
    words: TO_RINEX,
    input: &[FIRST, WORDS, WORD_5],
    ..RUN
};

const COUNTS: &str = concat!(
    "lines 11\nmalformed 0\nlate 0\nrefused 0\nunused 0\n",
    "whole 2\npartial 0\ncontradicted 0\nnohealth 0\nagain 0\n",
);

// What fails in a run, and what was written by then: what is closed is written while it reads.
static BROKEN: [Run; 23] = [
    Run {
        name: "list, the read before the period closes",
        words: TO_LIST,
        input: &[FIRST, GPS, CLOSING],
        failing: Failing {
            cuts: &[9, 85, 85, 86, 89, 89],
            reads: &[5],
            ..NOTHING_FAILS
        },
        status: 3,
        ..RUN
    },
    Run {
        name: "list, the read behind that",
        words: TO_LIST,
        input: &[FIRST, GPS, CLOSING],
        failing: Failing {
            cuts: &[9, 85, 85, 86, 89, 89],
            reads: &[6],
            ..NOTHING_FAILS
        },
        status: 3,
        output: &["12 EPH G05 0 whole\n"],
        ..RUN
    },
    Run {
        name: "list, of a period that goes on",
        words: TO_LIST,
        input: &[FIRST, GPS, GOING_ON],
        failing: Failing {
            cuts: &[9, 85, 85, 86, 88, 89, 89],
            reads: &[7],
            ..NOTHING_FAILS
        },
        status: 3,
        ..RUN
    },
    // what a run that writes a file answers
    Run {
        name: "rinex, the second read",
        words: TO_RINEX,
        input: &[FIRST, GPS],
        failing: Failing {
            cuts: &[9],
            reads: &[1],
            ..NOTHING_FAILS
        },
        status: 3,
        output: &[HEADER],
        report: &[],
        ..RUN
    },
    Run {
        name: "rinex, the first write",
        words: TO_RINEX,
        input: &[FIRST, GPS],
        failing: Failing {
            writes: &[0],
            ..NOTHING_FAILS
        },
        status: 4,
        ..RUN
    },
    Run {
        name: "rinex, the first report",
        words: TO_RINEX,
        input: &[FIRST, GPS],
        failing: Failing {
            reports: &[0],
            ..NOTHING_FAILS
        },
        status: 7,
        output: &[HEADER, ANYTHING],
        report: &[],
        ..RUN
    },
    // The refused line is reported before it is judged further.
    Run {
        name: "rinex, the report of the counts",
        words: TO_RINEX,
        input: &[FIRST, GPS, "18 L G05 {BAD_PARITY}\n"],
        failing: Failing {
            reports: &[1],
            ..NOTHING_FAILS
        },
        status: 7,
        output: &[ANYTHING],
        report: &["line 5 parity 3\n"],
        ..RUN
    },
    // each write of a run that writes two records
    Run {
        name: "five words, the first write",
        failing: Failing {
            writes: &[0],
            ..IN_PIECES
        },
        status: 4,
        report: &[],
        ..FIVE_WORDS
    },
    Run {
        name: "five words, the second write",
        failing: Failing {
            writes: &[1],
            ..IN_PIECES
        },
        status: 4,
        output: &[HEADER],
        report: &[],
        ..FIVE_WORDS
    },
    Run {
        name: "five words, the third write",
        failing: Failing {
            writes: &[2],
            ..IN_PIECES
        },
        status: 4,
        output: &[HEADER, GALILEO_EPH],
        report: &[],
        ..FIVE_WORDS
    },
    Run {
        name: "five words, a fourth write that is not made",
        failing: Failing {
            writes: &[3],
            ..IN_PIECES
        },
        output: &[HEADER, GALILEO],
        report: &[COUNTS],
        ..FIVE_WORDS
    },
    Run {
        name: "five words, the first report",
        failing: Failing {
            reports: &[0],
            ..IN_PIECES
        },
        status: 7,
        output: &[HEADER, GALILEO],
        report: &[PREFIX, COUNTS],
        ..FIVE_WORDS
    },
    Run {
        name: "five words, a second report that is not made",
        failing: Failing {
            reports: &[1],
            ..IN_PIECES
        },
        output: &[HEADER, GALILEO],
        report: &[PREFIX, COUNTS],
        ..FIVE_WORDS
    },
    // files that are merged, and the times that they cover
    Run {
        name: "merged, the report",
        words: MERGE,
        input: &[HEADER, RECORD],
        failing: REPORT_FAILS,
        status: 7,
        output: &[ANYTHING],
        report: &[],
        ..RUN
    },
    Run {
        name: "cover, the report",
        words: COVER,
        input: &[HEADER, RECORD],
        failing: REPORT_FAILS,
        status: 7,
        output: &[ANYTHING],
        report: &[],
        ..RUN
    },
    // a file of one record
    Run {
        name: "a file, the second read",
        words: FILE_TO_RINEX,
        input: &[HEADER, RECORD],
        failing: Failing {
            cuts: &[300],
            reads: &[1],
            ..NOTHING_FAILS
        },
        status: 3,
        output: &[PREFIX, HEADER],
        report: &[],
        ..RUN
    },
    Run {
        name: "a file, the first write",
        words: FILE_TO_RINEX,
        input: &[HEADER, RECORD],
        failing: Failing {
            writes: &[0],
            ..NOTHING_FAILS
        },
        status: 4,
        ..RUN
    },
    Run {
        name: "a file, the report",
        words: FILE_TO_RINEX,
        input: &[HEADER, RECORD],
        failing: REPORT_FAILS,
        status: 7,
        output: &[HEADER, RECORD],
        report: &[],
        ..RUN
    },
    // a stream of two frames
    Run {
        name: "a stream, the first read",
        words: FRAMES_TO_RINEX,
        input: &["{GPS_FRAME}{SHORT_FRAME}"],
        failing: Failing {
            reads: &[0],
            ..NOTHING_FAILS
        },
        status: 3,
        output: &[PREFIX, HEADER],
        report: &[],
        ..RUN
    },
    Run {
        name: "a stream, the second write",
        words: FRAMES_TO_RINEX,
        input: &["{GPS_FRAME}{SHORT_FRAME}"],
        failing: Failing {
            writes: &[1],
            ..NOTHING_FAILS
        },
        status: 4,
        output: &[HEADER],
        ..RUN
    },
    Run {
        name: "a stream to rtcm, the report",
        words: FRAMES_TO_RTCM,
        input: &["{GPS_FRAME}{SHORT_FRAME}"],
        failing: REPORT_FAILS,
        status: 7,
        output: &["{GPS_FRAME}"],
        report: &[],
        ..RUN
    },
    // captures that are made
    Run {
        name: "a seed to counts, the report",
        words: ONE_TO_COUNT,
        failing: Failing {
            reads: &[0],
            reports: &[0],
            ..NOTHING_FAILS
        },
        status: 7,
        output: &[ANYTHING],
        report: &[],
        ..RUN
    },
    Run {
        name: "a seed to a capture, the first write",
        words: TO_CAPTURE,
        failing: Failing {
            writes: &[0],
            ..NOTHING_FAILS
        },
        status: 4,
        report: &[],
        ..RUN
    },
];

#[test]
fn writes_what_is_closed_before_a_call_fails(rt: HostRuntime) -> Result<(), Fail> {
    assert_eq!(rt; first_wrong(rt.alloc(), &BROKEN)?, None);
    Ok(())
}

#[test]
fn writes_the_header_where_a_read_fails(rt: HostRuntime) -> Result<(), Fail> {
    // The capture has 419 bytes, and a last read gives none.
    for read in 0..61 {
        // Nine bytes are the first line, and no period is closed before the end.
        let want = if read < 2 { "" } else { HEADER };
        let run = Run {
            failing: Failing {
                reads: &[read],
                ..IN_PIECES
            },
            status: 3,
            output: &[want],
            report: &[],
            ..FIVE_WORDS
        };
        assert!(rt; run.ends_so(rt.alloc())?, "{read}");
    }
    Ok(())
}

#[test]
fn stops_at_the_write_that_fails(rt: HostRuntime) -> Result<(), Fail> {
    let mut input = [FIRST; 203];
    input[1] = GPS;
    input[2] = CLOSING;
    for line in &mut input[3..] {
        *line = "14413 L G07 {A}\n";
    }
    let bytes = expand(rt.alloc(), &input, "", "")?;
    let failing = Failing {
        cuts: &[],
        reads: &[],
        writes: &[0],
        reports: &[],
    };
    let run = run_over(rt.alloc(), TO_LIST, bytes.as_slice(), &failing)?;
    let has_stopped = run.status == 4 && run.output.bytes().is_empty() && run.left >= 10_000;
    assert!(rt; has_stopped);
    Ok(())
}

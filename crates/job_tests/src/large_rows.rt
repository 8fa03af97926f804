//! Captures that are made, and captures of very many lines, over memory.

use crate::bits::expand;
use crate::over_memory::{ANYTHING, NOTHING_FAILS, RUN, Run, first_wrong, run_over};
use crate::samples::{FIRST, ONE_TO_COUNT, TO_CAPTURE, TO_COUNT, TO_LIST};
use one_run::{Text, append_decimal};
use std::alloc::{AllocError, Global};
use std::test::Fail;

// Words of a capture of two satellites of each system, and its counts, as an independent program
// has them.
const TWO_TO_COUNT: &str = "--from=seed;--to=count;--seed=7;--sats=2;--week=2295";

const COUNTS: &str = concat!(
    "lines 15731\nmalformed 0\nlate 0\nrefused 0\nunused 5274\n",
    "whole 6\npartial 0\ncontradicted 0\nnohealth 0\nagain 0\n",
);

// The same of an hour of twelve satellites of each system.
const HOUR_TO_COUNT: &str = "--from=seed;--to=count;--seed=7;--sats=12;--week=2295";

const HOUR_COUNTS: &str = concat!(
    "lines 94381\nmalformed 0\nlate 0\nrefused 0\nunused 31644\n",
    "whole 26\npartial 0\ncontradicted 0\nnohealth 0\nagain 0\n",
);

// The counts of a capture with a comment of the greatest length and one that is longer.
const COMMENT_COUNTS: &str = concat!(
    "lines 3\nmalformed 1\nlate 0\nrefused 0\nunused 0\n",
    "whole 0\npartial 0\ncontradicted 0\nnohealth 0\nagain 0\n",
);

// Captures that are made, of which no input is read, and one with long comments.
static MADE: [Run; 5] = [
    Run {
        name: "counts of two satellites",
        words: TWO_TO_COUNT,
        input: &["not read"],
        output: &[COUNTS],
        report: &[COUNTS],
        left: 8,
        ..RUN
    },
    Run {
        name: "counts of an hour of twelve",
        words: HOUR_TO_COUNT,
        output: &[HOUR_COUNTS],
        report: &[HOUR_COUNTS],
        ..RUN
    },
    Run {
        name: "a capture of one",
        words: TO_CAPTURE,
        output: &["NAVCAP 1\n6 P E01 5 ", ANYTHING],
        report: &[],
        ..RUN
    },
    Run {
        name: "counts of one",
        words: ONE_TO_COUNT,
        output: &["lines 7866\n", ANYTHING],
        ..RUN
    },
    // a comment of the greatest length, and one that is longer
    Run {
        name: "a comment of the greatest length and a longer one",
        words: TO_COUNT,
        input: &["NAVCAP 1\n{COMMENT}\n{COMMENT}#\n"],
        output: &[COMMENT_COUNTS],
        report: &["line 3 malformed\n", COMMENT_COUNTS],
        ..RUN
    },
];

#[test]
fn counts_captures_that_are_made(rt: HostRuntime) -> Result<(), Fail> {
    assert_eq!(rt; first_wrong(rt.alloc(), &MADE)?, None);
    Ok(())
}

// Whether a run over these bytes writes what a run by other words writes over none.
fn writes_alike(
    alloc: Global,
    words: &str,
    bytes: &[u8],
    others: &str,
) -> Result<bool, AllocError> {
    let first = run_over(alloc, words, bytes, &NOTHING_FAILS)?;
    let second = run_over(alloc, others, b"", &NOTHING_FAILS)?;
    let is_same = first.output.bytes() == second.output.bytes();
    Ok(first.status == 0 && second.status == 0 && is_same)
}

#[test]
fn writes_a_capture_that_counts_the_same(rt: HostRuntime) -> Result<(), Fail> {
    let made = run_over(rt.alloc(), TO_CAPTURE, b"", &NOTHING_FAILS)?;
    let bytes = made.output.bytes();
    assert!(rt; writes_alike(rt.alloc(), TO_COUNT, bytes, ONE_TO_COUNT)?);
    Ok(())
}

// How many subframes there are, and how many seconds lie between two: the window and one.
const SUBFRAMES: u32 = 200_000;

const APART: u64 = 7_201;

// The report on the subframes.
const SUBFRAME_COUNTS: &str = concat!(
    "lines 200001\nmalformed 0\nlate 0\nrefused 0\nunused 0\n",
    "whole 0\npartial 200000\ncontradicted 0\nnohealth 0\nagain 0\n",
);

// A first line, and lines that begin with the seconds of the subframes and end with these texts.
fn far_apart(alloc: Global, first: &str, texts: &[&str]) -> Result<Vec<u8>, AllocError> {
    let line = expand(alloc, texts, "", "")?;
    let mut bytes = first.as_bytes().to_vec(alloc)?;
    for number in 0..SUBFRAMES {
        let mut stamp = Text::new();
        append_decimal(&mut stamp, u64::from(number) * APART);
        bytes.extend_from_slice(stamp.as_slice())?;
        bytes.extend_from_slice(line.as_slice())?;
    }
    Ok(bytes)
}

// One subframe 3 that is sent again whenever it was forgotten.
#[test]
fn lists_many_periods_of_one_ephemeris(rt: HostRuntime) -> Result<(), Fail> {
    let input = far_apart(rt.alloc(), FIRST, &[" L G05 {C}\n"])?;
    let list = far_apart(rt.alloc(), "", &[" EPH G05 0 partial\n"])?;
    let run = run_over(rt.alloc(), TO_LIST, input.as_slice(), &NOTHING_FAILS)?;
    let is_listed = run.output.bytes() == list.as_slice();
    let is_counted = run.report.bytes() == SUBFRAME_COUNTS.as_bytes();
    assert!(rt; run.status == 0 && is_listed && is_counted);
    Ok(())
}

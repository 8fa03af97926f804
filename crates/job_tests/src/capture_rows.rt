//! What captures give: the lists of their periods, and the texts that are made of them.

use crate::over_memory::{ANYTHING, RUN, Run, first_wrong};
use crate::samples::{
    FIRST, GALILEO, GALILEO_EPH, GALILEO_ION, GPS, HEADER, RECORD, TO_COUNT, TO_LIST, TO_RINEX,
    TO_RTCM, WORD_5, WORDS,
};
use std::test::Fail;

// Words 1 to 4, of which the last ends a window behind second 7.
const LATER: &str = concat!(
    "7200 P E11 B {EVEN_1}\n7201 P E11 B {ODD_1}\n7202 P E11 B {EVEN_2}\n7203 P E11 B {ODD_2}\n",
    "7204 P E11 B {EVEN_3}\n7205 P E11 B {ODD_3}\n7206 P E11 B {EVEN_4}\n7207 P E11 B {ODD_4}\n",
);

const ONE_BEFORE: &str = "6 P E11 B {EVEN_5}\n7 P E11 B {ODD_5}\n";

const TWO_BEFORE: &str = concat!(
    "6 P E11 B {EVEN_5}\n7 P E11 B {ODD_5}\n",
    "6 P E11 B {EVEN_5B}\n7 P E11 B {ODD_5B}\n",
);

const TWO_BEHIND: &str = concat!(
    "8 P E11 B {EVEN_5B}\n9 P E11 B {ODD_5B}\n",
    "8 P E11 B {EVEN_5}\n9 P E11 B {ODD_5}\n",
);

// The accuracy and the health in the record of Galileo.
const HEALTHY: &str = " 3.120000000000D+00 0.000000000000D+00";

// A list, and a report that begins with its counts.
const LIST: Run = Run {
    words: TO_LIST,
    report: &["lines ", ANYTHING],
    ..RUN
};

// Captures, their lists, and the lines of the report in front of the counts.
static LISTED_GPS: [Run; 16] = [
    Run {
        name: "GPS",
        input: &[FIRST, "0 L G05 {A}\n6 L G05 {B}\n12 L G05 {C}\n"],
        output: &["12 EPH G05 0 whole\n"],
        ..LIST
    },
    Run {
        name: "GPS in another order",
        input: &[
            FIRST,
            "12 L G05 {C}\n6 L G05 {B}\n0 L G05 {A}\n6 L G05 {B}\n",
        ],
        output: &["12 EPH G05 0 whole\n"],
        ..LIST
    },
    Run {
        name: "a wrong parity",
        input: &[FIRST, "0 L G05 {BAD_PARITY}\n"],
        report: &["line 2 parity 3\n", "lines ", ANYTHING],
        ..LIST
    },
    Run {
        name: "no preamble",
        input: &[FIRST, "0 L G05 {NO_PREAMBLE}\n"],
        report: &["line 2 preamble\n", "lines ", ANYTHING],
        ..LIST
    },
    Run {
        name: "GPS, one subframe missing",
        input: &[FIRST, "0 L G05 {A}\n6 L G05 {B}\n6 L G05 {B}\n"],
        output: &["6 EPH G05 0 partial\n"],
        ..LIST
    },
    Run {
        name: "GPS, two contents of one subframe",
        input: &[
            FIRST,
            "0 L G05 {A}\n6 L G05 {B}\n12 L G05 {C}\n36 L G05 {B_M0}\n",
        ],
        output: &["36 EPH G05 0 contradicted\n"],
        ..LIST
    },
    Run {
        name: "GPS, as long apart as the window",
        input: &[FIRST, "0 L G05 {A}\n7200 L G05 {B}\n14400 L G05 {C}\n"],
        output: &["14400 EPH G05 0 whole\n"],
        ..LIST
    },
    Run {
        name: "GPS, longer apart than the window",
        input: &[FIRST, "0 L G05 {A}\n7201 L G05 {B}\n"],
        output: &["0 EPH G05 0 partial\n7201 EPH G05 0 partial\n"],
        ..LIST
    },
    Run {
        name: "GPS, a subframe between two others",
        input: &[FIRST, "0 L G05 {A}\n8000 L G05 {C}\n4000 L G05 {B}\n"],
        output: &["8000 EPH G05 0 whole\n"],
        ..LIST
    },
    Run {
        name: "GPS, two issues",
        input: &[FIRST, "0 L G05 {A}\n6 L G05 {C_IODE}\n12 L G05 {B}\n"],
        output: &["6 EPH G05 9 partial\n12 EPH G05 0 partial\n"],
        ..LIST
    },
    Run {
        name: "GPS, a late line",
        input: &[FIRST, "10000 L G05 {A}\n2800 L G05 {B}\n2799 L G05 {C}\n"],
        output: &["10000 EPH G05 0 partial\n"],
        report: &["line 4 late\n", "lines ", ANYTHING],
        ..LIST
    },
    Run {
        name: "GPS, a frame of the same issue",
        input: &[
            FIRST,
            "0 L G05 {A}\n6 L G05 {B}\n12 L G05 {C}\n18 R {FRAME_L2}\n",
        ],
        output: &["18 EPH G05 0 whole\n"],
        ..LIST
    },
    Run {
        name: "two frames of which one is wrong",
        input: &[FIRST, "5 R d3000047ea4c\n5 R d3000047ea4b\n"],
        report: &["line 2 frame\n", "lines ", ANYTHING],
        ..LIST
    },
    Run {
        name: "GPS again",
        input: &[
            FIRST,
            GPS,
            "7213 L G05 {A}\n7219 L G05 {B}\n7225 L G05 {C}\n",
        ],
        output: &["12 EPH G05 0 whole\n7225 EPH G05 0 again\n"],
        ..LIST
    },
    Run {
        name: "GPS again with another health",
        input: &[
            FIRST,
            GPS,
            "7213 L G05 {A_HEALTH}\n7219 L G05 {B}\n7225 L G05 {C}\n",
        ],
        output: &["12 EPH G05 0 whole\n7225 EPH G05 0 whole\n"],
        ..LIST
    },
    Run {
        name: "GPS again behind a part of it",
        input: &[
            FIRST,
            GPS,
            "7213 L G05 {C}\n14414 L G05 {A}\n14420 L G05 {B}\n14426 L G05 {C}\n",
        ],
        output: &["12 EPH G05 0 whole\n7213 EPH G05 0 partial\n14426 EPH G05 0 again\n"],
        ..LIST
    },
];

static LISTED_GALILEO: [Run; 12] = [
    Run {
        name: "Galileo",
        input: &[FIRST, WORDS, "8 P E11 B {EVEN_5}\n9 P E11 B {ODD_5}\n"],
        output: &["7 EPH E11 5 whole\n9 ION E 00000000000 whole\n"],
        ..LIST
    },
    Run {
        name: "Galileo, health a window behind the end",
        input: &[
            FIRST,
            WORDS,
            "7206 P E11 B {EVEN_5}\n7207 P E11 B {ODD_5}\n",
        ],
        output: &["7 EPH E11 5 whole\n7207 ION E 00000000000 whole\n"],
        ..LIST
    },
    Run {
        name: "Galileo, health later than that",
        input: &[
            FIRST,
            WORDS,
            "7207 P E11 B {EVEN_5}\n7208 P E11 B {ODD_5}\n",
        ],
        output: &["7 EPH E11 5 nohealth\n7208 ION E 00000000000 whole\n"],
        ..LIST
    },
    Run {
        name: "Galileo, an odd part before the even one",
        input: &[
            FIRST,
            WORDS,
            "9 P E11 B {ODD_5}\n8 P E11 B {EVEN_5}\n9 P E11 B {ODD_5}\n",
        ],
        output: &["7 EPH E11 5 whole\n9 ION E 00000000000 whole\n"],
        ..LIST
    },
    Run {
        name: "Galileo, an odd part of another stamp and of another signal",
        input: &[
            FIRST,
            WORDS,
            "8 P E11 B {EVEN_5}\n11 P E11 B {ODD_5}\n9 P E11 5 {ODD_5}\n",
        ],
        output: &["7 EPH E11 5 nohealth\n"],
        ..LIST
    },
    Run {
        name: "Galileo, word 4 of another satellite",
        input: &[FIRST, WORDS, "20 P E12 B {EVEN_4}\n21 P E12 B {ODD_4}\n"],
        output: &["7 EPH E11 5 nohealth\n"],
        report: &["line 11 satellite\n", "lines ", ANYTHING],
        ..LIST
    },
    Run {
        name: "an ionosphere",
        input: &[FIRST, "18 L G05 {PAGE_18}\n"],
        output: &["18 ION G 0b0000002c000000 whole\n"],
        ..LIST
    },
    Run {
        name: "an ionosphere of two satellites",
        input: &[FIRST, "18 L G07 {PAGE_18}\n18 L G05 {PAGE_18}\n"],
        output: &["18 ION G 0b0000002c000000 whole\n"],
        ..LIST
    },
    Run {
        name: "an ionosphere of two stamps",
        input: &[FIRST, "18 L G05 {PAGE_18}\n12 L G07 {PAGE_18}\n"],
        output: &["18 ION G 0b0000002c000000 whole\n"],
        ..LIST
    },
    Run {
        name: "Galileo, health before the end",
        input: &[FIRST, ONE_BEFORE, LATER],
        output: &["7 ION E 00000000000 whole\n7207 EPH E11 5 whole\n"],
        ..LIST
    },
    Run {
        name: "Galileo, two health words before the end",
        input: &[FIRST, TWO_BEFORE, LATER],
        output: &["7 ION E 00000000000 whole\n7207 EPH E11 5 whole\n"],
        ..LIST
    },
    Run {
        name: "Galileo, two health words behind the end",
        input: &[FIRST, WORDS, TWO_BEHIND],
        output: &["7 EPH E11 5 whole\n9 ION E 00000000000 whole\n"],
        ..LIST
    },
];

#[test]
fn lists_periods_of_gps(rt: HostRuntime) -> Result<(), Fail> {
    assert_eq!(rt; first_wrong(rt.alloc(), &LISTED_GPS)?, None);
    Ok(())
}

#[test]
fn lists_periods_of_galileo(rt: HostRuntime) -> Result<(), Fail> {
    assert_eq!(rt; first_wrong(rt.alloc(), &LISTED_GALILEO)?, None);
    Ok(())
}

// Captures of their own week and window.
static HEADED: [Run; 11] = [
    Run {
        name: "subframes as long apart as the window",
        words: "--from=capture;--to=list",
        input: &["NAVCAP 2 2295 60\n0 L G05 {A}\n60 L G05 {B}\n120 L G05 {C}\n"],
        output: &["120 EPH G05 0 whole\n"],
        ..LIST
    },
    Run {
        name: "subframes longer apart than the window",
        words: "--from=capture;--to=list",
        input: &["NAVCAP 2 2295 60\n0 L G05 {A}\n61 L G05 {B}\n121 L G05 {C}\n"],
        output: &["0 EPH G05 0 partial\n121 EPH G05 0 partial\n"],
        ..LIST
    },
    Run {
        name: "a late line",
        input: &["NAVCAP 2 2295 60\n100 L G05 {A}\n40 L G05 {B}\n39 L G05 {C}\n"],
        output: &["100 EPH G05 0 partial\n"],
        report: &["line 4 late\n", "lines ", ANYTHING],
        ..LIST
    },
    Run {
        name: "another week in the words",
        words: "--from=capture;--to=list;--week=2294",
        input: &["NAVCAP 2 2295 60\n0 L G05 {A}\n"],
        status: 5,
        report: &[],
        ..LIST
    },
    Run {
        name: "no week",
        words: "--from=capture;--to=list",
        input: &["NAVCAP 1\n0 L G05 {A}\n"],
        status: 5,
        report: &[],
        ..LIST
    },
    Run {
        name: "a window of 59",
        input: &["NAVCAP 2 2295 59\n"],
        status: 5,
        report: &[],
        ..LIST
    },
    Run {
        name: "a window of 14401",
        input: &["NAVCAP 2 2295 14401\n"],
        status: 5,
        report: &[],
        ..LIST
    },
    Run {
        name: "a week of 1023",
        words: "--from=capture;--to=list",
        input: &["NAVCAP 2 1023 60\n"],
        status: 5,
        report: &[],
        ..LIST
    },
    Run {
        name: "no first line",
        status: 5,
        report: &[],
        ..LIST
    },
    Run {
        name: "a comment in front",
        input: &["# x\nNAVCAP 1\n"],
        status: 5,
        report: &[],
        ..LIST
    },
    Run {
        name: "a blank behind the first line",
        input: &["NAVCAP 1 \n"],
        status: 5,
        report: &[],
        ..LIST
    },
];

#[test]
fn takes_week_and_window_of_the_first_line(rt: HostRuntime) -> Result<(), Fail> {
    assert_eq!(rt; first_wrong(rt.alloc(), &HEADED)?, None);
    Ok(())
}

// The counts of the one ephemeris of GPS.
const COUNTS: &str = concat!(
    "lines 4\nmalformed 0\nlate 0\nrefused 0\nunused 0\n",
    "whole 1\npartial 0\ncontradicted 0\nnohealth 0\nagain 0\n",
);

// A capture over the week rollover.
const ROLLOVER_TO_RINEX: &str =
    "--from=capture;--to=rinex;--week=2294;--date=20240101 000000 UTC;--leap=18";

const ROLLOVER: &str = "0 L G05 {ROLLOVER_1}\n6 L G05 {ROLLOVER_2}\n12 L G05 {ROLLOVER_3}\n";

// Lines that are malformed, and what is reported of them.
const MALFORMED: &str = concat!(
    "4294967296 L G05 {A}\n00000000005 L G05 {A}\n5 L G05 {EVEN_1}\n5 L E05 {A}\n",
    "5 L G33 {A}\n5 L G5 {A}\n5  L G05 {A}\n 5 L G05 {A}\n5 L G05 {A} \n",
    "5 P E11 A {EVEN_1}\n5 R d30000\n5 R d3000047ea4b0\n\t\n",
);

const MALFORMED_REPORT: &str = concat!(
    "line 5 malformed\nline 6 malformed\nline 7 malformed\nline 8 malformed\n",
    "line 9 malformed\nline 10 malformed\nline 11 malformed\nline 12 malformed\n",
    "line 13 malformed\nline 14 malformed\nline 15 malformed\nline 16 malformed\n",
    "line 17 malformed\nlines 17\nmalformed 13\n",
);

// Captures, and what is made of them.
static WRITTEN: [Run; 16] = [
    Run {
        name: "GPS",
        words: TO_RINEX,
        input: &[FIRST, GPS],
        output: &[HEADER, RECORD],
        ..RUN
    },
    Run {
        name: "a first line with no end",
        words: TO_RINEX,
        input: &["NAVCAP 1"],
        output: &[HEADER],
        ..RUN
    },
    Run {
        name: "Galileo",
        words: TO_RINEX,
        input: &[FIRST, WORDS, WORD_5],
        output: &[HEADER, GALILEO],
        ..RUN
    },
    Run {
        name: "two contents of one subframe",
        words: TO_RINEX,
        input: &[FIRST, GPS, "36 L G05 {B_M0}\n"],
        output: &[HEADER],
        ..RUN
    },
    // the counts
    Run {
        name: "the counts, reported",
        words: TO_RINEX,
        input: &[FIRST, GPS],
        output: &[ANYTHING],
        report: &[COUNTS],
        ..RUN
    },
    Run {
        name: "the counts, written",
        words: TO_COUNT,
        input: &[FIRST, GPS],
        output: &[COUNTS],
        report: &[COUNTS],
        ..RUN
    },
    // the frame
    Run {
        name: "a frame",
        words: TO_RTCM,
        input: &[FIRST, GPS],
        output: &["{GPS_FRAME}"],
        ..RUN
    },
    Run {
        name: "over the week rollover",
        words: ROLLOVER_TO_RINEX,
        input: &[FIRST, ROLLOVER],
        output: &[HEADER, "> EPH G05 LNAV\n{ROLLOVER}"],
        ..RUN
    },
    Run {
        name: "malformed lines",
        words: TO_RINEX,
        input: &[FIRST, GPS, MALFORMED],
        output: &[HEADER, RECORD],
        report: &[MALFORMED_REPORT, ANYTHING],
        ..RUN
    },
    // ionospheres
    Run {
        name: "an ionosphere",
        words: TO_RINEX,
        input: &[FIRST, "18 L G05 {PAGE_18}\n"],
        output: &[HEADER, "> ION G05 LNAV\n    2023 12 31 00 00 18", ANYTHING],
        ..RUN
    },
    Run {
        name: "an ionosphere of two satellites",
        words: TO_RINEX,
        input: &[FIRST, "18 L G07 {PAGE_18}\n18 L G05 {PAGE_18}\n"],
        output: &[HEADER, "> ION G05 LNAV\n    2023 12 31 00 00 18", ANYTHING],
        ..RUN
    },
    Run {
        name: "an ionosphere of two stamps",
        words: TO_RINEX,
        input: &[FIRST, "18 L G05 {PAGE_18}\n12 L G07 {PAGE_18}\n"],
        output: &[HEADER, "> ION G07 LNAV\n    2023 12 31 00 00 18", ANYTHING],
        ..RUN
    },
    // the health of the word 5 that is nearest the end
    Run {
        name: "health before the end",
        words: TO_RINEX,
        input: &[FIRST, ONE_BEFORE, LATER],
        output: &[HEADER, GALILEO_ION, GALILEO_EPH],
        ..RUN
    },
    Run {
        name: "two health words before the end",
        words: TO_RINEX,
        input: &[FIRST, TWO_BEFORE, LATER],
        old: HEALTHY,
        printed: " 3.120000000000D+00 2.000000000000D+00",
        output: &[HEADER, GALILEO_ION, GALILEO_EPH],
        ..RUN
    },
    Run {
        name: "two health words behind the end",
        words: TO_RINEX,
        input: &[FIRST, WORDS, TWO_BEHIND],
        output: &[HEADER, GALILEO],
        ..RUN
    },
    // the later side of an ephemeris of GPS
    Run {
        name: "the later side of GPS",
        words: TO_RINEX,
        input: &[FIRST, GPS, "18 R {FRAME_L2}\n"],
        old: " 0.000000000000D+00 2.295000000000D+03",
        printed: " 1.000000000000D+00 2.295000000000D+03",
        output: &[HEADER, RECORD],
        ..RUN
    },
];

#[test]
fn writes_what_a_capture_holds(rt: HostRuntime) -> Result<(), Fail> {
    assert_eq!(rt; first_wrong(rt.alloc(), &WRITTEN)?, None);
    Ok(())
}

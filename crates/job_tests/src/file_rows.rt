//! Navigation files of both forms, converted over memory.

use crate::over_memory::{ANYTHING, RUN, Run, first_wrong};
use crate::samples::{
    FILE_TO_LIST, FILE_TO_RINEX, FIRST, FRAMES_TO_RINEX, GALILEO, GALILEO_EPH, GPS, HEADER,
    OLDER_HEADER, ONE_ITEM, ORBIT, ORBIT_LINE, RECORD, UNSENT,
};
use std::test::Fail;

// Words of the jobs, with `;` between them.
const TO_RTCM: &str = "--from=rinex;--to=rtcm";

const TO_RINEX3: &str = "--from=rinex;--to=rinex3;--date=20240101 000000 UTC;--leap=18";

const BACK_TO_RINEX: &str = "--from=rinex3;--to=rinex;--date=20240101 000000 UTC;--leap=18";

const OLDER_AGAIN: &str = "--from=rinex3;--to=rinex3;--date=20240101 000000 UTC;--leap=18";

const OLDER_TO_RTCM: &str = "--from=rinex3;--to=rtcm";

const OLDER_TO_LIST: &str = "--from=rinex3;--to=list";

const CAPTURE_TO_RINEX3: &str =
    "--from=capture;--to=rinex3;--week=2295;--date=20240101 000000 UTC;--leap=18";

const OWN_WEEK_TO_RINEX3: &str = "--from=capture;--to=rinex3;--date=20240101 000000 UTC;--leap=18";

// Files, captures and frames, and what they are converted to.
static CONVERTED: [Run; 16] = [
    Run {
        name: "rinex to rinex",
        words: FILE_TO_RINEX,
        input: &[HEADER, RECORD],
        output: &[HEADER, RECORD],
        report: &[ONE_ITEM],
        ..RUN
    },
    Run {
        name: "rinex to rtcm",
        words: TO_RTCM,
        input: &[HEADER, RECORD],
        output: &["{GPS_FRAME}"],
        report: &[ONE_ITEM],
        ..RUN
    },
    Run {
        name: "rinex to list",
        words: FILE_TO_LIST,
        input: &[HEADER, RECORD],
        output: &["5 EPH G05 0 2295 0\n"],
        report: &[ONE_ITEM],
        ..RUN
    },
    // to the older form and back
    Run {
        name: "rinex to rinex3",
        words: TO_RINEX3,
        input: &[HEADER, RECORD],
        output: &[OLDER_HEADER, ORBIT],
        report: &[ONE_ITEM],
        ..RUN
    },
    Run {
        name: "rinex3 to rinex",
        words: BACK_TO_RINEX,
        input: &[OLDER_HEADER, ORBIT],
        output: &[HEADER, RECORD],
        report: &[ONE_ITEM],
        ..RUN
    },
    Run {
        name: "rinex3 to rinex3",
        words: OLDER_AGAIN,
        input: &[OLDER_HEADER, ORBIT],
        output: &[OLDER_HEADER, ORBIT],
        report: &[ONE_ITEM],
        ..RUN
    },
    Run {
        name: "rinex3 to rtcm",
        words: OLDER_TO_RTCM,
        input: &[OLDER_HEADER, ORBIT],
        output: &["{GPS_FRAME}"],
        report: &[ONE_ITEM],
        ..RUN
    },
    Run {
        name: "rinex3 to list",
        words: OLDER_TO_LIST,
        input: &[OLDER_HEADER, ORBIT],
        output: &["5 EPH G05 0 2295 0\n"],
        report: &[ONE_ITEM],
        ..RUN
    },
    // captures
    Run {
        name: "capture to rinex3",
        words: CAPTURE_TO_RINEX3,
        input: &[FIRST, GPS],
        output: &[OLDER_HEADER, ORBIT],
        ..RUN
    },
    Run {
        name: "capture with a week to rinex3",
        words: OWN_WEEK_TO_RINEX3,
        input: &["NAVCAP 2 2295 60\n", GPS],
        output: &[OLDER_HEADER, ORBIT],
        ..RUN
    },
    Run {
        name: "capture with no week to rinex3",
        words: OWN_WEEK_TO_RINEX3,
        input: &[FIRST, GPS],
        status: 5,
        ..RUN
    },
    Run {
        name: "ionosphere to rinex3",
        words: CAPTURE_TO_RINEX3,
        input: &[FIRST, "18 L G05 {PAGE_18}\n"],
        output: &[OLDER_HEADER],
        ..RUN
    },
    // records of other kinds, of which an ephemeris of Galileo by F/NAV is one
    Run {
        name: "F/NAV and GLONASS",
        words: OLDER_TO_LIST,
        input: &[OLDER_HEADER, "{GALILEO_ORBIT}{GLONASS}"],
        old: " 5.170000000000D+02",
        new: " 2.580000000000D+02",
        report: &["records 2\nrefused 0\npassed 2\nitems 0\n"],
        ..RUN
    },
    // files of other programs, and their frames
    Run {
        name: "another program's file to rtcm",
        words: TO_RTCM,
        input: &["{FOREIGN}"],
        output: &["{GPS_FRAME}{GALILEO_FRAME}"],
        report: &["records 4\nrefused 0\npassed 2\nitems 2\n"],
        ..RUN
    },
    Run {
        name: "another program's file to rinex",
        words: FILE_TO_RINEX,
        input: &["{FOREIGN}"],
        old: "\n     8.000000000000D+00",
        printed: "\n     9.999000000000D+08",
        output: &[HEADER, ORBIT_LINE, UNSENT, GALILEO_EPH],
        ..RUN
    },
    Run {
        name: "frames to rinex",
        words: FRAMES_TO_RINEX,
        input: &["{GPS_FRAME}{GALILEO_FRAME}"],
        old: "\n     8.000000000000D+00",
        printed: "\n     9.999000000000D+08",
        output: &[HEADER, ORBIT_LINE, UNSENT, GALILEO_EPH],
        ..RUN
    },
];

#[test]
fn converts_files(rt: HostRuntime) -> Result<(), Fail> {
    assert_eq!(rt; first_wrong(rt.alloc(), &CONVERTED)?, None);
    Ok(())
}

// A file of one record of GPS.
const READING: Run = Run {
    words: FILE_TO_RINEX,
    input: &[HEADER, RECORD],
    output: &[HEADER, RECORD],
    ..RUN
};

// The fields of the second orbit line of GPS.
const ISSUE: &str = "\n     0.000000000000D+00";

const ANOMALY: &str =
    "\n     0.000000000000D+00 0.000000000000D+00 0.000000000000D+00 0.000000000000D+00\n";

const ANOMALY_1: &str =
    "\n     0.000000000000D+00 0.000000000000D+00 0.000000000000D+00 1.462918079267D-09\n";

// What stands in a file in place of some words of a record, and what its conversion has there.
static READINGS: [Run; 15] = [
    Run {
        name: "an exponent with e",
        old: ANOMALY,
        new: "\n     0.000000000000D+00 0.000000000000D+00 0.000000000000D+00 1.462918079267e-09\n",
        printed: ANOMALY_1,
        ..READING
    },
    Run {
        name: "the nearest number",
        old: ANOMALY,
        new: "\n     0.000000000000D+00 0.000000000000D+00 0.000000000000D+00 1.462918079268D-09\n",
        printed: ANOMALY_1,
        ..READING
    },
    Run {
        name: "no digit before the point",
        old: ISSUE,
        new: "\n                 .5D+01",
        printed: "\n     5.000000000000D+00",
        ..READING
    },
    Run {
        name: "a digit alone",
        old: ISSUE,
        new: "\n                      5",
        printed: "\n     5.000000000000D+00",
        ..READING
    },
    Run {
        name: "a plus",
        old: ISSUE,
        new: "\n                   +5.0",
        printed: "\n     5.000000000000D+00",
        ..READING
    },
    Run {
        name: "a minus zero",
        old: ISSUE,
        new: "\n                   -0.0",
        printed: ISSUE,
        ..READING
    },
    Run {
        name: "accuracy 3.40",
        old: " 2.000000000000D+00",
        new: "               3.40",
        printed: " 2.800000000000D+00",
        ..READING
    },
    Run {
        name: "accuracy 3.41",
        old: " 2.000000000000D+00",
        new: "               3.41",
        printed: " 4.000000000000D+00",
        ..READING
    },
    Run {
        name: "accuracy -1",
        old: " 2.000000000000D+00",
        new: "                 -1",
        printed: " 8.192000000000D+03",
        ..READING
    },
    Run {
        name: "accuracy 0",
        old: " 2.000000000000D+00",
        new: "                  0",
        printed: " 2.000000000000D+00",
        ..READING
    },
    Run {
        name: "fit interval 6",
        old: " 4.000000000000D+00",
        new: "                  6",
        printed: " 6.000000000000D+00",
        ..READING
    },
    Run {
        name: "no fit interval",
        old: " 4.000000000000D+00",
        new: "",
        printed: " 4.000000000000D+00",
        ..READING
    },
    Run {
        name: "SISA 3.12",
        old: " 3.120000000000D+00",
        new: "               3.12",
        printed: " 3.120000000000D+00",
        input: &[HEADER, GALILEO],
        output: &[HEADER, GALILEO],
        ..READING
    },
    Run {
        name: "SISA 3.13",
        old: " 3.120000000000D+00",
        new: "               3.13",
        printed: " 3.280000000000D+00",
        input: &[HEADER, GALILEO],
        output: &[HEADER, GALILEO],
        ..READING
    },
    Run {
        name: "SISA 6.01",
        old: " 3.120000000000D+00",
        new: "               6.01",
        printed: "-1.000000000000D+00",
        input: &[HEADER, GALILEO],
        output: &[HEADER, GALILEO],
        ..READING
    },
];

#[test]
fn reads_fields_in_any_spelling(rt: HostRuntime) -> Result<(), Fail> {
    assert_eq!(rt; first_wrong(rt.alloc(), &READINGS)?, None);
    Ok(())
}

// The list of a file of one record of GPS.
const JUDGED: Run = Run {
    words: FILE_TO_LIST,
    input: &[HEADER, RECORD],
    ..RUN
};

// What is reported of a record that ends too soon.
const SHORT: &str = "line 5 short\nrecords 1\nrefused 1\npassed 0\nitems 0\n";

// What stands in a file in place of some words, and why its record or the file is refused.
static REFUSED: [Run; 34] = [
    Run {
        name: "satellite",
        old: "> EPH G05",
        new: "> EPH G33",
        report: &["line 5 satellite", ANYTHING],
        ..JUDGED
    },
    Run {
        name: "short",
        old: "     0.000000000000D+00 0.000000000000D+00 2.295",
        new: "> 2.295",
        report: &["line 5 short", ANYTHING],
        ..JUDGED
    },
    Run {
        name: "date",
        old: "G05 2023 12 31",
        new: "G05 2023 12 32",
        report: &["line 5 date", ANYTHING],
        ..JUDGED
    },
    Run {
        name: "far",
        old: "G05 2023 12 31",
        new: "G05 2024 01 08",
        report: &["line 5 far", ANYTHING],
        ..JUDGED
    },
    Run {
        name: "step",
        old: "12 31 00 00 00",
        new: "12 31 00 00 01",
        report: &["line 5 step", ANYTHING],
        ..JUDGED
    },
    Run {
        name: "range of the issue of the clock",
        old: "0.000000000000D+00\n     0.000000000000D+00 4",
        new: "1024\n     0.000000000000D+00 4",
        report: &["line 5 range", ANYTHING],
        ..JUDGED
    },
    Run {
        name: "number",
        old: ISSUE,
        new: "\n               1.0D 05",
        report: &["line 5 number", ANYTHING],
        ..JUDGED
    },
    Run {
        name: "blank",
        old: ISSUE,
        new: "\n                       ",
        report: &["line 5 blank", ANYTHING],
        ..JUDGED
    },
    Run {
        name: "range of the issue of the orbit",
        old: ISSUE,
        new: "\n                    256",
        report: &["line 5 range", ANYTHING],
        ..JUDGED
    },
    Run {
        name: "fit",
        old: " 4.000000000000D+00",
        new: "                  2",
        report: &["line 5 fit", ANYTHING],
        ..JUDGED
    },
    // headers
    Run {
        name: "version 4.00",
        old: "     4.01",
        new: "     4.00",
        output: &[ANYTHING],
        ..JUDGED
    },
    Run {
        name: "version 3.05",
        old: "     4.01",
        new: "     3.05",
        status: 5,
        report: &[],
        ..JUDGED
    },
    Run {
        name: "observations",
        old: "N: GNSS",
        new: "O: GNSS",
        status: 5,
        report: &[],
        ..JUDGED
    },
    Run {
        name: "another label for the end of the header",
        old: "END OF HEADER",
        new: "END OF HEADERS",
        output: &[ANYTHING],
        ..JUDGED
    },
    Run {
        name: "no end of the header",
        old: "END OF HEADER",
        new: "",
        status: 5,
        report: &[],
        ..JUDGED
    },
    // versions of the older form
    Run {
        name: "rinex3, version 4.01",
        words: OLDER_TO_LIST,
        old: "4.01",
        new: "4.01",
        status: 5,
        output: &[ANYTHING],
        ..JUDGED
    },
    Run {
        name: "rinex3, version 3.01",
        words: OLDER_TO_LIST,
        old: "4.01",
        new: "3.01",
        status: 5,
        output: &[ANYTHING],
        ..JUDGED
    },
    Run {
        name: "rinex3, version 3.02",
        words: OLDER_TO_LIST,
        old: "4.01",
        new: "3.02",
        output: &[ANYTHING],
        ..JUDGED
    },
    Run {
        name: "rinex3, version 3.04",
        words: OLDER_TO_LIST,
        old: "4.01",
        new: "3.04",
        output: &[ANYTHING],
        ..JUDGED
    },
    Run {
        name: "rinex3, version 3.05",
        words: OLDER_TO_LIST,
        old: "4.01",
        new: "3.05",
        output: &[ANYTHING],
        ..JUDGED
    },
    // a file that is cut behind each of its lines
    Run {
        name: "cut at 0",
        length: 0,
        status: 5,
        report: &[],
        ..JUDGED
    },
    Run {
        name: "cut at 81",
        length: 81,
        status: 5,
        report: &[],
        ..JUDGED
    },
    Run {
        name: "cut at 161",
        length: 161,
        status: 5,
        report: &[],
        ..JUDGED
    },
    Run {
        name: "cut at 234",
        length: 234,
        status: 5,
        report: &[],
        ..JUDGED
    },
    Run {
        name: "cut at 308",
        length: 308,
        report: &["records 0\nrefused 0\npassed 0\nitems 0\n"],
        ..JUDGED
    },
    Run {
        name: "cut at 323",
        length: 323,
        report: &[SHORT],
        ..JUDGED
    },
    Run {
        name: "cut at 404",
        length: 404,
        report: &[SHORT],
        ..JUDGED
    },
    Run {
        name: "cut at 485",
        length: 485,
        report: &[SHORT],
        ..JUDGED
    },
    Run {
        name: "cut at 566",
        length: 566,
        report: &[SHORT],
        ..JUDGED
    },
    Run {
        name: "cut at 647",
        length: 647,
        report: &[SHORT],
        ..JUDGED
    },
    Run {
        name: "cut at 728",
        length: 728,
        report: &[SHORT],
        ..JUDGED
    },
    Run {
        name: "cut at 809",
        length: 809,
        report: &[SHORT],
        ..JUDGED
    },
    Run {
        name: "cut at 890",
        length: 890,
        report: &[SHORT],
        ..JUDGED
    },
    Run {
        name: "whole",
        output: &["5 EPH G05 0 2295 0\n"],
        report: &[ONE_ITEM],
        ..JUDGED
    },
];

#[test]
fn says_why_a_record_or_a_file_is_refused(rt: HostRuntime) -> Result<(), Fail> {
    assert_eq!(rt; first_wrong(rt.alloc(), &REFUSED)?, None);
    Ok(())
}

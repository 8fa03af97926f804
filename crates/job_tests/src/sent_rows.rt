//! Navigation files that are sent as captures, over memory, and the captures that come back.

use crate::over_memory::{RUN, Run, first_wrong};
use crate::samples::{
    FIRST, GALILEO, GPS, HEADER, OLDER_HEADER, ONE_ITEM, ORBIT, RECORD, TO_LIST, TO_RINEX,
};
use std::test::Fail;

// The words of the jobs, with `;` between them.
const SEND: &str = "--from=rinex;--to=capture;--week=2295";

const SEND_3000: &str = "--from=rinex;--to=capture;--week=3000";

const SEND_OLDER: &str = "--from=rinex3;--to=capture;--week=2295";

// The lines of the ephemeris of Galileo: the five words, of which word 5 says the second of toe.
const LINE_0: &str = "0 P E11 B {EVEN_1}\n";

const LINE_1: &str = "1 P E11 B {ODD_1}\n";

const LINE_2: &str = "2 P E11 B {EVEN_2}\n";

const LINE_3: &str = "3 P E11 B {ODD_2}\n";

const LINE_4: &str = "4 P E11 B {EVEN_3}\n";

const LINE_5: &str = "5 P E11 B {ODD_3}\n";

const LINE_6: &str = "6 P E11 B {EVEN_4}\n";

const LINE_7: &str = "7 P E11 B {ODD_4}\n";

const LINE_8: &str = "8 P E11 B {EVEN_5_TOE}\n";

const LINE_9: &str = "9 P E11 B {ODD_5_TOE}\n";

// The transmission time and the epoch of the ionosphere behind toe, and at it.
const AFTER_TOE: &str = "\n     8.000000000000D+00\n> ION E11 IFNV\n    2023 12 31 00 00 08";

const AT_TOE: &str = "\n     0.000000000000D+00\n> ION E11 IFNV\n    2023 12 31 00 00 00";

// Files, what is sent of them, and what comes back.
static SENT: [Run; 12] = [
    Run {
        name: "rinex",
        words: SEND,
        input: &[HEADER, RECORD],
        output: &[FIRST, GPS],
        report: &[ONE_ITEM],
        ..RUN
    },
    Run {
        name: "rinex3",
        words: SEND_OLDER,
        input: &[OLDER_HEADER, ORBIT],
        output: &[FIRST, GPS],
        report: &[ONE_ITEM],
        ..RUN
    },
    // no header
    Run {
        name: "rinex with no header",
        words: SEND,
        input: &["no header\n"],
        status: 5,
        report: &[],
        ..RUN
    },
    Run {
        name: "rinex3 with no header",
        words: SEND_OLDER,
        input: &["no header\n"],
        status: 5,
        report: &[],
        ..RUN
    },
    // what is not sent, and why
    Run {
        name: "an issue that is not sent",
        words: SEND,
        input: &[HEADER, RECORD],
        old: "     2.000000000000D+00 0.000000000000D+00 0.000000000000D+00 0.000000000000D+00\n",
        new: "     2.000000000000D+00 0.000000000000D+00 0.000000000000D+00 1.000000000000D+00\n",
        output: &[FIRST],
        report: &["line 5 issue\nrecords 1\nrefused 1\npassed 0\nitems 0\n"],
        ..RUN
    },
    Run {
        name: "a week that is not near",
        words: SEND_3000,
        input: &[HEADER, RECORD],
        output: &[FIRST],
        report: &["line 5 week\nrecords 1\nrefused 1\npassed 0\nitems 0\n"],
        ..RUN
    },
    Run {
        name: "a date that is refused",
        words: SEND,
        input: &[HEADER, RECORD],
        old: "12 31 00 00 00",
        new: "12 32 00 00 00",
        output: &[FIRST],
        report: &["line 5 date\nrecords 1\nrefused 1\npassed 0\nitems 0\n"],
        ..RUN
    },
    // an ephemeris and an ionosphere of Galileo, and the list of its lines
    Run {
        name: "Galileo",
        words: SEND,
        input: &[HEADER, GALILEO],
        output: &[
            FIRST, LINE_0, LINE_1, LINE_2, LINE_3, LINE_4, LINE_5, LINE_6, LINE_7, LINE_8, LINE_9,
        ],
        report: &["records 2\nrefused 0\npassed 0\nitems 2\n"],
        ..RUN
    },
    Run {
        name: "the list of its lines",
        words: TO_LIST,
        input: &[
            FIRST, LINE_0, LINE_1, LINE_2, LINE_3, LINE_4, LINE_5, LINE_6, LINE_7, LINE_8, LINE_9,
        ],
        output: &["7 EPH E11 5 whole\n9 ION E 00000000000 whole\n"],
        ..RUN
    },
    // The lines in three orders, each at least once: backwards and again backwards, and by the
    // digits of two numbers. The transmission time and the epoch of the ionosphere are those of
    // word 5, at toe.
    Run {
        name: "its lines backwards",
        words: TO_RINEX,
        input: &[
            FIRST, LINE_9, LINE_8, LINE_7, LINE_6, LINE_5, LINE_4, LINE_3, LINE_2, LINE_1, LINE_0,
            LINE_9, LINE_8, LINE_7, LINE_6, LINE_5, LINE_4, LINE_3, LINE_2, LINE_1, LINE_0,
        ],
        old: AFTER_TOE,
        printed: AT_TOE,
        output: &[HEADER, GALILEO],
        ..RUN
    },
    Run {
        name: "its lines by the digits of a number",
        words: TO_RINEX,
        input: &[
            FIRST, LINE_3, LINE_1, LINE_4, LINE_1, LINE_5, LINE_9, LINE_2, LINE_6, LINE_5, LINE_3,
            LINE_5, LINE_8, LINE_9, LINE_7, LINE_9, LINE_3, LINE_2, LINE_3, LINE_8, LINE_4, LINE_6,
            LINE_2, LINE_6, LINE_4, LINE_3, LINE_3, LINE_8, LINE_3, LINE_2, LINE_7, LINE_9, LINE_5,
            LINE_0,
        ],
        old: AFTER_TOE,
        printed: AT_TOE,
        output: &[HEADER, GALILEO],
        ..RUN
    },
    Run {
        name: "its lines by the digits of another number",
        words: TO_RINEX,
        input: &[
            FIRST, LINE_2, LINE_7, LINE_1, LINE_8, LINE_2, LINE_8, LINE_1, LINE_8, LINE_2, LINE_8,
            LINE_4, LINE_5, LINE_9, LINE_0, LINE_4, LINE_5, LINE_2, LINE_3, LINE_5, LINE_3, LINE_6,
        ],
        old: AFTER_TOE,
        printed: AT_TOE,
        output: &[HEADER, GALILEO],
        ..RUN
    },
];

#[test]
fn sends_files_and_takes_them_back(rt: HostRuntime) -> Result<(), Fail> {
    assert_eq!(rt; first_wrong(rt.alloc(), &SENT)?, None);
    Ok(())
}

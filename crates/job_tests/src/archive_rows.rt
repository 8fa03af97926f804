//! Navigation files that are merged, and the times that they cover, over memory.

use crate::over_memory::{ANYTHING, RUN, Run, first_wrong};
use crate::samples::{COVER, GALILEO, HEADER, MERGE, ONE_ITEM, ORBIT_LINE, RECORD, UNSENT};
use std::test::Fail;

// Files, and what they are merged to or cover.
static ARCHIVES: [Run; 11] = [
    // Of two records of one ephemeris the one with a transmission time that is known is kept.
    Run {
        name: "merged, a file twice",
        words: MERGE,
        input: &[HEADER, RECORD, HEADER, RECORD],
        output: &[HEADER, RECORD],
        report: &["records 2\nrefused 0\npassed 0\nitems 2\nkept 1\n"],
        ..RUN
    },
    Run {
        name: "merged, the unknown transmission time first",
        words: MERGE,
        input: &[HEADER, ORBIT_LINE, UNSENT, HEADER, RECORD],
        output: &[HEADER, RECORD],
        report: &["records 2\nrefused 0\npassed 0\nitems 2\nkept 1\n"],
        ..RUN
    },
    Run {
        name: "merged, the unknown transmission time last",
        words: MERGE,
        input: &[HEADER, RECORD, HEADER, ORBIT_LINE, UNSENT],
        output: &[HEADER, RECORD],
        report: &["records 2\nrefused 0\npassed 0\nitems 2\nkept 1\n"],
        ..RUN
    },
    // in the order of rank
    Run {
        name: "merged, in the order of rank",
        words: MERGE,
        input: &[HEADER, GALILEO, HEADER, RECORD],
        output: &[HEADER, RECORD, GALILEO],
        report: &["records 3\nrefused 0\npassed 0\nitems 3\nkept 3\n"],
        ..RUN
    },
    // the times that files cover
    Run {
        name: "cover, GPS",
        words: COVER,
        input: &[HEADER, RECORD],
        output: &["G05 1388008800 1388023200\n"],
        report: &[ONE_ITEM],
        ..RUN
    },
    Run {
        name: "cover, Galileo",
        words: COVER,
        input: &[HEADER, GALILEO],
        output: &["E11 1388008800 1388023200\n"],
        report: &["records ", ANYTHING],
        ..RUN
    },
    Run {
        name: "cover, two whose times touch",
        words: COVER,
        input: &[HEADER, RECORD, "{FOUR_HOURS_LATER}"],
        output: &["G05 1388008800 1388037600\n"],
        report: &["records ", ANYTHING],
        ..RUN
    },
    Run {
        name: "cover, two with a gap of 16 s",
        words: COVER,
        input: &[HEADER, RECORD, "{LATER_BY_16_SECONDS}"],
        output: &["G05 1388008800 1388023200\nG05 1388023216 1388037616\n"],
        report: &["records ", ANYTHING],
        ..RUN
    },
    Run {
        name: "cover, a fit interval of six hours",
        words: COVER,
        input: &[HEADER, RECORD],
        old: "4.000000000000D+00\n",
        new: "6.000000000000D+00\n",
        output: &["G05 1388005200 1388026800\n"],
        report: &["records ", ANYTHING],
        ..RUN
    },
    // what is no file
    Run {
        name: "merged, no header",
        words: MERGE,
        input: &["no header\n"],
        status: 5,
        report: &[],
        ..RUN
    },
    Run {
        name: "cover, no header",
        words: COVER,
        input: &["no header\n"],
        status: 5,
        report: &[],
        ..RUN
    },
];

#[test]
fn merges_files_and_says_the_times_covered(rt: HostRuntime) -> Result<(), Fail> {
    assert_eq!(rt; first_wrong(rt.alloc(), &ARCHIVES)?, None);
    Ok(())
}

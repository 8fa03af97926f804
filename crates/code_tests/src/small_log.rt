//! A small log: every cut of it, every byte of it damaged, and every fault.

use crate::log_runs::{Failing, IN_TWO, Log, NOTHING_FAILS};
use std::alloc::{AllocError, Global};
use std::test::Fail;

/// A time, a page, the time again, a subframe and the time again, which end behind 24, 76, 100, 156
/// and 180 bytes.
pub(crate) const LOG: [u8; 180] = *b"\
    \xb5\x62\x01\x20\x10\x00\x00\xdd\x6d\x00\x00\x00\x00\x00\xf6\x08\x12\x07\x05\x00\x00\x00\
    \x97\x08\xb5\x62\x02\x13\x2c\x00\x02\x04\x05\x00\x09\x09\x02\x00\x55\x55\x95\x00\x55\x55\
    \x55\x55\x55\x55\x55\x55\x00\x00\xdc\x53\xf7\x92\x07\x87\xc2\x19\x14\xeb\xf3\x17\x24\x57\
    \x00\x00\xd5\x89\xaa\xaa\xaa\xaa\xf2\xd2\xb5\x62\x01\x20\x10\x00\x00\xdd\x6d\x00\x00\x00\
    \x00\x00\xf6\x08\x12\x07\x05\x00\x00\x00\x97\x08\xb5\x62\x02\x13\x30\x00\x00\x03\x00\x00\
    \x0a\x07\x02\x00\x0b\x8d\xc4\x22\xc8\x16\x98\x34\x53\x00\x00\x00\x3c\x00\x00\x00\x81\x15\
    \x8d\x04\x3f\x00\x00\x20\xd5\xff\xff\x1f\x5f\x69\x69\x29\xff\xff\xff\x3f\x19\x84\x0c\x15\
    \xde\x86\xb5\x62\x01\x20\x10\x00\x00\xdd\x6d\x00\x00\x00\x00\x00\xf6\x08\x12\x07\x05\x00\
    \x00\x00\x97\x08";

/// What is written of all, of the page alone and of the subframe alone.
pub(crate) const ALL: &str = concat!(
    "NAVCAP 2 2293 7200\n",
    "611999 P E04 5 00955555555555555555555553dc00\n",
    "612000 P E04 5 870792f7eb1419c2572417f389d500\n",
    "612000 L G03 8b12342f49816c80000014c000003c12345606000003f7fffff56969695ffffffffd50c84190\n",
);

pub(crate) const PAGE: &str = concat!(
    "NAVCAP 2 2293 7200\n",
    "611999 P E04 5 00955555555555555555555553dc00\n",
    "612000 P E04 5 870792f7eb1419c2572417f389d500\n",
);

const SUBFRAME: &str = concat!(
    "NAVCAP 2 2294 7200\n",
    "7200 L G03 8b12342f49816c80000014c000003c12345606000003f7fffff56969695ffffffffd50c84190\n",
);

const REPORT: &str = concat!(
    "messages 5\nskipped 0\ntimes 3\nsubframes 1\npages 1\nrefused 0\nother 0\n",
    "turned 0\nparity 0\n",
);

/// The log whole, and calls that fail: the first piece has the page and both times.
pub(crate) static SMALL_LOGS: [Log; 6] = [
    Log {
        name: "nothing fails",
        bytes: &LOG,
        failing: NOTHING_FAILS,
        capture: ALL,
        report: REPORT,
        ..IN_TWO
    },
    Log {
        name: "the first read",
        bytes: &LOG,
        failing: Failing {
            cuts: &[100],
            reads: &[0],
            ..NOTHING_FAILS
        },
        status: 3,
        report: "",
        ..IN_TWO
    },
    Log {
        name: "the read behind the page",
        bytes: &LOG,
        failing: Failing {
            cuts: &[100],
            reads: &[1],
            ..NOTHING_FAILS
        },
        status: 3,
        capture: PAGE,
        report: "",
        ..IN_TWO
    },
    Log {
        name: "the first write",
        bytes: &LOG,
        failing: Failing {
            cuts: &[100],
            writes: &[0],
            ..NOTHING_FAILS
        },
        status: 4,
        report: "",
        ..IN_TWO
    },
    Log {
        name: "the write of the subframe",
        bytes: &LOG,
        failing: Failing {
            cuts: &[100],
            writes: &[1],
            ..NOTHING_FAILS
        },
        status: 4,
        capture: PAGE,
        report: "",
        ..IN_TWO
    },
    Log {
        name: "the report of the counts",
        bytes: &LOG,
        failing: Failing {
            cuts: &[100],
            reports: &[0],
            ..NOTHING_FAILS
        },
        status: 7,
        capture: ALL,
        report: "",
        ..IN_TWO
    },
];

// Bytes of the log, what is written of those in front of one of them, which is that of the messages
// which end there, and what is written where one is damaged, which is all but
// what stands beside it; where it is the time in the middle, the one behind it serves both.
struct Message {
    from: usize,
    to: usize,
    cut: &'static str,
    damaged: &'static str,
}

static MESSAGES: [Message; 5] = [
    Message {
        from: 0,
        to: 24,
        cut: "",
        damaged: SUBFRAME,
    },
    Message {
        from: 24,
        to: 76,
        cut: "",
        damaged: SUBFRAME,
    },
    Message {
        from: 76,
        to: 100,
        cut: "",
        damaged: ALL,
    },
    Message {
        from: 100,
        to: 156,
        cut: PAGE,
        damaged: PAGE,
    },
    Message {
        from: 156,
        to: 180,
        cut: PAGE,
        damaged: PAGE,
    },
];

// Whether a run over these bytes ends with 0, and writes so.
pub(crate) fn writes<'a>(
    alloc: Global,
    bytes: &'a [u8],
    capture: &'a str,
) -> Result<bool, AllocError> {
    let log = Log {
        bytes,
        failing: NOTHING_FAILS,
        capture,
        ..IN_TWO
    };
    log.ends_so(alloc)
}

#[test]
fn a_cut_or_a_damaged_byte_costs_its_message(rt: HostRuntime) -> Result<(), Fail> {
    for message in &MESSAGES {
        for place in message.from..message.to.min(LOG.len()) {
            let mut damaged = LOG;
            damaged[place] ^= 0xff;
            let holds = writes(rt.alloc(), &LOG[..place], message.cut)?
                && writes(rt.alloc(), &damaged, message.damaged)?;
            assert!(rt; holds, "{place}");
        }
    }
    Ok(())
}

#[test]
fn a_log_gives_its_capture_in_any_pieces(rt: HostRuntime) -> Result<(), Fail> {
    for cut in 1..190 {
        let log = Log {
            bytes: &LOG,
            failing: Failing {
                cuts: &[cut],
                ..NOTHING_FAILS
            },
            capture: ALL,
            report: REPORT,
            ..IN_TWO
        };
        assert!(rt; log.ends_so(rt.alloc())?, "{cut}");
    }
    Ok(())
}

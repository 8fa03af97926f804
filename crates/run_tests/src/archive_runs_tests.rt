//! Small files through each run.

use crate::times::times_from;
use nav_files::{MergeCounts, RinexCounts, run_cover, run_merge};
use nav_io::{MemSink, MemSource};
use one_run::BridgeFault;
use rinex_write::HeaderWords;
use std::alloc::{AllocError, Global};
use std::test::Fail;

// What the header of a file says.
const WORDS: HeaderWords = HeaderWords {
    date: *b"20240101 000000 UTC",
    leap: 18,
};

const HEADER: &[u8] =
    b"     4.01           N: GNSS NAV DATA    M: MIXED            RINEX VERSION / TYPE
navbridge                               20240101 000000 UTC PGM / RUN BY / DATE
    18                                                      LEAP SECONDS
                                                            END OF HEADER
";

// What a record of G05 says between its time of day and its toe, and between that and its last
// line.
const CLOCK: &[u8] = b" 0.000000000000D+00 0.000000000000D+00 0.000000000000D+00
     0.000000000000D+00 0.000000000000D+00 0.000000000000D+00 0.000000000000D+00
     0.000000000000D+00 0.000000000000D+00 0.000000000000D+00 0.000000000000D+00
     ";

const ORBIT: &[u8] = b" 0.000000000000D+00 0.000000000000D+00 0.000000000000D+00
     0.000000000000D+00 0.000000000000D+00 0.000000000000D+00 0.000000000000D+00
     0.000000000000D+00 0.000000000000D+00 2.295000000000D+03 0.000000000000D+00
     2.000000000000D+00 0.000000000000D+00 0.000000000000D+00 0.000000000000D+00
     ";

// An ephemeris of E11 of the start of week 2295, and the ionosphere that it says eight seconds
// later.
const GALILEO: &[u8] = b"> EPH E11 INAV
E11 2023 12 31 00 00 00 0.000000000000D+00 0.000000000000D+00 0.000000000000D+00
     5.000000000000D+00 0.000000000000D+00 0.000000000000D+00 0.000000000000D+00
     0.000000000000D+00 0.000000000000D+00 0.000000000000D+00 0.000000000000D+00
     0.000000000000D+00 0.000000000000D+00 0.000000000000D+00 0.000000000000D+00
     0.000000000000D+00 0.000000000000D+00 0.000000000000D+00 0.000000000000D+00
     0.000000000000D+00 5.170000000000D+02 2.295000000000D+03
     3.120000000000D+00 0.000000000000D+00 0.000000000000D+00 0.000000000000D+00
     8.000000000000D+00
> ION E11 IFNV
    2023 12 31 00 00 08 0.000000000000D+00 0.000000000000D+00 0.000000000000D+00
     0.000000000000D+00
";

// A record that says no number of a satellite.
const REFUSED: &[u8] = b"> EPH G00 LNAV
";

// What differs between the ephemerides of G05: time of day, toe, transmission time, and hours of
// fit.
#[derive(Clone, Copy)]
struct Record {
    time: &'static [u8],
    toe: &'static [u8],
    last: &'static [u8],
}

const START: Record = Record {
    time: b"00 00 00",
    toe: b"0.000000000000D+00",
    last: b"0.000000000000D+00 4.000000000000D+00\n",
};

// The same, the transmission time being unknown.
const UNKNOWN: Record = Record {
    time: b"00 00 00",
    toe: b"0.000000000000D+00",
    last: b"9.999000000000D+08 4.000000000000D+00\n",
};

const SIX_HOURS: Record = Record {
    time: b"00 00 00",
    toe: b"0.000000000000D+00",
    last: b"0.000000000000D+00 6.000000000000D+00\n",
};

const FOUR_HOURS_LATER: Record = Record {
    time: b"04 00 00",
    toe: b"1.440000000000D+04",
    last: b"0.000000000000D+00 4.000000000000D+00\n",
};

const A_STEP_MORE: Record = Record {
    time: b"04 00 16",
    toe: b"1.441600000000D+04",
    last: b"0.000000000000D+00 4.000000000000D+00\n",
};

// What a record of G05 begins with.
const NAME: &[u8] = b"> EPH G05 LNAV\nG05 2023 12 31 ";

// A file: its header, a record of G05, and what stands behind that.
#[derive(Clone, Copy)]
struct File {
    header: &'static [u8],
    record: Option<Record>,
    rest: &'static [u8],
}

const GPS: File = File {
    header: HEADER,
    record: Some(START),
    rest: b"",
};

const UNKNOWN_SENT: File = File {
    header: HEADER,
    record: Some(UNKNOWN),
    rest: b"",
};

const LONG_FIT: File = File {
    header: HEADER,
    record: Some(SIX_HOURS),
    rest: b"",
};

const LATER: File = File {
    header: HEADER,
    record: Some(FOUR_HOURS_LATER),
    rest: b"",
};

const APART: File = File {
    header: HEADER,
    record: Some(A_STEP_MORE),
    rest: b"",
};

const OF_GALILEO: File = File {
    header: HEADER,
    record: None,
    rest: GALILEO,
};

const OF_BOTH: File = File {
    header: HEADER,
    record: Some(START),
    rest: GALILEO,
};

const ONE_REFUSED: File = File {
    header: b"",
    record: None,
    rest: REFUSED,
};

const NO_HEADER: File = File {
    header: b"no header",
    record: None,
    rest: b"",
};

const NOTHING: File = File {
    header: b"",
    record: None,
    rest: b"",
};

impl File {
    // The bytes of the file.
    fn bytes(&self, alloc: Global) -> Result<Vec<u8>, AllocError> {
        match &self.record {
            None => [self.header, self.rest].concat(alloc),
            Some(record) => [
                self.header,
                NAME,
                record.time,
                CLOCK,
                record.toe,
                ORBIT,
                record.last,
                self.rest,
            ]
            .concat(alloc),
        }
    }

    // Whether these are the bytes of the file.
    fn has(&self, alloc: Global, bytes: &[u8]) -> Result<bool, AllocError> {
        Ok(self.bytes(alloc)?.as_slice() == bytes)
    }
}

// A source over two files, concatenated.
fn source_of(alloc: Global, first: &File, second: &File) -> Result<MemSource, AllocError> {
    let mut bytes = first.bytes(alloc)?;
    bytes.extend_from_slice(second.bytes(alloc)?.as_slice())?;
    Ok(MemSource::new(bytes, Vec::new(alloc), Vec::new(alloc)))
}

// An empty sink.
fn sink_of(alloc: Global) -> Result<MemSink, AllocError> {
    MemSink::new(alloc, 4000, Vec::new(alloc))
}

// What a run that merges two files ends with.
fn merge(
    alloc: Global,
    first: &File,
    second: &File,
    output: &mut MemSink,
    report: &mut MemSink,
) -> Result<Result<MergeCounts, BridgeFault>, AllocError> {
    let mut input = source_of(alloc, first, second)?;
    Ok(run_merge(alloc, &WORDS, &mut input, output, report))
}

// What a run that looks for ranges in two files ends with.
fn cover(
    alloc: Global,
    first: &File,
    second: &File,
    output: &mut MemSink,
    report: &mut MemSink,
) -> Result<Result<RinexCounts, BridgeFault>, AllocError> {
    let mut input = source_of(alloc, first, second)?;
    Ok(run_cover(alloc, &mut input, output, report))
}

// Two files, what they are merged to, and what is reported.
struct Merged {
    name: &'static str,
    first: File,
    second: File,
    output: File,
    report: &'static [u8],
}

const ONE_KEPT: &[u8] = b"records 2\nrefused 0\npassed 0\nitems 2\nkept 1\n";

// A file twice, and two that differ in the transmission time, both ways round: the one that was
// sent first is kept. Two systems, in the order of rank, whatever comes first.
static MERGED: [Merged; 5] = [
    Merged {
        name: "a file twice",
        first: GPS,
        second: GPS,
        output: GPS,
        report: ONE_KEPT,
    },
    Merged {
        name: "the unknown transmission time first",
        first: UNKNOWN_SENT,
        second: GPS,
        output: GPS,
        report: ONE_KEPT,
    },
    Merged {
        name: "the unknown transmission time last",
        first: GPS,
        second: UNKNOWN_SENT,
        output: GPS,
        report: ONE_KEPT,
    },
    Merged {
        name: "two systems",
        first: OF_GALILEO,
        second: GPS,
        output: OF_BOTH,
        report: b"records 3\nrefused 0\npassed 0\nitems 3\nkept 3\n",
    },
    Merged {
        name: "a record that is refused",
        first: GPS,
        second: ONE_REFUSED,
        output: GPS,
        report: b"line 14 satellite\nrecords 2\nrefused 1\npassed 0\nitems 1\nkept 1\n",
    },
];

// Whether a run that merges was done.
fn merge_ended(
    counts: Result<Result<MergeCounts, BridgeFault>, AllocError>,
) -> Result<bool, AllocError> {
    match counts {
        Ok(Ok(_)) => Ok(true),
        Ok(Err(_)) => Ok(false),
        Err(fault) => Err(fault),
    }
}

// Whether two files are merged and reported so.
fn is_merged(alloc: Global, row: &Merged) -> Result<bool, AllocError> {
    let mut output = sink_of(alloc)?;
    let mut report = sink_of(alloc)?;
    let is_done = merge_ended(merge(alloc, &row.first, &row.second, &mut output, &mut report))?;
    let is_reported = is_done && report.bytes() == row.report;
    Ok(is_reported && row.output.has(alloc, output.bytes())?)
}

// Whether a file twice is counted so, and no file is none.
fn are_kept_counted(alloc: Global) -> Result<bool, AllocError> {
    let mut output = sink_of(alloc)?;
    let mut report = sink_of(alloc)?;
    let none = merge(alloc, &NO_HEADER, &NOTHING, &mut output, &mut report)?;
    let counts = merge(alloc, &GPS, &GPS, &mut output, &mut report)?;
    let want = MergeCounts {
        records: 2,
        refused: 0,
        passed: 0,
        items: 2,
        kept: 1,
        times: times_from(0, 0),
    };
    Ok(counts == Ok(want) && none == Err(BridgeFault::NotThisForm))
}

#[test]
fn merges_two_files_and_counts_what_is_kept(rt: HostRuntime) -> Result<(), Fail> {
    for row in &MERGED {
        assert!(rt; is_merged(rt.alloc(), row)?, "{}", row.name);
    }
    assert!(rt; are_kept_counted(rt.alloc())?);
    Ok(())
}

// Two files, the ranges that they cover, and what is reported.
struct Covered {
    name: &'static str,
    first: File,
    second: File,
    ranges: &'static [u8],
    report: &'static [u8],
}

const ONE_ITEM: &[u8] = b"records 1\nrefused 0\npassed 0\nitems 1\n";

const TWO_ITEMS: &[u8] = b"records 2\nrefused 0\npassed 0\nitems 2\n";

// One ephemeris of each system; two whose times touch; two with a gap of 16 s; a fit interval of
// six hours.
static COVERED: [Covered; 5] = [
    Covered {
        name: "an ephemeris of GPS",
        first: GPS,
        second: NOTHING,
        ranges: b"G05 1388008800 1388023200\n",
        report: ONE_ITEM,
    },
    Covered {
        name: "an ephemeris of Galileo",
        first: OF_GALILEO,
        second: NOTHING,
        ranges: b"E11 1388008800 1388023200\n",
        report: TWO_ITEMS,
    },
    Covered {
        name: "two whose times touch",
        first: LATER,
        second: GPS,
        ranges: b"G05 1388008800 1388037600\n",
        report: TWO_ITEMS,
    },
    Covered {
        name: "two with a gap of 16 s",
        first: GPS,
        second: APART,
        ranges: b"G05 1388008800 1388023200\nG05 1388023216 1388037616\n",
        report: TWO_ITEMS,
    },
    Covered {
        name: "a fit interval of six hours",
        first: LONG_FIT,
        second: NOTHING,
        ranges: b"G05 1388005200 1388026800\n",
        report: ONE_ITEM,
    },
];

// Whether a run that lists times was done.
fn cover_ended(
    counts: Result<Result<RinexCounts, BridgeFault>, AllocError>,
) -> Result<bool, AllocError> {
    match counts {
        Ok(Ok(_)) => Ok(true),
        Ok(Err(_)) => Ok(false),
        Err(fault) => Err(fault),
    }
}

// Whether two files cover these ranges, and are reported so.
fn is_covered(alloc: Global, row: &Covered) -> Result<bool, AllocError> {
    let mut output = sink_of(alloc)?;
    let mut report = sink_of(alloc)?;
    let is_done = cover_ended(cover(alloc, &row.first, &row.second, &mut output, &mut report))?;
    Ok(is_done && output.bytes() == row.ranges && report.bytes() == row.report)
}

// Whether a file twice is counted so, and no file is none.
fn are_items_counted(alloc: Global) -> Result<bool, AllocError> {
    let mut output = sink_of(alloc)?;
    let mut report = sink_of(alloc)?;
    let none = cover(alloc, &NO_HEADER, &NOTHING, &mut output, &mut report)?;
    let counts = cover(alloc, &GPS, &GPS, &mut output, &mut report)?;
    let want = RinexCounts {
        records: 2,
        refused: 0,
        passed: 0,
        items: 2,
        times: times_from(0, 0),
    };
    Ok(counts == Ok(want) && none == Err(BridgeFault::NotThisForm))
}

#[test]
fn covers_ranges_and_counts_what_covers(rt: HostRuntime) -> Result<(), Fail> {
    for row in &COVERED {
        assert!(rt; is_covered(rt.alloc(), row)?, "{}", row.name);
    }
    assert!(rt; are_items_counted(rt.alloc())?);
    Ok(())
}

//! Records of RINEX 4 that are carried: texts of another program.

use rinex_lines::{exact_text, record_text};

// The columns of a number, and its exact text; empty if it has none.
struct NumberRow {
    columns: &'static [u8],
    exact: &'static [u8],
}

static NUMBERS: [NumberRow; 6] = [
    NumberRow {
        columns: b" 1.000000000000e-04",
        exact: b" 1.000000000000D-04",
    },
    NumberRow {
        columns: b"-3.932160000000e+05",
        exact: b"-3.932160000000D+05",
    },
    NumberRow {
        columns: b"  .999999999999e+09",
        exact: b" 9.999999999990D+08",
    },
    NumberRow {
        columns: b" 0.000000000000e+00",
        exact: b" 0.000000000000D+00",
    },
    NumberRow {
        columns: b"                   ",
        exact: b"",
    },
    NumberRow {
        columns: b" GPUT              ",
        exact: b"",
    },
];

// The lines of a record, and its text.
struct RecordRow {
    name: &'static str,
    lines: &'static [[u8; 80]],
    text: &'static [u8],
}

static RECORDS: [RecordRow; 3] = [
    RecordRow {
        name: "a time offset",
        lines: &[
            *b"> STO G14 LNAV                                                                  ",
            *b"    2024 01 02 02 00 00 GPUT                                  UTC(USNO)         ",
            *b"     1.728000000000e+05-9.313225746155e-10-3.552713678801e-15 0.000000000000e+00",
        ],
        text: b"> STO G14 LNAV\n\
            \x20   2024 01 02 02 00 00 GPUT                                  UTC(USNO)\n\
            \x20    1.728000000000D+05-9.313225746155D-10-3.552713678801D-15 0.000000000000D+00\n",
    },
    RecordRow {
        name: "orientation of the Earth",
        lines: &[
            *b"> EOP J02 CNVX                                                                  ",
            *b"    2024 01 02 02 00 00 1.234000000000e-01-1.500000000000e-03 0.000000000000e+00",
            *b"                        2.345000000000e-01 1.100000000000e-03 0.000000000000e+00",
            *b"     1.728000000000e+05 9.870000000000e-03-1.000000000000e-04 0.000000000000e+00",
        ],
        text: b"> EOP J02 CNVX\n\
            \x20   2024 01 02 02 00 00 1.234000000000D-01-1.500000000000D-03 0.000000000000D+00\n\
            \x20                       2.345000000000D-01 1.100000000000D-03 0.000000000000D+00\n\
            \x20    1.728000000000D+05 9.870000000000D-03-1.000000000000D-04 0.000000000000D+00\n",
    },
    RecordRow {
        name: "an ephemeris",
        lines: &[
            *b"> EPH J02 CNV2                                                                  ",
            *b"J02 2024 01 02 02 00 00 1.000000000000e-04-2.000000000000e-12 0.000000000000e+00",
            *b"     0.000000000000e+00-3.150000000000e+01 4.100000000000e-09 5.000000000000e-01",
            *b"    -1.200000000000e-06 1.500000000000e-03 5.500000000000e-06 5.153600000000e+03",
            *b"     1.728000000000e+05 1.000000000000e-08-2.500000000000e+00-3.000000000000e-08",
            *b"     9.600000000000e-01 2.505000000000e+02 9.000000000000e-01-8.200000000000e-09",
            *b"     1.000000000000e-10 2.000000000000e-14 0.000000000000e+00 0.000000000000e+00",
            *b"    -4.000000000000e+00 0.000000000000e+00                    0.000000000000e+00",
            *b"     0.000000000000e+00                                                         ",
            *b"     1.000000000000e-10                                                         ",
            *b"     1.728180000000e+05 2.295000000000e+03                                      ",
        ],
        text: b"> EPH J02 CNV2\n\
            J02 2024 01 02 02 00 00 1.000000000000D-04-2.000000000000D-12 0.000000000000D+00\n\
            \x20    0.000000000000D+00-3.150000000000D+01 4.100000000000D-09 5.000000000000D-01\n\
            \x20   -1.200000000000D-06 1.500000000000D-03 5.500000000000D-06 5.153600000000D+03\n\
            \x20    1.728000000000D+05 1.000000000000D-08-2.500000000000D+00-3.000000000000D-08\n\
            \x20    9.600000000000D-01 2.505000000000D+02 9.000000000000D-01-8.200000000000D-09\n\
            \x20    1.000000000000D-10 2.000000000000D-14 0.000000000000D+00 0.000000000000D+00\n\
            \x20   -4.000000000000D+00 0.000000000000D+00                    0.000000000000D+00\n\
            \x20    0.000000000000D+00\n\
            \x20    1.000000000000D-10\n\
            \x20    1.728180000000D+05 2.295000000000D+03\n",
    },
];

// Whether the columns have that exact text.
fn is_exact(row: &NumberRow) -> bool {
    if row.columns.len() > 19 {
        return false;
    }
    match exact_text(row.columns) {
        Some(text) => row.exact == &text[..],
        None => row.exact.is_empty(),
    }
}

// Whether the lines have that text.
fn is_written(row: &RecordRow) -> bool {
    row.lines.len() <= 18 && record_text(row.lines).as_slice() == row.text
}

#[test]
fn carried_numbers_and_records(rt: HostRuntime) {
    for (i, row) in NUMBERS.iter().enumerate() {
        assert!(rt; is_exact(row), "{}", i);
    }
    for row in &RECORDS {
        assert!(rt; is_written(row), "{}", row.name);
    }
}

//! What several tests name: words of the command line, texts of captures and of navigation files.

/// Words of jobs from a capture, with `;` between them.
pub(crate) const TO_LIST: &str = "--from=capture;--to=list;--week=2295";

pub(crate) const TO_RTCM: &str = "--from=capture;--to=rtcm;--week=2295";

pub(crate) const TO_COUNT: &str = "--from=capture;--to=count;--week=2295";

pub(crate) const TO_RINEX: &str =
    "--from=capture;--to=rinex;--week=2295;--date=20240101 000000 UTC;--leap=18";

/// Words of jobs from a navigation file.
pub(crate) const FILE_TO_RINEX: &str =
    "--from=rinex;--to=rinex;--date=20240101 000000 UTC;--leap=18";

pub(crate) const FILE_TO_LIST: &str = "--from=rinex;--to=list";

/// Words of jobs over navigation files.
pub(crate) const MERGE: &str = "--from=rinex;--to=merged;--date=20240101 000000 UTC;--leap=18";

pub(crate) const COVER: &str = "--from=rinex;--to=cover";

/// Words of jobs from a stream.
pub(crate) const FRAMES: &str = "--from=stream;--to=frames";

pub(crate) const FRAMES_TO_RTCM: &str = "--from=stream;--to=rtcm;--week=2295";

pub(crate) const FRAMES_TO_RINEX: &str =
    "--from=stream;--to=rinex;--week=2295;--date=20240101 000000 UTC;--leap=18";

/// Words of jobs that make a capture of one satellite of each system.
pub(crate) const TO_CAPTURE: &str = "--from=seed;--to=capture;--seed=7;--sats=1;--week=2295";

pub(crate) const ONE_TO_COUNT: &str = "--from=seed;--to=count;--seed=7;--sats=1;--week=2295";

/// The first line of a capture.
pub(crate) const FIRST: &str = "NAVCAP 1\n";

/// The lines of one ephemeris of GPS.
pub(crate) const GPS: &str = "0 L G05 {A}\n6 L G05 {B}\n12 L G05 {C}\n";

/// Words 1 to 4 of a satellite of Galileo, which all rows on it begin with.
pub(crate) const WORDS: &str = concat!(
    "0 P E11 B {EVEN_1}\n1 P E11 B {ODD_1}\n2 P E11 B {EVEN_2}\n3 P E11 B {ODD_2}\n",
    "4 P E11 B {EVEN_3}\n5 P E11 B {ODD_3}\n6 P E11 B {EVEN_4}\n7 P E11 B {ODD_4}\n",
);

/// The lines of word 5 behind those of words 1 to 4.
pub(crate) const WORD_5: &str = "8 P E11 B {EVEN_5}\n9 P E11 B {ODD_5}\n";

/// What each navigation file begins with.
pub(crate) const HEADER: &str = "{HEADER}";

/// The same of the older form.
pub(crate) const OLDER_HEADER: &str = "{OLDER_HEADER}";

/// The record of the ephemeris of GPS.
pub(crate) const RECORD: &str = "> EPH G05 LNAV\n{ORBIT}";

/// The first line of that record, which the older form doesn't have.
pub(crate) const ORBIT_LINE: &str = "> EPH G05 LNAV\n";

/// The other lines of that record.
pub(crate) const ORBIT: &str = "{ORBIT}";

/// The same where the transmission time is not known.
pub(crate) const UNSENT: &str = "{UNSENT}";

/// The records of the words of Galileo with word 5.
pub(crate) const GALILEO: &str = "> EPH E11 INAV\n{GALILEO_ORBIT}{GALILEO_ION}";

/// The first of them, of the ephemeris.
pub(crate) const GALILEO_EPH: &str = "> EPH E11 INAV\n{GALILEO_ORBIT}";

/// The second, of the ionosphere.
pub(crate) const GALILEO_ION: &str = "{GALILEO_ION}";

/// The report of one record that is an item.
pub(crate) const ONE_ITEM: &str = "records 1\nrefused 0\npassed 0\nitems 1\n";

/// Lines of a navigation file that are named in other texts.
pub(crate) struct Text {
    pub(crate) name: &'static str,
    pub(crate) text: &'static str,
}

pub(crate) static TEXTS: [Text; 11] = [
    // What each navigation file begins with.
    Text {
        name: "HEADER",
        text: concat!(
            "     4.01           N: GNSS NAV DATA    M: MIXED            RINEX VERSION / TYPE\n",
            "navbridge                               20240101 000000 UTC PGM / RUN BY / DATE\n",
            "    18                                                      LEAP SECONDS\n",
            "                                                            END OF HEADER\n",
        ),
    },
    // The same of the older form.
    Text {
        name: "OLDER_HEADER",
        text: concat!(
            "     3.05           N: GNSS NAV DATA    M: MIXED            RINEX VERSION / TYPE\n",
            "navbridge                               20240101 000000 UTC PGM / RUN BY / DATE\n",
            "    18                                                      LEAP SECONDS\n",
            "                                                            END OF HEADER\n",
        ),
    },
    // The lines of the record of the ephemeris of GPS behind the first.
    Text {
        name: "ORBIT",
        text: concat!(
            "G05 2023 12 31 00 00 00 0.000000000000D+00 0.000000000000D+00 0.000000000000D+00\n",
            "     0.000000000000D+00 0.000000000000D+00 0.000000000000D+00 0.000000000000D+00\n",
            "     0.000000000000D+00 0.000000000000D+00 0.000000000000D+00 0.000000000000D+00\n",
            "     0.000000000000D+00 0.000000000000D+00 0.000000000000D+00 0.000000000000D+00\n",
            "     0.000000000000D+00 0.000000000000D+00 0.000000000000D+00 0.000000000000D+00\n",
            "     0.000000000000D+00 0.000000000000D+00 2.295000000000D+03 0.000000000000D+00\n",
            "     2.000000000000D+00 0.000000000000D+00 0.000000000000D+00 0.000000000000D+00\n",
            "     0.000000000000D+00 4.000000000000D+00\n",
        ),
    },
    // The same where the transmission time is not known.
    Text {
        name: "UNSENT",
        text: concat!(
            "G05 2023 12 31 00 00 00 0.000000000000D+00 0.000000000000D+00 0.000000000000D+00\n",
            "     0.000000000000D+00 0.000000000000D+00 0.000000000000D+00 0.000000000000D+00\n",
            "     0.000000000000D+00 0.000000000000D+00 0.000000000000D+00 0.000000000000D+00\n",
            "     0.000000000000D+00 0.000000000000D+00 0.000000000000D+00 0.000000000000D+00\n",
            "     0.000000000000D+00 0.000000000000D+00 0.000000000000D+00 0.000000000000D+00\n",
            "     0.000000000000D+00 0.000000000000D+00 2.295000000000D+03 0.000000000000D+00\n",
            "     2.000000000000D+00 0.000000000000D+00 0.000000000000D+00 0.000000000000D+00\n",
            "     9.999000000000D+08 4.000000000000D+00\n",
        ),
    },
    // The same over the week rollover.
    Text {
        name: "ROLLOVER",
        text: concat!(
            "G05 2023 12 31 00 00 00 0.000000000000D+00 0.000000000000D+00 0.000000000000D+00\n",
            "     0.000000000000D+00 0.000000000000D+00 0.000000000000D+00 0.000000000000D+00\n",
            "     0.000000000000D+00 0.000000000000D+00 0.000000000000D+00 0.000000000000D+00\n",
            "     0.000000000000D+00 0.000000000000D+00 0.000000000000D+00 0.000000000000D+00\n",
            "     0.000000000000D+00 0.000000000000D+00 0.000000000000D+00 0.000000000000D+00\n",
            "     0.000000000000D+00 0.000000000000D+00 2.295000000000D+03 0.000000000000D+00\n",
            "     2.000000000000D+00 0.000000000000D+00 0.000000000000D+00 0.000000000000D+00\n",
            "    -3.000000000000D+01 4.000000000000D+00\n",
        ),
    },
    // The record of G05 with the clock epoch and toe four hours later.
    Text {
        name: "FOUR_HOURS_LATER",
        text: concat!(
            "> EPH G05 LNAV\n",
            "G05 2023 12 31 04 00 00 0.000000000000D+00 0.000000000000D+00 0.000000000000D+00\n",
            "     0.000000000000D+00 0.000000000000D+00 0.000000000000D+00 0.000000000000D+00\n",
            "     0.000000000000D+00 0.000000000000D+00 0.000000000000D+00 0.000000000000D+00\n",
            "     1.440000000000D+04 0.000000000000D+00 0.000000000000D+00 0.000000000000D+00\n",
            "     0.000000000000D+00 0.000000000000D+00 0.000000000000D+00 0.000000000000D+00\n",
            "     0.000000000000D+00 0.000000000000D+00 2.295000000000D+03 0.000000000000D+00\n",
            "     2.000000000000D+00 0.000000000000D+00 0.000000000000D+00 0.000000000000D+00\n",
            "     0.000000000000D+00 4.000000000000D+00\n",
        ),
    },
    // The same 16 seconds later.
    Text {
        name: "LATER_BY_16_SECONDS",
        text: concat!(
            "> EPH G05 LNAV\n",
            "G05 2023 12 31 04 00 16 0.000000000000D+00 0.000000000000D+00 0.000000000000D+00\n",
            "     0.000000000000D+00 0.000000000000D+00 0.000000000000D+00 0.000000000000D+00\n",
            "     0.000000000000D+00 0.000000000000D+00 0.000000000000D+00 0.000000000000D+00\n",
            "     1.441600000000D+04 0.000000000000D+00 0.000000000000D+00 0.000000000000D+00\n",
            "     0.000000000000D+00 0.000000000000D+00 0.000000000000D+00 0.000000000000D+00\n",
            "     0.000000000000D+00 0.000000000000D+00 2.295000000000D+03 0.000000000000D+00\n",
            "     2.000000000000D+00 0.000000000000D+00 0.000000000000D+00 0.000000000000D+00\n",
            "     0.000000000000D+00 4.000000000000D+00\n",
        ),
    },
    // The lines of the record of the ephemeris in the words of Galileo behind the first.
    Text {
        name: "GALILEO_ORBIT",
        text: concat!(
            "E11 2023 12 31 00 00 00 0.000000000000D+00 0.000000000000D+00 0.000000000000D+00\n",
            "     5.000000000000D+00 0.000000000000D+00 0.000000000000D+00 0.000000000000D+00\n",
            "     0.000000000000D+00 0.000000000000D+00 0.000000000000D+00 0.000000000000D+00\n",
            "     0.000000000000D+00 0.000000000000D+00 0.000000000000D+00 0.000000000000D+00\n",
            "     0.000000000000D+00 0.000000000000D+00 0.000000000000D+00 0.000000000000D+00\n",
            "     0.000000000000D+00 5.170000000000D+02 2.295000000000D+03\n",
            "     3.120000000000D+00 0.000000000000D+00 0.000000000000D+00 0.000000000000D+00\n",
            "     8.000000000000D+00\n",
        ),
    },
    // The record of the ionosphere in these words with word 5.
    Text {
        name: "GALILEO_ION",
        text: concat!(
            "> ION E11 IFNV\n",
            "    2023 12 31 00 00 08 0.000000000000D+00 0.000000000000D+00 0.000000000000D+00\n",
            "     0.000000000000D+00\n",
        ),
    },
    // A record of GLONASS in the older form.
    Text {
        name: "GLONASS",
        text: concat!(
            "R01 2023 12 31 00 15 00-5.752365104850D-03 0.000000000000D+00 3.870000000000D+05\n",
            "     1.158612988000D+04-2.010898590000D+00 0.000000000000D+00 0.000000000000D+00\n",
            "     1.150612207000D+04-9.106531140000D-01 0.000000000000D+00 1.000000000000D+00\n",
            "     1.974410205000D+04 1.713361740000D+00-2.793967724000D-09 0.000000000000D+00\n",
        ),
    },
    // A file as other programs write it: version 4.00, the exponent letter e, lines that end with
    // CR LF, no fit interval, a transmission time that is not known, and records of other kinds.
    Text {
        name: "FOREIGN",
        text: concat!(
            "     4.00           NAVIGATION DATA     M                   RINEX VERSION / TYPE\r\n",
            "    18                                                      LEAP SECONDS\r\n",
            "                                                            END OF HEADER\r\n",
            "> EPH R01 FDMA\r\n",
            "R01 2023 12 31 00 15 00-5.752365104850e-03 0.000000000000e+00 3.870000000000e+05\r\n",
            "     1.158612988000e+04-2.010898590000e+00 0.000000000000e+00 0.000000000000e+00\r\n",
            "     1.150612207000e+04-9.106531140000e-01 0.000000000000e+00 1.000000000000e+00\r\n",
            "     1.974410205000e+04 1.713361740000e+00-2.793967724000e-09 0.000000000000e+00\r\n",
            "> STO G31 LNAV\r\n",
            "    2023 12 31 00 00 00 GPUT                                  UTC(USNO)\r\n",
            "     3.456000000000e+05-9.313225746155e-10 2.664535259100e-15 0.000000000000e+00\r\n",
            "> EPH G05 LNAV\r\n",
            "G05 2023 12 31 00 00 00 0.000000000000e+00 0.000000000000e+00 0.000000000000e+00\r\n",
            "     0.000000000000e+00 0.000000000000e+00 0.000000000000e+00 0.000000000000e+00\r\n",
            "     0.000000000000e+00 0.000000000000e+00 0.000000000000e+00 0.000000000000e+00\r\n",
            "     0.000000000000e+00 0.000000000000e+00 0.000000000000e+00 0.000000000000e+00\r\n",
            "     0.000000000000e+00 0.000000000000e+00 0.000000000000e+00 0.000000000000e+00\r\n",
            "     0.000000000000e+00 0.000000000000e+00 2.295000000000e+03 0.000000000000e+00\r\n",
            "     2.000000000000e+00 0.000000000000e+00 0.000000000000e+00 0.000000000000e+00\r\n",
            "     9.999000000000e+08                   \r\n",
            "> EPH E11 INAV\r\n",
            "E11 2023 12 31 00 00 00 0.000000000000e+00 0.000000000000e+00 0.000000000000e+00\r\n",
            "     5.000000000000e+00 0.000000000000e+00 0.000000000000e+00 0.000000000000e+00\r\n",
            "     0.000000000000e+00 0.000000000000e+00 0.000000000000e+00 0.000000000000e+00\r\n",
            "     0.000000000000e+00 0.000000000000e+00 0.000000000000e+00 0.000000000000e+00\r\n",
            "     0.000000000000e+00 0.000000000000e+00 0.000000000000e+00 0.000000000000e+00\r\n",
            "     0.000000000000e+00 5.170000000000e+02 2.295000000000e+03 0.000000000000e+00\r\n",
            "     3.120000000000e+00 0.000000000000e+00 0.000000000000e+00 0.000000000000e+00\r\n",
            "     9.999000000000e+08\r\n",
        ),
    },
];

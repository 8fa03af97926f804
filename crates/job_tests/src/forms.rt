//! Forms of files by their first bytes, and of logs that are cut.

use file_conversion::kind_text;
use nav_io::MemSource;
use std::alloc::{AllocError, Global};
use std::test::Fail;
use whole_file::{Kind, Peeked, kind_of, look};

// The first bytes of a file, and what they say.
struct Prefix {
    name: &'static str,
    bytes: &'static [u8],
    kind: Kind,
}

static PREFIXES: [Prefix; 26] = [
    Prefix {
        name: "no byte",
        bytes: b"",
        kind: Kind::Empty,
    },
    Prefix {
        name: "a capture with no week",
        bytes: b"NAVCAP 1\n6 P E01 5 ",
        kind: Kind::Capture1,
    },
    Prefix {
        name: "a capture with a week",
        bytes: b"NAVCAP 2 2295 60\r\n",
        kind: Kind::Capture2,
    },
    Prefix {
        name: "the first word of a capture alone",
        bytes: b"NAVCAP",
        kind: Kind::Unknown,
    },
    // RTCM 10403.3, 4.1: the preamble, six bits of 0, and a length of 19 bytes
    Prefix {
        name: "a stream",
        bytes: b"\xd3\x00\x13\x3e\xd7\xd3",
        kind: Kind::Stream,
    },
    Prefix {
        name: "a stream with a reserved bit",
        bytes: b"\xd3\x04\x13",
        kind: Kind::Unknown,
    },
    Prefix {
        name: "a preamble alone",
        bytes: b"\xd3",
        kind: Kind::Unknown,
    },
    Prefix {
        name: "UBX",
        bytes: b"\xb5\x62\x01\x07",
        kind: Kind::Ubx,
    },
    Prefix {
        name: "SBF",
        bytes: b"$@\x12\x34",
        kind: Kind::Sbf,
    },
    Prefix {
        name: "NMEA",
        bytes: b"$GPGGA,092725.00,",
        kind: Kind::Nmea,
    },
    Prefix {
        name: "gzip",
        bytes: b"\x1f\x8b\x08\x00",
        kind: Kind::Gzip,
    },
    Prefix {
        name: "compress",
        bytes: b"\x1f\x9d\x90",
        kind: Kind::Compress,
    },
    Prefix {
        name: "zip",
        bytes: b"PK\x03\x04",
        kind: Kind::Zip,
    },
    Prefix {
        name: "a capture behind a byte order mark",
        bytes: b"\xef\xbb\xbfNAVCAP 1\n",
        kind: Kind::Marked,
    },
    Prefix {
        name: "RINEX 4.01",
        bytes: b"     4.01           N: GNSS NAV DATA    M: MIXED            RINEX VERSION / TYPE",
        kind: Kind::Rinex4,
    },
    Prefix {
        name: "RINEX 3.04",
        bytes: b"     3.04           N: GNSS NAV DATA    M: MIXED            RINEX VERSION / TYPE",
        kind: Kind::Rinex3,
    },
    // one column short
    Prefix {
        name: "RINEX 3.04, one column short",
        bytes: b"     3.04           N: GNSS NAV DATA    M: MIXED            RINEX VERSION / TYP",
        kind: Kind::Unknown,
    },
    // the label one column late
    Prefix {
        name: "RINEX 3.04, the label one column late",
        bytes: b"     3.04           N: GNSS NAV DATA    M: MIXED             RINEX VERSION / TYPE",
        kind: Kind::Unknown,
    },
    Prefix {
        name: "RINEX 3.02",
        bytes: b"3.02                N                   G                   RINEX VERSION / TYPE",
        kind: Kind::Rinex3,
    },
    Prefix {
        name: "RINEX 2.11",
        bytes: b"     2.11           N: GPS NAV DATA                         RINEX VERSION / TYPE",
        kind: Kind::Rinex2,
    },
    Prefix {
        name: "RINEX 2.10 of GLONASS",
        bytes: b"     2.10           GLONASS NAV DATA                        RINEX VERSION / TYPE",
        kind: Kind::Rinex2,
    },
    Prefix {
        name: "RINEX 2.11 of SBAS",
        bytes: b"     2.11           H: GEO NAV MSG DATA                     RINEX VERSION / TYPE",
        kind: Kind::Rinex2,
    },
    Prefix {
        name: "RINEX 3 of GLONASS by its type, which has none",
        bytes: b"     3.04           GLONASS NAV DATA                        RINEX VERSION / TYPE",
        kind: Kind::OtherRinex,
    },
    Prefix {
        name: "observations",
        bytes: b"     3.04           OBSERVATION DATA    M: MIXED            RINEX VERSION / TYPE",
        kind: Kind::Observations,
    },
    Prefix {
        name: "Hatanaka",
        bytes: b"3.0                 COMPACT RINEX FORMAT                    CRINEX VERS   / TYPE",
        kind: Kind::Hatanaka,
    },
    Prefix {
        name: "HTML",
        bytes: b"<html>\n",
        kind: Kind::Unknown,
    },
];

#[test]
fn prefixes_decide_formats(rt: HostRuntime) {
    for prefix in &PREFIXES {
        let read = kind_text(kind_of(prefix.bytes));
        assert_eq!(rt; read, kind_text(prefix.kind), "{}", prefix.name);
    }
}

// A log: a unit, text that is none, and a unit again.
struct Log {
    name: &'static str,
    bytes: &'static [u8],
    // the offset of its last unit
    last: usize,
    kind: Kind,
}

static LOGS: [Log; 3] = [
    // u-blox M8 protocol, UBX-ACK-ACK of CFG-MSG
    Log {
        name: "ubx",
        bytes: b"\xb5\x62\x05\x01\x02\x00\x06\x01\x0f\x38$GPTXT*00\r\n\
            \xb5\x62\x05\x01\x02\x00\x06\x01\x0f\x38",
        last: 21,
        kind: Kind::Ubx,
    },
    // a block of number 4011, its CRC by another program
    Log {
        name: "sbf",
        bytes: b"$@\x4f\xdc\xab\x0f\x0c\x00\x01\x02\x03\x04$GPTXT*00\r\n\
            $@\x4f\xdc\xab\x0f\x0c\x00\x01\x02\x03\x04",
        last: 23,
        kind: Kind::Sbf,
    },
    // the message 1005 of the standard's example (RTCM 10403.3, 4.2), whose sixth byte is a
    // preamble
    Log {
        name: "rtcm",
        bytes: b"\xd3\x00\x13\x3e\xd7\xd3\x02\x02\x98\x0e\xde\xef\x34\xb4\xbd\x62\xac\x09\x41\x98\
            \x6f\x33\x36\x0b\x98$GPTXT*00\r\n\
            \xd3\x00\x13\x3e\xd7\xd3\x02\x02\x98\x0e\xde\xef\x34\xb4\xbd\x62\xac\x09\x41\x98\
            \x6f\x33\x36\x0b\x98",
        last: 36,
        kind: Kind::Stream,
    },
];

// Whether these bytes tell this form, all at once and as a source that gives three at a time.
fn is_told(alloc: Global, bytes: &[u8], kind: Kind) -> Result<bool, AllocError> {
    let source = MemSource::new(
        bytes.to_vec(alloc)?,
        [3; 32].to_vec(alloc)?,
        Vec::new(alloc),
    );
    let mut peeked = Peeked::new(alloc, source);
    let Ok(looked) = look(None, &mut peeked) else {
        return Ok(false);
    };
    let text = kind_text(kind);
    Ok(kind_text(kind_of(bytes)) == text && kind_text(looked) == text)
}

#[test]
fn logs_that_are_cut_decide_formats(rt: HostRuntime) -> Result<(), Fail> {
    for log in &LOGS {
        for cut in 0..40 {
            if cut <= log.last {
                let rest = &log.bytes[cut.min(log.bytes.len())..];
                assert!(rt;
                    is_told(rt.alloc(), rest, log.kind)?,
                    "{} from {cut}",
                    log.name
                );
            }
        }
    }
    Ok(())
}

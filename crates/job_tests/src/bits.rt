//! Texts with names in place of bits and lines: subframes, page parts and frames, each by an
//! independent encoder.

use crate::samples::TEXTS;
use std::alloc::{AllocError, Global};

// What a name stands for: digits of a capture, or the bytes of a frame of a stream.
struct Bits {
    name: &'static str,
    bits: &'static [u8],
}

static BITS: [Bits; 35] = [
    // Subframe 1: count 1, week number 247, all else 0.
    Bits {
        name: "A",
        bits: b"8b00004800021043dc000580000029ffffff580000029ffffff580000029ffffff58000008c0",
    },
    // Subframe 2: count 2, all else 0.
    Bits {
        name: "B",
        bits: b"8b00004800042940000000000000000000000000000000000000000000000000000000000000",
    },
    // Subframe 3: count 3, all else 0.
    Bits {
        name: "C",
        bits: b"8b000048000631c0000000000000000000000000000000000000000000000000000000000000",
    },
    // Subframe 1 as `A`, with health 1.
    Bits {
        name: "A_HEALTH",
        bits: b"8b00004800021043dc00477fffffd6000000a7fffffd6000000a7fffffd6000000a7fffff200",
    },
    // Subframe 2 as `B`, with m0 1.
    Bits {
        name: "B_M0",
        bits: b"8b00004800042940000000000000000000014ffffffffffffffffffffffffffffffffffffac0",
    },
    // Subframe 3 as `C`, with iode 9.
    Bits {
        name: "C_IODE",
        bits: b"8b000048000631c0000000000000000000000000000000000000000000000000000024000d40",
    },
    // Page 18 of subframe 4: count 4, alpha0 11, beta0 44, all else 0.
    Bits {
        name: "PAGE_18",
        bits: b"8b00004800084ec780b00400000b040000000000000000000000000000000000000000000000",
    },
    // Subframe 1 at the end of week 246: count 100,796, all else 0.
    Bits {
        name: "ROLLOVER_1",
        bits: b"8b00004b13781583d8000d7fffffd6000000a7fffffd6000000a7fffffd6000000a7fffff200",
    },
    // Subframe 2: count 100,797, all else 0.
    Bits {
        name: "ROLLOVER_2",
        bits: b"8b00004b137a2300000000000000000000000000000000000000000000000000000000000000",
    },
    // Subframe 3: count 100,798, all else 0.
    Bits {
        name: "ROLLOVER_3",
        bits: b"8b00004b137c3400000000000000000000000000000000000000000000000000000000000000",
    },
    // The prefix of subframe 3 whose third word has a wrong parity.
    Bits {
        name: "BAD_PARITY",
        bits: b"8b000048000631c8000000000000000000000000000000000000000000000000000000000000",
    },
    // The same without the preamble.
    Bits {
        name: "NO_PREAMBLE",
        bits: b"8a000048000631c8000000000000000000000000000000000000000000000000000000000000",
    },
    // The frame of message 1019 of the ephemeris in `A`, `B` and `C` with code on L2 1.
    Bits {
        name: "FRAME_L2",
        bits: b"\
            d3003d3fb14f704000000000000000000000000000000000000000000000000000000000000000000000\
            000000000000000000000000000000000000000000008ddb38",
    },
    // The page parts of word 1.
    Bits {
        name: "EVEN_1",
        bits: b"010140000000000000000000000000",
    },
    Bits {
        name: "ODD_1",
        bits: b"8000000000000000000038a9288000",
    },
    // The page parts of word 2.
    Bits {
        name: "EVEN_2",
        bits: b"020140000000000000000000000000",
    },
    Bits {
        name: "ODD_2",
        bits: b"8000000000000000000008b5104000",
    },
    // The page parts of word 3.
    Bits {
        name: "EVEN_3",
        bits: b"030140000000000000000000000000",
    },
    Bits {
        name: "ODD_3",
        bits: b"801ac0000000000000001aca444000",
    },
    // The page parts of word 4.
    Bits {
        name: "EVEN_4",
        bits: b"04014b000000000000000000000000",
    },
    Bits {
        name: "ODD_4",
        bits: b"80000000000000000000371c7fc000",
    },
    // The page parts of word 5.
    Bits {
        name: "EVEN_5",
        bits: b"05000000000000000009ee00010000",
    },
    Bits {
        name: "ODD_5",
        bits: b"800000000000000000003ba3d3c000",
    },
    // Those of a word 5 with another health of E1-B.
    Bits {
        name: "EVEN_5B",
        bits: b"05000000000000000089ee00010000",
    },
    Bits {
        name: "ODD_5B",
        bits: b"800000000000000000003f3f1b4000",
    },
    // Those of a word 5 that says the second of toe, which is 0.
    Bits {
        name: "EVEN_5_TOE",
        bits: b"05000000000000000009ee00000000",
    },
    Bits {
        name: "ODD_5_TOE",
        bits: b"80000000000000000000244dbcc000",
    },
    // Message 1019 of an ephemeris of G05 in week 2295 whose other fields are 0, as a frame.
    Bits {
        name: "GPS_FRAME",
        bits: b"\
            \xd3\0\x3d\x3f\xb1\x4f\x70\0\0\0\0\0\0\0\0\0\0\0\0\0\0\0\0\0\0\0\0\0\0\0\0\0\0\0\0\0\
            \0\0\0\0\0\0\0\0\0\0\0\0\0\0\0\0\0\0\0\0\0\0\0\0\0\0\0\0\xd1\xac\x12",
    },
    // Message 1046 of an ephemeris of E11 in week 2295 with issue 5 and SISA 107, whose other
    // fields are 0, as a frame.
    Bits {
        name: "GALILEO_FRAME",
        bits: b"\
            \xd3\0\x3f\x41\x62\xd3\xdc\x05\x6b\0\0\0\0\0\0\0\0\0\0\0\0\0\0\0\0\0\0\0\0\0\0\0\0\0\
            \0\0\0\0\0\0\0\0\0\0\0\0\0\0\0\0\0\0\0\0\0\0\0\0\0\0\0\0\0\0\0\0\x24\xf2\x82",
    },
    // The first 60 bytes of the message of G05, as a frame.
    Bits {
        name: "SHORT_FRAME",
        bits: b"\
            \xd3\0\x3c\x3f\xb1\x4f\x70\0\0\0\0\0\0\0\0\0\0\0\0\0\0\0\0\0\0\0\0\0\0\0\0\0\0\0\0\0\
            \0\0\0\0\0\0\0\0\0\0\0\0\0\0\0\0\0\0\0\0\0\0\0\0\0\0\0\x67\x26\x15",
    },
    // A frame with no payload.
    Bits {
        name: "EMPTY_FRAME",
        bits: b"\xd3\0\0\x47\xea\x4b",
    },
    // A frame with no payload that is cut off, the byte that a frame begins with, and other bytes.
    Bits {
        name: "CUT_FRAME",
        bits: b"\xd3\0\0\x47\xea",
    },
    Bits {
        name: "START",
        bits: b"\xd3",
    },
    Bits {
        name: "NOISE",
        bits: b"noise \xd3",
    },
    // A comment of the greatest length, without the end of its line.
    Bits {
        name: "COMMENT",
        bits: &[b'#'; 2_200],
    },
];

// What stands for that name.
fn named(name: &str) -> &'static [u8] {
    for known in &BITS {
        if known.name == name {
            return known.bits;
        }
    }
    for known in &TEXTS {
        if known.name == name {
            return known.text.as_bytes();
        }
    }
    b""
}

// Appends the text, in which `{NAME}` stands for what has that name.
fn append(bytes: &mut Vec<u8>, text: &str) -> Result<(), AllocError> {
    for (number, piece) in text.split('{').enumerate() {
        match piece.split_once('}') {
            Some((name, rest)) if number > 0 => {
                bytes.extend_from_slice(named(name))?;
                bytes.extend_from_slice(rest.as_bytes())?;
            }
            _ => bytes.extend_from_slice(piece.as_bytes())?,
        }
    }
    Ok(())
}

// The bytes with `new` in the first place of `old`.
fn changed(alloc: Global, bytes: &[u8], old: &str, new: &str) -> Result<Vec<u8>, AllocError> {
    for place in 0..bytes.len() {
        if let Some(rest) = bytes[place..].strip_prefix(old.as_bytes()) {
            let mut all = bytes[..place].to_vec(alloc)?;
            all.extend_from_slice(new.as_bytes())?;
            all.extend_from_slice(rest)?;
            return Ok(all);
        }
    }
    bytes.to_vec(alloc)
}

/// The concatenated texts, in which `{NAME}` stands for what has that name, and then `new` in the
/// first place of `old`.
pub(crate) fn expand(
    alloc: Global,
    texts: &[&str],
    old: &str,
    new: &str,
) -> Result<Vec<u8>, AllocError> {
    let mut bytes = Vec::new(alloc);
    for text in texts {
        append(&mut bytes, text)?;
    }
    changed(alloc, bytes.as_slice(), old, new)
}

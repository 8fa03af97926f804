//! Words and page parts of an independent program, both ways, and worked rows.

use crate::samples::bits_of;
use inav::{HalfFault, HalfKind, Halves, join, read_half, split, write_half};
use nav_bits::Bits;
use nav_eph::{Sat, Signal, System};
use std::alloc::{AllocError, Global};
use std::test::Fail;

// A word, and the two page parts into which it is split.
struct WordRow {
    name: &'static str,
    word: &'static [u8],
    even: &'static [u8],
    odd: &'static [u8],
}

static WORDS: [WordRow; 5] = [
    WordRow {
        name: "word 1",
        word: b"06230001fffffffd7661a0e10b42b180",
        even: b"0188c0007fffffff5d98683842d080",
        odd: b"ac6000000000000000003374bc4000",
    },
    WordRow {
        name: "word 2",
        word: b"085ddd618681ffffffffffffffff7ffc",
        even: b"0217775861a07fffffffffffffffc0",
        odd: b"9fff00000000000000003f729c0000",
    },
    WordRow {
        name: "word 4",
        word: b"13ff8a0002d80c000800000017be48dc",
        even: b"04ffe28000b603000200000005ef80",
        odd: b"923700000000000000001cbcac0000",
    },
    WordRow {
        name: "word 5",
        word: b"17fffffc8bfe36ffff4dd49d3f800000",
        even: b"05ffffff22ff8dbfffd375274fe000",
        odd: b"8000000000000000000018ab3bc000",
    },
    WordRow {
        name: "word 3",
        word: b"0df8800000ffff7fff8000ffffd60965",
        even: b"037e2000003fffdfffe0003ffff580",
        odd: b"825940000000000000003b9ad68000",
    },
];

// Whether the word is split into these parts, which are read and joined again.
fn is_split(row: &WordRow) -> bool {
    let word: Bits<16> = bits_of(row.word);
    let (even, odd) = (bits_of(row.even), bits_of(row.odd));
    let parts = split(&word);
    let written = write_half(&parts.0) == even && write_half(&parts.1) == odd;
    let read = read_half(&even) == Ok(parts.0) && read_half(&odd) == Ok(parts.1);
    written && read && join(&parts.0, &parts.1) == Some(word)
}

// Whether parts are read and refused so.
fn parts_are_read_and_refused() -> bool {
    let alert = read_half(&bits_of(b"400000000000000000000000000000"));
    let odd_alert = read_half(&bits_of(b"ffffffffffffffffffffffffffffff"));
    let refused = alert == Err(HalfFault::Alert) && odd_alert == Err(HalfFault::Alert);
    let even = read_half(&bits_of(b"0188c0007fffffff5d98683842d0bf"));
    let odd = read_half(&bits_of(b"ac6000000000000000003374bc7fff"));
    let (plain_even, plain_odd) = split(&bits_of(b"06230001fffffffd7661a0e10b42b180"));
    let read = even == Ok(plain_even) && odd == Ok(plain_odd);
    let kinds = plain_even.kind() == HalfKind::Even && plain_odd.kind() == HalfKind::Odd;
    let kept = *plain_odd.bits() == bits_of(b"ac6000000000000000003374bc4000");
    let changed = split(&bits_of(b"06230001ffffffff7661a0e10b42b180"));
    let is_joined = join(&changed.0, &plain_odd) != None;
    refused && read && kinds && kept && !is_joined
}

const EVEN: &[u8; 30] = b"010140000000000000000000000000";

const ODD: &[u8; 30] = b"8000000000000000000038a9288000";

// The same word, and another one, by odd parts with the same even part.
const FURTHER: &[u8; 30] = b"80000000000000000000593a164000";

const ENDS_IN_1: &[u8; 30] = b"8000400000000000000007f6ab8000";

// How many words taking a part gave, their last bytes one after another, and their stamp.
struct Words {
    count: usize,
    ends: u64,
    stamp: u32,
}

const NONE: Words = Words {
    count: 0,
    ends: 0,
    stamp: 0,
};

// A part of satellite 11 that is taken, and what that gives.
struct PartRow {
    stamp: u32,
    signal: Signal,
    part: &'static [u8],
    words: Words,
}

// Parts in their order, and the window in which they are kept.
struct PartsRow {
    name: &'static str,
    window: u32,
    parts: &'static [PartRow],
}

static PARTS: [PartsRow; 4] = [
    PartsRow {
        name: "in any order",
        window: 7200,
        parts: &[
            PartRow {
                stamp: 0,
                signal: Signal::E1b,
                part: EVEN,
                words: NONE,
            },
            PartRow {
                stamp: 1,
                signal: Signal::E5b,
                part: ODD,
                words: NONE,
            },
            PartRow {
                stamp: 1,
                signal: Signal::E1b,
                part: ODD,
                words: Words {
                    count: 1,
                    ends: 0,
                    stamp: 1,
                },
            },
            PartRow {
                stamp: 1,
                signal: Signal::E1b,
                part: ODD,
                words: NONE,
            },
            PartRow {
                stamp: 3,
                signal: Signal::E1b,
                part: ODD,
                words: NONE,
            },
            PartRow {
                stamp: 2,
                signal: Signal::E1b,
                part: EVEN,
                words: Words {
                    count: 1,
                    ends: 0,
                    stamp: 3,
                },
            },
            PartRow {
                stamp: 2,
                signal: Signal::E1b,
                part: EVEN,
                words: NONE,
            },
            PartRow {
                stamp: 4_294_967_295,
                signal: Signal::E1b,
                part: ODD,
                words: NONE,
            },
            PartRow {
                stamp: 4_294_967_295,
                signal: Signal::E1b,
                part: EVEN,
                words: NONE,
            },
            PartRow {
                stamp: 4_294_967_294,
                signal: Signal::E1b,
                part: EVEN,
                words: Words {
                    count: 1,
                    ends: 0,
                    stamp: 4_294_967_295,
                },
            },
            PartRow {
                stamp: 3,
                signal: Signal::E5b,
                part: ODD,
                words: NONE,
            },
            PartRow {
                stamp: 2,
                signal: Signal::E5b,
                part: EVEN,
                words: NONE,
            },
        ],
    },
    // As long as the window.
    PartsRow {
        name: "as long apart as the window",
        window: 7200,
        parts: &[
            PartRow {
                stamp: 0,
                signal: Signal::E1b,
                part: EVEN,
                words: NONE,
            },
            PartRow {
                stamp: 7201,
                signal: Signal::E1b,
                part: EVEN,
                words: NONE,
            },
            PartRow {
                stamp: 1,
                signal: Signal::E1b,
                part: ODD,
                words: Words {
                    count: 1,
                    ends: 0,
                    stamp: 1,
                },
            },
        ],
    },
    // Longer than it.
    PartsRow {
        name: "longer apart than the window",
        window: 7200,
        parts: &[
            PartRow {
                stamp: 0,
                signal: Signal::E1b,
                part: EVEN,
                words: NONE,
            },
            PartRow {
                stamp: 7202,
                signal: Signal::E1b,
                part: EVEN,
                words: NONE,
            },
            PartRow {
                stamp: 1,
                signal: Signal::E1b,
                part: ODD,
                words: NONE,
            },
        ],
    },
    PartsRow {
        name: "with each partner",
        window: 60,
        parts: &[
            PartRow {
                stamp: 8,
                signal: Signal::E5b,
                part: ENDS_IN_1,
                words: NONE,
            },
            PartRow {
                stamp: 8,
                signal: Signal::E5b,
                part: FURTHER,
                words: NONE,
            },
            PartRow {
                stamp: 8,
                signal: Signal::E5b,
                part: ODD,
                words: NONE,
            },
            PartRow {
                stamp: 7,
                signal: Signal::E5b,
                part: EVEN,
                words: Words {
                    count: 3,
                    ends: 1,
                    stamp: 8,
                },
            },
        ],
    },
];

// Whether taking the part gives so.
fn gives(halves: &mut Halves, row: &PartRow) -> Result<bool, AllocError> {
    let Some(sat) = Sat::new(System::Gal, 11) else {
        return Ok(false);
    };
    let Ok(half) = read_half(&bits_of(row.part)) else {
        return Ok(false);
    };
    let joined = halves.take(row.stamp, sat, row.signal, &half)?;
    let mut ends = 0u64;
    for i in 0..joined.len() {
        ends = ends
            .wrapping_mul(256)
            .wrapping_add(joined.word(i).get(120, 8));
    }
    let words = joined.len() == row.words.count && ends == row.words.ends;
    Ok(words && (row.words.count == 0 || joined.stamp() == row.words.stamp))
}

// Whether the parts, in their order, give so.
fn all_give(alloc: Global, row: &PartsRow) -> Result<bool, AllocError> {
    if row.window < 60 || row.window > 14_400 {
        return Ok(false);
    }
    let mut halves = Halves::new(alloc, row.window);
    let mut all = true;
    for part in row.parts {
        all = gives(&mut halves, part)? && all;
    }
    Ok(all)
}

#[test]
fn words_are_split_and_parts_joined(rt: HostRuntime) -> Result<(), Fail> {
    for row in &WORDS {
        assert!(rt; is_split(row), "{}", row.name);
    }
    for row in &PARTS {
        assert!(rt; all_give(rt.alloc(), row)?, "{}", row.name);
    }
    assert!(rt; parts_are_read_and_refused());
    Ok(())
}

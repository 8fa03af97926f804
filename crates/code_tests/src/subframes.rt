//! Subframes of an independent program, read and written, and worked faults.

use crate::samples::bits_of;
use lnav_subframe::{LnavFault, SubframeOut, read_subframe, write_subframe};
use nav_bits::{Bits, U};
use nav_eph::{Body, Part, Sat, SentTag, System};
use raw_values::{
    CLOCK_OF_ZEROES, ClockNumbers, GpsIonNumbers, OrbitANumbers, OrbitBNumbers, SIDE_OF_ZEROES,
    SideNumbers,
};

// What is read of some bits that satellite 5 of GPS sent.
fn read(bits: &Bits<38>) -> Option<Result<Part, LnavFault>> {
    Some(read_subframe(bits, Sat::new(System::Gps, 5)?, 9))
}

// The digits of a subframe, the TOW count that it is written with, and what it holds.
struct SubframeRow {
    name: &'static str,
    digits: &'static [u8],
    count: u64,
    holds: Holds,
}

#[derive(Clone, Copy)]
enum Holds {
    // Subframe 1, with the ten bits of its week and the second of its transmission time.
    Clock {
        clock: ClockNumbers,
        side: SideNumbers,
        wn: u64,
        second: u32,
    },
    // Subframe 2, with the fit interval flag.
    OrbitA {
        orbit: OrbitANumbers,
        fit: u64,
    },
    // Subframe 3.
    OrbitB {
        orbit: OrbitBNumbers,
    },
    // Page 18 of subframe 4, with the second of its transmission time.
    Ion {
        ion: GpsIonNumbers,
        second: u32,
    },
}

static SUBFRAMES: [SubframeRow; 7] = [
    SubframeRow {
        name: "a clock of zeroes",
        digits: b"8b00004800021043dc000580000029ffffff580000029ffffff580000029ffffff58000008c0",
        count: 1,
        holds: Holds::Clock {
            clock: CLOCK_OF_ZEROES,
            side: SIDE_OF_ZEROES,
            wn: 247,
            second: 0,
        },
    },
    SubframeRow {
        name: "a clock of issue 619",
        digits: b"8b00004b137e1704f7f12280000029ffffff580000029ffff8589ae4e9f2f9d2cce34f60a680",
        count: 100_799,
        holds: Holds::Clock {
            clock: ClockNumbers {
                iodc: 619,
                toc: 37_799,
                af2: -7,
                af1: -11_572,
                af0: -723_446,
                tgd: 122,
            },
            side: SideNumbers {
                l2_code: 3,
                ura: 15,
                health: 4,
                l2p: 0,
            },
            wn: 317,
            second: 604_788,
        },
    },
    SubframeRow {
        name: "a clock of issue 745",
        digits: b"8b00004aca60164ffdf8ab5ffffffc00000000000000000008a545bfffd100873c5461c8f680",
        count: 91_440,
        holds: Holds::Clock {
            clock: ClockNumbers {
                iodc: 745,
                toc: 0,
                af2: -1,
                af1: 30_915,
                af0: -400_528,
                tgd: -118,
            },
            side: SideNumbers {
                l2_code: 1,
                ura: 15,
                health: 34,
                l2p: 1,
            },
            wn: 1_023,
            second: 548_634,
        },
    },
    SubframeRow {
        name: "orbit A of issue 255, crs -14,220",
        digits: b"8b00004adc3629cffc8748d25168f0f91c311aac512d4f74313c4398000500000057fffdff00",
        count: 93_723,
        holds: Holds::OrbitA {
            orbit: OrbitANumbers {
                iode: 255,
                crs: -14_220,
                delta_n: -18_758,
                m0: 1_559_829_553,
                cuc: -21_740,
                e: 1_274_495_763,
                cus: -3_681,
                root_a: 4_294_967_295,
                toe: 0,
            },
            fit: 1,
        },
    },
    SubframeRow {
        name: "orbit A of issue 255, crs -15,553",
        digits: b"8b00004b137e2c8ffc33f74cbd1dc11a3945b200006b5c91f84bbfffc33d0ae7c6824e9c0380",
        count: 100_799,
        holds: Holds::OrbitA {
            orbit: OrbitANumbers {
                iode: 255,
                crs: -15_553,
                delta_n: -13_045,
                m0: -1_998_207_302,
                cuc: -32_768,
                e: 439_804_027,
                cus: -1,
                root_a: 217_389_113,
                toe: 37_799,
            },
            fit: 0,
        },
    },
    SubframeRow {
        name: "orbit B of issue 73",
        digits: b"8b00004800023e4b94c8f0a6273f30ec6cff9bfffffea03f5bcb718d45ce93fbfa6ed88d76c0",
        count: 1,
        holds: Holds::OrbitB {
            orbit: OrbitBNumbers {
                iode: 73,
                cic: -18100,
                omega0: -1885823748,
                cis: -5012,
                i0: -1,
                crc: 1013,
                omega: -1137063192,
                omega_dot: -7078918,
                idot: -2264,
            },
        },
    },
    SubframeRow {
        name: "an ionosphere",
        digits: b"8b00004a01c247078f3809b0602d2571007f9ffffffffffffffffffffffffffffffffffffac0",
        count: 65_761,
        holds: Holds::Ion {
            ion: GpsIonNumbers {
                alpha0: -13,
                alpha1: -128,
                alpha2: -63,
                alpha3: -128,
                beta0: -76,
                beta1: -114,
                beta2: -1,
                beta3: -128,
            },
            second: 394_560,
        },
    },
];

// Whether that is what satellite 5 was heard to send at 9.
fn is_held(part: &Part, holds: &Holds) -> bool {
    let from = part.stamp == 9 && part.sat.system() == System::Gps && part.sat.number() == 5;
    from && match (holds, &part.body) {
        (
            Holds::Clock {
                clock,
                side,
                wn,
                second,
            },
            Body::GpsClock(
                read_clock,
                read_side,
                SentTag::Sent {
                    wn: week,
                    second: sent,
                },
            ),
        ) => {
            clock.are_of(read_clock)
                && side.are_of(read_side)
                && week.value() == *wn
                && sent.value() == *second
        }
        (Holds::OrbitA { orbit, fit }, Body::GpsA(read_orbit, flag)) => {
            orbit.are_of(read_orbit) && flag.value() == *fit
        }
        (Holds::OrbitB { orbit }, Body::GpsB(read_orbit)) => orbit.are_of(read_orbit),
        (Holds::Ion { ion, second }, Body::GpsIon(read_ion, sent)) => {
            ion.are_of(read_ion) && sent.value() == *second
        }
        _ => false,
    }
}

// The subframe of a part, written with a TOW count.
fn written(body: &Body, count: u64) -> Option<Bits<38>> {
    if count >= 100_800 {
        return None;
    }
    let count = U::from_bits(count);
    match *body {
        Body::GpsClock(clock, side, SentTag::Sent { wn, .. }) => {
            let wn = U::new(wn.value())?;
            Some(write_subframe(&SubframeOut::Clock { clock, side, wn }, count))
        }
        Body::GpsA(orbit, fit) => Some(write_subframe(&SubframeOut::OrbitA { orbit, fit }, count)),
        Body::GpsB(orbit) => Some(write_subframe(&SubframeOut::OrbitB { orbit }, count)),
        Body::GpsIon(ion, _) => Some(write_subframe(&SubframeOut::Ion { ion }, count)),
        _ => None,
    }
}

// Whether the digits are read as what the row holds, and that is written with them.
fn is_subframe(row: &SubframeRow) -> bool {
    let bits = bits_of(row.digits);
    match read(&bits) {
        Some(Ok(part)) => is_held(&part, &row.holds)
            && written(&part.body, row.count) == Some(bits),
        _ => false,
    }
}

// Digits, and why they are refused; `None` where they are read.
struct ReadingRow {
    name: &'static str,
    digits: &'static [u8],
    fault: Option<LnavFault>,
}

const UPRIGHT: &[u8; 76] =
    b"8b000048000631c0000000000000000000000000000000000000000000000000000000000000";

// The complement of these digits.
const TURNED: &[u8; 76] =
    b"74ffffb7fff9ce3ffffffffffffffffffffffffffffffffffffffffffffffffffffffffffff0";

static READINGS: [ReadingRow; 6] = [
    ReadingRow {
        name: "upright",
        digits: UPRIGHT,
        fault: None,
    },
    ReadingRow {
        name: "another preamble",
        digits: b"8a000048000631c8000000000000000000000000000000000000000000000000000000000000",
        fault: Some(LnavFault::Preamble),
    },
    ReadingRow {
        name: "a wrong parity in word 3",
        digits: b"8b000048000631c8000000000000000000000000000000000000000000000000000000000000",
        fault: Some(LnavFault::Parity { word: 3 }),
    },
    // Subframes 2 in good words: the last toe of the week; with the next toe and a count past the
    // week, and with the next toe alone.
    ReadingRow {
        name: "the last toe of the week",
        digits: b"8b000048000026c000000000000000000000000000000000000000000000000000024e9c0380",
        fault: None,
    },
    ReadingRow {
        name: "the next toe, and a count past the week",
        digits: b"8b00004b1380250000000000000000000000000000000000000000000000000000024ea00dc0",
        fault: Some(LnavFault::BadTow),
    },
    ReadingRow {
        name: "the next toe",
        digits: b"8b00004b137e2c8000000000000000000000000000000000000000000000000000024ea00dc0",
        fault: Some(LnavFault::BadTime),
    },
];

// Whether the bits are refused for the fault, or read where there is none.
fn is_read(bits: &Bits<38>, fault: Option<LnavFault>) -> bool {
    match read(bits) {
        Some(Ok(_)) => fault == None,
        Some(Err(found)) => fault == Some(found),
        None => false,
    }
}

// A clock that is written with the count 0 was sent in the last 6 s of the week.
fn last_second_is_read() -> Option<bool> {
    let Some(Ok(first)) = read(&bits_of(SUBFRAMES[0].digits)) else {
        return None;
    };
    let Some(Ok(last)) = read(&written(&first.body, 0)?) else {
        return None;
    };
    let holds = Holds::Clock {
        clock: CLOCK_OF_ZEROES,
        side: SIDE_OF_ZEROES,
        wn: 247,
        second: 604_794,
    };
    Some(is_held(&last, &holds))
}

#[test]
fn subframes_both_ways_and_faults(rt: HostRuntime) {
    for row in &SUBFRAMES {
        assert!(rt; is_subframe(row), "{}", row.name);
    }
    for row in &READINGS {
        assert!(rt; is_read(&bits_of(row.digits), row.fault), "{}", row.name);
    }
    let turned = read(&bits_of(TURNED)) == read(&bits_of(UPRIGHT));
    let other = SubframeOut::Other {
        number: U::from_bits(5),
        page: U::from_bits(1),
    };
    let bits = write_subframe(&other, U::from_bits(7));
    let unused = is_read(&bits, Some(LnavFault::Unused { number: 5, page: 1 }));
    assert!(rt; turned && unused && last_second_is_read() == Some(true));
}

//! Words of an independent program and worked words both ways, and worked faults.

use crate::samples::bits_of;
use inav::{
    WordFault, WordParts, read_word, write_word1, write_word2, write_word3, write_word4,
    write_word5,
};
use nav_bits::Bits;
use nav_eph::{Body, Part, Sat, SentTag, System};
use raw_values::{
    GalIonNumbers, HealthNumbers, Word1Numbers, Word2Numbers, Word3Numbers, Word4Numbers,
};

// The digits of a word, the satellite that sends it, and what it is read as.
struct WordRow {
    name: &'static str,
    digits: &'static [u8],
    satellite: u8,
    read: WordRead,
}

enum WordRead {
    // Words 1 to 4, of which the digits are written again.
    Word1(Word1Numbers),
    Word2(Word2Numbers),
    Word3(Word3Numbers),
    Word4(Word4Numbers),
    // Word 5, with its transmission time.
    Word5 {
        wn: u64,
        second: u32,
        health: HealthNumbers,
        ion: GalIonNumbers,
    },
    // The fault of a word.
    Fault(WordFault),
}

// The worked words of one satellite, words made by an independent program, and worked faults.
static WORDS: [WordRow; 42] = [
    WordRow {
        name: "word 1 of E11, issue 5",
        digits: b"04050000000000000000000000000000",
        satellite: 11,
        read: WordRead::Word1(Word1Numbers {
            iodnav: 5,
            toe: 0,
            m0: 0,
            e: 0,
            root_a: 0,
        }),
    },
    WordRow {
        name: "word 2 of E11, issue 5",
        digits: b"08050000000000000000000000000000",
        satellite: 11,
        read: WordRead::Word2(Word2Numbers {
            iodnav: 5,
            omega0: 0,
            i0: 0,
            omega: 0,
            idot: 0,
        }),
    },
    WordRow {
        name: "word 3 of E11, issue 5",
        digits: b"0c05000000000000000000000000006b",
        satellite: 11,
        read: WordRead::Word3(Word3Numbers {
            iodnav: 5,
            omega_dot: 0,
            delta_n: 0,
            cuc: 0,
            cus: 0,
            crc: 0,
            crs: 0,
            sisa: 107,
        }),
    },
    WordRow {
        name: "word 4 of E11, issue 5",
        digits: b"10052c00000000000000000000000000",
        satellite: 11,
        read: WordRead::Word4(Word4Numbers {
            iodnav: 5,
            cic: 0,
            cis: 0,
            toc: 0,
            af0: 0,
            af1: 0,
            af2: 0,
        }),
    },
    WordRow {
        name: "word 5 of E11, week 1271",
        digits: b"14000000000000000027b80004000000",
        satellite: 11,
        read: WordRead::Word5 {
            wn: 1271,
            second: 8,
            health: HealthNumbers {
                bgd_a: 0,
                bgd_b: 0,
                hs_e5b: 0,
                hs_e1b: 0,
                dvs_e5b: 0,
                dvs_e1b: 0,
            },
            ion: GalIonNumbers {
                ai0: 0,
                ai1: 0,
                ai2: 0,
                regions: 0,
            },
        },
    },
    WordRow {
        name: "word 1 of E34, issue 547",
        digits: b"06230001fffffffd7661a0e10b42b180",
        satellite: 34,
        read: WordRead::Word1(Word1Numbers {
            iodnav: 547,
            toe: 0,
            m0: 2147483647,
            e: 1570269240,
            root_a: 1120971872,
        }),
    },
    WordRow {
        name: "word 2 of E34, issue 93",
        digits: b"085ddd618681ffffffffffffffff7ffc",
        satellite: 34,
        read: WordRead::Word2(Word2Numbers {
            iodnav: 93,
            omega0: -580811135,
            i0: -1,
            omega: -1,
            idot: 8191,
        }),
    },
    WordRow {
        name: "word 3 of E34, issue 984",
        digits: b"0fd8ee144e7ffffb7bffffa2517fffff",
        satellite: 34,
        read: WordRead::Word3(Word3Numbers {
            iodnav: 984,
            omega_dot: -1174450,
            delta_n: 32767,
            cuc: -1157,
            cus: -1,
            crc: -23983,
            crs: 32767,
            sisa: 255,
        }),
    },
    WordRow {
        name: "word 4 of E34, issue 1023",
        digits: b"13ff8a0002d80c000800000017be48dc",
        satellite: 34,
        read: WordRead::Word4(Word4Numbers {
            iodnav: 1023,
            cic: -32768,
            cis: -18941,
            toc: 0,
            af0: -1073741824,
            af1: -541112,
            af2: -9,
        }),
    },
    WordRow {
        name: "word 5 of E34, week 2490",
        digits: b"17fffffc8bfe36ffff4dd49d3f800000",
        satellite: 34,
        read: WordRead::Word5 {
            wn: 2490,
            second: 604799,
            health: HealthNumbers {
                bgd_a: 109,
                bgd_b: -1,
                hs_e5b: 3,
                hs_e1b: 3,
                dvs_e5b: 1,
                dvs_e1b: 0,
            },
            ion: GalIonNumbers {
                ai0: 2047,
                ai1: -1,
                ai2: -3537,
                regions: 31,
            },
        },
    },
    WordRow {
        name: "word 1 of E23, issue 725",
        digits: b"06d535d3fffffffe8ffeac9dbc5d25c0",
        satellite: 23,
        read: WordRead::Word1(Word1Numbers {
            iodnav: 725,
            toe: 3444,
            m0: -1,
            e: 2751441703,
            root_a: 1863797104,
        }),
    },
    WordRow {
        name: "word 2 of E23, issue 1023",
        digits: b"0bff80000000800000009c0787fd7ffc",
        satellite: 23,
        read: WordRead::Word2(Word2Numbers {
            iodnav: 1023,
            omega0: -2147483648,
            i0: -2147483648,
            omega: -1677228035,
            idot: 8191,
        }),
    },
    WordRow {
        name: "word 3 of E23, issue 845",
        digits: b"0f4ddd0db8ffff8376c04a8000ffffff",
        satellite: 23,
        read: WordRead::Word3(Word3Numbers {
            iodnav: 845,
            omega_dot: -2290248,
            delta_n: -1,
            cuc: -31882,
            cus: -16310,
            crc: -32768,
            crs: -1,
            sisa: 255,
        }),
    },
    WordRow {
        name: "word 4 of E23, issue 386",
        digits: b"11825ffffdfffc0007fffffff000007c",
        satellite: 23,
        read: WordRead::Word4(Word4Numbers {
            iodnav: 386,
            cic: -1,
            cis: 32767,
            toc: 0,
            af0: 1073741823,
            af1: -1048576,
            af2: 31,
        }),
    },
    WordRow {
        name: "word 5 of E23, week 4095",
        digits: b"1466fffc6ee1f340007ff80000000000",
        satellite: 23,
        read: WordRead::Word5 {
            wn: 4095,
            second: 0,
            health: HealthNumbers {
                bgd_a: -26,
                bgd_b: -512,
                hs_e5b: 0,
                hs_e1b: 0,
                dvs_e5b: 0,
                dvs_e1b: 0,
            },
            ion: GalIonNumbers {
                ai0: 205,
                ai1: -1,
                ai2: -3653,
                regions: 16,
            },
        },
    },
    WordRow {
        name: "word 1 of E14, issue 333",
        digits: b"054d0002e61caaf3fffffffc1d89a858",
        satellite: 14,
        read: WordRead::Word1(Word1Numbers {
            iodnav: 333,
            toe: 0,
            m0: -1182324036,
            e: 4294967295,
            root_a: 123890198,
        }),
    },
    WordRow {
        name: "word 2 of E14, issue 1023",
        digits: b"0bff7fffffffffffffff800000008000",
        satellite: 14,
        read: WordRead::Word2(Word2Numbers {
            iodnav: 1023,
            omega0: 2147483647,
            i0: -1,
            omega: -2147483648,
            idot: -8192,
        }),
    },
    WordRow {
        name: "word 3 of E14, issue 1023",
        digits: b"0fff78cd247fff7fff9fec7fffd0b76b",
        satellite: 14,
        read: WordRead::Word3(Word3Numbers {
            iodnav: 1023,
            omega_dot: 7916836,
            delta_n: 32767,
            cuc: 32767,
            cus: -24596,
            crc: 32767,
            crs: -12105,
            sisa: 107,
        }),
    },
    WordRow {
        name: "word 4 of E14, issue 628",
        digits: b"12743abc1a0000000e13ec9d3b3d4ed0",
        satellite: 14,
        read: WordRead::Word4(Word4Numbers {
            iodnav: 628,
            cic: -20730,
            cis: -32768,
            toc: 0,
            af0: -257989399,
            af1: -311986,
            af2: -12,
        }),
    },
    WordRow {
        name: "word 5 of E14, week 4095",
        digits: b"1490bff80012ffeda8fff97290000000",
        satellite: 14,
        read: WordRead::Word5 {
            wn: 4095,
            second: 189728,
            health: HealthNumbers {
                bgd_a: 511,
                bgd_b: -147,
                hs_e5b: 1,
                hs_e1b: 0,
                dvs_e5b: 0,
                dvs_e1b: 1,
            },
            ion: GalIonNumbers {
                ai0: 289,
                ai1: 1023,
                ai2: -8192,
                regions: 9,
            },
        },
    },
    WordRow {
        name: "word 1 of E23, issue 673",
        digits: b"06a19d7dfffffffffffffffffffffffc",
        satellite: 23,
        read: WordRead::Word1(Word1Numbers {
            iodnav: 673,
            toe: 10079,
            m0: 2147483647,
            e: 4294967295,
            root_a: 4294967295,
        }),
    },
    WordRow {
        name: "word 2 of E23, issue 289",
        digits: b"0921ffffffffd629b8ccbfb4cebe7ffc",
        satellite: 23,
        read: WordRead::Word2(Word2Numbers {
            iodnav: 289,
            omega0: -1,
            i0: -701908788,
            omega: -1078669634,
            idot: 8191,
        }),
    },
    WordRow {
        name: "word 3 of E23, issue 579",
        digits: b"0e43ffffffb4dbffff800081bcffff00",
        satellite: 23,
        read: WordRead::Word3(Word3Numbers {
            iodnav: 579,
            omega_dot: -1,
            delta_n: -19237,
            cuc: -1,
            cus: -32768,
            crc: -32324,
            crs: -1,
            sisa: 0,
        }),
    },
    WordRow {
        name: "word 4 of E23, issue 179",
        digits: b"10b35e0002b90275fddca79d6924b080",
        satellite: 23,
        read: WordRead::Word4(Word4Numbers {
            iodnav: 179,
            cic: -32768,
            cis: -20928,
            toc: 10079,
            af0: -286966549,
            af1: 599216,
            af2: -32,
        }),
    },
    WordRow {
        name: "word 5 of E23, week 1374",
        digits: b"161e4137fffe8b8a01aaf1808f000000",
        satellite: 23,
        read: WordRead::Word5 {
            wn: 1374,
            second: 196894,
            health: HealthNumbers {
                bgd_a: 279,
                bgd_b: 80,
                hs_e5b: 0,
                hs_e1b: 0,
                dvs_e5b: 1,
                dvs_e1b: 1,
            },
            ion: GalIonNumbers {
                ai0: 1084,
                ai1: -1005,
                ai2: 8191,
                regions: 31,
            },
        },
    },
    WordRow {
        name: "word 1 of E14, issue 908",
        digits: b"078c00020000000104b96f4ffffffffc",
        satellite: 14,
        read: WordRead::Word1(Word1Numbers {
            iodnav: 908,
            toe: 0,
            m0: -2147483648,
            e: 1093557203,
            root_a: 4294967295,
        }),
    },
    WordRow {
        name: "word 2 of E14, issue 799",
        digits: b"0b1fefcf97fc800000007ffffffffffc",
        satellite: 14,
        read: WordRead::Word2(Word2Numbers {
            iodnav: 799,
            omega0: -271607812,
            i0: -2147483648,
            omega: 2147483647,
            idot: -1,
        }),
    },
    WordRow {
        name: "word 3 of E14, issue 504",
        digits: b"0df8800000ffff7fff8000ffffd60965",
        satellite: 14,
        read: WordRead::Word3(Word3Numbers {
            iodnav: 504,
            omega_dot: -8388608,
            delta_n: -1,
            cuc: 32767,
            cus: -32768,
            crc: -1,
            crs: -10743,
            sisa: 101,
        }),
    },
    WordRow {
        name: "word 4 of E14, issue 309",
        digits: b"11353bfffdfffe75f7fffffff000007c",
        satellite: 14,
        read: WordRead::Word4(Word4Numbers {
            iodnav: 309,
            cic: -1,
            cis: 32767,
            toc: 10079,
            af0: 1073741823,
            af1: -1048576,
            af2: 31,
        }),
    },
    WordRow {
        name: "word 5 of E14, week 3661",
        digits: b"17ffc00fffe4ffbd5ff26bbfb7000000",
        satellite: 14,
        read: WordRead::Word5 {
            wn: 3661,
            second: 491374,
            health: HealthNumbers {
                bgd_a: 511,
                bgd_b: 490,
                hs_e5b: 3,
                hs_e1b: 3,
                dvs_e5b: 1,
                dvs_e1b: 1,
            },
            ion: GalIonNumbers {
                ai0: 2047,
                ai1: -1024,
                ai2: -1,
                regions: 18,
            },
        },
    },
    WordRow {
        name: "word 0",
        digits: b"00000000000000000000000000000000",
        satellite: 11,
        read: WordRead::Fault(WordFault::OtherWord { number: 0 }),
    },
    WordRow {
        name: "word 6",
        digits: b"18000000000000000000000000000000",
        satellite: 11,
        read: WordRead::Fault(WordFault::OtherWord { number: 6 }),
    },
    WordRow {
        name: "word 63",
        digits: b"ffffffffffffffffffffffffffffffff",
        satellite: 11,
        read: WordRead::Fault(WordFault::OtherWord { number: 63 }),
    },
    WordRow {
        name: "word 4 of another satellite",
        digits: b"10052c00000000000000000000000000",
        satellite: 12,
        read: WordRead::Fault(WordFault::WrongSat),
    },
    WordRow {
        name: "word 4 of another satellite with toc past the week",
        digits: b"10052c00000002760000000000000000",
        satellite: 12,
        read: WordRead::Fault(WordFault::WrongSat),
    },
    WordRow {
        name: "word 4 with toc past the week",
        digits: b"10052c00000002760000000000000000",
        satellite: 11,
        read: WordRead::Fault(WordFault::BadTime),
    },
    WordRow {
        name: "word 1 with toe past the week",
        digits: b"04059d80000000000000000000000000",
        satellite: 11,
        read: WordRead::Fault(WordFault::BadTime),
    },
    WordRow {
        name: "word 5 with a time past the week",
        digits: b"14000000000000000000049d40000000",
        satellite: 11,
        read: WordRead::Fault(WordFault::BadTime),
    },
    WordRow {
        name: "word 5 with the greatest time",
        digits: b"1400000000000000000007ffff800000",
        satellite: 11,
        read: WordRead::Fault(WordFault::BadTime),
    },
    WordRow {
        name: "word 3 with SISA 126",
        digits: b"0c05000000000000000000000000007e",
        satellite: 11,
        read: WordRead::Fault(WordFault::SpareSisa),
    },
    WordRow {
        name: "word 3 with SISA 254",
        digits: b"0c0500000000000000000000000000fe",
        satellite: 11,
        read: WordRead::Fault(WordFault::SpareSisa),
    },
    WordRow {
        name: "word 3 of E36 with SISA 254",
        digits: b"0c0500000000000000000000000000fe",
        satellite: 36,
        read: WordRead::Fault(WordFault::SpareSisa),
    },
];

// Whether a part is what a satellite of Galileo was heard to send at 9.
fn is_sent(part: &Part, satellite: u8) -> bool {
    part.stamp == 9 && part.sat.system() == System::Gal && part.sat.number() == satellite
}

// Whether the parts of word 5 have the numbers of the row, with one transmission time, and are
// written with its digits.
fn is_word5(parts: &WordParts, row: &WordRow) -> bool {
    match (&row.read, &parts.first.body, &parts.second) {
        (
            WordRead::Word5 {
                wn,
                second,
                health,
                ion,
            },
            Body::GalHealth(
                read_health,
                SentTag::Sent {
                    wn: week,
                    second: sent,
                },
            ),
            Some(
                Part {
                    stamp,
                    sat,
                    body: Body::GalIon(read_ion, ion_week, ion_sent),
                },
            ),
        ) => {
            *stamp == 9
                && *sat == parts.first.sat
                && week.value() == *wn
                && sent.value() == *second
                && ion_week == week
                && ion_sent == sent
                && health.are_of(read_health)
                && ion.are_of(read_ion)
                && write_word5(read_health, read_ion, *week, *sent) == bits_of(row.digits)
        }
        _ => false,
    }
}

// Whether the parts have the numbers of the row, and are written with its digits.
fn are_parts(parts: &WordParts, row: &WordRow) -> bool {
    let sat = parts.first.sat;
    let bits = bits_of(row.digits);
    match (&row.read, &parts.first.body) {
        (WordRead::Word1(numbers), Body::GalW1(word)) => {
            numbers.are_of(word) && write_word1(word) == bits && parts.second == None
        }
        (WordRead::Word2(numbers), Body::GalW2(word)) => {
            numbers.are_of(word) && write_word2(word) == bits && parts.second == None
        }
        (WordRead::Word3(numbers), Body::GalW3(word)) => {
            numbers.are_of(word) && write_word3(word) == bits && parts.second == None
        }
        (WordRead::Word4(numbers), Body::GalW4(word)) => {
            numbers.are_of(word)
                && sat.system() == System::Gal
                && write_word4(word, sat) == bits
                && parts.second == None
        }
        _ => is_word5(parts, row),
    }
}

// Whether the word of these digits is read so.
fn is_word(row: &WordRow) -> bool {
    let Some(sat) = Sat::new(System::Gal, row.satellite) else {
        return false;
    };
    match (read_word(&bits_of(row.digits), sat, 9), &row.read) {
        (Err(found), WordRead::Fault(fault)) => found == *fault,
        (Err(_), _) => false,
        (Ok(parts), _) => is_sent(&parts.first, row.satellite) && are_parts(&parts, row),
    }
}

#[test]
fn words(rt: HostRuntime) {
    for row in &WORDS {
        assert!(rt; is_word(row), "{}", row.name);
    }
}

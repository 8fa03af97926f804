//! The ephemeris messages of RTCM 10403.3 (3.5), a line a field.

ghost use Rattle.std.specs.Prelude.{◌≡◌, IsTrue};
ghost use Rattle.nav_tables.specs.Messages.{is_table};

use nav_tables::{Coding, Field, Table};

// A field of some width in bits; unsigned ones also with the least and the greatest number.
macro_rules! unsigned {
    ($width:literal) => {
        unsigned!($width, 0, (1 << $width) - 1)
    };
    ($width:literal, $low:expr, $high:expr) => {
        Field {
            width: $width,
            coding: Coding::Unsigned,
            low: $low,
            high: $high,
        }
    };
}

macro_rules! signed {
    ($width:literal) => {
        Field {
            width: $width,
            coding: Coding::TwosComplement,
            low: -(1 << ($width - 1)),
            high: (1 << ($width - 1)) - 1,
        }
    };
}

macro_rules! magnitude {
    ($width:literal) => {
        Field {
            width: $width,
            coding: Coding::SignMagnitude,
            low: 1 - (1 << ($width - 1)),
            high: (1 << ($width - 1)) - 1,
        }
    };
}

macro_rules! constant {
    ($width:literal, $number:literal) => {
        unsigned!($width, $number, $number)
    };
}

macro_rules! reserved {
    ($width:literal) => {
        Field {
            width: $width,
            coding: Coding::Reserved,
            low: 0,
            high: 0,
        }
    };
}

// The fields of an orbit from crs to omega_dot, as GPS, QZSS and Galileo have them, between others.
macro_rules! with_orbit {
    ([$($before:expr),*], $toe:expr, [$($after:expr),*]) => {
        [
            $($before,)*
            signed!(16), // crs
            signed!(16), // delta_n
            signed!(32), // m0
            signed!(16), // cuc
            unsigned!(32), // e
            signed!(16), // cus
            unsigned!(32), // root_a
            $toe, // toe
            signed!(16), // cic
            signed!(32), // omega0
            signed!(16), // cis
            signed!(32), // i0
            signed!(16), // crc
            signed!(32), // omega
            signed!(24), // omega_dot
            $($after,)*
        ]
    };
}

/// The fields of message 1019, GPS ephemeris.
pub const FIELDS_1019: [Field; 31] = with_orbit!(
    [
        constant!(12, 1019), // number
        unsigned!(6, 1, 32), // satellite
        unsigned!(10), // week
        unsigned!(4), // ura
        unsigned!(2), // l2_code
        signed!(14), // idot
        unsigned!(8), // iode
        unsigned!(16, 0, 37_799), // toc
        signed!(8), // af2
        signed!(16), // af1
        signed!(22), // af0
        unsigned!(10) // iodc
    ],
    unsigned!(16, 0, 37_799), // toe
    [
        signed!(8), // tgd
        unsigned!(6), // health
        unsigned!(1), // l2p
        unsigned!(1) // fit
    ]
);

/// Message 1019, GPS ephemeris.
pub fn table_1019() -> Table
    ensures fields { result.fields.now ≡ FIELDS_1019 }
    ensures bytes { result.bytes ≡ 61 }
    ensures table { IsTrue (is_table result) }
{
    Table {
        fields: &FIELDS_1019,
        bytes: 61,
    }
}

/// The fields of message 1020, GLONASS ephemeris.
pub const FIELDS_1020: [Field; 39] = [
    constant!(12, 1020), // number
    unsigned!(6, 1, 27), // satellite
    unsigned!(5, 0, 20), // frequency
    unsigned!(1), // almanac_health
    unsigned!(1), // almanac_health_known
    unsigned!(2), // p1
    unsigned!(5, 0, 23), // tk_hour
    unsigned!(6, 0, 59), // tk_minute
    unsigned!(1), // tk_half
    unsigned!(1), // bn_msb
    unsigned!(1), // p2
    unsigned!(7, 0, 95), // tb
    magnitude!(24), // x_velocity
    magnitude!(27), // x
    magnitude!(5), // x_acceleration
    magnitude!(24), // y_velocity
    magnitude!(27), // y
    magnitude!(5), // y_acceleration
    magnitude!(24), // z_velocity
    magnitude!(27), // z
    magnitude!(5), // z_acceleration
    unsigned!(1), // p3
    magnitude!(11), // gamma
    unsigned!(2), // p
    unsigned!(1), // l3
    magnitude!(22), // tau
    magnitude!(5), // delta_tau
    unsigned!(5), // age
    unsigned!(1), // p4
    unsigned!(4), // ft
    unsigned!(11, 0, 1461), // nt
    unsigned!(2), // m
    unsigned!(1), // additional
    unsigned!(11), // na
    magnitude!(32), // tau_c
    unsigned!(5), // n4
    magnitude!(22), // tau_gps
    unsigned!(1), // l5
    reserved!(7), // reserved
];

/// The fields of message 1041, NavIC ephemeris.
pub const FIELDS_1041: [Field; 32] = [
    constant!(12, 1041), // number
    unsigned!(6, 1, 14), // satellite
    unsigned!(10), // week
    signed!(22), // af0
    signed!(16), // af1
    signed!(8), // af2
    unsigned!(4), // ura
    unsigned!(16, 0, 37_799), // toc
    signed!(8), // tgd
    signed!(22), // delta_n
    unsigned!(8), // iodec
    reserved!(10), // reserved
    unsigned!(1), // l5_flag
    unsigned!(1), // s_flag
    signed!(15), // cuc
    signed!(15), // cus
    signed!(15), // cic
    signed!(15), // cis
    signed!(15), // crc
    signed!(15), // crs
    signed!(14), // idot
    signed!(32), // m0
    unsigned!(16, 0, 37_799), // toe
    unsigned!(32), // e
    unsigned!(32), // root_a
    signed!(32), // omega0
    signed!(32), // omega
    signed!(22), // omega_dot
    signed!(32), // i0
    reserved!(2), // spare
    reserved!(2), // reserved2
    reserved!(6), // filler
];

/// The fields of message 1042, BeiDou ephemeris.
pub const FIELDS_1042: [Field; 30] = [
    constant!(12, 1042), // number
    unsigned!(6, 1, 63), // satellite
    unsigned!(13), // week
    unsigned!(4), // ura
    signed!(14), // idot
    unsigned!(5), // aode
    unsigned!(17, 0, 75_599), // toc
    signed!(11), // af2
    signed!(22), // af1
    signed!(24), // af0
    unsigned!(5), // aodc
    signed!(18), // crs
    signed!(16), // delta_n
    signed!(32), // m0
    signed!(18), // cuc
    unsigned!(32), // e
    signed!(18), // cus
    unsigned!(32), // root_a
    unsigned!(17, 0, 75_599), // toe
    signed!(18), // cic
    signed!(32), // omega0
    signed!(18), // cis
    signed!(32), // i0
    signed!(18), // crc
    signed!(32), // omega
    signed!(24), // omega_dot
    signed!(10), // tgd1
    signed!(10), // tgd2
    unsigned!(1), // health
    reserved!(1), // filler
];

/// The fields of message 1044, QZSS ephemeris.
pub const FIELDS_1044: [Field; 31] = with_orbit!(
    [
        constant!(12, 1044), // number
        unsigned!(4, 1, 10), // satellite
        unsigned!(16, 0, 37_799), // toc
        signed!(8), // af2
        signed!(16), // af1
        signed!(22), // af0
        unsigned!(8) // iode
    ],
    unsigned!(16, 0, 37_799), // toe
    [
        signed!(14), // idot
        unsigned!(2), // l2_code
        unsigned!(10), // week
        unsigned!(4), // ura
        unsigned!(6), // health
        signed!(8), // tgd
        unsigned!(10), // iodc
        unsigned!(1), // fit
        reserved!(3) // filler
    ]
);

/// The fields of message 1045, Galileo F/NAV ephemeris.
pub const FIELDS_1045: [Field; 29] = with_orbit!(
    [
        constant!(12, 1045), // number
        unsigned!(6, 1, 36), // satellite
        unsigned!(12), // week
        unsigned!(10), // iodnav
        unsigned!(8), // sisa
        signed!(14), // idot
        unsigned!(14, 0, 10_079), // toc
        signed!(6), // af2
        signed!(21), // af1
        signed!(31) // af0
    ],
    unsigned!(14, 0, 10_079), // toe
    [
        signed!(10), // bgd_a
        unsigned!(2), // hs_e5a
        unsigned!(1), // dvs_e5a
        reserved!(7) // reserved
    ]
);

/// The fields of message 1046, Galileo I/NAV ephemeris.
pub const FIELDS_1046: [Field; 32] = with_orbit!(
    [
        constant!(12, 1046), // number
        unsigned!(6, 1, 36), // satellite
        unsigned!(12), // week
        unsigned!(10), // iodnav
        unsigned!(8), // sisa
        signed!(14), // idot
        unsigned!(14, 0, 10_079), // toc
        signed!(6), // af2
        signed!(21), // af1
        signed!(31) // af0
    ],
    unsigned!(14, 0, 10_079), // toe
    [
        signed!(10), // bgd_a
        signed!(10), // bgd_b
        unsigned!(2), // hs_e5b
        unsigned!(1), // dvs_e5b
        unsigned!(2), // hs_e1b
        unsigned!(1), // dvs_e1b
        reserved!(2) // reserved
    ]
);

/// Message 1046, Galileo I/NAV ephemeris.
pub fn table_1046() -> Table
    ensures fields { result.fields.now ≡ FIELDS_1046 }
    ensures bytes { result.bytes ≡ 63 }
    ensures table { IsTrue (is_table result) }
{
    Table {
        fields: &FIELDS_1046,
        bytes: 63,
    }
}

/// The fields of message 9 of SBAS, GEO navigation data (RTCA DO-229), with the number of its
/// satellite in front, PRN less 100; no message of RTCM carries them.
pub const FIELDS_SBAS: [Field; 17] = [
    constant!(6, 9), // type
    unsigned!(8, 20, 58), // satellite
    unsigned!(8), // iodn
    unsigned!(13, 0, 5_399), // t0
    unsigned!(4), // ura
    signed!(30), // x
    signed!(30), // y
    signed!(25), // z
    signed!(17), // x_velocity
    signed!(17), // y_velocity
    signed!(18), // z_velocity
    signed!(10), // x_acceleration
    signed!(10), // y_acceleration
    signed!(10), // z_acceleration
    signed!(12), // agf0
    signed!(8), // agf1
    reserved!(6), // reserved
];

//! Where the columns of the records come from in their messages, a line a column.

use nav_tables::{Link, Part};

// The week of toe, the time of the frame, and a time of transmission that is not known.
const WEEK: Link = Link::Given { place: 0 };

const SENT: Link = Link::Given { place: 1 };

const NOT_KNOWN: Link = Link::Fixed {
    number: 999_900_000,
};

// So many bits of a column, with so many below them: the number of a field.
macro_rules! part {
    ($field:literal, $width:literal, $low:literal) => {
        Part {
            field: $field,
            width: $width,
            low: $low,
        }
    };
}

// The fields of an orbit from crs to omega_dot, which stand in this order in messages too, between
// others; the offset of crs.
macro_rules! with_orbit {
    ([$($before:expr),*], $crs:literal, [$($after:expr),*]) => {
        [
            $($before,)*
            Link::Field { field: $crs }, // crs
            Link::Field { field: $crs + 1 }, // delta_n
            Link::Field { field: $crs + 2 }, // m0
            Link::Field { field: $crs + 3 }, // cuc
            Link::Field { field: $crs + 4 }, // e
            Link::Field { field: $crs + 5 }, // cus
            Link::Field { field: $crs + 6 }, // root_a
            Link::Field { field: $crs + 7 }, // toe
            Link::Field { field: $crs + 8 }, // cic
            Link::Field { field: $crs + 9 }, // omega0
            Link::Field { field: $crs + 10 }, // cis
            Link::Field { field: $crs + 11 }, // i0
            Link::Field { field: $crs + 12 }, // crc
            Link::Field { field: $crs + 13 }, // omega
            Link::Field { field: $crs + 14 }, // omega_dot
            $($after,)*
        ]
    };
}

/// Where the columns of a GLONASS FDMA ephemeris come from in message 1020.
pub const FDMA_LINKS: [Link; 19] = [
    Link::Opposite { field: 25 }, // tau
    Link::Field { field: 22 }, // gamma
    SENT, // sent
    Link::Field { field: 13 }, // x
    Link::Field { field: 12 }, // x_velocity
    Link::Field { field: 14 }, // x_acceleration
    Link::Field { field: 9 }, // health
    Link::Field { field: 16 }, // y
    Link::Field { field: 15 }, // y_velocity
    Link::Field { field: 17 }, // y_acceleration
    Link::Raised { field: 2, plus: -7 }, // frequency
    Link::Field { field: 19 }, // z
    Link::Field { field: 18 }, // z_velocity
    Link::Field { field: 20 }, // z_acceleration
    Link::Field { field: 27 }, // age
    Link::Parts { first: 0, count: 6 }, // status_flags
    Link::Field { field: 26 }, // delta_tau
    Link::Field { field: 29 }, // urai
    Link::Parts { first: 6, count: 3 }, // health_flags
];

/// The parts of its columns.
pub const FDMA_PARTS: [Part; 9] = [
    part!(31, 2, 7), // m
    part!(28, 1, 6), // p4
    part!(21, 1, 5), // p3
    part!(10, 1, 4), // p2
    part!(5, 2, 2), // p1
    part!(23, 2, 0), // p
    part!(24, 1, 2), // l3
    part!(4, 1, 1), // almanac_health_known
    part!(3, 1, 0), // almanac_health
];

/// Where the columns of a BeiDou D1 and D2 ephemeris come from in message 1042.
pub const D1_LINKS: [Link; 29] = with_orbit!(
    [
        Link::Field { field: 9 }, // af0
        Link::Field { field: 8 }, // af1
        Link::Field { field: 7 }, // af2
        Link::Field { field: 5 } // aode
    ],
    11, // crs
    [
        Link::Field { field: 4 }, // idot
        Link::Fixed { number: 0 }, // spare
        WEEK, // toe_week
        Link::Fixed { number: 0 }, // spare
        Link::Field { field: 3 }, // ura
        Link::Field { field: 28 }, // health
        Link::Field { field: 26 }, // tgd1
        Link::Field { field: 27 }, // tgd2
        NOT_KNOWN, // sent
        Link::Field { field: 10 } // aodc
    ]
);

/// The parts of its columns.
pub const D1_PARTS: [Part; 0] = [];

/// Where the columns of a Galileo F/NAV ephemeris come from in message 1045.
pub const FNAV_LINKS: [Link; 27] = with_orbit!(
    [
        Link::Field { field: 9 }, // af0
        Link::Field { field: 8 }, // af1
        Link::Field { field: 7 }, // af2
        Link::Field { field: 3 } // iodnav
    ],
    10, // crs
    [
        Link::Field { field: 5 }, // idot
        Link::Fixed { number: 258 }, // sources
        WEEK, // toe_week
        Link::Field { field: 4 }, // sisa
        Link::Parts { first: 0, count: 3 }, // health
        Link::Field { field: 25 }, // bgd_a
        Link::Fixed { number: 0 }, // bgd_b
        NOT_KNOWN // sent
    ]
);

/// The parts of its columns.
pub const FNAV_PARTS: [Part; 3] = [
    part!(26, 2, 4), // hs_e5a
    part!(27, 1, 3), // dvs_e5a
    part!(28, 3, 0), // zeros: reserved
];

/// Where the columns of a QZSS LNAV ephemeris come from in message 1044.
pub const QZSS_LINKS: [Link; 29] = with_orbit!(
    [
        Link::Field { field: 5 }, // af0
        Link::Field { field: 4 }, // af1
        Link::Field { field: 3 }, // af2
        Link::Field { field: 6 } // iode
    ],
    7, // crs
    [
        Link::Field { field: 22 }, // idot
        Link::Field { field: 23 }, // l2_code
        WEEK, // toe_week
        Link::Fixed { number: 1 }, // l2p
        Link::Field { field: 25 }, // ura
        Link::Field { field: 26 }, // health
        Link::Field { field: 27 }, // tgd
        Link::Field { field: 28 }, // iodc
        NOT_KNOWN, // sent
        Link::Field { field: 29 } // fit
    ]
);

/// The parts of its columns.
pub const QZSS_PARTS: [Part; 0] = [];

/// Where the columns of a NavIC LNAV ephemeris come from in message 1041.
pub const NAVIC_LINKS: [Link; 28] = [
    Link::Field { field: 3 }, // af0
    Link::Field { field: 4 }, // af1
    Link::Field { field: 5 }, // af2
    Link::Field { field: 10 }, // iodec
    Link::Field { field: 19 }, // crs
    Link::Field { field: 9 }, // delta_n
    Link::Field { field: 21 }, // m0
    Link::Field { field: 14 }, // cuc
    Link::Field { field: 23 }, // e
    Link::Field { field: 15 }, // cus
    Link::Field { field: 24 }, // root_a
    Link::Field { field: 22 }, // toe
    Link::Field { field: 16 }, // cic
    Link::Field { field: 25 }, // omega0
    Link::Field { field: 17 }, // cis
    Link::Field { field: 28 }, // i0
    Link::Field { field: 18 }, // crc
    Link::Field { field: 26 }, // omega
    Link::Field { field: 27 }, // omega_dot
    Link::Field { field: 20 }, // idot
    Link::Fixed { number: 0 }, // spare
    WEEK, // toe_week
    Link::Fixed { number: 0 }, // spare
    Link::Field { field: 6 }, // ura
    Link::Parts { first: 0, count: 2 }, // health
    Link::Field { field: 8 }, // tgd
    Link::Fixed { number: 0 }, // spare
    NOT_KNOWN, // sent
];

/// The parts of its columns.
pub const NAVIC_PARTS: [Part; 2] = [
    part!(12, 1, 1), // l5_flag
    part!(13, 1, 0), // s_flag
];

/// Where the columns of an SBAS ephemeris come from in message 9 of SBAS, whose health is not in
/// it.
pub const SBAS_LINKS: [Link; 15] = [
    Link::Field { field: 14 }, // agf0
    Link::Field { field: 15 }, // agf1
    SENT, // sent
    Link::Field { field: 5 }, // x
    Link::Field { field: 8 }, // x_velocity
    Link::Field { field: 11 }, // x_acceleration
    Link::Fixed { number: 0 }, // health
    Link::Field { field: 6 }, // y
    Link::Field { field: 9 }, // y_velocity
    Link::Field { field: 12 }, // y_acceleration
    Link::Field { field: 4 }, // ura
    Link::Field { field: 7 }, // z
    Link::Field { field: 10 }, // z_velocity
    Link::Field { field: 13 }, // z_acceleration
    Link::Field { field: 2 }, // iodn
];

/// The parts of its columns.
pub const SBAS_PARTS: [Part; 0] = [];

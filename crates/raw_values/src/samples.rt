//! Samples that several crates of tests take.

use crate::ephemerides::{GalNumbers, GpsNumbers};
use crate::galileo::{HealthNumbers, Word1Numbers, Word2Numbers, Word3Numbers, Word4Numbers};
use crate::sample_gps::{ClockNumbers, OrbitANumbers, OrbitBNumbers, SideNumbers};

/// A clock of zeroes.
pub const CLOCK_OF_ZEROES: ClockNumbers = ClockNumbers {
    iodc: 0,
    toc: 0,
    af2: 0,
    af1: 0,
    af0: 0,
    tgd: 0,
};

/// What subframe 1 has next to a clock, all 0.
pub const SIDE_OF_ZEROES: SideNumbers = SideNumbers {
    l2_code: 0,
    ura: 0,
    health: 0,
    l2p: 0,
};

/// An ephemeris of G05 that is 0 but for the week.
pub const G05_OF_ZEROES: GpsNumbers = GpsNumbers {
    sat: 5,
    week: 2295,
    clock: CLOCK_OF_ZEROES,
    side: SIDE_OF_ZEROES,
    a: OrbitANumbers {
        iode: 0,
        crs: 0,
        delta_n: 0,
        m0: 0,
        cuc: 0,
        e: 0,
        cus: 0,
        root_a: 0,
        toe: 0,
    },
    fit: 0,
    b: OrbitBNumbers {
        iode: 0,
        cic: 0,
        omega0: 0,
        cis: 0,
        i0: 0,
        crc: 0,
        omega: 0,
        omega_dot: 0,
        idot: 0,
    },
};

/// An ephemeris of G32 that an independent program made.
pub const G32_OF_WEEK_2294: GpsNumbers = GpsNumbers {
    sat: 32,
    week: 2294,
    clock: ClockNumbers {
        iodc: 1,
        toc: 225,
        af2: -111,
        af1: -8,
        af0: -930363,
        tgd: 0,
    },
    side: SideNumbers {
        l2_code: 0,
        ura: 2,
        health: 45,
        l2p: 1,
    },
    a: OrbitANumbers {
        iode: 15,
        crs: 1,
        delta_n: 0,
        m0: -929809505,
        cuc: 7754,
        e: 0,
        cus: 28853,
        root_a: 4294967295,
        toe: 37500,
    },
    fit: 1,
    b: OrbitBNumbers {
        iode: 15,
        cic: -32347,
        omega0: -2147483647,
        cis: -26443,
        i0: -949999335,
        crc: -30499,
        omega: -1831812308,
        omega_dot: 8388607,
        idot: 36,
    },
};

/// An ephemeris of G01 that an independent program made.
pub const G01_OF_WEEK_1783: GpsNumbers = GpsNumbers {
    sat: 1,
    week: 1783,
    clock: ClockNumbers {
        iodc: 41,
        toc: 18900,
        af2: 90,
        af1: 1,
        af0: 1564431,
        tgd: 43,
    },
    side: SideNumbers {
        l2_code: 0,
        ura: 1,
        health: 44,
        l2p: 0,
    },
    a: OrbitANumbers {
        iode: 41,
        crs: -15,
        delta_n: 0,
        m0: 1,
        cuc: 0,
        e: 2987039595,
        cus: -2582,
        root_a: 1,
        toe: 28348,
    },
    fit: 0,
    b: OrbitBNumbers {
        iode: 41,
        cic: 1,
        omega0: -1831748688,
        cis: 0,
        i0: 680349975,
        crc: 24538,
        omega: 2147483647,
        omega_dot: 4692849,
        idot: -6430,
    },
};

/// An ephemeris of E11 that is 0 but for the week, the issue and the accuracy.
pub const E11_OF_ZEROES: GalNumbers = GalNumbers {
    sat: 11,
    week: 2295,
    w1: Word1Numbers {
        iodnav: 5,
        toe: 0,
        m0: 0,
        e: 0,
        root_a: 0,
    },
    w2: Word2Numbers {
        iodnav: 5,
        omega0: 0,
        i0: 0,
        omega: 0,
        idot: 0,
    },
    w3: Word3Numbers {
        iodnav: 5,
        omega_dot: 0,
        delta_n: 0,
        cuc: 0,
        cus: 0,
        crc: 0,
        crs: 0,
        sisa: 107,
    },
    w4: Word4Numbers {
        iodnav: 5,
        cic: 0,
        cis: 0,
        toc: 0,
        af0: 0,
        af1: 0,
        af2: 0,
    },
    health: HealthNumbers {
        bgd_a: 0,
        bgd_b: 0,
        hs_e5b: 0,
        hs_e1b: 0,
        dvs_e5b: 0,
        dvs_e1b: 0,
    },
};

/// An ephemeris of E01 that an independent program made.
pub const E01_OF_ISSUE_378: GalNumbers = GalNumbers {
    sat: 1,
    week: 2296,
    w1: Word1Numbers {
        iodnav: 378,
        toe: 120,
        m0: -2147483647,
        e: 0,
        root_a: 2753624108,
    },
    w2: Word2Numbers {
        iodnav: 378,
        omega0: 0,
        i0: 2147483647,
        omega: 0,
        idot: -8192,
    },
    w3: Word3Numbers {
        iodnav: 378,
        omega_dot: -47154,
        delta_n: 32766,
        cuc: 32767,
        cus: 0,
        crc: -9021,
        crs: -32768,
        sisa: 107,
    },
    w4: Word4Numbers {
        iodnav: 378,
        cic: 0,
        cis: 0,
        toc: 8040,
        af0: 1073741823,
        af1: 810508,
        af2: -31,
    },
    health: HealthNumbers {
        bgd_a: -336,
        bgd_b: -188,
        hs_e5b: 0,
        hs_e1b: 0,
        dvs_e5b: 0,
        dvs_e1b: 1,
    },
};

/// An ephemeris of E01 that an independent program made, with no accuracy.
pub const E01_OF_ISSUE_0: GalNumbers = GalNumbers {
    sat: 1,
    week: 2296,
    w1: Word1Numbers {
        iodnav: 0,
        toe: 9259,
        m0: 1166023808,
        e: 0,
        root_a: 4166526900,
    },
    w2: Word2Numbers {
        iodnav: 0,
        omega0: 24,
        i0: 8,
        omega: -1,
        idot: 1,
    },
    w3: Word3Numbers {
        iodnav: 0,
        omega_dot: 13,
        delta_n: -29938,
        cuc: 0,
        cus: -18744,
        crc: 0,
        crs: 19992,
        sisa: 255,
    },
    w4: Word4Numbers {
        iodnav: 0,
        cic: -32767,
        cis: -21693,
        toc: 9232,
        af0: 680618031,
        af1: -892621,
        af2: -32,
    },
    health: HealthNumbers {
        bgd_a: 510,
        bgd_b: 26,
        hs_e5b: 0,
        hs_e1b: 1,
        dvs_e5b: 1,
        dvs_e1b: 0,
    },
};

/// Message 1019 of [`G05_OF_ZEROES`].
pub const MESSAGE_1019_OF_G05: [u8; 61] =
    *b"\x3f\xb1\x4f\x70\x00\x00\x00\x00\x00\x00\x00\x00\x00\x00\x00\x00\x00\x00\x00\x00\x00\x00\x00\
     \x00\x00\x00\x00\x00\x00\x00\x00\x00\x00\x00\x00\x00\x00\x00\x00\x00\x00\x00\x00\x00\x00\x00\
     \x00\x00\x00\x00\x00\x00\x00\x00\x00\x00\x00\x00\x00\x00\x00";

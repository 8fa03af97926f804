//! The records as tables of columns.

ghost use Rattle.std.specs.Prelude.{◌≡◌, length, map, true};
ghost use Rattle.rinex_write.specs.Columns.{are_good};
ghost use Rattle.rinex_write.specs.Mirrors.{IsTable};
ghost use Rattle.rinex_write.specs.RowTexts.{split_rows};
ghost use Rattle.rinex_write.specs.Columns.{joined_rows};
ghost use Rattle.rinex_write.specs.Layouts.{gps_rows, galileo_rows, gps_ionosphere_rows};
ghost use Rattle.rinex_write.specs.Layouts.{galileo_ionosphere_rows};

use crate::columns::{Column, Rule};
use scaled_decimal::Scale;

/// The columns of a record, and how many each of its lines after the title has.
#[derive(Clone, Copy)]
pub struct RecordLayout {
    /// The columns of all lines.
    pub columns: &'static [Column],
    /// How many columns each line has.
    pub rows: &'static [usize],
}

// The rule of a field from one number to another.
macro_rules! range {
    ($low:expr, $high:expr) => {
        Rule::Plain {
            low: $low,
            high: $high,
        }
    };
}

// The same of some width in bits, in two's complement or unsigned.
macro_rules! signed {
    ($width:literal) => {
        range!(-(1 << ($width - 1)), (1 << ($width - 1)) - 1)
    };
}

macro_rules! unsigned {
    ($width:literal) => {
        range!(0, (1 << $width) - 1)
    };
}

// The same where a blank column is read as 0, and where the least number is a blank column.
macro_rules! or_zero {
    ($low:expr, $high:expr) => {
        Rule::OrZero {
            low: $low,
            high: $high,
        }
    };
}

macro_rules! flags {
    ($width:literal) => {
        or_zero!(0, (1 << $width) - 1)
    };
}

macro_rules! least_signed {
    ($width:literal) => {
        Rule::OrLeast {
            low: -(1 << ($width - 1)),
            high: (1 << ($width - 1)) - 1,
        }
    };
}

// The same where the number can be not known.
macro_rules! or_unknown {
    ($low:expr, $high:expr) => {
        Rule::OrUnknown {
            low: $low,
            high: $high,
        }
    };
}

macro_rules! unread {
    ($number:literal) => {
        Rule::Unread { number: $number }
    };
}

// A column in units of 2^two; times pi where the field is in semicircles.
macro_rules! power {
    ($two:literal, $rule:expr) => {
        Column {
            scale: Scale {
                pi: false,
                factor: 1,
                two: $two,
                ten: 0,
            },
            rule: $rule,
        }
    };
}

macro_rules! semicircles {
    ($two:literal, $rule:expr) => {
        Column {
            scale: Scale {
                pi: true,
                factor: 1,
                two: $two,
                ten: 0,
            },
            rule: $rule,
        }
    };
}

// A column in units of an integer x 10^ten, and one of an integer.
macro_rules! decimal {
    ($factor:literal, $ten:literal, $rule:expr) => {
        Column {
            scale: Scale {
                pi: false,
                factor: $factor,
                two: 0,
                ten: $ten,
            },
            rule: $rule,
        }
    };
}

macro_rules! steps {
    ($factor:literal, $rule:expr) => {
        decimal!($factor, 0, $rule)
    };
}

// The week of toe.
const TOE_WEEK: Column = steps!(1, range!(1, 16_382));

static GPS: [Column; 29] = [
    power!(-31, signed!(22)),
    power!(-43, signed!(16)),
    power!(-55, signed!(8)),
    steps!(1, unsigned!(8)),
    power!(-5, signed!(16)),
    semicircles!(-43, signed!(16)),
    semicircles!(-31, signed!(32)),
    power!(-29, signed!(16)),
    power!(-33, unsigned!(32)),
    power!(-29, signed!(16)),
    power!(-19, unsigned!(32)),
    steps!(16, range!(0, 37_799)),
    power!(-29, signed!(16)),
    semicircles!(-31, signed!(32)),
    power!(-29, signed!(16)),
    semicircles!(-31, signed!(32)),
    power!(-5, signed!(16)),
    semicircles!(-31, signed!(32)),
    semicircles!(-43, signed!(24)),
    semicircles!(-43, signed!(14)),
    steps!(1, flags!(2)),
    TOE_WEEK,
    steps!(1, flags!(1)),
    decimal!(1, -2, Rule::Ura),
    steps!(1, unsigned!(6)),
    power!(-31, signed!(8)),
    steps!(1, unsigned!(10)),
    steps!(1, Rule::Sent),
    steps!(1, Rule::Fit),
];

static GPS_ROWS: [usize; 8] = [3, 4, 4, 4, 4, 4, 4, 2];

static GALILEO: [Column; 27] = [
    power!(-34, signed!(31)),
    power!(-46, signed!(21)),
    power!(-59, signed!(6)),
    steps!(1, unsigned!(10)),
    power!(-5, signed!(16)),
    semicircles!(-43, signed!(16)),
    semicircles!(-31, signed!(32)),
    power!(-29, signed!(16)),
    power!(-33, unsigned!(32)),
    power!(-29, signed!(16)),
    power!(-19, unsigned!(32)),
    steps!(60, range!(0, 10_079)),
    power!(-29, signed!(16)),
    semicircles!(-31, signed!(32)),
    power!(-29, signed!(16)),
    semicircles!(-31, signed!(32)),
    power!(-5, signed!(16)),
    semicircles!(-31, signed!(32)),
    semicircles!(-43, signed!(24)),
    semicircles!(-43, signed!(14)),
    steps!(1, unread!(517)),
    TOE_WEEK,
    decimal!(1, -2, Rule::Sisa),
    steps!(1, unsigned!(9)),
    power!(-32, signed!(10)),
    power!(-32, signed!(10)),
    steps!(1, Rule::Sent),
];

static GALILEO_ROWS: [usize; 8] = [3, 4, 4, 4, 4, 3, 4, 1];

static GPS_IONOSPHERE: [Column; 9] = [
    power!(-30, signed!(8)),
    power!(-27, signed!(8)),
    power!(-24, signed!(8)),
    power!(-24, signed!(8)),
    power!(11, signed!(8)),
    power!(14, signed!(8)),
    power!(16, signed!(8)),
    power!(16, signed!(8)),
    steps!(1, unread!(0)),
];

static GPS_IONOSPHERE_ROWS: [usize; 3] = [3, 4, 2];

static GALILEO_IONOSPHERE: [Column; 4] = [
    power!(-2, unsigned!(11)),
    power!(-8, signed!(11)),
    power!(-15, signed!(14)),
    steps!(1, flags!(5)),
];

static GALILEO_IONOSPHERE_ROWS: [usize; 2] = [3, 1];

/// The record of a GPS ephemeris (RINEX 4.01, GPS LNAV navigation record).
#[tactic(auto, unfolding(crate::specs::Layouts::gps_rows))]
pub fn gps_layout() -> RecordLayout
    ensures columns { result.columns.now ≡ joined_rows gps_rows }
    ensures rows { result.rows.now ≡ map length gps_rows }
{
    RecordLayout {
        columns: &GPS,
        rows: &GPS_ROWS,
    }
}

/// The record of a Galileo ephemeris (RINEX 4.01, Galileo INAV navigation record).
#[tactic(auto, unfolding(crate::specs::Layouts::galileo_rows))]
pub fn galileo_layout() -> RecordLayout
    ensures columns { result.columns.now ≡ joined_rows galileo_rows }
    ensures rows { result.rows.now ≡ map length galileo_rows }
{
    RecordLayout {
        columns: &GALILEO,
        rows: &GALILEO_ROWS,
    }
}

/// The record of the GPS ionosphere parameters.
#[tactic(auto, unfolding(crate::specs::Layouts::gps_ionosphere_rows))]
pub fn gps_ionosphere_layout() -> RecordLayout
    ensures columns { result.columns.now ≡ joined_rows gps_ionosphere_rows }
    ensures rows { result.rows.now ≡ map length gps_ionosphere_rows }
{
    RecordLayout {
        columns: &GPS_IONOSPHERE,
        rows: &GPS_IONOSPHERE_ROWS,
    }
}

/// The record of the Galileo ionosphere parameters.
#[tactic(auto, unfolding(crate::specs::Layouts::galileo_ionosphere_rows))]
pub fn galileo_ionosphere_layout() -> RecordLayout
    ensures columns { result.columns.now ≡ joined_rows galileo_ionosphere_rows }
    ensures rows { result.rows.now ≡ map length galileo_ionosphere_rows }
{
    RecordLayout {
        columns: &GALILEO_IONOSPHERE,
        rows: &GALILEO_IONOSPHERE_ROWS,
    }
}

/// The columns of a GLONASS FDMA ephemeris.
pub const FDMA: [Column; 19] = [
    power!(-30, range!(-2_097_151, 2_097_151)), // tau
    power!(-40, range!(-1023, 1023)), // gamma
    steps!(1, range!(0, 604_799)), // sent
    power!(-11, range!(-67_108_863, 67_108_863)), // x
    power!(-20, range!(-8_388_607, 8_388_607)), // x_velocity
    power!(-30, range!(-15, 15)), // x_acceleration
    steps!(1, unsigned!(3)), // health
    power!(-11, range!(-67_108_863, 67_108_863)), // y
    power!(-20, range!(-8_388_607, 8_388_607)), // y_velocity
    power!(-30, range!(-15, 15)), // y_acceleration
    steps!(1, range!(-7, 13)), // frequency
    power!(-11, range!(-67_108_863, 67_108_863)), // z
    power!(-20, range!(-8_388_607, 8_388_607)), // z_velocity
    power!(-30, range!(-15, 15)), // z_acceleration
    steps!(1, unsigned!(5)), // age
    steps!(1, or_unknown!(0, 511)), // status_flags
    power!(-30, or_unknown!(-15, 15)), // delta_tau
    steps!(1, or_unknown!(0, 15)), // urai
    steps!(1, or_unknown!(0, 7)), // health_flags
];

/// How many columns each of its lines has.
pub const FDMA_ROWS: [usize; 5] = [3, 4, 4, 4, 4];

/// The columns of a BeiDou D1 and D2 ephemeris.
pub const D1: [Column; 29] = [
    power!(-33, signed!(24)), // af0
    power!(-50, signed!(22)), // af1
    power!(-66, signed!(11)), // af2
    steps!(1, unsigned!(5)), // aode
    power!(-6, signed!(18)), // crs
    semicircles!(-43, signed!(16)), // delta_n
    semicircles!(-31, signed!(32)), // m0
    power!(-31, signed!(18)), // cuc
    power!(-33, unsigned!(32)), // e
    power!(-31, signed!(18)), // cus
    power!(-19, unsigned!(32)), // root_a
    steps!(8, range!(0, 75_599)), // toe
    power!(-31, signed!(18)), // cic
    semicircles!(-31, signed!(32)), // omega0
    power!(-31, signed!(18)), // cis
    semicircles!(-31, signed!(32)), // i0
    power!(-6, signed!(18)), // crc
    semicircles!(-31, signed!(32)), // omega
    semicircles!(-43, signed!(24)), // omega_dot
    semicircles!(-43, signed!(14)), // idot
    steps!(1, unread!(0)), // spare
    steps!(1, range!(0, 15_026)), // toe_week
    steps!(1, unread!(0)), // spare
    decimal!(1, -2, Rule::Ura), // ura
    steps!(1, unsigned!(1)), // health
    decimal!(1, -10, signed!(10)), // tgd1
    decimal!(1, -10, signed!(10)), // tgd2
    steps!(1, Rule::Sent), // sent
    steps!(1, unsigned!(5)), // aodc
];

/// How many columns each of its lines has.
pub const D1_ROWS: [usize; 8] = [3, 4, 4, 4, 4, 4, 4, 2];

/// The columns of a Galileo F/NAV ephemeris.
pub const FNAV: [Column; 27] = [
    power!(-34, signed!(31)), // af0
    power!(-46, signed!(21)), // af1
    power!(-59, signed!(6)), // af2
    steps!(1, unsigned!(10)), // iodnav
    power!(-5, signed!(16)), // crs
    semicircles!(-43, signed!(16)), // delta_n
    semicircles!(-31, signed!(32)), // m0
    power!(-29, signed!(16)), // cuc
    power!(-33, unsigned!(32)), // e
    power!(-29, signed!(16)), // cus
    power!(-19, unsigned!(32)), // root_a
    steps!(60, range!(0, 10_079)), // toe
    power!(-29, signed!(16)), // cic
    semicircles!(-31, signed!(32)), // omega0
    power!(-29, signed!(16)), // cis
    semicircles!(-31, signed!(32)), // i0
    power!(-5, signed!(16)), // crc
    semicircles!(-31, signed!(32)), // omega
    semicircles!(-43, signed!(24)), // omega_dot
    semicircles!(-43, signed!(14)), // idot
    steps!(1, unread!(258)), // sources
    TOE_WEEK, // toe_week
    decimal!(1, -2, Rule::Sisa), // sisa
    steps!(1, unsigned!(9)), // health
    power!(-32, signed!(10)), // bgd_a
    steps!(1, unread!(0)), // bgd_b
    steps!(1, Rule::Sent), // sent
];

/// How many columns each of its lines has.
pub const FNAV_ROWS: [usize; 8] = [3, 4, 4, 4, 4, 3, 4, 1];

/// The columns of a QZSS LNAV ephemeris.
pub const QZSS: [Column; 29] = [
    power!(-31, signed!(22)), // af0
    power!(-43, signed!(16)), // af1
    power!(-55, signed!(8)), // af2
    steps!(1, unsigned!(8)), // iode
    power!(-5, signed!(16)), // crs
    semicircles!(-43, signed!(16)), // delta_n
    semicircles!(-31, signed!(32)), // m0
    power!(-29, signed!(16)), // cuc
    power!(-33, unsigned!(32)), // e
    power!(-29, signed!(16)), // cus
    power!(-19, unsigned!(32)), // root_a
    steps!(16, range!(0, 37_799)), // toe
    power!(-29, signed!(16)), // cic
    semicircles!(-31, signed!(32)), // omega0
    power!(-29, signed!(16)), // cis
    semicircles!(-31, signed!(32)), // i0
    power!(-5, signed!(16)), // crc
    semicircles!(-31, signed!(32)), // omega
    semicircles!(-43, signed!(24)), // omega_dot
    semicircles!(-43, signed!(14)), // idot
    steps!(1, flags!(2)), // l2_code
    TOE_WEEK, // toe_week
    steps!(1, unread!(1)), // l2p
    decimal!(1, -2, Rule::Ura), // ura
    steps!(1, unsigned!(6)), // health
    power!(-31, least_signed!(8)), // tgd
    steps!(1, unsigned!(10)), // iodc
    steps!(1, Rule::Sent), // sent
    steps!(1, flags!(1)), // fit
];

/// How many columns each of its lines has.
pub const QZSS_ROWS: [usize; 8] = [3, 4, 4, 4, 4, 4, 4, 2];

/// The columns of a NavIC LNAV ephemeris.
pub const NAVIC: [Column; 28] = [
    power!(-31, signed!(22)), // af0
    power!(-43, signed!(16)), // af1
    power!(-55, signed!(8)), // af2
    steps!(1, unsigned!(8)), // iodec
    power!(-4, signed!(15)), // crs
    semicircles!(-41, signed!(22)), // delta_n
    semicircles!(-31, signed!(32)), // m0
    power!(-28, signed!(15)), // cuc
    power!(-33, unsigned!(32)), // e
    power!(-28, signed!(15)), // cus
    power!(-19, unsigned!(32)), // root_a
    steps!(16, range!(0, 37_799)), // toe
    power!(-28, signed!(15)), // cic
    semicircles!(-31, signed!(32)), // omega0
    power!(-28, signed!(15)), // cis
    semicircles!(-31, signed!(32)), // i0
    power!(-4, signed!(15)), // crc
    semicircles!(-31, signed!(32)), // omega
    semicircles!(-41, signed!(22)), // omega_dot
    semicircles!(-43, signed!(14)), // idot
    steps!(1, unread!(0)), // spare
    TOE_WEEK, // toe_week
    steps!(1, unread!(0)), // spare
    decimal!(1, -2, Rule::Ura), // ura
    steps!(1, unsigned!(2)), // health
    power!(-31, signed!(8)), // tgd
    steps!(1, unread!(0)), // spare
    steps!(1, Rule::Sent), // sent
];

/// How many columns each of its lines has.
pub const NAVIC_ROWS: [usize; 8] = [3, 4, 4, 4, 4, 4, 4, 1];

/// The columns of a SBAS ephemeris.
pub const SBAS: [Column; 15] = [
    power!(-31, signed!(12)), // agf0
    power!(-40, signed!(8)), // agf1
    steps!(1, range!(-302_400, 907_199)), // sent
    decimal!(8, -5, signed!(30)), // x
    decimal!(625, -9, signed!(17)), // x_velocity
    decimal!(125, -10, signed!(10)), // x_acceleration
    steps!(1, unsigned!(6)), // health
    decimal!(8, -5, signed!(30)), // y
    decimal!(625, -9, signed!(17)), // y_velocity
    decimal!(125, -10, signed!(10)), // y_acceleration
    decimal!(1, -2, Rule::Ura), // ura
    decimal!(4, -4, signed!(25)), // z
    decimal!(4, -6, signed!(18)), // z_velocity
    decimal!(625, -10, signed!(10)), // z_acceleration
    steps!(1, unsigned!(8)), // iodn
];

/// How many columns each of its lines has.
pub const SBAS_ROWS: [usize; 4] = [3, 4, 4, 4];

/// The record of an SBAS ephemeris; no message of RTCM carries one.
pub fn sbas_layout() -> RecordLayout
    ensures columns { result.columns.now ≡ joined_rows (split_rows SBAS_ROWS SBAS) }
    ensures rows { result.rows.now ≡ map length (split_rows SBAS_ROWS SBAS) }
    ensures table { IsTable result.rows.now result.columns.now }
    ensures good { are_good result.columns.now ≡ true }
{
    RecordLayout {
        columns: &SBAS,
        rows: &SBAS_ROWS,
    }
}

//! The kinds of ephemerides: what differs between them, as constants.

ghost use Rattle.std.specs.Prelude.{◌≡◌, ◌≤◌, ◌+◌, IsTrue, IfSome, codes, length};
ghost use Rattle.nav_rows.specs.Kinds.{HasName, IsKind, is_titled, is_whole, kind_titled, name_of};

use crate::links::{
    D1_LINKS, D1_PARTS, FDMA_LINKS, FDMA_PARTS, FNAV_LINKS, FNAV_PARTS, NAVIC_LINKS, NAVIC_PARTS,
    QZSS_LINKS, QZSS_PARTS, SBAS_LINKS, SBAS_PARTS,
};
use crate::tables::{FIELDS_1020, FIELDS_1041, FIELDS_1042, FIELDS_1044, FIELDS_1045, FIELDS_SBAS};
use nav_tables::{Link, Part, Table, WeekRule};
use rinex_read::columns;
use rinex_write::{
    D1, D1_ROWS, FDMA, FDMA_ROWS, FNAV, FNAV_ROWS, NAVIC, NAVIC_ROWS, QZSS, QZSS_ROWS,
    RecordLayout, SBAS, SBAS_ROWS,
};

/// The scale in which the epochs of a kind's records are dates.
#[derive(Clone, Copy, PartialEq, Eq)]
pub enum TimeScale {
    /// GPS time; that of QZSS and of NavIC is printed as it.
    Gps,
    /// Galileo's, printed as GPS time.
    Galileo,
    /// BeiDou's.
    BeiDou,
    /// UTC.
    Utc,
}

/// How a message counts weeks, and where its times of week are.
#[derive(Clone, Copy)]
pub struct WeekClock {
    /// What its week number means.
    pub rule: WeekRule,
    /// The week, counted from 1980-01-06, that records count as 0.
    pub zero: u32,
    /// The unit of toe and toc in seconds.
    pub step: u32,
    /// The field with the week number.
    pub week: usize,
    /// The field with toe.
    pub toe: usize,
    /// The field with toc.
    pub toc: usize,
}

/// How a message gives its times.
#[derive(Clone, Copy)]
pub enum Clock {
    /// By the day and the time of its frame (message 1020).
    Frame,
    /// By a week number and two times of week.
    Weeks(WeekClock),
    /// By a time of day alone, of this unit in seconds: only a record tells the day.
    Daily(u32),
}

/// A kind of ephemeris: all that distinguishes it from others.
#[derive(Clone, Copy)]
pub struct Kind {
    /// The letter of its system.
    pub letter: u8,
    /// The message type of its records, two to four letters.
    pub title: &'static [u8],
    /// What the PRN of a satellite is above its number.
    pub prn: u8,
    /// The scale of its epochs.
    pub scale: TimeScale,
    /// The place of its system in the order of records: GPS, Galileo, GLONASS, BeiDou, QZSS, NavIC,
    /// SBAS.
    pub system: u8,
    /// The place of its message type among those of its system.
    pub message: u8,
    /// The column with the time of transmission, or of the frame.
    pub sent: usize,
    /// Whether its records may lack the last of five lines.
    pub may_end_early: bool,
    /// How its message gives its times.
    pub clock: Clock,
    /// The field with a SISA index, of which 126 to 254 are spare.
    pub sisa: Option<usize>,
    /// Its message.
    pub table: Table,
    /// Where the columns of its records come from.
    pub links: &'static [Link],
    /// The parts of these columns.
    pub parts: &'static [Part],
    /// Its records.
    pub layout: RecordLayout,
}

// A clock of weeks: bits of the week number, its week 0, the records' week 0, the unit of toe and
// toc, and the three fields.
macro_rules! weeks {
    ($bits:literal, $from:literal, $zero:literal, $step:literal, $week:literal, $toe:literal,
        $toc:literal) => {
        Clock::Weeks(WeekClock {
            rule: WeekRule {
                bits: $bits,
                zero: $from,
            },
            zero: $zero,
            step: $step,
            week: $week,
            toe: $toe,
            toc: $toc,
        })
    };
}

macro_rules! message {
    ($fields:ident, $bytes:literal) => {
        Table {
            fields: &$fields,
            bytes: $bytes,
        }
    };
}

macro_rules! layout {
    ($columns:ident, $rows:ident) => {
        RecordLayout {
            columns: &$columns,
            rows: &$rows,
        }
    };
}

/// GLONASS FDMA.
pub fn kind_fdma() -> Kind
    ensures kind { IsKind result }
    ensures name { HasName result (codes "R") (codes "FDMA") }
{
    Kind {
        letter: b'R',
        title: b"FDMA",
        prn: 0,
        scale: TimeScale::Utc,
        system: 2,
        message: 0,
        sent: 2,
        may_end_early: true,
        clock: Clock::Frame,
        sisa: None,
        table: message!(FIELDS_1020, 45),
        links: &FDMA_LINKS,
        parts: &FDMA_PARTS,
        layout: layout!(FDMA, FDMA_ROWS),
    }
}

/// BeiDou D1, of satellites in inclined orbits.
pub fn kind_d1() -> Kind
    ensures kind { IsKind result }
    ensures name { HasName result (codes "C") (codes "D1") }
    ensures whole { IsTrue (is_whole result) }
{
    Kind {
        letter: b'C',
        title: b"D1",
        prn: 0,
        scale: TimeScale::BeiDou,
        system: 3,
        message: 0,
        sent: 27,
        may_end_early: false,
        clock: weeks!(13, 1356, 1356, 8, 2, 18, 6),
        sisa: None,
        table: message!(FIELDS_1042, 64),
        links: &D1_LINKS,
        parts: &D1_PARTS,
        layout: layout!(D1, D1_ROWS),
    }
}

/// BeiDou D2, of geostationary satellites; but for its title as D1.
pub fn kind_d2() -> Kind
    ensures kind { IsKind result }
    ensures name { HasName result (codes "C") (codes "D2") }
    ensures whole { IsTrue (is_whole result) }
{
    Kind {
        title: b"D2",
        system: 3,
        message: 1,
        ..kind_d1()
    }
}

/// Galileo F/NAV.
pub fn kind_fnav() -> Kind
    ensures kind { IsKind result }
    ensures name { HasName result (codes "E") (codes "FNAV") }
    ensures whole { IsTrue (is_whole result) }
{
    Kind {
        letter: b'E',
        title: b"FNAV",
        prn: 0,
        scale: TimeScale::Galileo,
        system: 1,
        message: 0,
        sent: 26,
        may_end_early: false,
        clock: weeks!(12, 1024, 0, 60, 2, 17, 6),
        sisa: Some(4),
        table: message!(FIELDS_1045, 62),
        links: &FNAV_LINKS,
        parts: &FNAV_PARTS,
        layout: layout!(FNAV, FNAV_ROWS),
    }
}

/// QZSS LNAV.
pub fn kind_qzss() -> Kind
    ensures kind { IsKind result }
    ensures name { HasName result (codes "J") (codes "LNAV") }
    ensures whole { IsTrue (is_whole result) }
{
    Kind {
        letter: b'J',
        title: b"LNAV",
        prn: 192,
        scale: TimeScale::Gps,
        system: 4,
        message: 0,
        sent: 27,
        may_end_early: false,
        clock: weeks!(10, 0, 0, 16, 24, 14, 2),
        sisa: None,
        table: message!(FIELDS_1044, 61),
        links: &QZSS_LINKS,
        parts: &QZSS_PARTS,
        layout: layout!(QZSS, QZSS_ROWS),
    }
}

/// NavIC LNAV.
pub fn kind_navic() -> Kind
    ensures kind { IsKind result }
    ensures name { HasName result (codes "I") (codes "LNAV") }
    ensures whole { IsTrue (is_whole result) }
{
    Kind {
        letter: b'I',
        title: b"LNAV",
        prn: 0,
        scale: TimeScale::Gps,
        system: 5,
        message: 0,
        sent: 27,
        may_end_early: false,
        clock: weeks!(10, 0, 0, 16, 2, 22, 7),
        sisa: None,
        table: message!(FIELDS_1041, 61),
        links: &NAVIC_LINKS,
        parts: &NAVIC_PARTS,
        layout: layout!(NAVIC, NAVIC_ROWS),
    }
}

/// SBAS, whose ephemeris no message of RTCM carries.
pub fn kind_sbas() -> Kind
    ensures kind { IsKind result }
    ensures name { HasName result (codes "S") (codes "SBAS") }
{
    Kind {
        letter: b'S',
        title: b"SBAS",
        prn: 100,
        scale: TimeScale::Gps,
        system: 6,
        message: 0,
        sent: 2,
        may_end_early: false,
        clock: Clock::Daily(16),
        sisa: None,
        table: message!(FIELDS_SBAS, 29),
        links: &SBAS_LINKS,
        parts: &SBAS_PARTS,
        layout: layout!(SBAS, SBAS_ROWS),
    }
}

/// The kind of the messages of a number; of 1042 satellites 1 to 5 and 59 to 63 send D2
/// (BDS-SIS-ICD-B1I-3.0).
pub fn kind_of(message: u16, satellite: u8) -> Option<Kind>
    ensures { IfSome result IsKind }
{
    match message {
        1020 => Some(kind_fdma()),
        1041 => Some(kind_navic()),
        1042 => Some(beidou_kind(satellite)),
        1044 => Some(kind_qzss()),
        1045 => Some(kind_fnav()),
        _ => None,
    }
}

// The kind of a BeiDou satellite.
fn beidou_kind(satellite: u8) -> Kind
    ensures kind { IsKind result }
    ensures letter { result.letter ≡ 67 }
{
    if satellite <= 5 || satellite >= 59 {
        kind_d2()
    } else {
        kind_d1()
    }
}

/// Whether a title of RINEX 4 has this letter and message type, of an ephemeris.
pub fn is_titled(title: &[u8; 80], letter: u8, message: &[u8]) -> bool
    requires { length message.now ≤ 4 }
    ensures { result ≡ is_titled letter message.now title.now }
{
    columns(title, 2, 3) == b"EPH".as_slice()
        && title[6] == letter
        && columns(title, 10, message.len()) == message
}

/// The kind of the records with a title of RINEX 4 (`> EPH R05 FDMA`).
pub fn kind_of_title(title: &[u8; 80]) -> Option<Kind>
    ensures kind { IfSome result IsKind }
    ensures name { name_of result ≡ kind_titled title.now }
{
    if is_titled(title, b'R', b"FDMA") {
        return Some(kind_fdma());
    }
    if is_titled(title, b'C', b"D1") {
        return Some(kind_d1());
    }
    if is_titled(title, b'C', b"D2") {
        return Some(kind_d2());
    }
    if is_titled(title, b'E', b"FNAV") {
        return Some(kind_fnav());
    }
    if is_titled(title, b'J', b"LNAV") {
        return Some(kind_qzss());
    }
    if is_titled(title, b'I', b"LNAV") {
        return Some(kind_navic());
    }
    if is_titled(title, b'S', b"SBAS") {
        return Some(kind_sbas());
    }
    None
}

/// The kind of the records of a system in RINEX 3, which names no message type; of BeiDou that of
/// the satellite. Galileo's records tell theirs by their data sources.
pub fn kind_of_letter(letter: u8, satellite: u8) -> Option<Kind>
    ensures kind { IfSome result IsKind }
    ensures letter { IfSome result (λ k. k.letter ≡ letter) }
{
    match letter {
        b'R' => Some(kind_fdma()),
        b'C' => Some(beidou_kind(satellite)),
        b'J' => Some(kind_qzss()),
        b'I' => Some(kind_navic()),
        b'S' => Some(kind_sbas()),
        _ => None,
    }
}

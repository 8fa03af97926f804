//! The titles of records: their kinds and satellites.

ghost use Rattle.std.specs.Prelude.{◌≡◌, ◌≤◌, ◌&&◌, length};
ghost use Rattle.rinex_read.specs.Lines.{stands_at};
ghost use Rattle.rinex_read.specs.Judging.{is_kind, named, same_sat, sat_of, satellite_of};
ghost use Rattle.rinex_read.specs.Mirrors.{kind_by};

use crate::line::{PaddedLine, columns, stands_at};
use crate::reason::RecordFault;
use nav_eph::{Sat, System};
use scaled_decimal::is_decimal;

/// The kinds of records that are read.
#[derive(Clone, Copy)]
pub(crate) enum RecordKind {
    /// A GPS LNAV ephemeris.
    GpsEphemeris,
    /// A Galileo I/NAV ephemeris.
    GalileoEphemeris,
    /// GPS ionosphere parameters.
    GpsIonosphere,
    /// Galileo ionosphere parameters.
    GalileoIonosphere,
}

// Whether the title has this record type, system letter and message type.
fn has_title(title: &PaddedLine, class: &[u8], letter: &[u8], message: &[u8]) -> bool
    requires class { length class.now ≤ 4 }
    requires letter { length letter.now ≤ 4 }
    requires message { length message.now ≤ 4 }
    ensures { result ≡ (stands_at 2 class.now title.now && stands_at 6 letter.now title.now
        && stands_at 10 message.now title.now) }
{
    stands_at(title, 2, class) && stands_at(title, 6, letter) && stands_at(title, 10, message)
}

/// Whether the title is one of that kind.
#[tactic(auto, unfolding(rinex_write::specs::Layouts::gps_kind, rinex_write::specs::Layouts::galileo_kind, rinex_write::specs::Layouts::gps_ionosphere_kind, rinex_write::specs::Layouts::galileo_ionosphere_kind,))]
pub(crate) fn is_kind(kind: RecordKind, title: &PaddedLine) -> bool
    ensures { result ≡ is_kind (kind_by kind) title.now }
{
    match kind {
        RecordKind::GpsEphemeris => has_title(title, b"EPH", b"G", b"LNAV"),
        RecordKind::GalileoEphemeris => has_title(title, b"EPH", b"E", b"INAV"),
        RecordKind::GpsIonosphere => has_title(title, b"ION", b"G", b"LNAV"),
        RecordKind::GalileoIonosphere => has_title(title, b"ION", b"E", b"IFNV"),
    }
}

// The satellite of a system with that number.
fn named(system: System, number: u8) -> Result<Sat, RecordFault>
    ensures { result ≡ named system number }
{
    match Sat::new(system, number) {
        Some(sat) => Ok(sat),
        None => Err(RecordFault::BadSat),
    }
}

// The satellite of a system with this two-digit number.
fn satellite_of(system: System, tens: u8, ones: u8) -> Result<Sat, RecordFault>
    ensures { result ≡ satellite_of system tens ones }
{
    if !is_decimal(ones) {
        return Err(RecordFault::BadSat);
    }
    if tens == b' ' {
        return named(system, ones - b'0');
    }
    if !is_decimal(tens) {
        return Err(RecordFault::BadSat);
    }
    named(system, 10 * (tens - b'0') + (ones - b'0'))
}

/// The satellite of a title.
pub(crate) fn sat_of(system: System, title: &PaddedLine) -> Result<Sat, RecordFault>
    ensures { result ≡ sat_of system title.now }
{
    satellite_of(system, title[7], title[8])
}

/// Whether a line begins with the satellite of the title.
pub(crate) fn same_sat(title: &PaddedLine, line: &PaddedLine) -> bool
    ensures { result ≡ same_sat title.now line.now }
{
    stands_at(line, 0, columns(title, 6, 3))
}

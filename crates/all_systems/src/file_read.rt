//! What a record gives.

ghost use Rattle.std.specs.List.{prefix_len};
ghost use Rattle.std.specs.Prelude.{◌≡◌, ◌≤◌, Err, IfOk, length};
ghost use Rattle.rinex_read.specs.Mirrors.{Gives};
ghost use Rattle.rinex_write.specs.Columns.{AreFields};
ghost use Rattle.nav_rows.specs.Kinds.{IsKind};
ghost use Rattle.nav_rows.specs.Rows.{value};
ghost use Rattle.all_systems.specs.FileMirrors.{HasFields, view_given};
ghost use Rattle.all_systems.specs.FileReadings.{is_own, lines_reading, nav_judged, own_lines};
ghost use Rattle.all_systems.specs.FileReadings.{reading_in, row_in};
ghost use Rattle.all_systems.specs.FileReadings.{other_reading, row_reading, sat_title};

use crate::Kinds;
use crate::select::kind_in;
use crate::version::Version;
use arrayvec::ArrayVec;
use nav_eph::NavItem;
use nav_rows::{Kind, Row, read_record};
use rinex_read::{Judged, RecordFault, RecordLines, columns, judge3};
use std::marker::Model;

/// What a record gives.
#[derive(Drop)]
pub(crate) enum Given {
    /// An ephemeris of GPS LNAV or Galileo I/NAV, or ionosphere parameters.
    Nav(NavItem),
    /// An ephemeris of a further kind.
    Further(Kind, Row),
    /// Nothing, for this reason.
    Refused(RecordFault),
    /// Nothing, and its lines are carried: it is of another kind of RINEX 4.
    Carried(ArrayVec<[u8; 80], 12>),
    /// Nothing: it is of a kind that is not read.
    Passed,
}

// A title of RINEX 4 with nothing but the satellite with which a line begins.
fn sat_title(line: &[u8; 80]) -> [u8; 80]
    ensures { result ≡ sat_title line.now }
{
    let mut title = [b' '; 80];
    title[6] = line[0];
    title[7] = line[1];
    title[8] = line[2];
    title
}

// The row of the lines of a record of a kind, or the first reason why there is none.
fn row_in(version: Version, kind: &Kind, lines: &[[u8; 80]]) -> Result<Row, RecordFault>
    requires { IsKind kind.now }
    ensures row { Gives value result (row_in version kind.now lines.now) }
    ensures fields { IfOk result (λ row. AreFields kind.now.layout.columns.now row.columns.items) }
{
    match lines {
        [] => Err(RecordFault::Short),
        [first, rest @ ..] => match version {
            Version::Four => read_record(kind, first, rest),
            Version::Three => read_record(kind, &sat_title(first), lines),
        },
    }
}

// What a record of a kind gives.
fn read_kind(version: Version, kind: Kind, lines: &[[u8; 80]]) -> Given
    requires { IsKind kind }
    ensures same { view_given result ≡ row_reading kind (row_in version kind lines.now) }
    ensures fields { HasFields result }
{
    match row_in(version, &kind, lines) {
        Ok(row) => Given::Further(kind, row),
        Err(reason) => Given::Refused(reason),
    }
}

// The lines of a record that is carried.
fn lines_of(lines: &[[u8; 80]]) -> ArrayVec<[u8; 80], 12>
    requires { length lines.now ≤ 12 }
    ensures { result.items ≡ lines.now }
{
    let mut kept = ArrayVec::new();
    if kept.try_extend_from_slice(lines).is_err() {
        unreachable!();
    }
    kept
}

// What a record of another kind gives.
fn read_other(version: Version, lines: &[[u8; 80]]) -> Given
    ensures same { view_given result ≡ Err (other_reading version lines.now) }
    ensures fields { HasFields result }
{
    match version {
        Version::Four => {
            if lines.len() <= 12 {
                Given::Carried(lines_of(lines))
            } else {
                Given::Passed
            }
        }
        Version::Three => Given::Passed,
    }
}

// What the lines of a record give that is none of GPS LNAV and Galileo I/NAV.
fn read_lines(kinds: &Kinds, version: Version, lines: &[[u8; 80]]) -> Given
    ensures same { view_given result ≡ lines_reading kinds.now version lines.now }
    ensures fields { HasFields result }
{
    match kind_in(kinds, version, lines) {
        Some(kind) => read_kind(version, kind, lines),
        None => read_other(version, lines),
    }
}

// Whether the line begins no header.
fn is_own(line: &[u8; 80]) -> bool
    ensures { result ≡ is_own line.now }
{
    columns(line, 60, 20) != b"RINEX VERSION / TYPE".as_slice()
}

// How many lines stand before the first that begins a header.
fn own_count(lines: &[[u8; 80]]) -> usize
    ensures count { result ≡ prefix_len is_own lines.now }
    ensures few { result ≤ length lines.now }
{
    lines.iter().take_while(|line| is_own(line)).count()
}

// The lines of a record up to the header of a file that was joined to its own.
fn own_lines(lines: &[[u8; 80]]) -> &[[u8; 80]]
    ensures { result.now ≡ own_lines lines.now }
{
    &lines[..own_count(lines)]
}

// How a record is judged as one of GPS LNAV, Galileo I/NAV or their ionosphere parameters.
fn nav_judged(version: Version, lines: &RecordLines) -> Judged
    ensures { result ≡ nav_judged version lines.now }
{
    match version {
        Version::Four => lines.judge(),
        Version::Three => judge3(lines),
    }
}

// What the lines of a record give.
fn read_in(kinds: &Kinds, version: Version, lines: &RecordLines) -> Given
    ensures same { view_given result ≡ reading_in kinds.now version lines.now }
    ensures fields { HasFields result }
{
    lines.are_kept();
    match nav_judged(version, lines) {
        Judged::Item(item) => Given::Nav(item),
        Judged::Refused(reason) => Given::Refused(reason),
        Judged::PassedOver => read_lines(kinds, version, own_lines(lines.lines())),
    }
}

/// What a record gives, and the number of its first line.
#[derive(Drop)]
pub(crate) struct RecordRead {
    line: u32,
    given: Given,
}

impl Model for RecordRead {
    ghost use Rattle.all_systems.specs.FileMirrors.{HasFields, view_given};
    ghost use Rattle.all_systems.specs.FileReadings.{LineRead};

    ghost Value = { LineRead };

    ghost view = { λ r. record { line = r.line; reading = view_given r.given } };

    ghost invariant = { λ r. HasFields r.given };
}

impl RecordRead {
    ghost use Rattle.std.specs.Prelude.{◌≡◌};
    ghost use Rattle.all_systems.specs.FileMirrors.{HasFields, view_given};
    ghost use Rattle.all_systems.specs.FileReadings.{reading_in};

    // What the lines of a record give that begins at this line.
    pub(crate) fn of(kinds: &Kinds, version: Version, line: u32, lines: &RecordLines) -> RecordRead
        ensures { result
            ≡ record { line = line; reading = reading_in kinds.now version lines.now } }
    {
        RecordRead {
            line,
            given: read_in(kinds, version, lines),
        }
    }

    // The number of its first line.
    pub(crate) fn line(&self) -> u32
        ensures { result ≡ self.now.line }
    {
        self.line
    }

    // What it gives.
    pub(crate) fn given(&self) -> &Given
        ensures same { view_given result.now ≡ self.now.reading }
        ensures fields { HasFields result.now }
    {
        &self.given
    }
}

//! The lines of a record, and how it is judged.

ghost use Rattle.std.specs.Prelude.{◌≡◌, ◌↔◌, ◌∷◌};
ghost use Rattle.std.specs.Prelude.{◌++◌, [], List, ℕ, IsTrue, map, take};
ghost use Rattle.rinex_read.specs.Judging.{galileo_ionosphere_read, galileo_read};
ghost use Rattle.rinex_read.specs.Judging.{gps_ionosphere_read, gps_read, judged, outcome};
ghost use Rattle.rinex_read.specs.Kept.{kept_with, padded};

use crate::items::{galileo_ionosphere_item, galileo_item, gps_ionosphere_item, gps_item};
use crate::judged::Judged;
use crate::line::{PaddedLine, padded};
use crate::reason::RecordFault;
use crate::stated::{ephemeris_stated, ionosphere_stated};
use crate::title::{RecordKind, is_kind};
use nav_eph::NavItem;
use std::marker::Model;

/// The lines of a record as far as they matter: the first eighteen, of each the first 80
/// characters.
///
/// Contracts see the list of these lines, filled with blanks. They are judged as all lines that
/// were pushed would be.
#[derive(Drop)]
pub struct RecordLines {
    lines: [PaddedLine; 18],
    count: usize,
}

impl Model for RecordLines {
    ghost use Rattle.std.specs.Prelude.{ℕ, ◌≡◌, ◌≤◌, List, map, take};
    ghost use Rattle.rinex_read.specs.Kept.{padded};

    ghost Value = { List (List ℕ) };

    ghost view = { λ r. take r.count r.lines };

    ghost invariant = { λ r. (r.count ≤ 18)
        × (map padded (take r.count r.lines) ≡ take r.count r.lines) };
}

// The GPS ephemeris of a record.
fn gps_read(title: &PaddedLine, lines: &[PaddedLine]) -> Result<NavItem, RecordFault>
    ensures { result ≡ gps_read title.now lines.now }
{
    let said = ephemeris_stated(RecordKind::GpsEphemeris, title, lines)?;
    gps_item(said.sat, said.moment, said.fields.as_slice())
}

// The Galileo ephemeris of a record.
fn galileo_read(title: &PaddedLine, lines: &[PaddedLine]) -> Result<NavItem, RecordFault>
    ensures { result ≡ galileo_read title.now lines.now }
{
    let said = ephemeris_stated(RecordKind::GalileoEphemeris, title, lines)?;
    galileo_item(said.sat, said.moment, said.fields.as_slice())
}

// The GPS ionosphere parameters of a record.
fn gps_ionosphere_read(title: &PaddedLine, lines: &[PaddedLine]) -> Result<NavItem, RecordFault>
    ensures { result ≡ gps_ionosphere_read title.now lines.now }
{
    let said = ionosphere_stated(RecordKind::GpsIonosphere, title, lines)?;
    gps_ionosphere_item(said.sat, said.moment, said.fields.as_slice())
}

// The Galileo ionosphere parameters of a record.
fn galileo_ionosphere_read(title: &PaddedLine, lines: &[PaddedLine]) -> Result<NavItem, RecordFault>
    ensures { result ≡ galileo_ionosphere_read title.now lines.now }
{
    let said = ionosphere_stated(RecordKind::GalileoIonosphere, title, lines)?;
    galileo_ionosphere_item(said.sat, said.moment, said.fields.as_slice())
}

// An item, or a refusal.
fn outcome(read: Result<NavItem, RecordFault>) -> Judged
    ensures { result ≡ outcome read }
{
    match read {
        Ok(item) => Judged::Item(item),
        Err(reason) => Judged::Refused(reason),
    }
}

// Judges the lines after a title.
#[tactic(auto, unfolding(crate::specs::Judging::judged))]
fn judge_lines(title: &PaddedLine, lines: &[PaddedLine]) -> Judged
    ensures { result ≡ judged (title.now ∷ lines.now) }
{
    if is_kind(RecordKind::GpsEphemeris, title) {
        return outcome(gps_read(title, lines));
    }
    if is_kind(RecordKind::GalileoEphemeris, title) {
        return outcome(galileo_read(title, lines));
    }
    if is_kind(RecordKind::GpsIonosphere, title) {
        return outcome(gps_ionosphere_read(title, lines));
    }
    if is_kind(RecordKind::GalileoIonosphere, title) {
        return outcome(galileo_ionosphere_read(title, lines));
    }
    Judged::PassedOver
}

impl RecordLines {
    /// A record without lines.
    pub fn new() -> RecordLines
        ensures { result ≡ [] }
    {
        RecordLines {
            lines: [[b' '; 80]; 18],
            count: 0,
        }
    }

    /// Drops all lines.
    pub fn clear(&mut self)
        ensures { self.new ≡ [] }
    {
        self.count = 0;
    }

    /// Whether there is no line.
    pub fn is_empty(&self) -> bool
        ensures { IsTrue result ↔ (self.now ≡ []) }
    {
        self.count == 0
    }

    // Keeps what matters of one more line.
    fn keep(&mut self, line: &[u8])
        ensures { self.new ≡ kept_with self.old line.now }
    {
        if self.count < 18 {
            self.lines[self.count] = padded(line);
            self.count += 1;
        }
    }

    /// Takes the next line of the record, without its line end; the first one is the title, as `>
    /// EPH G05 LNAV`.
    ///
    /// Lines after the eighteenth and characters after the 80th are dropped; they do not matter.
    pub fn push(&mut self, line: &[u8])
        ensures kept { self.new ≡ kept_with self.old line.now }

        // The kept lines are judged as those that were pushed, whatever lines follow.
        ensures means { (more : List (List ℕ)) → judged (self.new ++ more)
            ≡ judged (self.old ++ line.now ∷ more) }
    {
        self.keep(line);
    }

    /// The stored lines, each filled with blanks to 80 characters.
    pub fn lines(&self) -> &[[u8; 80]]
        ensures { result.now ≡ self.now }
    {
        &self.lines[..self.count]
    }

    /// The stored lines would be stored as they are. It does nothing; its contract is the theorem.
    pub fn are_kept(&self)
        ensures { map padded (take 18 self.now) ≡ self.now }
    {
        let _kept = &self.lines[..self.count];
    }

    /// Judges the lines after this title, as [`judge`](RecordLines::judge) does a record with that
    /// title as its first line.
    pub fn judge_behind(&self, title: &[u8]) -> Judged
        ensures { result ≡ judged (title.now ∷ self.now) }
    {
        judge_lines(&padded(title), &self.lines[..self.count])
    }

    /// Judges the record (RINEX 4.01, navigation records: EPH LNAV and INAV, and ION).
    ///
    /// It gives an item, or the first [`RecordFault`] why a record of these kinds gives none;
    /// records of other kinds, and no lines, are skipped.
    pub fn judge(&self) -> Judged
        ensures { result ≡ judged self.now }
    {
        match &self.lines[..self.count] {
            [] => Judged::PassedOver,
            [title, lines @ ..] => judge_lines(title, lines),
        }
    }
}

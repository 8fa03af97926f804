//! The contents of records: satellite, date and fields.

ghost use Rattle.std.specs.Prelude.{◌≡◌, ◌≤◌, map, length, IfOk};
ghost use Rattle.rinex_write.specs.Columns.{AreFields, joined_rows};
ghost use Rattle.rinex_read.specs.Fields.{read_rows};
ghost use Rattle.rinex_read.specs.Judging.{ephemeris_stated, ionosphere_stated, is_named_week};
ghost use Rattle.rinex_read.specs.Judging.{need};
ghost use Rattle.rinex_read.specs.Mirrors.{Gives, kind_by, view_stated};

use crate::date::moment_in;
use crate::fields::{Fields, read_fields};
use crate::line::PaddedLine;
use crate::reason::RecordFault;
use crate::title::{RecordKind, same_sat, sat_of};
use nav_eph::{Moment, Sat, System};
use rinex_write::{
    RecordLayout, galileo_ionosphere_layout, galileo_layout, gps_ionosphere_layout, gps_layout,
};

/// The contents of a record.
#[derive(Drop)]
pub(crate) struct RecordStated {
    /// The satellite of its title.
    pub(crate) sat: Sat,
    /// Its date as GPS time, in seconds since the GPS epoch.
    pub(crate) moment: Moment,
    /// The fields of its numbers.
    pub(crate) fields: Fields,
}

// The layout of a kind of record.
#[tactic(auto, unfolding(rinex_write::specs::Layouts::gps_kind, rinex_write::specs::Layouts::galileo_kind, rinex_write::specs::Layouts::gps_ionosphere_kind, rinex_write::specs::Layouts::galileo_ionosphere_kind,))]
fn layout_of(kind: RecordKind) -> RecordLayout
    ensures columns { result.columns.now ≡ joined_rows (kind_by kind).rows }
    ensures rows { result.rows.now ≡ map length (kind_by kind).rows }
{
    match kind {
        RecordKind::GpsEphemeris => gps_layout(),
        RecordKind::GalileoEphemeris => galileo_layout(),
        RecordKind::GpsIonosphere => gps_ionosphere_layout(),
        RecordKind::GalileoIonosphere => galileo_ionosphere_layout(),
    }
}

// The satellite system of a kind.
#[tactic(auto, unfolding(rinex_write::specs::Layouts::gps_kind, rinex_write::specs::Layouts::galileo_kind, rinex_write::specs::Layouts::gps_ionosphere_kind, rinex_write::specs::Layouts::galileo_ionosphere_kind,))]
fn system_of(kind: RecordKind) -> System
    ensures { result ≡ (kind_by kind).system }
{
    match kind {
        RecordKind::GpsEphemeris | RecordKind::GpsIonosphere => System::Gps,
        RecordKind::GalileoEphemeris | RecordKind::GalileoIonosphere => System::Gal,
    }
}

// How many lines a kind has after the title.
fn count_of(kind: RecordKind) -> usize
    ensures count { result ≡ length (kind_by kind).rows }
    ensures some { 1 ≤ result }
{
    layout_of(kind).rows.len()
}

// The fields of the lines of a record.
fn fields_of(kind: RecordKind, lines: &[PaddedLine]) -> Result<Fields, RecordFault>
    requires { length (kind_by kind).rows ≤ length lines.now }
    ensures read { Gives (λ fields. fields.items) result (read_rows
        (kind_by kind).rows 23 lines.now) }
    ensures are { IfOk result (λ fields. AreFields (joined_rows (kind_by kind).rows) fields.items) }
{
    let layout = layout_of(kind);
    read_fields(&layout, lines)
}

// `Ok` where the condition holds, else the reason.
fn need(holds: bool, reason: RecordFault) -> Result<bool, RecordFault>
    ensures { result ≡ need holds reason }
{
    if holds { Ok(true) } else { Err(reason) }
}

// Whether the time is in GPS weeks 1 to 16382.
fn is_named_week(moment: Moment) -> bool
    ensures { result ≡ is_named_week moment }
{
    moment.week() >= 1 && moment.week() <= 16_382
}

/// The contents of an ephemeris record.
#[tactic(auto, unfolding(crate::specs::Judging::ephemeris_stated))]
pub(crate) fn ephemeris_stated(
    kind: RecordKind,
    title: &PaddedLine,
    lines: &[PaddedLine],
) -> Result<RecordStated, RecordFault>
    ensures said { Gives view_stated result (ephemeris_stated (kind_by kind) title.now lines.now) }
    ensures are { IfOk result (λ said. AreFields (joined_rows
        (kind_by kind).rows) said.fields.items) }
{
    let sat = sat_of(system_of(kind), title)?;
    need(count_of(kind) <= lines.len(), RecordFault::Short)?;
    need(same_sat(title, &lines[0]), RecordFault::BadSat)?;
    let moment = moment_in(&lines[0])?;
    let fields = fields_of(kind, lines)?;
    Ok(RecordStated {
        sat,
        moment,
        fields,
    })
}

/// The contents of an ionosphere record.
#[tactic(auto, unfolding(crate::specs::Judging::ionosphere_stated))]
pub(crate) fn ionosphere_stated(
    kind: RecordKind,
    title: &PaddedLine,
    lines: &[PaddedLine],
) -> Result<RecordStated, RecordFault>
    ensures said { Gives view_stated result (ionosphere_stated (kind_by kind) title.now lines.now) }
    ensures are { IfOk result (λ said. AreFields (joined_rows
        (kind_by kind).rows) said.fields.items) }
{
    let sat = sat_of(system_of(kind), title)?;
    need(count_of(kind) <= lines.len(), RecordFault::Short)?;
    let moment = moment_in(&lines[0])?;
    need(is_named_week(moment), RecordFault::Week)?;
    let fields = fields_of(kind, lines)?;
    Ok(RecordStated {
        sat,
        moment,
        fields,
    })
}

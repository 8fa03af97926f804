//! Rows: records of any kind, by their layouts.

ghost use Rattle.std.specs.Prelude.{◌≡◌, ℕ, ◌<◌, ◌++◌, List, true, length, map, drop, Ok, ℤ};
ghost use Rattle.nav_eph.specs.Weeks.{IsMoment};
ghost use Rattle.rinex_write.specs.declared.columns.Column.{Column as TableColumn};
ghost use Rattle.rinex_write.specs.Columns.{AreFields, are_good, joined_rows};
ghost use Rattle.rinex_write.specs.RowTexts.{RowKind, row_record};
ghost use Rattle.rinex_read.specs.Mirrors.{Gives, IsLayout};
ghost use Rattle.rinex_read.specs.RowReads.{RowContent, flat_said, row_said};

use crate::date::moment_in;
use crate::fields::{Fields, read_fields};
use crate::reason::RecordFault;
use nav_eph::Moment;
use rinex_write::RecordLayout;

/// What the lines of a row encode.
#[derive(Drop)]
pub struct RowStated {
    /// The date.
    pub moment: Moment,
    /// The fields of the numbers.
    pub fields: Fields,
}

/// What the lines of a row encode after its title, or the first reason why they encode nothing.
#[tactic(auto, unfolding(crate::specs::RowReads::flat_said))]
pub fn read_row_lines(layout: &RecordLayout, lines: &[[u8; 80]]) -> Result<RowStated, RecordFault>
    requires layout { IsLayout layout.now.columns.now layout.now.rows.now }
    requires some { 0 < length layout.now.rows.now }
    ensures { Gives (λ said. record { moment = said.moment; fields = said.fields.items }) result
        (flat_said layout.now.rows.now layout.now.columns.now lines.now) }
{
    if lines.len() < layout.rows.len() {
        return Err(RecordFault::Short);
    }
    let moment = moment_in(&lines[0])?;
    let fields = read_fields(layout, lines)?;
    Ok(RowStated { moment, fields })
}

/// The lines of a written row encode its GPS time and its fields, whatever lines follow.
pub fn written_rows_are_read()
    ensures { (k : RowKind) (letter number moment : ℕ) (fields : List ℤ) (more : List (List ℕ)) →
        0 < length k.rows → are_good (joined_rows k.rows) ≡ true →
        AreFields (joined_rows k.rows) fields → IsMoment moment →
        row_said k.rows (drop 1 (row_record k letter number moment fields) ++ more)
        ≡ Ok (record { moment = moment; fields = fields }) }
{}

/// The lines of a layout encode what its rows encode.
pub fn layouts_are_rows()
    ensures { (rows : List (List TableColumn)) (lines : List (List ℕ)) →
        flat_said (map length rows) (joined_rows rows) lines ≡ row_said rows lines }
{}

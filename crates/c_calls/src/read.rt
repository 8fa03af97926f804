//! Rows of ephemeris messages.

ghost use Rattle.std.specs.Prelude.{◌≡◌, ◌<◌, ◌≤◌, length};
ghost use Rattle.nav_eph.specs.Weeks.{IsReference};
ghost use Rattle.nav_bits.specs.Bits.{number_at};
ghost use Rattle.nav_rows.specs.Rows.{RowValue};
ghost use Rattle.nav_rows.specs.Kinds.{IsKind};
ghost use Rattle.c_calls.specs.Rows.{IsRowOf, ReadsRow, row_status};

use crate::kinds::kind_for;
use crate::row_raw::RowRaw;
use nav_bits::number_in_bytes;
use nav_eph::RefWeek;
use nav_rows::{Kind, Row, RowFault, row_of_message};
use nav_tables::TableFault;
use raw_values::reasons::NO_WEEK;

// The payload has no message number.
const NO_NUMBER: u32 = 16;

// No kind has messages of this number.
const OTHER_MESSAGE: u32 = 17;

// The number of a fault.
fn status_of(fault: &RowFault) -> u32
    ensures { result ≡ row_status fault.now }
{
    match fault {
        RowFault::Message(TableFault::Short) => 18,
        RowFault::Message(TableFault::OutOfRange { field }) => { if *field == 1 { 19 } else { 28 } }
        RowFault::SpareSisa => 21,
        RowFault::Day => 29,
    }
}

// The numbers of a row.
fn raw_row(kind: &Kind, message: u32, row: &Row) -> RowRaw
    requires { length kind.now.title.now ≤ 4 }
    ensures { IsRowOf kind.now message
        (record { number = row.now.number; moment = row.now.moment; columns = row.now.columns.items })
        result }
{
    let mut title = [0; 7];
    title[..kind.title.len()].copy_from_slice(kind.title);
    let mut columns = [0; 40];
    let given = row.columns.as_slice();
    columns[..given.len()].copy_from_slice(given);
    RowRaw {
        epoch: row.moment.value(),
        message,
        satellite: u32::from(row.number),
        count: given.len() as u32,
        letter: kind.letter,
        title,
        columns,
    }
}

/// Puts the row of a payload of a message of one of the kinds of [`nav_rows`], whose full week or
/// day is the one near a reference week, 1024 to 8191.
///
/// 0; or 22 if there is no such week; 16 if the payload has fewer than three bytes, 17 if no kind
/// has its number, 18 if it is shorter than the message, 19 if its satellite and 28 if another
/// number is out of range, 21 for a spare SISA index, 29 for a day that does not exist; and then
/// nothing is put.
pub fn read_row(payload: &[u8], week: u32, into: &mut RowRaw) -> u32
    ensures row { IsReference week → 3 ≤ length payload.now →
        ReadsRow (number_at payload.now 0 12) payload.now week into.old into.new result }
    ensures short { IsReference week → length payload.now < 3 →
        (result ≡ 16) × (into.new ≡ into.old) }
    ensures week { (IsReference week → ⊥) → (result ≡ 22) × (into.new ≡ into.old) }
{
    let Some(reference) = RefWeek::new(week) else {
        return NO_WEEK;
    };
    if payload.len() < 3 {
        return NO_NUMBER;
    }
    let message = number_in_bytes(payload, 0, 12) as u32;
    let satellite = number_in_bytes(payload, 12, 6) as u32;
    let Some(kind) = kind_for(message, satellite) else {
        return OTHER_MESSAGE;
    };
    match row_of_message(&kind, payload, reference) {
        Ok(row) => {
            *into = raw_row(&kind, message, &row);
            0
        }
        Err(fault) => status_of(&fault),
    }
}

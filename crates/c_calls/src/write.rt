//! Records of rows.

ghost use Rattle.std.specs.Prelude.{◌≡◌, ◌↔◌, IsTrue, IfSome};
ghost use Rattle.rinex_write.specs.Columns.{AreFields, IsField};
ghost use Rattle.nav_rows.specs.Kinds.{IsKind};
ghost use Rattle.nav_rows.specs.Rows.{record_text};
ghost use Rattle.c_calls.specs.Rows.{IsRowIn, WritesRow};

use crate::Fixed;
use crate::kinds::kind_for;
use crate::row_raw::RowRaw;
use arrayvec::ArrayVec;
use nav_eph::Moment;
use nav_rows::{Kind, Row, write_record};
use raw_values::put;
use raw_values::reasons::NO_ITEM;
use rinex_write::{Column, NOT_KNOWN, Rule};

// Whether a number is a field by a rule.
fn is_field(rule: &Rule, number: &i64) -> bool
    ensures { IsTrue result ↔ IsField rule.now number.now }
{
    match rule {
        Rule::Plain { low, high } => *low <= *number && *number <= *high,
        Rule::OrZero { low, high } => *low <= *number && *number <= *high,
        Rule::OrLeast { low, high } => *low <= *number && *number <= *high,
        Rule::OrUnknown { low, high } => {
            (*low <= *number && *number <= *high) || *number == NOT_KNOWN
        }
        Rule::Ura => 0 <= *number && *number <= 15,
        Rule::Sisa => (0 <= *number && *number <= 125) || *number == 255,
        Rule::Fit => 0 <= *number && *number <= 1,
        Rule::Sent => (-302_400 <= *number && *number <= 907_199) || *number == 999_900_000,
        Rule::Unread { number: constant } => *number == *constant,
    }
}

// Whether the numbers are fields of the columns, one for each.
fn are_fields(columns: &[Column], numbers: &[i64]) -> bool
    ensures { IsTrue result ↔ AreFields columns.now numbers.now }
{
    let [column, columns @ ..] = columns else {
        return numbers.is_empty();
    };
    let [number, numbers @ ..] = numbers else {
        return false;
    };
    is_field(&column.rule, number) && are_fields(columns, numbers)
}

// The row of these numbers; `None` where they are no fields of the kind's columns, or the epoch is
// in no week.
pub(crate) fn row_in(kind: &Kind, raw: &RowRaw) -> Option<Row>
    ensures { IfSome result (IsRowIn kind.now raw.now) }
{
    if raw.count > 40 || raw.satellite > 99 {
        return None;
    }
    let fields = &raw.columns[..raw.count as usize];
    if !are_fields(kind.layout.columns, fields) {
        return None;
    }
    let Some(moment) = Moment::new(raw.epoch) else {
        return None;
    };
    let mut columns = ArrayVec::new();
    if columns.try_extend_from_slice(fields).is_err() {
        return None;
    }
    Some(Row {
        number: raw.satellite as u8,
        moment,
        columns,
    })
}

// The record of a row.
fn record_of(kind: &Kind, row: &Row) -> Fixed
    requires kind { IsKind kind.now }
    requires fields { AreFields kind.now.layout.columns.now row.now.columns.items }
    ensures { result.bytes ≡ record_text kind.now (record {
      number = row.now.number;
      moment = row.now.moment;
      columns = row.now.columns.items;
    }) }
{
    let mut text = Fixed::new();
    match write_record(kind, row, &mut text) {
        Ok(()) => text,
        Err(_) => {
            let _full = text.bytes();
            unreachable!()
        }
    }
}

/// Puts the record of a row (RINEX 4.01), each line with LF, and returns its length. `letter` and
/// `title` are not looked at.
///
/// 0; or 23 if no kind has such messages, the numbers are not in the ranges of its columns, or the
/// epoch is in no week, and then nothing is put.
pub fn write_row(raw: &RowRaw, into: &mut [u8], used: &mut usize) -> u32
    ensures { WritesRow raw.now into.old into.new used.new result }
{
    *used = 0;
    let Some(kind) = kind_for(raw.message, raw.satellite) else {
        return NO_ITEM;
    };
    match row_in(&kind, raw) {
        Some(row) => {
            *used = put(record_of(&kind, &row).bytes(), into);
            0
        }
        None => NO_ITEM,
    }
}

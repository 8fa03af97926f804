//! The units of the columns of a kind of rows.

ghost use Rattle.std.specs.Prelude.{◌≡◌, slice_get};
ghost use Rattle.c_calls.specs.Rows.{GivesColumn, PutsColumn, number_of_flag, raw_column};
ghost use Rattle.c_calls.specs.Rows.{rule_number};

use crate::kinds::kind_for;
use crate::row_raw::{ColumnRaw, RowRaw};
use raw_values::reasons::NO_ITEM;
use rinex_write::{Column, Rule};

// The number of a rule.
fn rule_number(rule: &Rule) -> u32
    ensures { result ≡ rule_number rule.now }
{
    match rule {
        Rule::Plain { .. } | Rule::OrZero { .. } | Rule::OrLeast { .. } => 0,
        Rule::Ura => 1,
        Rule::Sisa => 2,
        Rule::Fit => 3,
        Rule::Sent => 4,
        Rule::Unread { .. } => 5,
        Rule::OrUnknown { .. } => 6,
    }
}

// The numbers of a column.
fn raw_column(column: &Column) -> ColumnRaw
    ensures { result ≡ raw_column column.now }
{
    ColumnRaw {
        factor: column.scale.factor,
        two: column.scale.two,
        ten: column.scale.ten,
        is_angle: u32::from(column.scale.pi),
        rule: rule_number(&column.rule),
    }
}

/// Puts the unit of the column with that index of the kind of a row, by its message and satellite;
/// 23 if there is none.
pub fn row_column(row: &RowRaw, index: u32, into: &mut ColumnRaw) -> u32
    ensures { GivesColumn row.now.message index into.old into.new result }
{
    let Some(kind) = kind_for(row.message, row.satellite) else {
        return NO_ITEM;
    };
    put_column(kind.layout.columns, index as usize, into)
}

// Puts the column with that index.
fn put_column(columns: &[Column], index: usize, into: &mut ColumnRaw) -> u32
    ensures { PutsColumn (slice_get columns.now index) into.old into.new result }
{
    match columns.get(index) {
        Some(column) => {
            *into = raw_column(column);
            0
        }
        None => NO_ITEM,
    }
}

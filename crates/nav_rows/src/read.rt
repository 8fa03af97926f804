//! Rows of RINEX records.

ghost use Rattle.std.specs.Prelude.{◌≡◌, ◌++◌, ◌∷◌, ◌&&◌, ◌↔◌, [], length, replicate, int_le, pos};
ghost use Rattle.std.specs.Prelude.{IfOk, IsTrue};
ghost use Rattle.nav_tables.specs.Fields.{is_in_range};
ghost use Rattle.nav_tables.specs.Links.{field_at};
ghost use Rattle.rinex_write.specs.Columns.{AreFields};
ghost use Rattle.rinex_read.specs.Mirrors.{Gives};
ghost use Rattle.nav_rows.specs.Kinds.{IsKind};
ghost use Rattle.nav_rows.specs.Rows.{value};
ghost use Rattle.nav_rows.specs.Reading.{are_digits, are_in_columns, is_in_column, judged_row};
ghost use Rattle.nav_rows.specs.Reading.{lines_read, number_by, number_stated, row_read};
ghost use Rattle.nav_rows.specs.Reading.{same_satellite, two_digits};

use crate::encode::epoch_fault;
use crate::kind::Kind;
use crate::row::Row;
use rinex_read::{RecordFault, RowStated, read_row_lines};
use rinex_write::{Column, NOT_KNOWN, Rule};
use scaled_decimal::is_decimal;

// Whether a number is from one to another, both included.
fn is_from(low: i64, number: i64, high: i64) -> bool
    ensures { result ≡ (int_le low number && int_le number high) }
{
    low <= number && number <= high
}

// Whether a number is a field by the rule of its column.
fn is_in_column(rule: &Rule, number: i64) -> bool
    ensures { result ≡ is_in_column rule.now number }
{
    match *rule {
        Rule::Plain { low, high } => is_from(low, number, high),
        Rule::OrZero { low, high } => is_from(low, number, high),
        Rule::OrLeast { low, high } => is_from(low, number, high),
        Rule::OrUnknown { low, high } => {
            is_from(low, number, high) || is_from(NOT_KNOWN, number, NOT_KNOWN)
        }
        Rule::Ura => is_from(0, number, 15),
        Rule::Sisa => is_from(0, number, 255) && (number <= 125 || number >= 255),
        Rule::Fit => is_from(0, number, 1),
        Rule::Sent => {
            is_from(-302_400, number, 999_900_000) && (number <= 907_199 || number >= 999_900_000)
        }
        Rule::Unread { number: constant } => is_from(constant, number, constant),
    }
}

// Whether there is a field for each column.
#[tactic(auto, unfolding(crate::specs::Reading::are_in_columns))]
fn are_in_columns(columns: &[Column], fields: &[i64]) -> bool
    ensures { result ≡ are_in_columns columns.now fields.now }
{
    match columns {
        [] => match fields {
            [] => true,
            [_, ..] => false,
        },
        [column, columns_left @ ..] => match fields {
            [] => false,
            [field, fields_left @ ..] => {
                is_in_column(&column.rule, *field) && are_in_columns(columns_left, fields_left)
            }
        },
    }
}

/// Whether the columns of a row are fields of its kind's records, as [`write_record`] and
/// [`message_of_row`] need.
///
/// [`write_record`]: crate::write_record
/// [`message_of_row`]: crate::message_of_row
pub fn has_fields(kind: &Kind, row: &Row) -> bool
    ensures { IsTrue result ↔ AreFields kind.now.layout.columns.now row.now.columns.items }
{
    are_in_columns(kind.layout.columns, row.columns.as_slice())
}

// Whether two characters are a number of two digits, the first possibly blank.
fn are_digits(tens: u8, ones: u8) -> bool
    ensures { result ≡ are_digits tens ones }
{
    is_decimal(ones) && (tens == b' ' || is_decimal(tens))
}

// The number of two digits.
fn two_digits(tens: u8, ones: u8) -> u8
    requires { IsTrue (are_digits tens ones) }
    ensures { result ≡ two_digits tens ones }
{
    if tens == b' ' {
        ones - b'0'
    } else {
        10 * (tens - b'0') + (ones - b'0')
    }
}

// Whether messages of the kind have a satellite.
fn has_satellite(kind: &Kind, number: u8) -> bool
    requires { IsKind kind.now }
    ensures { result ≡ is_in_range (field_at kind.now.table.fields.now 1) (pos number) }
{
    let satellites = kind.table.fields[1];
    is_from(satellites.low, i64::from(number), satellites.high)
}

// The satellite of two digits: one that messages of the kind have.
fn number_by(kind: &Kind, tens: u8, ones: u8) -> Result<u8, RecordFault>
    requires { IsKind kind.now }
    ensures { result ≡ number_by kind.now tens ones }
{
    if !are_digits(tens, ones) {
        return Err(RecordFault::BadSat);
    }
    let number = two_digits(tens, ones);
    if has_satellite(kind, number) {
        Ok(number)
    } else {
        Err(RecordFault::BadSat)
    }
}

// The satellite of a title.
fn number_stated(kind: &Kind, title: &[u8; 80]) -> Result<u8, RecordFault>
    requires { IsKind kind.now }
    ensures { result ≡ number_stated kind.now title.now }
{
    number_by(kind, title[7], title[8])
}

// Whether a line begins with the satellite of the title.
fn same_satellite(title: &[u8; 80], line: &[u8; 80]) -> bool
    ensures { result ≡ same_satellite title.now line.now }
{
    line[0] == title[6] && line[1] == title[7] && line[2] == title[8]
}

// The row of what lines say, or the first reason why there is none.
fn judged_row(kind: &Kind, number: u8, said: RowStated) -> Result<Row, RecordFault>
    requires { IsKind kind.now }
    ensures row { Gives value result (judged_row kind.now number
        (record { moment = said.moment; fields = said.fields.items })) }
    ensures fields { IfOk result (λ row. AreFields kind.now.layout.columns.now row.columns.items) }
{
    if !are_in_columns(kind.layout.columns, said.fields.as_slice()) {
        return Err(RecordFault::OutOfRange);
    }
    match epoch_fault(&kind.clock, said.moment, said.fields.as_slice()) {
        Some(reason) => Err(reason),
        None => Ok(Row {
            number,
            moment: said.moment,
            columns: said.fields,
        }),
    }
}

// The row of the lines after a title.
fn lines_read(
    kind: &Kind,
    number: u8,
    title: &[u8; 80],
    lines: &[[u8; 80]],
) -> Result<Row, RecordFault>
    requires { IsKind kind.now }
    ensures row { Gives value result (lines_read kind.now number title.now lines.now) }
    ensures fields { IfOk result (λ row. AreFields kind.now.layout.columns.now row.columns.items) }
{
    if lines.len() < kind.layout.rows.len() {
        return Err(RecordFault::Short);
    }
    if !same_satellite(title, &lines[0]) {
        return Err(RecordFault::BadSat);
    }
    match read_row_lines(&kind.layout, lines) {
        Ok(said) => judged_row(kind, number, said),
        Err(reason) => Err(reason),
    }
}

// Four lines, and a blank one.
fn completed(lines: &[[u8; 80]]) -> [[u8; 80]; 5]
    requires { length lines.now ≡ 4 }
    ensures { result ≡ lines.now ++ replicate 80 32 ∷ [] }
{
    [lines[0], lines[1], lines[2], lines[3], [b' '; 80]]
}

/// The row of a record by its title and the lines after it, each truncated to 80 characters or
/// filled with blanks. A GLONASS record may lack its last line, whose numbers are not known then.
///
/// The error is the first reason: satellite, number of lines, another satellite in the first line,
/// date, numbers, epoch.
#[tactic(auto, unfolding(crate::specs::Reading::row_read))]
pub fn read_record(kind: &Kind, title: &[u8; 80], lines: &[[u8; 80]]) -> Result<Row, RecordFault>
    requires { IsKind kind.now }
    ensures row { Gives value result (row_read kind.now title.now lines.now) }
    ensures fields { IfOk result (λ row. AreFields kind.now.layout.columns.now row.columns.items) }
{
    match number_stated(kind, title) {
        Err(reason) => Err(reason),
        Ok(number) => {
            if kind.may_end_early && lines.len() == 4 {
                lines_read(kind, number, title, &completed(lines))
            } else {
                lines_read(kind, number, title, lines)
            }
        }
    }
}

//! The text of a record, built in a buffer of fixed size.

ghost use Rattle.std.specs.Prelude.{◌≡◌, List, map, ◌+◌, ◌*◌};
ghost use Rattle.std.specs.Prelude.{◌<◌, ◌≤◌, ◌∷◌};
ghost use Rattle.std.specs.Prelude.{◌++◌, [], length, take, drop, codes, sum};
ghost use Rattle.arrayvec.specs.ArrayVec.{array_vec_len};
ghost use Rattle.scaled_decimal.specs.NumberText.{digits};
ghost use Rattle.rinex_write.specs.declared.columns.Column.{Column as TableColumn};
ghost use Rattle.rinex_write.specs.Columns.{column_text, is_blank, is_unknown, joined_rows};
ghost use Rattle.rinex_write.specs.Columns.{row_lines};
ghost use Rattle.rinex_write.specs.Columns.{row_text};
ghost use Rattle.rinex_write.specs.Mirrors.{AreReady, IsReady, IsTable, rows_text};
ghost use Rattle.rinex_write.specs.Texts.{date_text, letter_of, satellite_text, text_of};

use crate::columns::{Column, NOT_KNOWN, Rule};
use crate::layouts::RecordLayout;
use crate::numbers::field_number;
use arrayvec::ArrayVec;
use nav_eph::{Civil, Sat, System};
use scaled_decimal::print;

/// The text of a record or of a header; no memory is allocated.
pub(crate) type Record = ArrayVec<u8, 704>;

// Appends a piece; there must be room for it.
pub(crate) fn append(text: &mut Record, piece: &[u8])
    requires { array_vec_len text.old + length piece.now ≤ 704 }
    ensures items { text.new.items ≡ text.old.items ++ piece.now }
    ensures len { array_vec_len text.new ≡ array_vec_len text.old + length piece.now }
{
    if text.try_extend_from_slice(piece).is_err() {
        unreachable!();
    }
}

// Whether a column is left blank for a field.
fn is_blank(rule: &Rule, field: i64) -> bool
    ensures { result ≡ is_blank rule.now field }
{
    match rule {
        Rule::OrLeast { low, .. } => field <= *low,
        _ => false,
    }
}

// Whether a field is a number that is not known.
fn is_unknown(rule: &Rule, field: i64) -> bool
    ensures { result ≡ is_unknown rule.now field }
{
    match rule {
        Rule::OrUnknown { .. } => field >= NOT_KNOWN,
        _ => false,
    }
}

// The text of a field.
fn column_text(column: &Column, field: i64) -> [u8; 19]
    requires { IsReady column.now field }
    ensures { result ≡ column_text column.now field }
{
    if is_blank(&column.rule, field) {
        return [b' '; 19];
    }
    if is_unknown(&column.rule, field) {
        return *b" 9.999999999990D+08";
    }
    print(field_number(&column.rule, field), &column.scale)
}

// Appends the texts of a row of fields.
pub(crate) fn append_row(text: &mut Record, columns: &[Column], fields: &[i64])
    requires ready { AreReady columns.now fields.now }
    requires room { array_vec_len text.old + 19 * length columns.now ≤ 704 }
    ensures items { text.new.items ≡ text.old.items ++ row_text columns.now fields.now }
    ensures len { array_vec_len text.new ≡ array_vec_len text.old + 19 * length columns.now }
{
    for (i, column) in columns.iter().enumerate() {
        append(text, &column_text(column, fields[i]));
    }
}

// Appends the lines of rows with these numbers of columns, four blanks before each.
pub(crate) fn append_rows(text: &mut Record, rows: &[usize], columns: &[Column], fields: &[i64])
    requires rows { sum rows.now ≡ length columns.now }
    requires ready { AreReady columns.now fields.now }
    requires room { array_vec_len text.old + 5 * length rows.now + 19 * length columns.now ≤ 704 }
    ensures items { text.new.items ≡ text.old.items ++ rows_text rows.now columns.now fields.now }
{
    let mut columns = columns;
    let mut fields = fields;
    for row in rows {
        let (first, more) = columns.split_at(*row);
        let (_, left) = fields.split_at(*row);
        append(text, b"    ");
        append_row(text, first, fields);
        append(text, b"\n");
        columns = more;
        fields = left;
    }
}

// Two digits of a number.
#[tactic(auto, unfolding(scaled_decimal::specs::NumberText::digits))]
pub(crate) fn two_digits(number: u8) -> [u8; 2]
    ensures { result ≡ digits 2 number }
{
    [b'0' + number / 10 % 10, b'0' + number % 10]
}

// Four digits of a number.
#[tactic(auto, unfolding(scaled_decimal::specs::NumberText::digits))]
fn four_digits(number: u16) -> [u8; 4]
    ensures { result ≡ digits 4 number }
{
    [
        b'0' + (number / 10 / 10 / 10 % 10) as u8,
        b'0' + (number / 10 / 10 % 10) as u8,
        b'0' + (number / 10 % 10) as u8,
        b'0' + (number % 10) as u8,
    ]
}

// A date in 19 columns.
#[tactic(auto, unfolding(crate::specs::Texts::date_text))]
pub(crate) fn date_columns(date: &Civil) -> [u8; 19]
    ensures { result ≡ date_text date.now }
{
    let [y0, y1, y2, y3] = four_digits(date.year);
    let [m0, m1] = two_digits(date.month);
    let [d0, d1] = two_digits(date.day);
    let [h0, h1] = two_digits(date.hour);
    let [n0, n1] = two_digits(date.minute);
    let [s0, s1] = two_digits(date.second);
    [
        y0, y1, y2, y3, b' ', m0, m1, b' ', d0, d1, b' ', h0, h1, b' ', n0, n1, b' ', s0, s1,
    ]
}

// A satellite in three columns, as `G05`.
pub(crate) fn satellite_columns(sat: &Sat) -> [u8; 3]
    ensures { result ≡ satellite_text sat.now }
{
    let letter = match sat.system() {
        System::Gps => b'G',
        System::Gal => b'E',
    };
    let [tens, ones] = two_digits(sat.number());
    [letter, tens, ones]
}

// Appends the lines of a table of fields; the text before the first line's numbers is already
// there.
pub(crate) fn append_table(text: &mut Record, layout: &RecordLayout, fields: &[i64])
    requires table { IsTable layout.now.rows.now layout.now.columns.now }
    requires ready { AreReady layout.now.columns.now fields.now }
    requires room { array_vec_len text.old ≤ 100 }
    ensures { (rows : List (List TableColumn)) → layout.now.columns.now ≡ joined_rows rows
        → layout.now.rows.now ≡ map length rows
        → text.new.items ≡ text.old.items ++ text_of (row_lines [] rows fields.now) }
{
    if let [first, more @ ..] = layout.rows {
        let (columns, left) = layout.columns.split_at(*first);
        let (_, fields_left) = fields.split_at(*first);
        append_row(text, columns, fields);
        append(text, b"\n");
        append_rows(text, more, left, fields_left);
    }
}

//! The records of rows: kinds of any system by their layouts.

ghost use Rattle.std.specs.Prelude.{◌≡◌, ◌≤◌, ◌∷◌, ◌++◌, [], List, length, map};
ghost use Rattle.nav_io.specs.Writes.{Writes};
ghost use Rattle.rinex_write.specs.Columns.{joined_rows};
ghost use Rattle.rinex_write.specs.Mirrors.{AreReady, IsTable};
ghost use Rattle.rinex_write.specs.RowTexts.{RowKind, row_body, row_record, row_satellite};
ghost use Rattle.rinex_write.specs.RowTexts.{row_title};
ghost use Rattle.rinex_write.specs.Texts.{text_of};
ghost use Rattle.rinex_write.specs.declared.columns.Column.{Column};

use crate::layouts::RecordLayout;
use crate::record::{Record, append, append_table, date_columns, two_digits};
use nav_eph::{Moment, civil};
use nav_io::{Failed, Sink};

/// What is before the date of a row: its kind and its satellite.
#[derive(Clone, Copy)]
pub struct RowHead {
    /// The record type, as `EPH`.
    pub class: [u8; 3],
    /// The letter of the system.
    pub letter: u8,
    /// The message type, as `FDMA`: at most four letters.
    pub message: &'static [u8],
    /// The number of the satellite.
    pub number: u8,
}

// The satellite in three columns.
fn satellite_of(head: &RowHead) -> [u8; 3]
    ensures { result ≡ row_satellite head.now.letter head.now.number }
{
    let [tens, ones] = two_digits(head.number);
    [head.letter, tens, ones]
}

// Appends the title of a row; nothing stands before it.
fn append_row_title(text: &mut Record, head: &RowHead)
    requires empty { text.old.items ≡ [] }
    requires message { length head.now.message.now ≤ 4 }
    ensures items { (k : RowKind) → head.now.class ≡ k.class → head.now.message.now ≡ k.message
        → text.new.items ≡ row_title k head.now.letter head.now.number ++ 10 ∷ [] }
    ensures short { length text.new.items ≤ 15 }
{
    append(text, b"> ");
    append(text, &head.class);
    append(text, b" ");
    append(text, &satellite_of(head));
    append(text, b" ");
    append(text, head.message);
    append(text, b"\n");
}

// The four columns before the date.
fn row_start(head: &RowHead) -> [u8; 4]
    ensures { result ≡ row_satellite head.now.letter head.now.number ++ 32 ∷ [] }
{
    let [letter, tens, ones] = satellite_of(head);
    [letter, tens, ones, b' ']
}

// Appends the lines of a row behind its title.
fn append_row_body(
    text: &mut Record,
    head: &RowHead,
    moment: Moment,
    layout: &RecordLayout,
    fields: &[i64],
)
    requires short { length text.old.items ≤ 15 }
    requires table { IsTable layout.now.rows.now layout.now.columns.now }
    requires ready { AreReady layout.now.columns.now fields.now }
    ensures { (rows : List (List Column)) → layout.now.columns.now ≡ joined_rows rows
        → layout.now.rows.now ≡ map length rows → text.new.items ≡ text.old.items
        ++ text_of (row_body rows head.now.letter head.now.number moment fields.now) }
{
    append(text, &row_start(head));
    append(text, &date_columns(&civil(moment)));
    append_table(text, layout, fields);
}

// Appends the lines of a row; nothing stands before it.
fn append_row_record(
    text: &mut Record,
    head: &RowHead,
    moment: Moment,
    layout: &RecordLayout,
    fields: &[i64],
)
    requires empty { text.old.items ≡ [] }
    requires message { length head.now.message.now ≤ 4 }
    requires table { IsTable layout.now.rows.now layout.now.columns.now }
    requires ready { AreReady layout.now.columns.now fields.now }
    ensures { (k : RowKind) → head.now.class ≡ k.class → head.now.message.now ≡ k.message
        → layout.now.columns.now ≡ joined_rows k.rows → layout.now.rows.now ≡ map length k.rows
        → text.new.items
        ≡ text_of (row_record k head.now.letter head.now.number moment fields.now) }
{
    append_row_title(text, head);
    append_row_body(text, head, moment, layout, fields);
}

/// Appends the record of a row to a sink.
///
/// # Errors
///
/// `Failed` only if the sink's count of errors rose in this call or is at its maximum; a prefix of
/// the record was appended then.
pub fn write_row<T: Sink>(
    head: &RowHead,
    moment: Moment,
    layout: &RecordLayout,
    fields: &[i64],
    out: &mut T,
) -> Result<(), Failed>
    requires message { length head.now.message.now ≤ 4 }
    requires table { IsTable layout.now.rows.now layout.now.columns.now }
    requires ready { AreReady layout.now.columns.now fields.now }
    ensures { (k : RowKind) → head.now.class ≡ k.class → head.now.message.now ≡ k.message
        → layout.now.columns.now ≡ joined_rows k.rows → layout.now.rows.now ≡ map length k.rows
        → Writes (T.written out.old) (T.written out.new) (T.faults out.old)
        (T.faults out.new) result
        (text_of (row_record k head.now.letter head.now.number moment fields.now)) }
{
    let mut text = Record::new();
    append_row_record(&mut text, head, moment, layout, fields);
    out.write(&text)
}

/// Appends the record of a row without its title line to a sink, as in RINEX 3.
///
/// # Errors
///
/// As [`write_row`].
pub fn write_row_body<T: Sink>(
    head: &RowHead,
    moment: Moment,
    layout: &RecordLayout,
    fields: &[i64],
    out: &mut T,
) -> Result<(), Failed>
    requires table { IsTable layout.now.rows.now layout.now.columns.now }
    requires ready { AreReady layout.now.columns.now fields.now }
    ensures { (rows : List (List Column)) → layout.now.columns.now ≡ joined_rows rows
        → layout.now.rows.now ≡ map length rows
        → Writes (T.written out.old) (T.written out.new) (T.faults out.old)
        (T.faults out.new) result
        (text_of (row_body rows head.now.letter head.now.number moment fields.now)) }
{
    let mut text = Record::new();
    append_row_body(&mut text, head, moment, layout, fields);
    out.write(&text)
}

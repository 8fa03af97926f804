//! The fields of a record, from its numbers.

ghost use Rattle.std.specs.Prelude.{◌≡◌, ◌+◌, ◌*◌, ◌≤◌, ◌≤ℤ◌, pos};
ghost use Rattle.std.specs.Prelude.{true, length, unsigned_abs, OnOk};
ghost use Rattle.arrayvec.specs.ArrayVec.{array_vec_len};
ghost use Rattle.scaled_decimal.specs.ScaleValue.{size_of};
ghost use Rattle.scaled_decimal.specs.NumberReading.{seen, trim_end, trim_start};
ghost use Rattle.rinex_write.specs.Columns.{are_good, is_good_rule, is_good_scale};
ghost use Rattle.rinex_read.specs.Fields.{field_of, flag_of, is_beyond, read_row, whole};
ghost use Rattle.rinex_read.specs.Mirrors.{Gives, IsLayout, ReadsTo, flat_rows, is_minus};
ghost use Rattle.rinex_read.specs.Mirrors.{with_prefix};

use crate::accuracy::{sisa_of, ura_of};
use crate::line::{PaddedLine, columns};
use crate::reason::RecordFault;
use arrayvec::ArrayVec;
use rinex_write::{Column, NOT_KNOWN, RecordLayout, Rule};
use scaled_decimal::{DecimalFault, Scale, read, trimmed};

/// The fields of a record, of which there are at most 29.
pub(crate) type Fields = ArrayVec<i64, 29>;

// The transmission time that means unknown.
const UNKNOWN: i64 = 999_900_000;

/// The scale of integers.
pub(crate) const WHOLE: Scale = Scale {
    pi: false,
    factor: 1,
    two: 0,
    ten: 0,
};

// The bound of the accuracy values that are read, in centimetres.
const GREATEST: i64 = 100_000_000;

// The fit interval flag of an interval in hours.
fn flag_of(hours: i64) -> Result<i64, RecordFault>
    requires { pos 0 ≤ℤ hours }
    ensures { result ≡ flag_of (unsigned_abs hours) }
{
    match hours {
        0 | 4 => Ok(0),
        2 | 3 => Err(RecordFault::Fit),
        _ => Ok(1),
    }
}

// Whether a text begins with a minus.
fn is_minus(text: &[u8]) -> bool
    ensures { result ≡ is_minus text.now }
{
    match text {
        [first, ..] => *first == b'-',
        [] => false,
    }
}

// Whether a text is a number from 999,999,999 on.
#[cold]
#[inline(never)]
fn is_beyond(text: &[u8]) -> bool
    requires { length text.now ≤ 19 }
    ensures { result ≡ is_beyond (seen (size_of whole) text.now) }
{
    match read(text, &WHOLE, -4_294_967_295, NOT_KNOWN - 1) {
        Ok(_) => false,
        Err(DecimalFault::Blank) => false,
        Err(DecimalFault::NotANumber) => false,
        Err(DecimalFault::OutOfRange) => !is_minus(trimmed(text)),
    }
}

// The field of the text in a column.
fn field(column: &Column, text: &[u8]) -> Result<i64, RecordFault>
    requires text { length text.now ≤ 19 }
    requires scale { is_good_scale column.now.scale ≡ true }
    requires rule { is_good_rule column.now.scale column.now.rule ≡ true }
    ensures { result ≡ field_of column.now text.now }
{
    match column.rule {
        Rule::Plain { low, high } => match read(text, &column.scale, low, high) {
            Ok(number) => Ok(number),
            Err(DecimalFault::Blank) => Err(RecordFault::Blank),
            Err(DecimalFault::NotANumber) => Err(RecordFault::NotANumber),
            Err(DecimalFault::OutOfRange) => Err(RecordFault::OutOfRange),
        },
        Rule::OrZero { low, high } => match read(text, &column.scale, low, high) {
            Ok(number) => Ok(number),
            Err(DecimalFault::Blank) => Ok(0),
            Err(DecimalFault::NotANumber) => Err(RecordFault::NotANumber),
            Err(DecimalFault::OutOfRange) => Err(RecordFault::OutOfRange),
        },
        Rule::OrLeast { low, high } => match read(text, &column.scale, low, high) {
            Ok(number) => Ok(number),
            Err(DecimalFault::Blank) => Ok(low),
            Err(DecimalFault::NotANumber) => Err(RecordFault::NotANumber),
            Err(DecimalFault::OutOfRange) => Err(RecordFault::OutOfRange),
        },
        Rule::OrUnknown { low, high } => match read(text, &column.scale, low, high) {
            Ok(number) => Ok(number),
            Err(DecimalFault::Blank) => Ok(NOT_KNOWN),
            Err(DecimalFault::NotANumber) => Err(RecordFault::NotANumber),
            Err(DecimalFault::OutOfRange) => {
                if is_beyond(text) {
                    Ok(NOT_KNOWN)
                } else {
                    Err(RecordFault::OutOfRange)
                }
            }
        },
        Rule::Ura => match read(text, &column.scale, -GREATEST, GREATEST) {
            Ok(number) => Ok(ura_of(number)),
            Err(DecimalFault::Blank) => Ok(15),
            Err(DecimalFault::NotANumber) => Err(RecordFault::NotANumber),
            Err(DecimalFault::OutOfRange) => Err(RecordFault::OutOfRange),
        },
        Rule::Sisa => match read(text, &column.scale, -GREATEST, GREATEST) {
            Ok(number) => Ok(sisa_of(number)),
            Err(DecimalFault::Blank) => Ok(255),
            Err(DecimalFault::NotANumber) => Err(RecordFault::NotANumber),
            Err(DecimalFault::OutOfRange) => Err(RecordFault::OutOfRange),
        },
        Rule::Fit => match read(text, &column.scale, 0, 255) {
            Ok(number) => flag_of(number),
            Err(DecimalFault::Blank) => Ok(0),
            Err(DecimalFault::NotANumber) => Err(RecordFault::NotANumber),
            Err(DecimalFault::OutOfRange) => Err(RecordFault::OutOfRange),
        },
        Rule::Sent => match read(text, &column.scale, -302_400, 907_199) {
            Ok(number) => Ok(number),
            Err(DecimalFault::Blank) => Ok(UNKNOWN),
            Err(DecimalFault::NotANumber) => Err(RecordFault::NotANumber),
            Err(DecimalFault::OutOfRange) => Ok(UNKNOWN),
        },
        Rule::Unread { number } => Ok(number),
    }
}

// Appends the fields of a line; its numbers begin at offset `place`.
fn read_row(
    columns_of_row: &[Column],
    place: usize,
    line: &PaddedLine,
    fields: &mut Fields,
) -> Result<(), RecordFault>
    requires good { are_good columns_of_row.now ≡ true }
    requires line { place + 19 * length columns_of_row.now ≤ 80 }
    requires room { array_vec_len fields.old + length columns_of_row.now ≤ 29 }
    ensures read { ReadsTo result fields.new.items (with_prefix fields.old.items
        (read_row columns_of_row.now place line.now)) }
    ensures count { OnOk result (length fields.new.items
        ≡ length fields.old.items + length columns_of_row.now) }
{
    for (i, column) in columns_of_row.iter().enumerate() {
        let field = field(column, columns(line, place + 19 * i, 19))?;
        fields.push(field);
    }
    Ok(())
}

/// The fields of the lines of a record after its title. The numbers of the first line begin at
/// offset 23.
pub(crate) fn read_fields(
    layout: &RecordLayout,
    lines: &[PaddedLine],
) -> Result<Fields, RecordFault>
    requires layout { IsLayout layout.now.columns.now layout.now.rows.now }
    requires lines { length layout.now.rows.now ≤ length lines.now }
    ensures { Gives (λ fields. fields.items) result
        (flat_rows layout.now.rows.now layout.now.columns.now 23 lines.now) }
{
    let mut fields = Fields::new();
    let mut at = 0;
    let mut place = 23;
    for (i, count) in layout.rows.iter().enumerate() {
        let row = &layout.columns[at..at + *count];
        match read_row(row, place, &lines[i], &mut fields) {
            Ok(()) => {
                at += *count;
                place = 4;
            }
            Err(reason) => return Err(reason),
        }
    }
    Ok(fields)
}

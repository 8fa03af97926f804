ghost use Rattle.std.specs.Prelude.{◌≡◌, ℕ, ◌+◌, ◌*◌, ◌≤◌, ◌++◌, IsTrue, IfOk, IfErr, length};
ghost use Rattle.std.specs.Prelude.{Ok, Err, slice_index, ◌<◌};
ghost use Rattle.nav_bits.specs.Fields.{AreFields};
ghost use Rattle.nav_tables.specs.Fields.{IsInRange};
ghost use Rattle.nav_tables.specs.Messages.{AreInRange, are_fields, first_outside, is_table};
ghost use Rattle.nav_tables.specs.Messages.{message_bytes, message_in, numbers_at, starts};
ghost use Rattle.nav_tables.specs.Messages.{width_of};
ghost use Rattle.nav_tables.specs.Mirrors.{pairs};

use crate::field::{Field, Table, bits_of, is_in_range, number_of, start_of};
use arrayvec::ArrayVec;
use nav_bits::{number_in_bytes, put_numbers};

/// Why bytes are not a message of a table: the first of these that holds, in this order.
#[derive(Clone, Copy, PartialEq, Eq, Debug)]
pub enum TableFault {
    /// There are fewer bytes than the message takes.
    Short,
    /// A number is outside its field's range; no field before it has such a number.
    OutOfRange {
        /// The offset of the field in the table.
        field: usize,
    },
}

// The numbers of a list of fields at the start of some bytes.
fn numbers_of(fields: &[Field], bytes: &[u8]) -> ArrayVec<i64, 48>
    requires fields { IsTrue (are_fields fields.now) }
    requires few { length fields.now ≤ 48 }
    requires inside { width_of fields.now ≤ 8 * length bytes.now }
    ensures { result.items ≡ numbers_at bytes.now 0 fields.now }
{
    let mut numbers = ArrayVec::new();
    let mut at = 0;
    for field in fields {
        let width = field.width as usize;
        numbers.push(number_of(field, number_in_bytes(bytes, at, width)));
        at += width;
    }
    numbers
}

/// The offset of the first number outside its field's range.
pub fn first_outside(fields: &[Field], numbers: &[i64]) -> Option<usize>
    requires { length numbers.now ≡ length fields.now }
    ensures { result ≡ first_outside 0 fields.now numbers.now }
{
    for (i, field) in fields.iter().enumerate() {
        if !is_in_range(field, numbers[i]) {
            return Some(i);
        }
    }
    None
}

/// The numbers of the message at the start of some bytes, one for each field of its table. Bytes
/// after the message are ignored.
///
/// The error is the first one, in the order of [`TableFault`].
pub fn read_message(table: &Table, bytes: &[u8]) -> Result<ArrayVec<i64, 48>, TableFault>
    requires { IsTrue (is_table table.now) }
    ensures ok { IfOk result (λ numbers. message_in table.now bytes.now ≡ Ok numbers.items) }
    ensures range { IfOk result (λ numbers. AreInRange table.now.fields.now numbers.items) }
    ensures err { IfErr result (λ fault. message_in table.now bytes.now ≡ Err fault) }
{
    if bytes.len() < table.bytes {
        return Err(TableFault::Short);
    }
    let numbers = numbers_of(table.fields, bytes);
    match first_outside(table.fields, numbers.as_slice()) {
        None => Ok(numbers),
        Some(field) => Err(TableFault::OutOfRange { field }),
    }
}

// The widths of the fields and the bits of their numbers.
fn bits_of_all(fields: &[Field], numbers: &[i64]) -> ArrayVec<(u32, u64), 48>
    requires fields { IsTrue (are_fields fields.now) }
    requires few { length fields.now ≤ 48 }
    requires numbers { AreInRange fields.now numbers.now }
    ensures { result.items ≡ pairs fields.now numbers.now }
{
    let mut all = ArrayVec::new();
    for (i, field) in fields.iter().enumerate() {
        all.push((field.width, bits_of(field, numbers[i])));
    }
    all
}

// Contracts see bytes as natural numbers; each is below 256.
fn fit(bytes: &[u8])
    ensures { (i : ℕ) → slice_index bytes.now i < 256 }
{
    let _length = bytes.len();
}

// Appends the numbers of constant fields, and 0 for others.
#[tactic(auto, unfolding(crate::specs::Messages::starts))]
fn push_starts(fields: &[Field], numbers: &mut ArrayVec<i64, 48>)
    requires { length numbers.old.items + length fields.now ≤ 48 }
    ensures { numbers.new.items ≡ numbers.old.items ++ starts fields.now }
{
    if let [field, rest @ ..] = fields {
        numbers.push(start_of(field));
        push_starts(rest, numbers);
    }
}

/// The numbers of a message before any is written: those of constant fields, and 0 for others.
pub fn start_numbers(table: &Table) -> ArrayVec<i64, 48>
    requires { IsTrue (is_table table.now) }
    ensures { result.items ≡ starts table.now.fields.now }
{
    let mut numbers = ArrayVec::new();
    push_starts(table.fields, &mut numbers);
    numbers
}

/// Writes a message by its table: the bits of each number, reserved bits 0.
pub fn write_message(table: &Table, numbers: &[i64], out: &mut [u8])
    requires table { IsTrue (is_table table.now) }
    requires numbers { AreInRange table.now.fields.now numbers.now }
    requires room { length out.old ≡ table.now.bytes }
    ensures { out.new ≡ message_bytes table.now numbers.now }
{
    let all = bits_of_all(table.fields, numbers);
    put_numbers(out, 0, all.as_slice());
    fit(out);
}

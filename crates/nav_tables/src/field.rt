ghost use Rattle.std.specs.Prelude.{◌≡◌, ◌^◌, ◌*◌, ◌-◌, ◌<◌, ◌≤◌, IsTrue, ◌≤ℤ◌};
ghost use Rattle.nav_bits.specs.Signed.{IsSigned, unsigned_of};
ghost use Rattle.nav_tables.specs.declared.field.Coding.TheVariants.{SignMagnitude};
ghost use Rattle.nav_tables.specs.Fields.{IsInRange, bits_of, greatest, is_field, is_in_range};
ghost use Rattle.nav_tables.specs.Fields.{least, number_of, sign_magnitude_bits};
ghost use Rattle.nav_tables.specs.Fields.{sign_magnitude_of, start_of};

use nav_bits::sign_extended;

/// How the bits of a field encode a number.
#[derive(Clone, Copy, PartialEq, Eq)]
pub enum Coding {
    /// An unsigned number.
    Unsigned,
    /// A number in two's complement.
    TwosComplement,
    /// A sign bit and a magnitude. The sign with magnitude 0 is read as 0.
    SignMagnitude,
    /// Bits without meaning: written as 0, and ignored.
    Reserved,
}

/// A field of a message: the numbers from `low` to `high` in some bits.
#[derive(Clone, Copy)]
pub struct Field {
    /// Its width in bits.
    pub width: u32,
    /// How the bits encode a number.
    pub coding: Coding,
    /// The least number.
    pub low: i64,
    /// The greatest number.
    pub high: i64,
}

/// A message: its fields in order, and how many bytes they fill.
#[derive(Clone, Copy)]
pub struct Table {
    /// The fields.
    pub fields: &'static [Field],
    /// The bytes.
    pub bytes: usize,
}

// The number that the bits of a field stand for.
pub(crate) fn number_of(field: &Field, bits: u64) -> i64
    requires field { IsTrue (is_field field.now) }
    requires fits { bits < 2 ^ field.now.width }
    ensures { result ≡ number_of field.now bits }
{
    match field.coding {
        Coding::Unsigned => bits as i64,
        Coding::TwosComplement => sign_extended(bits, field.width),
        Coding::SignMagnitude => signed_by_magnitude(bits, field.width),
        Coding::Reserved => 0,
    }
}

// The number of a sign and a magnitude.
fn signed_by_magnitude(bits: u64, width: u32) -> i64
    requires some { 1 ≤ width }
    requires most { width ≤ 32 }
    requires fits { bits < 2 ^ width }
    ensures { result ≡ sign_magnitude_of width bits }
{
    let half = 1 << (width - 1);
    if bits < half {
        bits as i64
    } else {
        -((bits - half) as i64)
    }
}

// The two's complement bits of a number.
fn complement_bits(number: i64, width: u32) -> u64
    requires some { 1 ≤ width }
    requires most { width ≤ 32 }
    requires range { IsSigned width number }
    ensures same { result ≡ unsigned_of width number }
    ensures fits { result < 2 ^ width }
{
    number.cast_unsigned() & (u64::MAX >> (64 - width))
}

// The sign and the magnitude of a number.
fn magnitude_bits(number: i64, width: u32) -> u64
    requires some { 1 ≤ width }
    requires most { width ≤ 32 }
    requires low { least SignMagnitude width ≤ℤ number }
    requires high { number ≤ℤ greatest SignMagnitude width }
    ensures same { result ≡ sign_magnitude_bits width number }
    ensures fits { result < 2 ^ width }
{
    if number < 0 {
        (1 << (width - 1)) + ((-number) as u64)
    } else {
        number as u64
    }
}

// The bits of a number in the range of its field.
pub(crate) fn bits_of(field: &Field, number: i64) -> u64
    requires field { IsTrue (is_field field.now) }
    requires range { IsInRange field.now number }
    ensures same { result ≡ bits_of field.now number }
    ensures fits { result < 2 ^ field.now.width }
{
    match field.coding {
        Coding::Unsigned => number as u64,
        Coding::TwosComplement => complement_bits(number, field.width),
        Coding::SignMagnitude => magnitude_bits(number, field.width),
        Coding::Reserved => 0,
    }
}

// The number of a constant field, else 0.
pub(crate) fn start_of(field: &Field) -> i64
    ensures { result ≡ start_of field.now }
{
    if field.high <= field.low {
        field.low
    } else {
        0
    }
}

// Whether a number is in the range of its field.
pub(crate) fn is_in_range(field: &Field, number: i64) -> bool
    ensures { result ≡ is_in_range field.now number }
{
    field.low <= number && number <= field.high
}

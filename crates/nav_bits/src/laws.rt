ghost use Rattle.std.specs.Prelude.{◌≡◌, ℕ, ◌+◌, ◌*◌, ◌^◌, ◌%◌};
ghost use Rattle.std.specs.Prelude.{◌<◌, ◌≤◌, List, slice_index, ℤ};
ghost use Rattle.std.specs.Int.{bytes_high_first};
ghost use Rattle.nav_bits.specs.Bits.{number_at, Puts};
ghost use Rattle.nav_bits.specs.Fields.{Field, StandFrom, table_width};
ghost use Rattle.nav_bits.specs.Packed.{AllFit, AreBytes, ZerosFrom, packed};
ghost use Rattle.nav_bits.specs.Signed.{IsSigned, signed_of, unsigned_of};

/// The value of two adjacent bit fields read as one: the first times 2^`w`, plus the second.
pub fn append()
    ensures { (bytes : List ℕ) (at v w : ℕ) →
        number_at bytes at (v + w) ≡ number_at bytes at v * 2 ^ w + number_at bytes (at + v) w }
{}

/// The eight bits of a byte, read as one field, give the byte.
pub fn byte()
    ensures { (bytes : List ℕ) (i : ℕ) → slice_index bytes i < 256 →
        number_at bytes (8 * i) 8 ≡ slice_index bytes i }
{}

/// Two different patterns of `w` bits have different values in two's complement.
pub fn one_number_for_bits()
    ensures { (w m n : ℕ) → 1 ≤ w → m < 2 ^ w → n < 2 ^ w → signed_of w m ≡ signed_of w n → m ≡ n }
{}

/// The two's complement value of `w` bits is from -2^(`w` - 1) up to 2^(`w` - 1) - 1.
pub fn signed_numbers_fit()
    ensures { (w n : ℕ) → 1 ≤ w → n < 2 ^ w → IsSigned w (signed_of w n) }
{}

/// Encoding a number in two's complement and decoding it gives the number; the pattern has `w`
/// bits.
pub fn bits_of_signed_numbers()
    ensures stand { (w : ℕ) (z : ℤ) → 1 ≤ w → IsSigned w z → signed_of w (unsigned_of w z) ≡ z }
    ensures fit { (w : ℕ) (z : ℤ) → 1 ≤ w → IsSigned w z → unsigned_of w z < 2 ^ w }
{}

/// The big-endian bytes of a number have its low bits; lists of `n` bytes of equal value are equal.
pub fn byte_lists()
    ensures bytes { (n x : ℕ) → AreBytes n (bytes_high_first n x) }
    ensures number { (n x : ℕ) → number_at (bytes_high_first n x) 0 (8 * n) ≡ x % 2 ^ (8 * n) }
    ensures one { (n : ℕ) (a b : List ℕ) → AreBytes n a → AreBytes n b →
        number_at a 0 (8 * n) ≡ number_at b 0 (8 * n) → a ≡ b }
{}

/// If the fields fill `n` bytes, `packed` holds each at its bit offset, and reserved bits are 0.
pub fn packed_stand()
    ensures fields { (n : ℕ) (fields : List Field) → AllFit fields → table_width fields ≡ 8 * n →
        StandFrom (packed n fields) 0 0 fields }
    ensures zeros { (n : ℕ) (fields : List Field) → AllFit fields → table_width fields ≡ 8 * n →
        ZerosFrom (packed n fields) 0 0 fields }
    ensures bytes { (n : ℕ) (fields : List Field) → AreBytes n (packed n fields) }
{}

/// Only the bytes of `packed` hold the fields of a table that fills them with reserved bits 0.
pub fn packed_are_the_only()
    ensures { (n : ℕ) (fields : List Field) (bytes : List ℕ) → AllFit fields →
        table_width fields ≡ 8 * n → AreBytes n bytes → StandFrom bytes 0 0 fields →
        ZerosFrom bytes 0 0 fields → bytes ≡ packed n fields }
{}

/// Writing a value at a bit offset gives exactly one result.
pub fn one_put()
    ensures { (n at width value : ℕ) (old a b : List ℕ) → at + width ≤ 8 * n → AreBytes n a →
        AreBytes n b → Puts old a at width value → Puts old b at width value → a ≡ b }
{}

/// A number splits into high bits and `l` low bits in one way only.
pub fn one_split()
    ensures { (l high low high' low' : ℕ) → low < 2 ^ l → low' < 2 ^ l →
        high * 2 ^ l + low ≡ high' * 2 ^ l + low' → (high ≡ high') × (low ≡ low') }
{}

//! Theorems about the definitions: each is the contract of a function that does nothing.

ghost use Rattle.std.specs.Prelude.{◌≡◌, ℕ, ◌*◌, List, ◌++◌, length, bit_xor};
ghost use Rattle.nav_bits.specs.Bits.{number_at};
ghost use Rattle.nav_bits.specs.BitLists.{bits_at, crc_of_bits, number_of_bits};
ghost use Rattle.nav_bits.specs.Division.{IsCrc};
ghost use Rattle.nav_bits.specs.Register.{shift, crc_from};

/// A polynomial has at most one CRC.
pub fn one_crc()
    ensures { (p r s : ℕ) → IsCrc p r → IsCrc p s → r ≡ s }
{}

/// Every polynomial has a CRC.
pub fn every_polynomial_has_a_crc()
    ensures { (p : ℕ) → (r : ℕ) × IsCrc p r }
{}

/// The register that started from 0 holds the CRC of the bytes.
pub fn the_register_holds_the_crc()
    ensures { (bytes : List ℕ) → IsCrc (number_at bytes 0 (8 * length bytes)) (crc_from 0 bytes) }
{}

/// `crc_of_bits` gives the CRC of a list of bits, the coefficients of a polynomial, highest power
/// first. The polynomial of a run of bits in bytes is its unsigned value.
pub fn bits_have_their_crc()
    ensures crc { (bits : List ℕ) → IsCrc (number_of_bits bits) (crc_of_bits bits) }
    ensures run { (bytes : List ℕ) (from count : ℕ) →
        number_of_bits (bits_at bytes from count) ≡ number_at bytes from count }
{}

/// The CRC is linear: the CRC of a sum of polynomials is the sum of their CRCs.
pub fn crc_of_a_sum()
    ensures { (p r q s : ℕ) → IsCrc p r → IsCrc q s → IsCrc (bit_xor p q) (bit_xor r s) }
{}

/// The CRC of concatenated bytes: the CRC of the first part, advanced over as many zero bytes as
/// the second part has, plus the CRC of the second part.
pub fn crc_of_joined_bytes()
    ensures { (xs ys : List ℕ) → crc_from 0 (xs ++ ys) ≡
        bit_xor (shift (8 * length ys) (crc_from 0 xs)) (crc_from 0 ys) }
{}

/// A run of bits equal to the bits of some bytes has the CRC of these bytes.
pub fn bits_of_bytes_have_their_crc()
    ensures { (bytes run : List ℕ) (from r : ℕ) →
        number_at run from (8 * length bytes) ≡ number_at bytes 0 (8 * length bytes) →
        IsCrc (number_at run from (8 * length bytes)) r → r ≡ crc_from 0 bytes }
{}

//! The CRC of bytes and of any run of bits.

ghost use Rattle.std.specs.Prelude.{◌≡◌, ℕ, ◌+◌, ◌*◌};
ghost use Rattle.std.specs.Prelude.{◌^◌, ◌<◌, ◌≤◌, length};
ghost use Rattle.nav_bits.specs.Bits.{number_at};
ghost use Rattle.nav_bits.specs.BitLists.{bits_at, crc_of_bits};
ghost use Rattle.nav_bits.specs.Division.{IsCrc};
ghost use Rattle.nav_bits.specs.Register.{crc_from};

use crate::register::{after_bytes, with_byte};
use crate::shifts::with_bit;
use crate::{Bits, U};

/// The CRC-24Q of some bytes, 24 bits, the most significant bit of each byte first; 0 for no bytes.
///
/// RTCM 10403.3, section 4: the last three bytes of a frame are the CRC of all bytes before them,
/// high byte first.
pub fn crc_bytes(bytes: &[u8]) -> U<24>
    ensures value { result ≡ crc_from 0 bytes.now }
    ensures crc { IsCrc (number_at bytes.now 0 (8 * length bytes.now)) result }
{
    U::from_bits(u64::from(after_bytes(bytes)))
}

/// The CRC-24Q, 24 bits, of the `count` bits from bit offset `from`, bit 0 being the most
/// significant bit of the first byte.
///
/// Galileo OS SIS ICD, section 5.1.9.4: the CRC of a nominal page covers the 196 bits before it.
pub fn crc_bits<const N: usize>(bits: &Bits<N>, from: usize, count: usize) -> U<24>
    requires { from + count ≤ 8 * N }
    ensures value { result ≡ crc_of_bits (bits_at bits.now from count) }
    ensures crc { IsCrc (number_at bits.now from count) result }
{
    let bytes = bits.bytes();
    U::from_bits(u64::from(crc_of_run(bytes, from, count)))
}

// The same over a slice.
fn crc_of_run(bytes: &[u8], from: usize, count: usize) -> u32
    requires { from + count ≤ 8 * length bytes.now }
    ensures { IsCrc (number_at bytes.now from count) result }
{
    let state = after_whole_bytes(bytes, from, count / 8);
    after_last_bits(state, bytes, from / 8 + count / 8, from % 8, count % 8)
}

// The register, from 0, after the bits that make whole bytes.
fn after_whole_bytes(bytes: &[u8], from: usize, count: usize) -> u32
    requires { from + 8 * count ≤ 8 * length bytes.now }
    ensures { IsCrc (number_at bytes.now from (8 * count)) result }
{
    let mut state = 0;
    for i in 0..count {
        state = with_byte(state, byte_at(bytes, from / 8 + i, from % 8));
    }
    state
}

// The eight bits after the first `skip` bits of a byte.
fn byte_at(bytes: &[u8], byte: usize, skip: usize) -> u8
    requires skip { skip < 8 }
    requires inside { 8 * byte + skip + 8 ≤ 8 * length bytes.now }
    ensures { result ≡ number_at bytes.now (8 * byte + skip) 8 }
{
    if skip == 0 {
        return bytes[byte];
    }
    (bytes[byte] & (0xff >> skip)) << skip | bytes[byte + 1] >> (8 - skip)
}

// The register after fewer than eight more bits, those after the first `skip` bits of a byte.
fn after_last_bits(mut state: u32, bytes: &[u8], byte: usize, skip: usize, count: usize) -> u32
    requires state { state < 2 ^ 24 }
    requires skip { skip < 8 }
    requires count { count < 8 }
    requires inside { 8 * byte + skip + count ≤ 8 * length bytes.now }
    ensures { (p : ℕ) → IsCrc p state →
        IsCrc (p * 2 ^ count + number_at bytes.now (8 * byte + skip) count) result }
{
    for k in 0..count {
        let place = skip + k;
        let bit = bytes[byte + place / 8] >> (7 - place % 8) & 1;
        state = with_bit(state, u32::from(bit));
    }
    state
}

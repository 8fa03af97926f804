//! The 24-bit register, one byte, four or sixteen bytes at a time.

ghost use Rattle.std.specs.Prelude.{◌≡◌, ℕ, ◌+◌, ◌*◌, ◌/◌, ◌^◌};
ghost use Rattle.std.specs.Prelude.{◌<◌, ◌≤◌, [], ◌∷◌, drop, length};
ghost use Rattle.nav_bits.specs.Register.{with_byte_of, crc_from, shift};

use crate::far_tables::moved_far;
use crate::tables::{moved_8, moved_16, moved_24, moved_32};

/// The register after one more byte.
///
/// Started from 0, the register after the last byte of a message is its CRC. From the registers
/// after each byte, [`shifted`](crate::shifted) gives the CRC of any part of the message.
pub fn with_byte(state: u32, byte: u8) -> u32
    requires { state < 2 ^ 24 }
    ensures value { result ≡ with_byte_of state byte }
    ensures fits { result < 2 ^ 24 }
{
    moved_8((state >> 16) as u8 ^ byte) ^ (state & 0xffff) << 8
}

// The register after four more bytes. After three of them nothing of the earlier register is left
// but these look-ups.
fn with_four(state: u32, a: u8, b: u8, c: u8, d: u8) -> u32
    requires { state < 2 ^ 24 }
    ensures value { result ≡ crc_from state (a ∷ b ∷ c ∷ d ∷ []) }
    ensures fits { result < 2 ^ 24 }
{
    let first = (state >> 16) as u8 ^ a;
    let second = (state >> 8 & 255) as u8 ^ b;
    let third = (state & 255) as u8 ^ c;
    moved_32(first) ^ (moved_24(second) ^ (moved_16(third) ^ moved_8(d)))
}

// The register after four more bytes, advanced by 32 + 8n bits.
#[inline(always)]
fn four_moved(n: usize, state: u32, a: u8, b: u8, c: u8, d: u8) -> u32
    requires state { state < 2 ^ 24 }
    requires tables { n < 9 }
    ensures { result ≡ shift (32 + 8 * n) (crc_from state (a ∷ b ∷ c ∷ d ∷ [])) }
{
    let first = (state >> 16) as u8 ^ a;
    let second = (state >> 8 & 255) as u8 ^ b;
    let third = (state & 255) as u8 ^ c;
    moved_far(n + 3, first)
        ^ (moved_far(n + 2, second) ^ (moved_far(n + 1, third) ^ moved_far(n, d)))
}

// The register after the sixteen bytes from offset `at`: the first four come to it by look-ups with
// the earlier register, the others without.
fn with_sixteen(state: u32, bytes: &[u8], at: usize) -> u32
    requires state { state < 2 ^ 24 }
    requires inside { at + 16 ≤ length bytes.now }
    ensures value { crc_from result (drop (at + 16) bytes.now)
        ≡ crc_from state (drop at bytes.now) }
    ensures fits { result < 2 ^ 24 }
{
    let first = four_moved(
        8,
        state,
        bytes[at],
        bytes[at + 1],
        bytes[at + 2],
        bytes[at + 3],
    );
    let second = four_moved(
        4,
        0,
        bytes[at + 4],
        bytes[at + 5],
        bytes[at + 6],
        bytes[at + 7],
    );
    let third = four_moved(
        0,
        0,
        bytes[at + 8],
        bytes[at + 9],
        bytes[at + 10],
        bytes[at + 11],
    );
    let last = with_four(
        0,
        bytes[at + 12],
        bytes[at + 13],
        bytes[at + 14],
        bytes[at + 15],
    );
    first ^ second ^ third ^ last
}

// The register, from 0, after the bytes that are taken by sixteens.
fn after_sixteens(bytes: &[u8]) -> u32
    ensures value { crc_from result (drop (16 * (length bytes.now / 16)) bytes.now) ≡
        crc_from 0 bytes.now }
    ensures fits { result < 2 ^ 24 }
{
    let mut state = 0;
    for i in 0..bytes.len() / 16 {
        state = with_sixteen(state, bytes, 16 * i);
    }
    state
}

// The register, from 0, after the bytes that are taken by sixteens and by fours.
fn after_fours(bytes: &[u8]) -> u32
    ensures value { crc_from result (drop (4 * (length bytes.now / 4)) bytes.now) ≡
        crc_from 0 bytes.now }
    ensures fits { result < 2 ^ 24 }
{
    let mut state = after_sixteens(bytes);
    for i in 4 * (bytes.len() / 16)..bytes.len() / 4 {
        state = with_four(
            state,
            bytes[4 * i],
            bytes[4 * i + 1],
            bytes[4 * i + 2],
            bytes[4 * i + 3],
        );
    }
    state
}

// The register, from 0, after all bytes.
pub(crate) fn after_bytes(bytes: &[u8]) -> u32
    ensures value { result ≡ crc_from 0 bytes.now }
    ensures fits { result < 2 ^ 24 }
{
    let mut state = after_fours(bytes);
    for byte in &bytes[4 * (bytes.len() / 4)..] {
        state = with_byte(state, *byte);
    }
    state
}

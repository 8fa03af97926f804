ghost use Rattle.std.specs.Prelude.{◌≡◌, ℕ, ◌+◌, ◌*◌, ◌^◌};
ghost use Rattle.std.specs.Prelude.{◌<◌, ◌≤◌, List, replicate, slice_index};
ghost use Rattle.nav_bits.specs.Bits.{number_at, signed_at, Puts};
ghost use Rattle.nav_bits.specs.Packed.{AreBytes};

use crate::bit_offsets::{number_in_bytes, put_number};
use crate::signed::sign_extended;
use std::marker::Model;

/// `N` bytes as a run of bits, bit 0 being the most significant bit of the first byte.
#[derive(Clone, Copy, PartialEq, Eq)]
pub struct Bits<const N: usize> {
    pub(crate) bytes: [u8; N],
}

impl<const N: usize> Model for Bits<N> {
    ghost Value = { List ℕ };

    ghost view = { λ b. b.bytes };

    ghost inverse = { λ bytes. record { bytes = bytes } };
}

// Contracts see bytes as natural numbers; each is below 256.
fn fit(bytes: &[u8])
    ensures { (i : ℕ) → slice_index bytes.now i < 256 }
{
    let _length = bytes.len();
}

impl<const N: usize> Bits<N> {
    /// A fact for proofs: there are `N` bytes, each below 256. Does nothing when run.
    pub fn are_bytes(&self)
        ensures { AreBytes N self.now }
    {
        fit(&self.bytes);
    }

    /// `N` bytes of zero.
    pub fn zero() -> Self
        ensures { result ≡ replicate N 0 }
    {
        Bits { bytes: [0; N] }
    }

    /// The bits of these bytes.
    pub fn from_bytes(bytes: [u8; N]) -> Self
        ensures { result ≡ bytes.entry }
    {
        Bits { bytes }
    }

    /// The bytes.
    pub fn bytes(&self) -> &[u8; N]
        ensures { result.now ≡ self.now }
    {
        &self.bytes
    }

    /// The unsigned value of the `width` bits (1 to 64) from bit offset `at`.
    pub fn get(&self, at: usize, width: u32) -> u64
        requires some { 1 ≤ width }
        requires most { width ≤ 64 }
        requires inside { at + width ≤ 8 * N }
        ensures { result ≡ number_at self.now at width }
    {
        number_in_bytes(&self.bytes, at, width as usize)
    }

    /// The value of the `width` bits (1 to 64) from bit offset `at`, in two's complement.
    pub fn get_signed(&self, at: usize, width: u32) -> i64
        requires some { 1 ≤ width }
        requires most { width ≤ 64 }
        requires inside { at + width ≤ 8 * N }
        ensures { result ≡ signed_at self.now at width }
    {
        sign_extended(self.get(at, width), width)
    }

    /// Writes an unsigned value as the `width` bits (1 to 64) from bit offset `at`. All other bits
    /// stay.
    pub fn put(&mut self, at: usize, width: u32, value: u64)
        requires some { 1 ≤ width }
        requires most { width ≤ 64 }
        requires inside { at + width ≤ 8 * N }
        requires fits { value < 2 ^ width }
        ensures { Puts self.old self.new at width value }
    {
        put_number(&mut self.bytes, at, width as usize, value);
    }
}

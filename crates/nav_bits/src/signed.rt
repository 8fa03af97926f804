ghost use Rattle.std.specs.Prelude.{◌≡◌, ℕ, ◌+◌, ◌*◌, ◌^◌, ◌<◌, ◌≤◌};
ghost use Rattle.std.specs.Prelude.{◌↔◌, ℤ, pos, negsuc, IsSome, IfSome};
ghost use Rattle.nav_bits.specs.Bits.{signed_at};
ghost use Rattle.nav_bits.specs.Laws.{signed_at-same};
ghost use Rattle.nav_bits.specs.Mirrors.{magnitude_of};
ghost use Rattle.nav_bits.specs.Signed.{IsSigned, signed_of};

use crate::bit_offsets::{number_in_bytes, put_number};
use crate::layout::Layout;
use crate::unsigned::U;
use std::marker::Model;

/// A signed number of `W` bits in two's complement, from -2^(`W` - 1) up to 2^(`W` - 1) - 1.
#[derive(Clone, Copy, PartialEq, Eq, PartialOrd, Ord, Hash)]
pub struct S<const W: u32> {
    raw: i64,
}

impl<const W: u32> Model for S<W> {
    ghost use Rattle.std.specs.Prelude.{ℤ};
    ghost use Rattle.nav_bits.specs.Signed.{IsSigned};

    ghost Value = { ℤ };

    ghost view = { λ s. s.raw };

    ghost invariant = { λ s. IsSigned W s.raw };

    ghost inverse = { λ z. record { raw = z } };
}

// z, or -z - 1 where z is negative.
fn magnitude(value: i64) -> u64
    ensures { result ≡ magnitude_of value }
{
    if value < 0 {
        (-(value + 1)) as u64
    } else {
        value as u64
    }
}

/// The two's complement value of `width` bits, by sign extension to 64 bits.
pub fn sign_extended(bit_pattern: u64, width: u32) -> i64
    requires some { 1 ≤ width }
    requires most { width ≤ 64 }
    requires fits { bit_pattern < 2 ^ width }
    ensures { result ≡ signed_of width bit_pattern }
{
    if bit_pattern >> (width - 1) == 0 {
        return bit_pattern as i64;
    }
    let above = u64::MAX - (u64::MAX >> (64 - width));
    (bit_pattern + above).cast_signed()
}

impl<const W: u32> S<W> {
    /// The number as `W` bits; `None` if it is out of range.
    pub fn new(value: i64) -> Option<Self>
        ensures exactly { IsSome result ↔ IsSigned W value }
        ensures same { IfSome result (λ s. s ≡ value) }
    {
        if W > 64 {
            return Some(S { raw: value });
        }
        if magnitude(value) >> W.saturating_sub(1) == 0 {
            Some(S { raw: value })
        } else {
            None
        }
    }

    /// The number.
    pub fn value(&self) -> i64
        ensures same { result ≡ self.now }
        ensures fits { IsSigned W self.now }
    {
        self.raw
    }

    /// Its `W` bits in two's complement, as an unsigned value.
    pub fn bit_pattern(&self) -> u64
        requires some { 1 ≤ W }
        requires most { W ≤ 64 }
        ensures fits { result < 2 ^ W }
        ensures same { signed_of W result ≡ self.now }
    {
        self.raw.cast_unsigned() & (u64::MAX >> (64 - W))
    }

    /// The two's complement value of `W` bits, given as an unsigned value.
    pub fn from_bits(bit_pattern: u64) -> Self
        requires some { 1 ≤ W }
        requires most { W ≤ 64 }
        requires fits { bit_pattern < 2 ^ W }
        ensures { result ≡ signed_of W bit_pattern }
    {
        S {
            raw: sign_extended(bit_pattern, W),
        }
    }

    /// The value whose `H` high and `L` low bits these are, in two's complement.
    pub fn join<const H: u32, const L: u32>(high: U<H>, low: U<L>) -> Self
        requires whole { H + L ≡ W }
        requires some_high { 1 ≤ H }
        requires some_low { 1 ≤ L }
        requires most { W ≤ 64 }
        ensures { result ≡ signed_of W (high.entry * 2 ^ L + low.entry) }
    {
        let bit_pattern: U<W> = U::join(high, low);
        S::from_bits(bit_pattern.value())
    }

    /// The `H` high bits and the `L` low bits of its two's complement form.
    pub fn split<const H: u32, const L: u32>(&self) -> (U<H>, U<L>)
        requires whole { H + L ≡ W }
        requires some_high { 1 ≤ H }
        requires some_low { 1 ≤ L }
        requires most { W ≤ 64 }
        ensures { signed_of W (result.0 * 2 ^ L + result.1) ≡ self.now }
    {
        let bit_pattern: U<W> = U::from_bits(self.bit_pattern());
        bit_pattern.split()
    }
}

impl<const W: u32> Layout for S<W> {
    ghost BITS = { W };

    ghost Usable = { (1 ≤ W) × (W ≤ 64) };

    ghost stands_at = { λ bytes at. signed_at bytes at W };

    ghost RestIsFixed = { λ bytes at. Unit {0} };

    ghost own_bits = { λ a b at same. signed_at-same a b at W same };

    const BITS: u32 = W;

    fn write_bits(&self, into: &mut [u8], at: usize) {
        put_number(into, at, W as usize, self.bit_pattern());
    }

    fn read_bits(from: &[u8], at: usize) -> Self {
        S::from_bits(number_in_bytes(from, at, W as usize))
    }
}

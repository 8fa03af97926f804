ghost use Rattle.std.specs.Prelude.{◌≡◌, ℕ, ◌+◌, ◌*◌, ◌^◌};
ghost use Rattle.std.specs.Prelude.{◌<◌, ◌≤◌, ◌↔◌, IsSome, IfSome};
ghost use Rattle.nav_bits.specs.Bits.{number_at};
ghost use Rattle.nav_bits.specs.Laws.{number_at-same};

use crate::bit_offsets::{number_in_bytes, put_number};
use crate::layout::Layout;
use std::marker::Model;

/// An unsigned number of `W` bits, from 0 up to 2^`W` - 1.
#[derive(Clone, Copy, PartialEq, Eq, PartialOrd, Ord, Hash)]
pub struct U<const W: u32> {
    raw: u64,
}

impl<const W: u32> Model for U<W> {
    ghost Value = { ℕ };

    ghost view = { λ u. u.raw };

    ghost invariant = { λ u. u.raw < 2 ^ W };

    ghost inverse = { λ n. record { raw = n } };
}

impl<const W: u32> U<W> {
    /// The number as `W` bits; `None` if it is out of range.
    pub fn new(value: u64) -> Option<Self>
        ensures exactly { IsSome result ↔ (value < 2 ^ W) }
        ensures same { IfSome result (λ u. u ≡ value) }
    {
        if W >= 64 {
            return Some(U { raw: value });
        }
        if value >> W == 0 {
            Some(U { raw: value })
        } else {
            None
        }
    }

    /// The number.
    pub fn value(&self) -> u64
        ensures same { result ≡ self.now }
        ensures fits { self.now < 2 ^ W }
    {
        self.raw
    }

    /// The number as `W` bits, if the caller knows that it is in range.
    pub fn from_bits(raw: u64) -> Self
        requires { raw < 2 ^ W }
        ensures { result ≡ raw }
    {
        U { raw }
    }

    /// The number whose `H` high and `L` low bits these are.
    pub fn join<const H: u32, const L: u32>(high: U<H>, low: U<L>) -> Self
        requires whole { H + L ≡ W }
        requires some_high { 1 ≤ H }
        requires some_low { 1 ≤ L }
        requires most { W ≤ 64 }
        ensures { result ≡ high.entry * 2 ^ L + low.entry }
    {
        U {
            raw: (high.value() << L) + low.value(),
        }
    }

    /// Its `H` high bits and its `L` low bits.
    pub fn split<const H: u32, const L: u32>(&self) -> (U<H>, U<L>)
        requires whole { H + L ≡ W }
        requires some_high { 1 ≤ H }
        requires some_low { 1 ≤ L }
        requires most { W ≤ 64 }
        ensures { result.0 * 2 ^ L + result.1 ≡ self.now }
    {
        let high = U::from_bits(self.raw >> L);
        let low = U::from_bits(self.raw & (u64::MAX >> (64 - L)));
        (high, low)
    }
}

impl<const W: u32> Layout for U<W> {
    ghost BITS = { W };

    ghost Usable = { (1 ≤ W) × (W ≤ 64) };

    ghost stands_at = { λ bytes at. number_at bytes at W };

    ghost RestIsFixed = { λ bytes at. Unit {0} };

    ghost own_bits = { λ a b at same. number_at-same a b at W same };

    const BITS: u32 = W;

    fn write_bits(&self, into: &mut [u8], at: usize) {
        put_number(into, at, W as usize, self.raw);
    }

    fn read_bits(from: &[u8], at: usize) -> Self {
        U::from_bits(number_in_bytes(from, at, W as usize))
    }
}

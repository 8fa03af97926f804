ghost use Rattle.std.specs.Prelude.{◌≡◌, ℕ, ◌+◌, ◌*◌, ◌^◌};
ghost use Rattle.std.specs.Prelude.{◌<◌, ◌≤◌, List, length};
ghost use Rattle.nav_bits.specs.Bits.{SameInside, SameOutside};

use crate::bits::Bits;

/// A value encoded as a run of bits of fixed width at any bit offset.
pub trait Layout {
    ghost BITS: { ℕ };

    ghost Usable: { Type 0 };

    ghost stands_at: { List ℕ → ℕ → Self };

    // The bits beside the fields: fixed ones, as a preamble or a message type, and reserved ones,
    // 0.
    ghost RestIsFixed: { List ℕ → ℕ → Type 0 };

    /// Its width in bits.
    const BITS: u32;

    /// Writes it from bit offset `at`; all other bits stay.
    fn write_bits(&self, into: &mut [u8], at: usize)
        requires usable { Usable }
        requires inside { at + BITS ≤ 8 * length into.old }
        requires small { 8 * length into.old < 2 ^ 64 }
        ensures stands { stands_at into.new at ≡ self.now }
        ensures rest { RestIsFixed into.new at }
        ensures others { SameOutside into.old into.new at (at + BITS) };

    /// Reads the value from bit offset `at`.
    fn read_bits(from: &[u8], at: usize) -> Self
        requires usable { Usable }
        requires inside { at + BITS ≤ 8 * length from.now }
        requires small { 8 * length from.now < 2 ^ 64 }
        ensures { result ≡ stands_at from.now at };

    // The value depends on its own bits only.
    ghost own_bits: { (a b : List ℕ) (at : ℕ) → SameInside a b at (at + BITS) →
        stands_at a at ≡ stands_at b at };
}

/// A value encoded in the bits of `N` bytes: unpacking gives what was packed, and packing changes
/// no other bits.
pub trait BitForm<const N: usize> {
    ghost BITS: { ℕ };

    ghost Usable: { Type 0 };

    ghost stands_at: { List ℕ → ℕ → Self };

    // The bits beside the fields: fixed ones, as a preamble or a message type, and reserved ones,
    // 0.
    ghost RestIsFixed: { List ℕ → ℕ → Type 0 };

    /// Its width in bits.
    const BITS: u32;

    /// Writes it from bit offset `at`; all other bits stay.
    fn pack(&self, into: &mut Bits<N>, at: usize)
        requires usable { Usable }
        requires inside { at + BITS ≤ 8 * N }
        requires small { 8 * N < 2 ^ 64 }
        ensures stands { stands_at into.new at ≡ self.now }
        ensures rest { RestIsFixed into.new at }
        ensures others { SameOutside into.old into.new at (at + BITS) };

    /// Reads the value from bit offset `at`.
    fn unpack(from: &Bits<N>, at: usize) -> Self
        requires usable { Usable }
        requires inside { at + BITS ≤ 8 * N }
        requires small { 8 * N < 2 ^ 64 }
        ensures { result ≡ stands_at from.now at };

    // The value depends on its own bits only.
    ghost own_bits: { (a b : List ℕ) (at : ℕ) → SameInside a b at (at + BITS) →
        stands_at a at ≡ stands_at b at };
}

impl<F: Layout, const N: usize> BitForm<N> for F {
    ghost BITS = { F.BITS };

    ghost Usable = { F.Usable };

    ghost stands_at = { F.stands_at };

    ghost RestIsFixed = { F.RestIsFixed };

    ghost own_bits = { F.own_bits };

    const BITS: u32 = F::BITS;

    fn pack(&self, into: &mut Bits<N>, at: usize) {
        self.write_bits(&mut into.bytes, at);
    }

    fn unpack(from: &Bits<N>, at: usize) -> Self {
        F::read_bits(&from.bytes, at)
    }
}

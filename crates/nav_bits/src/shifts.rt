//! Advancing a register over zero bytes, in constant time.

ghost use Rattle.std.specs.Prelude.{◌≡◌, ℕ, ◌+◌, ◌*◌};
ghost use Rattle.std.specs.Prelude.{◌^◌, ◌<◌, slice_index};
ghost use Rattle.nav_bits.specs.Division.{IsCrc};
ghost use Rattle.nav_bits.specs.Register.{stepped, shift};

use crate::powers::power;
use crate::tables::moved_8;

const GENERATOR: u32 = 0x1864CFB;

/// The register `state` after `count` zero bytes, up to 1,028, the most that a frame has.
///
/// The register is linear: after `count` bytes of any value it is the sum (`^`) of this and the CRC
/// of these bytes. So the CRC of a range of bytes follows from the registers before and after it.
pub fn shifted(state: u32, count: usize) -> u32
    requires state { state < 2 ^ 24 }
    requires count { count < 1029 }
    ensures value { result ≡ shift (8 * count) state }
    ensures fits { result < 2 ^ 24 }
{
    if state == 0 {
        return 0;
    }
    let multiples = multiples_of(power(count));
    let mut sum = 0;
    for k in 0..6u32 {
        sum = moved_4(sum) ^ multiples[(state >> (20 - 4 * k) & 15) as usize];
    }
    sum
}

// The sixteen products of a power of x with the polynomials of degree below 4.
fn multiples_of(one: u32) -> [u32; 16]
    requires { one < 2 ^ 24 }
    ensures { (n : ℕ) → one ≡ shift n 1 → (d : ℕ) → d < 16 → slice_index result d ≡ shift n d }
{
    let two = moved_1(one);
    let four = moved_1(two);
    let eight = moved_1(four);
    [
        0,
        one,
        two,
        two ^ one,
        four,
        four ^ one,
        four ^ two,
        four ^ (two ^ one),
        eight,
        eight ^ one,
        eight ^ two,
        eight ^ (two ^ one),
        eight ^ four,
        eight ^ (four ^ one),
        eight ^ (four ^ two),
        eight ^ (four ^ (two ^ one)),
    ]
}

// The register after one more bit.
pub(crate) fn with_bit(state: u32, bit: u32) -> u32
    requires state { state < 2 ^ 24 }
    requires bit { bit < 2 }
    ensures grows { (p : ℕ) → IsCrc p state → IsCrc (p * 2 + bit) result }
    ensures fits { result < 2 ^ 24 }
{
    moved_1(state ^ bit << 23)
}

// x times the register, modulo the generator.
pub(crate) fn moved_1(state: u32) -> u32
    requires { state < 2 ^ 24 }
    ensures value { result ≡ stepped state }
    ensures fits { result < 2 ^ 24 }
{
    let longer = state << 1;
    if longer < 1 << 24 {
        longer
    } else {
        longer ^ GENERATOR
    }
}

// x^4 times the register, modulo the generator.
fn moved_4(state: u32) -> u32
    requires { state < 2 ^ 24 }
    ensures value { result ≡ shift 4 state }
    ensures fits { result < 2 ^ 24 }
{
    moved_8((state >> 20) as u8) ^ (state & 0xfffff) << 4
}

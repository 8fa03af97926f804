//! Advancing a register over a fixed number of zero bytes, by tables made for that number.

ghost use Rattle.std.specs.Prelude.{◌≡◌, ℕ, ◌*◌, ◌^◌, ◌<◌, slice_index};
ghost use Rattle.nav_bits.specs.Register.{shift};
ghost use Rattle.nav_bits.specs.Movers.{AreMoved};

use crate::powers::power;
use crate::register::with_byte;
use crate::shifts::moved_1;
use std::marker::Model;

/// Advances registers over a fixed number of zero bytes, as [`shifted`](crate::shifted) does, by
/// three independent look-ups.
///
/// A contract sees the number of bytes. The tables take 3 KB and the time of some twenty calls of
/// `shifted`, which pays if the same number recurs.
#[derive(Drop)]
pub struct Mover {
    count: usize,
    // each value of the low, middle and high byte of the register, advanced
    low: [u32; 256],
    middle: [u32; 256],
    high: [u32; 256],
}

impl Model for Mover {
    ghost use Rattle.std.specs.Prelude.{ℕ, ◌*◌, ◌<◌};
    ghost use Rattle.nav_bits.specs.Movers.{AreMoved};

    ghost Value = { ℕ };

    ghost view = { λ m. m.count };

    ghost invariant = { λ m. (m.count < 1029) × AreMoved (8 * m.count) m.low m.middle m.high };
}

impl Mover {
    /// For `count` zero bytes, up to 1,028, the most that a frame has.
    pub fn new(count: usize) -> Self
        requires { count < 1029 }
        ensures { result ≡ count }
    {
        let mut low = [0; 256];
        let mut middle = [0; 256];
        let mut high = [0; 256];
        fill_tables(count, &mut low, &mut middle, &mut high);
        Mover {
            count,
            low,
            middle,
            high,
        }
    }

    /// Makes the tables for another number of zero bytes.
    pub fn set_count(&mut self, count: usize)
        requires { count < 1029 }
        ensures { self.new ≡ count }
    {
        fill_tables(count, &mut self.low, &mut self.middle, &mut self.high);
        self.count = count;
    }

    /// The number of zero bytes.
    pub fn count(&self) -> usize
        ensures { result ≡ self.now }
    {
        self.count
    }

    /// The register `state` after `count` zero bytes.
    pub fn moved(&self, state: u32) -> u32
        requires { state < 2 ^ 24 }
        ensures value { result ≡ shift (8 * self.now) state }
        ensures fits { result < 2 ^ 24 }
    {
        let low = self.low[(state & 255) as usize];
        let middle = self.middle[(state >> 8 & 255) as usize];
        self.high[(state >> 16) as usize] ^ (middle ^ low)
    }
}

// Fills the three tables.
fn fill_tables(count: usize, low: &mut [u32; 256], middle: &mut [u32; 256], high: &mut [u32; 256])
    requires { count < 1029 }
    ensures { AreMoved (8 * count) low.new middle.new high.new }
{
    let one = power(count);
    let next = with_byte(one, 0);
    fill(low, one);
    fill(middle, next);
    fill(high, with_byte(next, 0));
}

// Fills the products of a power of x with the polynomials of degree below 8: x times that of the
// upper seven bits, plus the power where the lowest bit is 1.
fn fill(entries: &mut [u32; 256], one: u32)
    requires { one < 2 ^ 24 }
    ensures { (n : ℕ) → one ≡ shift n 1 →
        (d : ℕ) → d < 256 → slice_index entries.new d ≡ shift n d }
{
    entries[0] = 0;
    entries[1] = one;
    for half in 1..128 {
        let even = moved_1(entries[half]);
        entries[2 * half] = even;
        entries[2 * half + 1] = even ^ one;
    }
}

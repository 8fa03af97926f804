use nav_bits::{Layout, S, U, put_numbers};

/// The fields of I/NAV word type 1, ephemeris (1/4), in the order of the ICD after the type
/// (Galileo OS SIS ICD, 4.3.5).
#[derive(Clone, Copy)]
pub struct Word1 {
    /// Issue of data, IODnav.
    pub iodnav: U<10>,
    /// The ephemeris reference time toe, in units of 60 s.
    pub toe: U<14>,
    /// Mean anomaly at toe, in 2^-31 semicircles.
    pub m0: S<32>,
    /// Eccentricity, in 2^-33.
    pub e: U<32>,
    /// Square root of the semi-major axis, in 2^-19 √m.
    pub root_a: U<32>,
}

impl Layout for Word1 {
    ghost use Rattle.std.specs.Prelude.{ℕ, List};
    ghost use Rattle.inav.specs.Words.{word1_at, word1_own_bits, word1_rest};

    ghost BITS = { 128 };

    ghost Usable = { Unit {0} };

    ghost stands_at = { word1_at };

    ghost RestIsFixed = { word1_rest };

    ghost own_bits = { word1_own_bits };

    const BITS: u32 = 128;

    fn write_bits(&self, into: &mut [u8], at: usize) {
        put_numbers(
            into,
            at,
            &[
                (6, 1),
                (10, self.iodnav.value()),
                (14, self.toe.value()),
                (32, self.m0.bit_pattern()),
                (32, self.e.value()),
                (32, self.root_a.value()),
                (2, 0),
            ],
        );
    }

    fn read_bits(from: &[u8], at: usize) -> Self {
        Word1 {
            iodnav: U::read_bits(from, at + 6),
            toe: U::read_bits(from, at + 16),
            m0: S::read_bits(from, at + 30),
            e: U::read_bits(from, at + 62),
            root_a: U::read_bits(from, at + 94),
        }
    }
}

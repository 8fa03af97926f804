use nav_bits::{Layout, S, U, put_numbers};

/// The fields of I/NAV word type 2, ephemeris (2/4), in the order of the ICD after the type
/// (Galileo OS SIS ICD, 4.3.5).
#[derive(Clone, Copy)]
pub struct Word2 {
    /// Issue of data, IODnav.
    pub iodnav: U<10>,
    /// Longitude of the ascending node at the weekly epoch, in 2^-31 semicircles.
    pub omega0: S<32>,
    /// Inclination at toe, in 2^-31 semicircles.
    pub i0: S<32>,
    /// Argument of perigee, in 2^-31 semicircles.
    pub omega: S<32>,
    /// Rate of inclination, in 2^-43 semicircles/s.
    pub idot: S<14>,
}

impl Layout for Word2 {
    ghost use Rattle.std.specs.Prelude.{ℕ, List};
    ghost use Rattle.inav.specs.Words.{word2_at, word2_own_bits, word2_rest};

    ghost BITS = { 128 };

    ghost Usable = { Unit {0} };

    ghost stands_at = { word2_at };

    ghost RestIsFixed = { word2_rest };

    ghost own_bits = { word2_own_bits };

    const BITS: u32 = 128;

    fn write_bits(&self, into: &mut [u8], at: usize) {
        put_numbers(
            into,
            at,
            &[
                (6, 2),
                (10, self.iodnav.value()),
                (32, self.omega0.bit_pattern()),
                (32, self.i0.bit_pattern()),
                (32, self.omega.bit_pattern()),
                (14, self.idot.bit_pattern()),
                (2, 0),
            ],
        );
    }

    fn read_bits(from: &[u8], at: usize) -> Self {
        Word2 {
            iodnav: U::read_bits(from, at + 6),
            omega0: S::read_bits(from, at + 16),
            i0: S::read_bits(from, at + 48),
            omega: S::read_bits(from, at + 80),
            idot: S::read_bits(from, at + 112),
        }
    }
}

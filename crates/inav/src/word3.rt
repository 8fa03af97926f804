use nav_bits::{Layout, S, U, put_numbers};

/// The fields of I/NAV word type 3, ephemeris (3/4) and SISA, in the order of the ICD after the
/// type (Galileo OS SIS ICD, 4.3.5).
#[derive(Clone, Copy)]
pub struct Word3 {
    /// Issue of data, IODnav.
    pub iodnav: U<10>,
    /// Rate of right ascension, in 2^-43 semicircles/s.
    pub omega_dot: S<24>,
    /// Mean motion difference from the computed value, in 2^-43 semicircles/s.
    pub delta_n: S<16>,
    /// Amplitude of the cosine harmonic correction to the argument of latitude, in 2^-29 rad.
    pub cuc: S<16>,
    /// Amplitude of the sine harmonic correction to the argument of latitude, in 2^-29 rad.
    pub cus: S<16>,
    /// Amplitude of the cosine harmonic correction to the orbit radius, in 2^-5 m.
    pub crc: S<16>,
    /// Amplitude of the sine harmonic correction to the orbit radius, in 2^-5 m.
    pub crs: S<16>,
    /// The signal-in-space accuracy (SISA) index.
    pub sisa: U<8>,
}

impl Layout for Word3 {
    ghost use Rattle.std.specs.Prelude.{ℕ, List};
    ghost use Rattle.inav.specs.Words.{word3_at, word3_own_bits, word3_rest};

    ghost BITS = { 128 };

    ghost Usable = { Unit {0} };

    ghost stands_at = { word3_at };

    ghost RestIsFixed = { word3_rest };

    ghost own_bits = { word3_own_bits };

    const BITS: u32 = 128;

    fn write_bits(&self, into: &mut [u8], at: usize) {
        put_numbers(
            into,
            at,
            &[
                (6, 3),
                (10, self.iodnav.value()),
                (24, self.omega_dot.bit_pattern()),
                (16, self.delta_n.bit_pattern()),
                (16, self.cuc.bit_pattern()),
                (16, self.cus.bit_pattern()),
                (16, self.crc.bit_pattern()),
                (16, self.crs.bit_pattern()),
                (8, self.sisa.value()),
            ],
        );
    }

    fn read_bits(from: &[u8], at: usize) -> Self {
        Word3 {
            iodnav: U::read_bits(from, at + 6),
            omega_dot: S::read_bits(from, at + 16),
            delta_n: S::read_bits(from, at + 40),
            cuc: S::read_bits(from, at + 56),
            cus: S::read_bits(from, at + 72),
            crc: S::read_bits(from, at + 88),
            crs: S::read_bits(from, at + 104),
            sisa: U::read_bits(from, at + 120),
        }
    }
}

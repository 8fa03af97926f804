use nav_bits::{Layout, S, U, put_numbers};

/// The fields of I/NAV word type 4, SVID, ephemeris (4/4) and clock correction, in the order of the
/// ICD after the type (Galileo OS SIS ICD, 4.3.5).
#[derive(Clone, Copy)]
pub struct Word4 {
    /// Issue of data, IODnav.
    pub iodnav: U<10>,
    /// The SVID of the satellite that sends it.
    pub svid: U<6>,
    /// Amplitude of the cosine harmonic correction to the inclination, in 2^-29 rad.
    pub cic: S<16>,
    /// Amplitude of the sine harmonic correction to the inclination, in 2^-29 rad.
    pub cis: S<16>,
    /// The clock correction reference time toc, in units of 60 s.
    pub toc: U<14>,
    /// Clock bias a_f0, in 2^-34 s.
    pub af0: S<31>,
    /// Clock drift a_f1, in 2^-46 s/s.
    pub af1: S<21>,
    /// Clock drift rate a_f2, in 2^-59 s/s².
    pub af2: S<6>,
}

impl Layout for Word4 {
    ghost use Rattle.std.specs.Prelude.{ℕ, List};
    ghost use Rattle.inav.specs.Words.{word4_at, word4_own_bits, word4_rest};

    ghost BITS = { 128 };

    ghost Usable = { Unit {0} };

    ghost stands_at = { word4_at };

    ghost RestIsFixed = { word4_rest };

    ghost own_bits = { word4_own_bits };

    const BITS: u32 = 128;

    fn write_bits(&self, into: &mut [u8], at: usize) {
        put_numbers(
            into,
            at,
            &[
                (6, 4),
                (10, self.iodnav.value()),
                (6, self.svid.value()),
                (16, self.cic.bit_pattern()),
                (16, self.cis.bit_pattern()),
                (14, self.toc.value()),
                (31, self.af0.bit_pattern()),
                (21, self.af1.bit_pattern()),
                (6, self.af2.bit_pattern()),
                (2, 0),
            ],
        );
    }

    fn read_bits(from: &[u8], at: usize) -> Self {
        Word4 {
            iodnav: U::read_bits(from, at + 6),
            svid: U::read_bits(from, at + 16),
            cic: S::read_bits(from, at + 22),
            cis: S::read_bits(from, at + 38),
            toc: U::read_bits(from, at + 54),
            af0: S::read_bits(from, at + 68),
            af1: S::read_bits(from, at + 99),
            af2: S::read_bits(from, at + 120),
        }
    }
}

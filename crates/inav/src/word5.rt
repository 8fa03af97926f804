use nav_bits::{Layout, S, U, put_numbers};

/// The fields of I/NAV word type 5, ionosphere, BGD, health, data validity and GST, in the order of
/// the ICD after the type (Galileo OS SIS ICD, 4.3.5).
#[derive(Clone, Copy)]
pub struct Word5 {
    /// Effective ionisation level a_i0, in 2^-2 solar flux units.
    pub ai0: U<11>,
    /// a_i1, in 2^-8 solar flux units/degree.
    pub ai1: S<11>,
    /// a_i2, in 2^-15 solar flux units/degree².
    pub ai2: S<14>,
    /// Ionospheric disturbance flags of the five regions; region 1 is the most significant bit.
    pub regions: U<5>,
    /// Broadcast group delay BGD(E1,E5a), in 2^-32 s.
    pub bgd_a: S<10>,
    /// Broadcast group delay BGD(E1,E5b), in 2^-32 s.
    pub bgd_b: S<10>,
    /// E5b signal health status.
    pub hs_e5b: U<2>,
    /// E1-B signal health status.
    pub hs_e1b: U<2>,
    /// E5b data validity status: 1 for working without guarantee.
    pub dvs_e5b: U<1>,
    /// E1-B data validity status: 1 for working without guarantee.
    pub dvs_e1b: U<1>,
    /// The Galileo week number at transmission, modulo 4096.
    pub wn: U<12>,
    /// TOW at transmission, in seconds.
    pub tow: U<20>,
}

impl Layout for Word5 {
    ghost use Rattle.std.specs.Prelude.{ℕ, List};
    ghost use Rattle.inav.specs.Words.{word5_at, word5_own_bits, word5_rest};

    ghost BITS = { 128 };

    ghost Usable = { Unit {0} };

    ghost stands_at = { word5_at };

    ghost RestIsFixed = { word5_rest };

    ghost own_bits = { word5_own_bits };

    const BITS: u32 = 128;

    fn write_bits(&self, into: &mut [u8], at: usize) {
        put_numbers(
            into,
            at,
            &[
                (6, 5),
                (11, self.ai0.value()),
                (11, self.ai1.bit_pattern()),
                (14, self.ai2.bit_pattern()),
                (5, self.regions.value()),
                (10, self.bgd_a.bit_pattern()),
                (10, self.bgd_b.bit_pattern()),
                (2, self.hs_e5b.value()),
                (2, self.hs_e1b.value()),
                (1, self.dvs_e5b.value()),
                (1, self.dvs_e1b.value()),
                (12, self.wn.value()),
                (20, self.tow.value()),
                (23, 0),
            ],
        );
    }

    fn read_bits(from: &[u8], at: usize) -> Self {
        Word5 {
            ai0: U::read_bits(from, at + 6),
            ai1: S::read_bits(from, at + 17),
            ai2: S::read_bits(from, at + 28),
            regions: U::read_bits(from, at + 42),
            bgd_a: S::read_bits(from, at + 47),
            bgd_b: S::read_bits(from, at + 57),
            hs_e5b: U::read_bits(from, at + 67),
            hs_e1b: U::read_bits(from, at + 69),
            dvs_e5b: U::read_bits(from, at + 71),
            dvs_e1b: U::read_bits(from, at + 72),
            wn: U::read_bits(from, at + 73),
            tow: U::read_bits(from, at + 85),
        }
    }
}

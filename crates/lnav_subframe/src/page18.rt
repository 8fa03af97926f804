use nav_bits::{Layout, S, U, put_numbers};

/// The fields of page 18 of subframe 4 in its 300 bits (IS-GPS-200, figure 20-1, sheet 8).
#[derive(Clone, Copy)]
pub struct Page18 {
    /// TOW count of the HOW: the start of the next subframe, in units of 6 s from the start of the
    /// week.
    pub tow_count: U<17>,
    /// In 2^-30 s.
    pub alpha0: S<8>,
    /// In 2^-27 s/semicircle.
    pub alpha1: S<8>,
    /// In 2^-24 s/semicircle².
    pub alpha2: S<8>,
    /// In 2^-24 s/semicircle³.
    pub alpha3: S<8>,
    /// In 2^11 s.
    pub beta0: S<8>,
    /// In 2^14 s/semicircle.
    pub beta1: S<8>,
    /// In 2^16 s/semicircle².
    pub beta2: S<8>,
    /// In 2^16 s/semicircle³.
    pub beta3: S<8>,
}

impl Layout for Page18 {
    ghost use Rattle.std.specs.Prelude.{ℕ, List};
    ghost use Rattle.lnav_subframe.specs.Subframes.{page18_at, page18_own_bits, page18_rest};

    ghost BITS = { 300 };

    ghost Usable = { Unit {0} };

    ghost stands_at = { page18_at };

    ghost RestIsFixed = { page18_rest };

    ghost own_bits = { page18_own_bits };

    const BITS: u32 = 300;

    fn write_bits(&self, into: &mut [u8], at: usize) {
        put_numbers(
            into,
            at,
            &[
                (8, 139),
                (22, 0),
                (17, self.tow_count.value()),
                (2, 0),
                (3, 4),
                (8, 0),
                (2, 1),
                (6, 56),
                (8, self.alpha0.bit_pattern()),
                (8, self.alpha1.bit_pattern()),
                (6, 0),
                (8, self.alpha2.bit_pattern()),
                (8, self.alpha3.bit_pattern()),
                (8, self.beta0.bit_pattern()),
                (6, 0),
                (8, self.beta1.bit_pattern()),
                (8, self.beta2.bit_pattern()),
                (8, self.beta3.bit_pattern()),
                (64, 0),
                (64, 0),
                (28, 0),
            ],
        );
    }

    fn read_bits(from: &[u8], at: usize) -> Self {
        Page18 {
            tow_count: U::read_bits(from, at + 30),
            alpha0: S::read_bits(from, at + 68),
            alpha1: S::read_bits(from, at + 76),
            alpha2: S::read_bits(from, at + 90),
            alpha3: S::read_bits(from, at + 98),
            beta0: S::read_bits(from, at + 106),
            beta1: S::read_bits(from, at + 120),
            beta2: S::read_bits(from, at + 128),
            beta3: S::read_bits(from, at + 136),
        }
    }
}

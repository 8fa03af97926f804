use nav_bits::{Layout, S, U, put_numbers};

/// The fields of subframe 1 in its 300 bits (IS-GPS-200, figure 20-1, sheet 1).
#[derive(Clone, Copy)]
pub struct Subframe1 {
    /// TOW count of the HOW: the start of the next subframe, in units of 6 s from the start of the
    /// week.
    pub tow_count: U<17>,
    /// The week number, modulo 1024.
    pub wn: U<10>,
    /// The code or codes on L2.
    pub l2_code: U<2>,
    /// The user range accuracy (URA) index.
    pub ura: U<4>,
    /// The SV health.
    pub health: U<6>,
    /// Issue of data, clock (IODC).
    pub iodc: U<10>,
    /// The L2 P data flag: 1 if the P code on L2 has no NAV data.
    pub l2p: U<1>,
    /// Estimated group delay differential T_GD, in 2^-31 s.
    pub tgd: S<8>,
    /// The clock data reference time toc, in units of 16 s.
    pub toc: U<16>,
    /// Clock drift rate a_f2, in 2^-55 s/s².
    pub af2: S<8>,
    /// Clock drift a_f1, in 2^-43 s/s.
    pub af1: S<16>,
    /// Clock bias a_f0, in 2^-31 s.
    pub af0: S<22>,
}

impl Layout for Subframe1 {
    ghost use Rattle.std.specs.Prelude.{ℕ, List};
    ghost use Rattle.lnav_subframe.specs.Subframes.{subframe1_at, subframe1_own_bits};
    ghost use Rattle.lnav_subframe.specs.Subframes.{subframe1_rest};

    ghost BITS = { 300 };

    ghost Usable = { Unit {0} };

    ghost stands_at = { subframe1_at };

    ghost RestIsFixed = { subframe1_rest };

    ghost own_bits = { subframe1_own_bits };

    const BITS: u32 = 300;

    fn write_bits(&self, into: &mut [u8], at: usize) {
        let (iodc_high, iodc_low) = self.iodc.split::<2, 8>();
        put_numbers(
            into,
            at,
            &[
                (8, 139),
                (22, 0),
                (17, self.tow_count.value()),
                (2, 0),
                (3, 1),
                (8, 0),
                (10, self.wn.value()),
                (2, self.l2_code.value()),
                (4, self.ura.value()),
                (6, self.health.value()),
                (2, iodc_high.value()),
                (6, 0),
                (1, self.l2p.value()),
                (64, 0),
                (41, 0),
                (8, self.tgd.bit_pattern()),
                (6, 0),
                (8, iodc_low.value()),
                (16, self.toc.value()),
                (6, 0),
                (8, self.af2.bit_pattern()),
                (16, self.af1.bit_pattern()),
                (6, 0),
                (22, self.af0.bit_pattern()),
                (8, 0),
            ],
        );
    }

    fn read_bits(from: &[u8], at: usize) -> Self {
        Subframe1 {
            tow_count: U::read_bits(from, at + 30),
            wn: U::read_bits(from, at + 60),
            l2_code: U::read_bits(from, at + 70),
            ura: U::read_bits(from, at + 72),
            health: U::read_bits(from, at + 76),
            iodc: U::join(
                U::<2>::read_bits(from, at + 82),
                U::<8>::read_bits(from, at + 210),
            ),
            l2p: U::read_bits(from, at + 90),
            tgd: S::read_bits(from, at + 196),
            toc: U::read_bits(from, at + 218),
            af2: S::read_bits(from, at + 240),
            af1: S::read_bits(from, at + 248),
            af0: S::read_bits(from, at + 270),
        }
    }
}

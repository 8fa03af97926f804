use nav_bits::{Layout, S, U, put_numbers};

/// The fields of subframe 2 in its 300 bits (IS-GPS-200, figure 20-1, sheet 2).
#[derive(Clone, Copy)]
pub struct Subframe2 {
    /// TOW count of the HOW: the start of the next subframe, in units of 6 s from the start of the
    /// week.
    pub tow_count: U<17>,
    /// Issue of data, ephemeris (IODE).
    pub iode: U<8>,
    /// Amplitude of the sine harmonic correction to the orbit radius, in 2^-5 m.
    pub crs: S<16>,
    /// Mean motion difference from the computed value, in 2^-43 semicircles/s.
    pub delta_n: S<16>,
    /// Mean anomaly at toe, in 2^-31 semicircles.
    pub m0: S<32>,
    /// Amplitude of the cosine harmonic correction to the argument of latitude, in 2^-29 rad.
    pub cuc: S<16>,
    /// Eccentricity, in 2^-33.
    pub e: U<32>,
    /// Amplitude of the sine harmonic correction to the argument of latitude, in 2^-29 rad.
    pub cus: S<16>,
    /// Square root of the semi-major axis, in 2^-19 √m.
    pub root_a: U<32>,
    /// The ephemeris reference time toe, in units of 16 s.
    pub toe: U<16>,
    /// The fit interval flag: 1 if the curve fit interval is longer than 4 hours.
    pub fit: U<1>,
}

impl Layout for Subframe2 {
    ghost use Rattle.std.specs.Prelude.{ℕ, List};
    ghost use Rattle.lnav_subframe.specs.Subframes.{subframe2_at, subframe2_own_bits};
    ghost use Rattle.lnav_subframe.specs.Subframes.{subframe2_rest};

    ghost BITS = { 300 };

    ghost Usable = { Unit {0} };

    ghost stands_at = { subframe2_at };

    ghost RestIsFixed = { subframe2_rest };

    ghost own_bits = { subframe2_own_bits };

    const BITS: u32 = 300;

    fn write_bits(&self, into: &mut [u8], at: usize) {
        let (m0_high, m0_low) = self.m0.split::<8, 24>();
        let (e_high, e_low) = self.e.split::<8, 24>();
        let (root_a_high, root_a_low) = self.root_a.split::<8, 24>();
        put_numbers(
            into,
            at,
            &[
                (8, 139),
                (22, 0),
                (17, self.tow_count.value()),
                (2, 0),
                (3, 2),
                (8, 0),
                (8, self.iode.value()),
                (16, self.crs.bit_pattern()),
                (6, 0),
                (16, self.delta_n.bit_pattern()),
                (8, m0_high.value()),
                (6, 0),
                (24, m0_low.value()),
                (6, 0),
                (16, self.cuc.bit_pattern()),
                (8, e_high.value()),
                (6, 0),
                (24, e_low.value()),
                (6, 0),
                (16, self.cus.bit_pattern()),
                (8, root_a_high.value()),
                (6, 0),
                (24, root_a_low.value()),
                (6, 0),
                (16, self.toe.value()),
                (1, self.fit.value()),
                (13, 0),
            ],
        );
    }

    fn read_bits(from: &[u8], at: usize) -> Self {
        Subframe2 {
            tow_count: U::read_bits(from, at + 30),
            iode: U::read_bits(from, at + 60),
            crs: S::read_bits(from, at + 68),
            delta_n: S::read_bits(from, at + 90),
            m0: S::join(
                U::<8>::read_bits(from, at + 106),
                U::<24>::read_bits(from, at + 120),
            ),
            cuc: S::read_bits(from, at + 150),
            e: U::join(
                U::<8>::read_bits(from, at + 166),
                U::<24>::read_bits(from, at + 180),
            ),
            cus: S::read_bits(from, at + 210),
            root_a: U::join(
                U::<8>::read_bits(from, at + 226),
                U::<24>::read_bits(from, at + 240),
            ),
            toe: U::read_bits(from, at + 270),
            fit: U::read_bits(from, at + 286),
        }
    }
}

/// The fields of subframe 3 in its 300 bits (IS-GPS-200, figure 20-1, sheet 3).
#[derive(Clone, Copy)]
pub struct Subframe3 {
    /// TOW count of the HOW: the start of the next subframe, in units of 6 s from the start of the
    /// week.
    pub tow_count: U<17>,
    /// Amplitude of the cosine harmonic correction to the inclination, in 2^-29 rad.
    pub cic: S<16>,
    /// Longitude of the ascending node at the weekly epoch, in 2^-31 semicircles.
    pub omega0: S<32>,
    /// Amplitude of the sine harmonic correction to the inclination, in 2^-29 rad.
    pub cis: S<16>,
    /// Inclination at toe, in 2^-31 semicircles.
    pub i0: S<32>,
    /// Amplitude of the cosine harmonic correction to the orbit radius, in 2^-5 m.
    pub crc: S<16>,
    /// Argument of perigee, in 2^-31 semicircles.
    pub omega: S<32>,
    /// Rate of right ascension, in 2^-43 semicircles/s.
    pub omega_dot: S<24>,
    /// Issue of data, ephemeris (IODE).
    pub iode: U<8>,
    /// Rate of inclination, in 2^-43 semicircles/s.
    pub idot: S<14>,
}

impl Layout for Subframe3 {
    ghost use Rattle.std.specs.Prelude.{ℕ, List};
    ghost use Rattle.lnav_subframe.specs.Subframes.{subframe3_at, subframe3_own_bits};
    ghost use Rattle.lnav_subframe.specs.Subframes.{subframe3_rest};

    ghost BITS = { 300 };

    ghost Usable = { Unit {0} };

    ghost stands_at = { subframe3_at };

    ghost RestIsFixed = { subframe3_rest };

    ghost own_bits = { subframe3_own_bits };

    const BITS: u32 = 300;

    fn write_bits(&self, into: &mut [u8], at: usize) {
        let (omega0_high, omega0_low) = self.omega0.split::<8, 24>();
        let (i0_high, i0_low) = self.i0.split::<8, 24>();
        let (omega_high, omega_low) = self.omega.split::<8, 24>();
        put_numbers(
            into,
            at,
            &[
                (8, 139),
                (22, 0),
                (17, self.tow_count.value()),
                (2, 0),
                (3, 3),
                (8, 0),
                (16, self.cic.bit_pattern()),
                (8, omega0_high.value()),
                (6, 0),
                (24, omega0_low.value()),
                (6, 0),
                (16, self.cis.bit_pattern()),
                (8, i0_high.value()),
                (6, 0),
                (24, i0_low.value()),
                (6, 0),
                (16, self.crc.bit_pattern()),
                (8, omega_high.value()),
                (6, 0),
                (24, omega_low.value()),
                (6, 0),
                (24, self.omega_dot.bit_pattern()),
                (6, 0),
                (8, self.iode.value()),
                (14, self.idot.bit_pattern()),
                (8, 0),
            ],
        );
    }

    fn read_bits(from: &[u8], at: usize) -> Self {
        Subframe3 {
            tow_count: U::read_bits(from, at + 30),
            cic: S::read_bits(from, at + 60),
            omega0: S::join(
                U::<8>::read_bits(from, at + 76),
                U::<24>::read_bits(from, at + 90),
            ),
            cis: S::read_bits(from, at + 120),
            i0: S::join(
                U::<8>::read_bits(from, at + 136),
                U::<24>::read_bits(from, at + 150),
            ),
            crc: S::read_bits(from, at + 180),
            omega: S::join(
                U::<8>::read_bits(from, at + 196),
                U::<24>::read_bits(from, at + 210),
            ),
            omega_dot: S::read_bits(from, at + 240),
            iode: U::read_bits(from, at + 270),
            idot: S::read_bits(from, at + 278),
        }
    }
}

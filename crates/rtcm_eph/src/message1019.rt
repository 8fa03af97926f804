use nav_bits::{Layout, S, U, put_numbers};

/// The fields of message 1019, the ephemeris of a GPS satellite, in order after the message number
/// (RTCM 10403.3, 3.5, message type 1019).
#[derive(Clone, Copy)]
pub struct Message1019 {
    /// The satellite number.
    pub satellite: U<6>,
    /// The week number of toe, modulo 1024.
    pub week: U<10>,
    /// The URA index.
    pub ura: U<4>,
    /// The code on L2.
    pub l2_code: U<2>,
    /// Rate of the inclination, in 2^-43 semicircles/s.
    pub idot: S<14>,
    /// Issue of data, ephemeris.
    pub iode: U<8>,
    /// toc, in steps of 16 s.
    pub toc: U<16>,
    /// Clock drift rate, in 2^-55 s/s².
    pub af2: S<8>,
    /// Clock drift, in 2^-43 s/s.
    pub af1: S<16>,
    /// Clock bias, in 2^-31 s.
    pub af0: S<22>,
    /// Issue of data, clock.
    pub iodc: U<10>,
    /// Sine correction to the orbit's radius, in 2^-5 m.
    pub crs: S<16>,
    /// Correction to the mean motion, in 2^-43 semicircles/s.
    pub delta_n: S<16>,
    /// Mean anomaly at toe, in 2^-31 semicircles.
    pub m0: S<32>,
    /// Cosine correction to the argument of latitude, in 2^-29 rad.
    pub cuc: S<16>,
    /// Eccentricity, in 2^-33.
    pub e: U<32>,
    /// Sine correction to the argument of latitude, in 2^-29 rad.
    pub cus: S<16>,
    /// Square root of the semi-major axis, in 2^-19 √m.
    pub root_a: U<32>,
    /// toe, in steps of 16 s.
    pub toe: U<16>,
    /// Cosine correction to the inclination, in 2^-29 rad.
    pub cic: S<16>,
    /// Longitude of the ascending node at the start of the week, in 2^-31 semicircles.
    pub omega0: S<32>,
    /// Sine correction to the inclination, in 2^-29 rad.
    pub cis: S<16>,
    /// Inclination at toe, in 2^-31 semicircles.
    pub i0: S<32>,
    /// Cosine correction to the orbit's radius, in 2^-5 m.
    pub crc: S<16>,
    /// Argument of perigee, in 2^-31 semicircles.
    pub omega: S<32>,
    /// Rate of the right ascension, in 2^-43 semicircles/s.
    pub omega_dot: S<24>,
    /// TGD, in 2^-31 s.
    pub tgd: S<8>,
    /// The SV health.
    pub health: U<6>,
    /// The L2 P data flag: 1 if the P code on L2 carries no navigation data.
    pub l2p: U<1>,
    /// The fit interval flag.
    pub fit: U<1>,
}

impl Layout for Message1019 {
    ghost use Rattle.std.specs.Prelude.{ℕ, List};
    ghost use Rattle.rtcm_eph.specs.Messages.{message1019_at, message1019_own_bits};
    ghost use Rattle.rtcm_eph.specs.Messages.{message1019_rest};

    ghost BITS = { 488 };

    ghost Usable = { Unit {0} };

    ghost stands_at = { message1019_at };

    ghost RestIsFixed = { message1019_rest };

    ghost own_bits = { message1019_own_bits };

    const BITS: u32 = 488;

    fn write_bits(&self, into: &mut [u8], at: usize) {
        put_numbers(
            into,
            at,
            &[
                (12, 1019),
                (6, self.satellite.value()),
                (10, self.week.value()),
                (4, self.ura.value()),
                (2, self.l2_code.value()),
                (14, self.idot.bit_pattern()),
                (8, self.iode.value()),
                (16, self.toc.value()),
                (8, self.af2.bit_pattern()),
                (16, self.af1.bit_pattern()),
                (22, self.af0.bit_pattern()),
                (10, self.iodc.value()),
                (16, self.crs.bit_pattern()),
                (16, self.delta_n.bit_pattern()),
                (32, self.m0.bit_pattern()),
                (16, self.cuc.bit_pattern()),
                (32, self.e.value()),
                (16, self.cus.bit_pattern()),
                (32, self.root_a.value()),
                (16, self.toe.value()),
                (16, self.cic.bit_pattern()),
                (32, self.omega0.bit_pattern()),
                (16, self.cis.bit_pattern()),
                (32, self.i0.bit_pattern()),
                (16, self.crc.bit_pattern()),
                (32, self.omega.bit_pattern()),
                (24, self.omega_dot.bit_pattern()),
                (8, self.tgd.bit_pattern()),
                (6, self.health.value()),
                (1, self.l2p.value()),
                (1, self.fit.value()),
            ],
        );
    }

    fn read_bits(from: &[u8], at: usize) -> Self {
        Message1019 {
            satellite: U::read_bits(from, at + 12),
            week: U::read_bits(from, at + 18),
            ura: U::read_bits(from, at + 28),
            l2_code: U::read_bits(from, at + 32),
            idot: S::read_bits(from, at + 34),
            iode: U::read_bits(from, at + 48),
            toc: U::read_bits(from, at + 56),
            af2: S::read_bits(from, at + 72),
            af1: S::read_bits(from, at + 80),
            af0: S::read_bits(from, at + 96),
            iodc: U::read_bits(from, at + 118),
            crs: S::read_bits(from, at + 128),
            delta_n: S::read_bits(from, at + 144),
            m0: S::read_bits(from, at + 160),
            cuc: S::read_bits(from, at + 192),
            e: U::read_bits(from, at + 208),
            cus: S::read_bits(from, at + 240),
            root_a: U::read_bits(from, at + 256),
            toe: U::read_bits(from, at + 288),
            cic: S::read_bits(from, at + 304),
            omega0: S::read_bits(from, at + 320),
            cis: S::read_bits(from, at + 352),
            i0: S::read_bits(from, at + 368),
            crc: S::read_bits(from, at + 400),
            omega: S::read_bits(from, at + 416),
            omega_dot: S::read_bits(from, at + 448),
            tgd: S::read_bits(from, at + 472),
            health: U::read_bits(from, at + 480),
            l2p: U::read_bits(from, at + 486),
            fit: U::read_bits(from, at + 487),
        }
    }
}

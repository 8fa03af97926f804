use nav_bits::{Layout, U, put_numbers};

/// The HOW fields of a subframe and its page (IS-GPS-200, 20.3.3.1 and 20.3.3.2), in its 300 bits.
/// Written, it is a page of subframe 4 or 5 whose other data bits are 0.
#[derive(Clone, Copy)]
pub struct Head {
    /// TOW count of the HOW: the start of the next subframe, in units of 6 s from the start of the
    /// week.
    pub tow_count: U<17>,
    /// The subframe ID.
    pub number: U<3>,
    /// The SV (page) ID of subframes 4 and 5.
    pub page: U<6>,
}

impl Layout for Head {
    ghost use Rattle.std.specs.Prelude.{ℕ, List};
    ghost use Rattle.lnav_subframe.specs.Subframes.{head_at, head_own_bits, head_rest};

    ghost BITS = { 300 };

    ghost Usable = { Unit {0} };

    ghost stands_at = { head_at };

    ghost RestIsFixed = { head_rest };

    ghost own_bits = { head_own_bits };

    const BITS: u32 = 300;

    fn write_bits(&self, into: &mut [u8], at: usize) {
        put_numbers(
            into,
            at,
            &[
                (8, 139),
                (22, 0),
                (17, self.tow_count.value()),
                (2, 0),
                (3, self.number.value()),
                (8, 0),
                (2, 1),
                (6, self.page.value()),
                (64, 0),
                (64, 0),
                (64, 0),
                (40, 0),
            ],
        );
    }

    fn read_bits(from: &[u8], at: usize) -> Self {
        Head {
            tow_count: U::read_bits(from, at + 30),
            number: U::read_bits(from, at + 49),
            page: U::read_bits(from, at + 62),
        }
    }
}

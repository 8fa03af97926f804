//! Single page parts.

ghost use Rattle.std.specs.Prelude.{◌≡◌, ℕ, ◌^◌, ◌*◌};
ghost use Rattle.std.specs.Prelude.{◌<◌, ◌↔◌, IfOk, IsErr};
ghost use Rattle.nav_bits.specs.Bits.{number_at};
ghost use Rattle.inav.specs.Pages.{bytes_of_half, kept_of, kind_of, IsHalf};

use crate::fault::HalfFault;
use nav_bits::Bits;
use std::marker::Model;

// As a number of 120 bits, an odd part is at least this: its first bit is 1.
pub(crate) const ODD: u128 = 1 << 119;

/// Even or odd page part, by its first bit, the even/odd bit.
#[derive(Clone, Copy, PartialEq, Eq, PartialOrd, Ord, Hash)]
pub enum HalfKind {
    /// The even part, bit 0, sent first.
    Even,
    /// The odd part, bit 1, sent one second later.
    Odd,
}

/// The used bits of a page part: the first 114 of an even part, the first 106 of an odd one (82 and
/// the CRC).
#[derive(Clone, Copy, PartialEq, Eq)]
pub struct Half {
    // The 120 bits as a number; unused bits are 0.
    number: u128,
    // The same as bytes.
    bits: Bits<15>,
}

impl Model for Half {
    ghost use Rattle.std.specs.Prelude.{◌≡◌, ℕ};
    ghost use Rattle.inav.specs.Pages.{bytes_of_half, IsHalf};

    ghost Value = { ℕ };

    ghost view = { λ h. h.number };

    ghost invariant = { λ h. IsHalf h.number × (bytes_of_half h.number ≡ h.bits) };

    ghost inverse = { λ n. record { number = n; bits = bytes_of_half n } };

    ghost inverse_ok = { λ h holds i. record { number = h.number; bits = holds.1 i } };
}

impl Half {
    /// Even or odd.
    pub fn kind(&self) -> HalfKind
        ensures { result ≡ kind_of self.now }
    {
        if self.number < ODD {
            HalfKind::Even
        } else {
            HalfKind::Odd
        }
    }

    /// Its 120 bits; unused bits are 0.
    pub fn bits(&self) -> &Bits<15>
        ensures bytes { result.now ≡ bytes_of_half self.now }
        ensures number { number_at result.now 0 120 ≡ self.now }
        ensures form { IsHalf self.now }
    {
        &self.bits
    }

    // Its 120 bits as a number.
    pub(crate) fn number(&self) -> u128
        ensures same { result ≡ self.now }
        ensures form { IsHalf self.now }
    {
        self.number
    }

    // The page part of these 120 bits.
    pub(crate) fn of_number(number: u128) -> Half
        requires { IsHalf number }
        ensures { result ≡ number }
    {
        Half {
            number,
            bits: bits_of(number),
        }
    }
}

// 120 bits as bytes.
fn bits_of(number: u128) -> Bits<15>
    ensures { result ≡ bytes_of_half number }
{
    let b = number.to_be_bytes();
    Bits::from_bytes([
        b[1], b[2], b[3], b[4], b[5], b[6], b[7], b[8], b[9], b[10], b[11], b[12], b[13], b[14],
        b[15],
    ])
}

// The 120 bits with the unused bits set to 0.
fn kept(number: u128) -> u128
    requires { number < 2 ^ 120 }
    ensures { result ≡ kept_of number }
{
    if number < ODD {
        number / 0x40 * 0x40
    } else {
        number / 0x4000 * 0x4000
    }
}

/// Reads 120 bits as a page part: even/odd bit, page type, then in an even part 112 data bits and 6
/// tail bits, in an odd one 16 data bits, 64 further bits, the 24-bit CRC, 8 bits and 6 tail bits
/// (Galileo OS SIS ICD, 4.3.2.3). The tail bits and the eight bits after the CRC are ignored.
///
/// [`HalfFault::Alert`] exactly if the page type is 1.
pub fn read_half(bits: &Bits<15>) -> Result<Half, HalfFault>
    ensures half { IfOk result (λ half. half ≡ kept_of (number_at bits.now 0 120)) }
    ensures alert { IsErr result ↔ (number_at bits.now 1 1 ≡ 1) }
{
    if bits.get(1, 1) == 1 {
        return Err(HalfFault::Alert);
    }
    let number = (u128::from(bits.get(0, 60)) << 60) + u128::from(bits.get(60, 60));
    Ok(Half::of_number(kept(number)))
}

/// The 120 bits of a page part; the tail bits, and the eight bits after the CRC, are 0.
pub fn write_half(half: &Half) -> Bits<15>
    ensures bytes { result ≡ bytes_of_half half.now }
    ensures nominal { number_at result 1 1 ≡ 0 }
    ensures again { kept_of (number_at result 0 120) ≡ half.now }
{
    *half.bits()
}

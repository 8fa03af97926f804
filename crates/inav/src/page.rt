//! The word of two page parts, and the page parts of a word.

ghost use Rattle.std.specs.Prelude.{◌≡◌, ℕ, ◌+◌, ◌*◌, ◌^◌};
ghost use Rattle.std.specs.Prelude.{◌<◌, ◌↔◌, IsSome, IfSome, slice_index};
ghost use Rattle.nav_bits.specs.Bits.{number_at};
ghost use Rattle.inav.specs.declared.half.HalfKind.TheVariants.{Even, Odd};
ghost use Rattle.inav.specs.Pages.{bits_at, even_of, has_right_crc, kind_of, odd_of};
ghost use Rattle.inav.specs.Pages.{page_crc, word_of, HasRightCrc, IsHalf, IsSplit};
ghost use Rattle.inav.specs.Received.{word_by};
ghost use Rattle.inav.specs.Mirrors.{is_right_by, remainder_of};

use crate::half::{Half, HalfKind, ODD};
use nav_bits::{Bits, crc_bytes};

// States to contracts that each byte is below 256.
fn are_bytes(bytes: &[u8])
    ensures { (i : ℕ) → slice_index bytes.now i < 256 }
{
    let _length = bytes.len();
}

// The CRC-24Q of the 196 protected bits of a page.
fn crc_of(even: u128, odd: u128) -> u64
    ensures same { result ≡ page_crc even odd }
    ensures fits { result < 2 ^ 24 }
{
    let even = (even >> 6) % (1 << 114);
    let odd = (odd >> 38) % (1 << 82);
    let mut bytes = [0u8; 25];
    bytes[..16].copy_from_slice(&((even << 10) + (odd >> 72)).to_be_bytes());
    bytes[16..].copy_from_slice(&odd.to_be_bytes()[7..]);
    are_bytes(&bytes);
    crc_bytes(&bytes).value()
}

// The same of an odd part alone, as with an even part of zeros: zeros before its 82 bits leave the
// CRC as it is, so it takes 11 bytes in place of 25.
fn crc_of_odd(odd: u128) -> u64
    ensures same { result ≡ page_crc 0 odd }
    ensures fits { result < 2 ^ 24 }
{
    let odd = (odd >> 38) % (1 << 82);
    let mut bytes = [0u8; 11];
    bytes.copy_from_slice(&odd.to_be_bytes()[5..]);
    are_bytes(&bytes);
    crc_bytes(&bytes).value()
}

// The CRC in the odd part is right.
fn belong(even: u128, odd: u128) -> bool
    ensures { result ≡ has_right_crc even odd }
{
    crc_of(even, odd) == (odd / 0x4000 % 0x100_0000) as u64
}

// The same of two page parts, the first of that kind.
pub(crate) fn belong_by(kind: HalfKind, one: u128, other: u128) -> bool
    ensures { result ≡ is_right_by kind one other }
{
    match kind {
        HalfKind::Even => belong(one, other),
        HalfKind::Odd => belong(other, one),
    }
}

// The CRC remainder, equal for partners: the contribution of an even part to the CRC of its page,
// or the contribution that an odd part's CRC demands of the even part.
pub(crate) fn remainder(half: u128) -> u64
    ensures same { result ≡ remainder_of half }
    ensures fits { result < 2 ^ 24 }
{
    if half < ODD {
        crc_of(half, 0)
    } else {
        crc_of_odd(half) ^ (half / 0x4000 % 0x100_0000) as u64
    }
}

// The word of two page parts.
pub(crate) fn word(even: u128, odd: u128) -> Bits<16>
    ensures { result ≡ word_of even odd }
{
    let high = even / 0x40 % (1 << 112);
    let low = (odd >> 102) % 0x1_0000;
    Bits::from_bytes((high * 0x1_0000 + low).to_be_bytes())
}

// The word of two page parts, the first of that kind.
pub(crate) fn word_of_two(kind: HalfKind, one: u128, other: u128) -> Bits<16>
    ensures { result ≡ word_by kind one other }
{
    match kind {
        HalfKind::Even => word(one, other),
        HalfKind::Odd => word(other, one),
    }
}

/// The word of a page: the 112 data bits of the even part followed by the 16 of the odd part
/// (Galileo OS SIS ICD, 4.3.2.3).
///
/// `None` exactly if the CRC-24Q of the first 114 bits of the even part and the first 82 of the odd
/// one is not the CRC in the odd part (5.1.9.4).
pub fn join(even: &Half, odd: &Half) -> Option<Bits<16>>
    requires even { kind_of even.now ≡ Even }
    requires odd { kind_of odd.now ≡ Odd }
    ensures crc { IsSome result ↔ HasRightCrc even.now odd.now }
    ensures word { IfSome result (λ word. word ≡ word_of even.now odd.now) }
{
    let even = even.number();
    let odd = odd.number();
    if belong(even, odd) {
        Some(word(even, odd))
    } else {
        None
    }
}

/// The two page parts of a word: nominal page, the 64 further bits 0, and the CRC of the page.
pub fn split(word: &Bits<16>) -> (Half, Half)
    ensures halves { (result.0 ≡ even_of word.now) × (result.1 ≡ odd_of word.now) }
    ensures parts { IsSplit word.now result.0 result.1 }
    ensures even { kind_of result.0 ≡ Even }
    ensures odd { kind_of result.1 ≡ Odd }
    ensures again { word_of result.0 result.1 ≡ word.now }
{
    are_bytes(word.bytes());
    let high = (u128::from(word.get(0, 56)) << 56) + u128::from(word.get(56, 56));
    let even = high * 0x40;
    let odd = ODD + (u128::from(word.get(112, 16)) << 102);
    let crc = crc_of(even, odd);
    let odd = odd + u128::from(crc) * 0x4000;
    (Half::of_number(even), Half::of_number(odd))
}

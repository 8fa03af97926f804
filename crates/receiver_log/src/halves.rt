//! The two parts of an I/NAV page, in eight words of 32 bits.

ghost use Rattle.std.specs.Prelude.{◌≡◌, ◌+◌, ◌*◌};
ghost use Rattle.std.specs.Prelude.{◌^◌, ◌<◌, ◌≤◌, length};
ghost use Rattle.std.specs.Int.{bytes_high_first};
ghost use Rattle.nav_bits.specs.Bits.{number_at};
ghost use Rattle.receiver_log.specs.Halves.{page_bits, sbf_even, sbf_odd, ubx_even, ubx_odd};

use nav_bits::Bits;

// The 256 bits of the eight words at byte offset `at`, as sent.
fn bits_from(b: &[u8], at: usize) -> Bits<32>
    requires { at + 32 ≤ length b.now }
    ensures { result ≡ page_bits b.now at }
{
    Bits::from_bytes([
        b[at + 3],
        b[at + 2],
        b[at + 1],
        b[at],
        b[at + 7],
        b[at + 6],
        b[at + 5],
        b[at + 4],
        b[at + 11],
        b[at + 10],
        b[at + 9],
        b[at + 8],
        b[at + 15],
        b[at + 14],
        b[at + 13],
        b[at + 12],
        b[at + 19],
        b[at + 18],
        b[at + 17],
        b[at + 16],
        b[at + 23],
        b[at + 22],
        b[at + 21],
        b[at + 20],
        b[at + 27],
        b[at + 26],
        b[at + 25],
        b[at + 24],
        b[at + 31],
        b[at + 30],
        b[at + 29],
        b[at + 28],
    ])
}

// 120 bits as bytes.
fn bits_of(number: u128) -> Bits<15>
    ensures { result ≡ bytes_high_first 15 number }
{
    let b = number.to_be_bytes();
    Bits::from_bytes([
        b[1], b[2], b[3], b[4], b[5], b[6], b[7], b[8], b[9], b[10], b[11], b[12], b[13], b[14],
        b[15],
    ])
}

// The value of the 120 bits from bit offset `at`.
fn number_of_120(bits: &Bits<32>, at: usize) -> u128
    requires { at + 120 ≤ 256 }
    ensures { result ≡ number_at bits.now at 120 }
{
    (u128::from(bits.get(at, 60)) << 60) + u128::from(bits.get(at + 60, 60))
}

// The value of the first 114 bits.
fn first_114(bits: &Bits<32>) -> u128
    ensures value { result ≡ number_at bits.now 0 114 }
    ensures fits { result < 2 ^ 114 }
{
    (u128::from(bits.get(0, 57)) << 57) + u128::from(bits.get(57, 57))
}

/// The even page part in UBX: bits 0 to 119.
#[tactic(auto, unfolding(crate::specs::Halves::ubx_even))]
pub fn even_of_ubx(bytes: &[u8], at: usize) -> Bits<15>
    requires { at + 32 ≤ length bytes.now }
    ensures { result ≡ ubx_even bytes.now at }
{
    bits_of(number_of_120(&bits_from(bytes, at), 0))
}

/// The odd page part in UBX: bits 128 to 247.
#[tactic(auto, unfolding(crate::specs::Halves::ubx_odd))]
pub fn odd_of_ubx(bytes: &[u8], at: usize) -> Bits<15>
    requires { at + 32 ≤ length bytes.now }
    ensures { result ≡ ubx_odd bytes.now at }
{
    bits_of(number_of_120(&bits_from(bytes, at), 128))
}

/// The even page part in SBF: bits 0 to 113, and six tail bits 0.
#[tactic(auto, unfolding(crate::specs::Halves::sbf_even))]
pub fn even_of_sbf(bytes: &[u8], at: usize) -> Bits<15>
    requires { at + 32 ≤ length bytes.now }
    ensures { result ≡ sbf_even bytes.now at }
{
    bits_of(first_114(&bits_from(bytes, at)) * 64)
}

/// The odd page part in SBF: bits 114 to 233.
#[tactic(auto, unfolding(crate::specs::Halves::sbf_odd))]
pub fn odd_of_sbf(bytes: &[u8], at: usize) -> Bits<15>
    requires { at + 32 ≤ length bytes.now }
    ensures { result ≡ sbf_odd bytes.now at }
{
    bits_of(number_of_120(&bits_from(bytes, at), 114))
}

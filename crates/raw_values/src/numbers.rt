//! Integers of fixed width, from and to the 32-bit integers that C has. A signed number is taken by
//! reference, so that a contract names it as it is in its struct.

ghost use Rattle.std.specs.Prelude.{◌≡◌, ◌^◌, ◌<◌};
ghost use Rattle.std.specs.Prelude.{◌≤◌, ◌↔◌, IsSome, IfSome};
ghost use Rattle.nav_bits.specs.Signed.{IsSigned};
ghost use Rattle.nav_eph.specs.Steps.{IsSisa, IsStep16, IsStep60};

use nav_bits::{S, U};
use nav_eph::{Sisa, Step16, Step60};

// The value in bits of two's complement; `None` where it is out of range.
pub(crate) fn signed<const W: u32>(raw: &i32) -> Option<S<W>>
    ensures exactly { IsSome result ↔ IsSigned W raw.now }
    ensures same { IfSome result (λ value. value ≡ raw.now) }
{
    S::new(i64::from(*raw))
}

// The value of at most 32 bits of two's complement.
#[tactic(auto, using(crate::proofs::Widths::in_32))]
pub(crate) fn raw_signed<const W: u32>(value: &S<W>) -> i32
    requires { W ≤ 32 }
    ensures { result ≡ value.now }
{
    value.value() as i32
}

// The unsigned value in bits; `None` where it is out of range.
pub(crate) fn unsigned<const W: u32>(raw: u32) -> Option<U<W>>
    ensures exactly { IsSome result ↔ (raw < 2 ^ W) }
    ensures same { IfSome result (λ value. value ≡ raw) }
{
    U::new(u64::from(raw))
}

// The unsigned value of at most 32 bits.
#[tactic(auto, using(crate::proofs::Widths::below_32))]
pub(crate) fn raw_unsigned<const W: u32>(value: &U<W>) -> u32
    requires { W ≤ 32 }
    ensures { result ≡ value.now }
{
    value.value() as u32
}

// The time in steps of 16 s; `None` past the end of the week.
pub(crate) fn step16(raw: u32) -> Option<Step16>
    ensures exactly { IsSome result ↔ IsStep16 raw }
    ensures same { IfSome result (λ value. value ≡ raw) }
{
    Step16::new(u64::from(raw))
}

// The time in steps of 60 s; `None` past the end of the week.
pub(crate) fn step60(raw: u32) -> Option<Step60>
    ensures exactly { IsSome result ↔ IsStep60 raw }
    ensures same { IfSome result (λ value. value ≡ raw) }
{
    Step60::new(u64::from(raw))
}

// The SISA index; `None` for a spare one.
pub(crate) fn sisa(raw: u32) -> Option<Sisa>
    ensures exactly { IsSome result ↔ IsSisa raw }
    ensures same { IfSome result (λ value. value ≡ raw) }
{
    Sisa::new(u64::from(raw))
}

//! The value of a scale in factors.

ghost use Rattle.std.specs.Prelude.{◌≡◌, ◌*◌, ◌^◌, ◌≤◌};
ghost use Rattle.scaled_decimal.specs.ScaleValue.{size_of, pi_part, AreWithin};
ghost use Rattle.scaled_decimal.specs.Mirrors.{IsSize};

use crate::fractions::two_parts;
use crate::scales::Scale;

/// The value of a scale times 10^20: `factor` x 10^`tens` x 2^`up` / 2^`down`.
#[derive(Clone, Copy)]
pub(crate) struct Size {
    pub(crate) factor: u64,
    pub(crate) tens: u32,
    pub(crate) up: u32,
    pub(crate) down: u32,
}

// 10^20 times pi or 1, as a factor and an exponent of ten.
fn pi_factors(pi: bool) -> (u64, u32)
    ensures whole { (pi_part pi).over * 10 ^ 20 ≡ (pi_part pi).under * (result.0 * 10 ^ result.1) }
    ensures from { 1 ≤ result.0 }
    ensures to { result.0 ≤ 31415926535898 }
    ensures tens_from { 7 ≤ result.1 }
    ensures tens_to { result.1 ≤ 20 }
{
    if pi { (31_415_926_535_898, 7) } else { (1, 20) }
}

/// The value of a scale in factors.
pub(crate) fn size_parts(scale: &Scale) -> Size
    requires { AreWithin scale.now.factor scale.now.two scale.now.ten }
    ensures { IsSize (size_of scale.now) result.factor result.tens result.up result.down }
{
    let (up, down) = two_parts(scale.two);
    let (pi, tens) = pi_factors(scale.pi);
    Size {
        factor: u64::from(scale.factor) * pi,
        tens: tens - scale.ten.unsigned_abs(),
        up,
        down,
    }
}

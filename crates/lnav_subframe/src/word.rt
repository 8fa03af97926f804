ghost use Rattle.std.specs.Prelude.{◌≡◌, ◌↔◌, IsSome, IfSome};
ghost use Rattle.lnav_subframe.specs.Parity.{IsGood, IsSource, IsSolved};

use crate::parity::{inverted, parity_of};
use nav_bits::U;

/// The source bits d1 to d24 of a word, d1 the most significant; `None` if one of its six parity
/// equations fails (IS-GPS-200, 20.3.5.2). `last2` is D29* and D30*, the last two bits of the
/// previous word.
pub fn check_word(word: U<30>, last2: U<2>) -> Option<U<24>>
    ensures good { IsSome result ↔ IsGood word last2 }
    ensures bits { IfSome result (IsSource word last2) }
{
    let sent = word.value();
    let last = last2.value();
    let bits = inverted(sent >> 6, last);
    if parity_of(bits, last) == sent & 63 {
        Some(U::from_bits(bits))
    } else {
        None
    }
}

/// The word of the source bits d1 to d24.
pub fn make_word(bits: U<24>, last2: U<2>) -> U<30>
    ensures good { IsGood result last2 }
    ensures bits { IsSource result last2 bits }
{
    let source = bits.value();
    let last = last2.value();
    U::from_bits((inverted(source, last) << 6) + parity_of(source, last))
}

/// The word of the source bits d1 to d22; d23 and d24 are solved for so that D29 and D30 are 0.
pub fn make_solved(bits: U<22>, last2: U<2>) -> U<30>
    ensures { IsSolved result last2 bits }
{
    let source = bits.value() << 2;
    let parity = parity_of(source, last2.value());
    let d24 = parity / 2 % 2;
    let d23 = (parity + d24) % 2;
    make_word(U::from_bits(source + 2 * d23 + d24), last2)
}

//! Words whose values come from the table by hand.

use lnav_subframe::{check_word, make_solved, make_word};
use nav_bits::U;

#[test]
fn words(rt: HostRuntime) {
    let none: U<2> = U::from_bits(0);
    let both: U<2> = U::from_bits(3);
    let preamble: U<24> = U::from_bits(0x8B_0000);
    let checked = check_word(U::from_bits(0x3FFF_FFFF), both) == Some(U::from_bits(0))
        && check_word(U::from_bits(0x22C0_0012), none) == Some(preamble)
        && check_word(U::from_bits(0x22C0_0013), none).is_none();
    let made = make_word(preamble, none).value() == 0x22C0_0012
        && make_word(U::from_bits(0), both).value() == 0x3FFF_FFFF;
    let solved = make_solved(U::from_bits(0x22_C000), none).value() == 0x22C0_00E4
        && make_solved(U::from_bits(0x15_5555), both).value() == 0x2AAA_AA80;
    assert!(rt; checked && made && solved);
}

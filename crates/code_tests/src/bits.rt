//! Values by hand of numbers at bit offsets, of numbers of so many bits and of a table.

ghost use Rattle.std.specs.Prelude.{◌≡◌, ◌+◌, ◌≤◌};

use nav_bits::{BitForm, Bits, S, U, put_numbers};

// Numbers at their bit offsets, and a table of them.
fn at_places() -> bool {
    let mut bits = Bits::<2>::from_bytes([0b1010_0101, 0xF0]);
    let read = bits.get(4, 8) == 0x5F && bits.get(0, 16) == 0xA5F0 && bits.get_signed(0, 4) == -6;
    bits.put(4, 8, 0xC3);
    let put = bits.get(0, 16) == 0xAC30 && bits == Bits::from_bytes([0xAC, 0x30]);
    let none = Bits::<1>::zero();
    let mut bytes = [0xFF; 3];
    put_numbers(&mut bytes, 2, &[(12, 1019), (6, 7)]);
    let table = bytes == [0b1100_1111, 0b1110_1100, 0b0111_1111];
    read && put && none.bytes()[0] == 0 && table
}

// Numbers of so many bits, those that have more, and numbers of two ranges.
fn of_bits() -> bool {
    let fit = match (U::<10>::new(1023), S::<4>::new(-8)) {
        (Some(greatest), Some(least)) => greatest.value() == 1023 && least.bit_pattern() == 8,
        _ => false,
    };
    let whole = U::<64>::new(u64::MAX).is_some();
    let none = U::<10>::new(1024).is_none()
        && S::<4>::new(-9).is_none()
        && S::<4>::new(8).is_none();
    let joined: S<32> = S::join(U::<8>::from_bits(0xFF), U::<24>::from_bits(0xFF_FFFE));
    let signed = S::<4>::from_bits(9).value() == -7 && joined.value() == -2;
    let (high, low) = joined.split::<8, 24>();
    let parts: U<32> = U::join(high, low);
    fit && whole && none && signed && parts.value() == 0xFFFF_FFFE
}

// Packs a value into bytes that are all 0, and reads it back.
fn again<F: BitForm<8> + Copy>(form: F, at: usize) -> F
    requires usable { F.Usable }
    requires inside { at + F.BITS ≤ 64 }
    ensures { result ≡ form }
{
    let mut bits = Bits::<8>::zero();
    form.pack(&mut bits, at);
    F::unpack(&bits, at)
}

#[test]
fn numbers(rt: HostRuntime) {
    let unsigned = again(U::<14>::from_bits(9000), 3).value() == 9000;
    let signed = again(S::<14>::from_bits(9000), 50).value() == 9000 - 16384;
    assert!(rt; at_places() && of_bits() && unsigned && signed);
}

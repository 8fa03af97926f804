ghost use Rattle.std.specs.Prelude.{◌≡◌};
ghost use Rattle.inav.specs.Reading.{word_in};

use crate::word1::Word1;
use crate::word2::Word2;
use crate::word3::Word3;
use crate::word4::Word4;
use crate::word5::Word5;
use nav_bits::{BitForm, Bits, U};

/// A word by its type, with its fields as sent (Galileo OS SIS ICD, 4.3.5).
#[derive(Clone, Copy)]
pub enum Word {
    /// Type 1.
    One(Word1),
    /// Type 2.
    Two(Word2),
    /// Type 3.
    Three(Word3),
    /// Type 4.
    Four(Word4),
    /// Type 5.
    Five(Word5),
    /// Any other type, by its number.
    Other(u8),
}

// The word in the bits, by its type.
pub(crate) fn by_type(bits: &Bits<16>) -> Word
    ensures { result ≡ word_in bits.now }
{
    let number: U<6> = BitForm::<16>::unpack(bits, 0);
    let number = number.value();
    if number == 1 {
        return Word::One(BitForm::<16>::unpack(bits, 0));
    }
    if number == 2 {
        return Word::Two(BitForm::<16>::unpack(bits, 0));
    }
    if number == 3 {
        return Word::Three(BitForm::<16>::unpack(bits, 0));
    }
    if number == 4 {
        return Word::Four(BitForm::<16>::unpack(bits, 0));
    }
    if number == 5 {
        return Word::Five(BitForm::<16>::unpack(bits, 0));
    }
    Word::Other(number as u8)
}

//! Theorems about the definitions; each is the contract of a function that does nothing.

ghost use Rattle.std.specs.Prelude.{◌≡◌, ℕ, ◌+◌, List, ◌∷◌};
ghost use Rattle.std.specs.Prelude.{◌⊎◌, ◌↔◌, Contains, true};
ghost use Rattle.nav_bits.specs.Bits.{number_at};
ghost use Rattle.nav_bits.specs.Packed.{AreBytes};
ghost use Rattle.inav.specs.declared.half.HalfKind.TheVariants.{Even, Odd};
ghost use Rattle.inav.specs.Pages.{bytes_of_half, bits_at, even_of, has_right_crc, kept_of};
ghost use Rattle.inav.specs.Pages.{kind_of, odd_of, word_of, HasRightCrc, IsHalf, IsSplit};
ghost use Rattle.inav.specs.Received.{StampedHalf, ArePartners, AreWordsWith, IsReceived};
ghost use Rattle.inav.specs.Received.{IsReceivedWith};
ghost use Rattle.inav.specs.Received.{MakeWord, are_partners, has_half, makes_word, words_of};

/// The bits of a page part, as a number, are those of its bytes.
pub fn parts_are_their_bits()
    ensures { (bits : List ℕ) (at width rest : ℕ) → at + width + rest ≡ 120 →
        bits_at (number_at bits 0 120) at width ≡ number_at bits at width }
{}

/// `has_right_crc` decides whether the CRC of a page is right.
pub fn right_crc_is_decided()
    ensures { (even odd : ℕ) → (has_right_crc even odd ≡ true) ↔ HasRightCrc even odd }
{}

/// The functions give the two page parts of a word, and no others are.
pub fn halves_are_the_functions()
    ensures split { (word : List ℕ) → IsSplit word (even_of word) (odd_of word) }
    ensures only { (word : List ℕ) (even odd : ℕ) → IsSplit word even odd →
        (even ≡ even_of word) × (odd ≡ odd_of word) }
{}

/// The parts of a word are an even and an odd page part with the right CRC that carry the word.
pub fn split_is_a_word()
    ensures even { (word : List ℕ) → IsHalf (even_of word) × (kind_of (even_of word) ≡ Even) }
    ensures odd { (word : List ℕ) → IsHalf (odd_of word) × (kind_of (odd_of word) ≡ Odd) }
    ensures crc { (word : List ℕ) → HasRightCrc (even_of word) (odd_of word) }
    ensures word { (word : List ℕ) → AreBytes 16 word →
        word_of (even_of word) (odd_of word) ≡ word }
{}

/// A page part that is written is read again as the same.
pub fn halves_are_read_again()
    ensures { (half : ℕ) → IsHalf half → kept_of (number_at (bytes_of_half half) 0 120) ≡ half }
{}

/// The tests decide whether a page part is in a list, whether two make a word, and whether one is
/// the partner of the other.
pub fn halves_are_decided()
    ensures among { (halves : List StampedHalf) (half : StampedHalf) →
        (has_half halves half ≡ true) ↔ Contains halves half }
    ensures word { (even odd : StampedHalf) → (makes_word even odd ≡ true) ↔ MakeWord even odd }
    ensures partners { (one other : StampedHalf) →
        (are_partners one other ≡ true) ↔ ArePartners one other }
{}

/// `words_of` gives the words that a page part makes with those of a list.
pub fn words_are_the_function()
    ensures { (halves : List StampedHalf) (taken : StampedHalf) →
        AreWordsWith (Contains halves) taken (words_of halves taken) }
{}

/// The words that a page part makes with those of a list are unique.
pub fn one_list_of_words()
    ensures { (kept : List StampedHalf) (taken : StampedHalf) (words more : List (List ℕ)) →
        AreWordsWith (Contains kept) taken words → AreWordsWith (Contains kept) taken more →
        words ≡ more }
{}

/// One more page part adds exactly the words that it makes with its partners.
pub fn words_received_with_one_more()
    ensures { (kept : List StampedHalf) (taken even odd : StampedHalf) →
        IsReceived (Contains (taken ∷ kept)) even odd ↔
        (IsReceived (Contains kept) even odd ⊎ IsReceivedWith (Contains kept) taken even odd) }
{}

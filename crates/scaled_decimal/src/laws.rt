//! Theorems about the definitions: each is the contract of a function that does nothing.

ghost use Rattle.std.specs.Prelude.{◌≡◌, ◌↔◌, ℕ, ℤ, ◌<◌, ◌≤◌, List};
ghost use Rattle.std.specs.Prelude.{Some, None, length, unsigned_abs};
ghost use Rattle.scaled_decimal.specs.declared.scales.Scale.{Scale};
ghost use Rattle.scaled_decimal.specs.Fractions.{Fraction, IsNearest, nearest_to};
ghost use Rattle.scaled_decimal.specs.ScaleValue.{size_of, IsAccepted, IsScale};
ghost use Rattle.scaled_decimal.specs.NumberText.{IsTextOf, number_text, AreShown, EndsInDigit};
ghost use Rattle.scaled_decimal.specs.Grammar.{IsDecimalText};
ghost use Rattle.scaled_decimal.specs.Values.{Decimal};
ghost use Rattle.scaled_decimal.specs.NumberReading.{AreBlanks, StandsFor, NumberSeen};
ghost use Rattle.scaled_decimal.specs.NumberReading.{blank, decimal_of, number, seen};

/// [`nearest_to`] gives the one integer nearest to a fraction, ties to even.
pub fn one_number_is_nearest()
    ensures { (a : Fraction) (n : ℕ) → 0 < a.under → IsNearest a n ↔ (n ≡ nearest_to a) }
{}

/// At a scale that `Scale::new` accepts, each 32-bit number has a decimal exponent from -20 to 16.
pub fn accepted_scales_are_scales()
    ensures { (s : Scale) → IsAccepted s → IsScale (size_of s) }
{}

/// A number has exactly one text, which `number_text` gives.
pub fn one_text()
    ensures { (s : Fraction) (z : ℤ) (text : List ℕ) → IsScale s → unsigned_abs z ≤ 4294967295
        → IsTextOf s z text ↔ (text ≡ number_text s z) }
{}

/// At each accepted scale the text of a number encodes that number and no other.
pub fn texts_stand()
    ensures for_it { (s : Scale) (z : ℤ) → IsAccepted s
        → unsigned_abs z ≤ 4294967295
        → StandsFor (size_of s) (number_text (size_of s) z) z }
    ensures for_no_other { (s : Scale) (y z : ℤ) → IsAccepted s
        → unsigned_abs z ≤ 4294967295 → StandsFor (size_of s) (number_text (size_of s) z) y → y
        ≡ z }
{}

/// `seen` gives the number that a text encodes, if there is one, and `blank` for blanks alone.
pub fn texts_are_seen()
    ensures as_numbers { (s : Fraction) (text : List ℕ) (z : ℤ) → IsScale s
        → (seen s text ≡ number z) ↔ StandsFor s text z }
    ensures as_blanks { (s : Fraction) (text : List ℕ) → (seen s text ≡ blank) ↔ AreBlanks text }
{}

/// The text of a number is read as that number; it has 19 columns, each printable, and ends in a
/// digit.
pub fn texts_are_read()
    ensures read { (s : Fraction) (z : ℤ) → IsScale s → unsigned_abs z ≤ 4294967295
        → seen s (number_text s z) ≡ number z }
    ensures columns { (s : Fraction) (z : ℤ) → length (number_text s z) ≡ 19 }
    ensures shown { (s : Fraction) (z : ℤ) → AreShown (number_text s z) }
    ensures ends { (s : Fraction) (z : ℤ) → EndsInDigit (number_text s z) }
{}

/// A text without leading and trailing blanks is read exactly if it is in the grammar, with its
/// value.
pub fn texts_of_the_grammar_are_read()
    ensures read { (text : List ℕ) (d : Decimal) → (decimal_of text ≡ Some d)
        ↔ IsDecimalText text d }
    ensures refused { (text : List ℕ) → decimal_of text ≡ None → (d : Decimal)
        → IsDecimalText text d → ⊥ }
{}

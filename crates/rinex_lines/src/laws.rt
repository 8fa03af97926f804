//! Theorems about the definitions: each is the contract of a function that does nothing.

ghost use Rattle.std.specs.Prelude.{◌≡◌, ◌⊎◌, ◌↔◌, ◌^◌, ◌<◌, ℕ, List, Some, length};
ghost use Rattle.scaled_decimal.specs.NumberReading.{decimal_of, trim_end, trim_start};
ghost use Rattle.scaled_decimal.specs.NumberText.{Parts};
ghost use Rattle.scaled_decimal.specs.Values.{Decimal, Reading};
ghost use Rattle.rinex_lines.specs.ExactText.{AreEqual, AreExactPartsOf, decimal_text};
ghost use Rattle.rinex_lines.specs.ExactText.{exact_text, parts_of};

/// The exact text of a number is read as that number; it has 19 columns.
pub fn exact_texts_keep_the_number()
    ensures number { (d : Decimal) (text : List ℕ) → d.value.digits < 10 ^ 18
        → decimal_text d ≡ Some text
        → (e : Decimal) × (decimal_of (trim_end (trim_start text)) ≡ Some e)
        × AreEqual d.value e.value × ((e.minus ≡ d.minus) ⊎ (e.value.digits ≡ 0)) }
    ensures columns { (d : Decimal) (text : List ℕ) → decimal_text d ≡ Some text
        → length text ≡ 19 }
{}

/// A number has at most one exact text: the parts of which it consists are determined by its value.
pub fn numbers_have_one_exact_text()
    ensures { (r : Reading) (p : Parts) → r.digits < 10 ^ 18
        → (parts_of r ≡ Some p) ↔ AreExactPartsOf r p }
{}

/// Two numbers with one value and sign have the same exact text, or both have none.
pub fn equal_numbers_have_one_text()
    ensures { (d e : Decimal) → d.value.digits < 10 ^ 18 → e.value.digits < 10 ^ 18
        → AreEqual d.value e.value → d.minus ≡ e.minus → decimal_text d ≡ decimal_text e }
{}

/// An exact text is its own exact text, so a record that was written so is written again as it is.
pub fn exact_texts_stay()
    ensures { (d : Decimal) (text : List ℕ) → d.value.digits < 10 ^ 18
        → decimal_text d ≡ Some text → exact_text text ≡ Some text }
{}

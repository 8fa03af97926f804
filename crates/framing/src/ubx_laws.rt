//! Theorems about the messages: each function does nothing, and its contract is the theorem.

ghost use Rattle.std.specs.Prelude.{◌≡◌, ℕ, ◌<◌, ◌↔◌, List};
ghost use Rattle.framing.specs.Headings.{IsHeading, size_by};
ghost use Rattle.framing.specs.UbxField.{AreBytes, BeginsMessage};
ghost use Rattle.framing.specs.UbxForm.{ubx};

/// UBX has a heading, so the theorems about any format hold for it.
pub fn ubx_is_a_format()
    ensures { IsHeading ubx }
{}

/// A message of size n begins the bytes exactly if one by the field's definition does.
pub fn ubx_messages_are_those_of_the_field()
    ensures { (bytes : List ℕ) (n : ℕ) → AreBytes bytes
        → ((0 < n) × (size_by ubx bytes ≡ n)) ↔ BeginsMessage bytes n }
{}

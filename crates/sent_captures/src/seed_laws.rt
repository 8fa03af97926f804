//! Theorems about the definitions; each is the contract of a function that does nothing.

ghost use Rattle.std.specs.Prelude.{◌≡◌, ℕ, ◌*◌, ◌^◌};
ghost use Rattle.std.specs.Prelude.{◌<◌, ◌≤◌, List, length};
ghost use Rattle.sent_captures.specs.Capture.{lines_of, IsCapture};
ghost use Rattle.sent_captures.specs.Text.{capture_text};

/// The capture of a seed, a number of satellites and a week is unique.
pub fn one_capture()
    ensures { (seed n r : ℕ) (a b : List ℕ) → IsCapture seed n r a → IsCapture seed n r b → a ≡ b }
{}

/// After its first line a capture has 7,865 lines for each of its satellites of one system.
pub fn lines_are_counted()
    ensures { (n : ℕ) → length (lines_of n) ≡ 7865 * n }
{}

/// A capture of at most 32 satellites of each system is shorter than 2^32 bytes.
pub fn captures_are_short()
    ensures captures { (seed n r : ℕ) (text : List ℕ) → n ≤ 32 → IsCapture seed n r text
        → length text < 2 ^ 32 }
    ensures function { (seed n r : ℕ) → n ≤ 32 → length (capture_text seed n r) < 2 ^ 32 }
{}

/// `capture_text` is the capture where satellite numbers have six bits; any capture is
/// `capture_text`.
pub fn captures_are_the_text()
    ensures capture { (seed n r : ℕ) → n < 64 → IsCapture seed n r (capture_text seed n r) }
    ensures only { (seed n r : ℕ) (text : List ℕ) → IsCapture seed n r text →
        text ≡ capture_text seed n r }
{}

//! Theorems about receiver messages: each function does nothing, and its contract is the theorem.

ghost use Rattle.std.specs.Prelude.{◌≡◌, ℕ, List, true};
ghost use Rattle.receiver_log.specs.Words.{are_good, read_words, reading};
ghost use Rattle.receiver_log.specs.Readings.{IsMask, logged};

/// At most one of the three readings of ten words has right parity throughout, and `read_words`
/// gives it.
pub fn one_reading_is_good()
    ensures one { (words : List ℕ) (a b : ℕ) → IsMask a → IsMask b
        → are_good (reading a words) ≡ true → are_good (reading b words) ≡ true
        → reading a words ≡ reading b words }
    ensures is_read { (words : List ℕ) (mask : ℕ) → IsMask mask
        → are_good (reading mask words) ≡ true → read_words words ≡ reading mask words }
{}

/// Words sent with right parity are read as sent, in whichever of the three ways the receiver
/// logged them (IS-GPS-200, 20.3.5.2).
pub fn sent_words_are_read()
    ensures { (sent : List ℕ) (mask : ℕ) → IsMask mask → are_good sent ≡ true
        → read_words (logged mask sent) ≡ sent }
{}

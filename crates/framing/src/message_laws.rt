//! Theorems about messages of any format: each function does nothing, and its contract is the
//! theorem.

ghost use Rattle.std.specs.Prelude.{◌≡◌, ℕ, ◌&&◌, ◌++◌};
ghost use Rattle.std.specs.Prelude.{nat_lt, Bool, List, [], drop};
ghost use Rattle.framing.specs.Messages.{Format, IsFormat, messages, decided, undecided};
ghost use Rattle.framing.specs.Messages.{after_first};
ghost use Rattle.framing.specs.Headings.{Heading, IsHeading, format_of};
ghost use Rattle.framing.specs.MessagePlaces.{AreChosen, is_chosen, messages_from, IsUnfinished};
ghost use Rattle.framing.specs.MessagePlaces.{IsOpenPlace};
ghost use Rattle.framing.specs.MessageState.{IsWaiting};

/// A heading makes a format.
pub fn headings_are_formats()
    ensures { (h : Heading) → IsHeading h → IsFormat (format_of h) }
{}

/// Decided messages stay, whatever bytes follow; the other messages are those of the undecided
/// bytes and what follows.
pub fn decided_messages_stay()
    ensures { (f : Format) → IsFormat f → (bytes more : List ℕ)
        → messages f (bytes ++ more) ≡ decided f bytes ++ messages f (undecided f bytes ++ more) }
{}

/// With more bytes, decided messages stay decided; the newly decided ones are those of the
/// undecided bytes and what follows.
pub fn decided_messages_stay_decided()
    ensures { (h : Heading) → IsHeading h → (bytes more : List ℕ)
        → decided (format_of h) (bytes ++ more) ≡ decided (format_of h) bytes
        ++ decided (format_of h) (undecided (format_of h) bytes ++ more) }
{}

/// There is exactly one set of chosen offsets, and the messages are those at its offsets,
/// ascending.
pub fn messages_are_at_the_chosen_places()
    ensures exist { (f : Format) (bytes : List ℕ) → AreChosen f bytes (is_chosen f bytes) }
    ensures only { (f : Format) (bytes : List ℕ) (chosen : ℕ → Bool) → AreChosen f bytes chosen
        → (p : ℕ) → chosen p ≡ is_chosen f bytes p }
    ensures messages { (f : Format) (bytes : List ℕ) (chosen : ℕ → Bool) → AreChosen f bytes chosen
        → messages_from f chosen 0 bytes ≡ messages f bytes }
{}

/// The decided messages are the chosen ones before the first incomplete one that is outside them.
pub fn decided_messages_stand_before_the_open_place()
    ensures before { (f : Format) (bytes : List ℕ) (chosen : ℕ → Bool) (place : ℕ) → IsFormat f
        → AreChosen f bytes chosen → IsOpenPlace f bytes chosen place
        → (messages_from f (λ p. chosen p && nat_lt p place) 0 bytes ≡ decided f bytes)
        × (undecided f bytes ≡ drop place bytes) }
    ensures all { (f : Format) (bytes : List ℕ) (chosen : ℕ → Bool) → AreChosen f bytes chosen
        → ((place : ℕ) → IsUnfinished f bytes chosen place → ⊥)
        → (decided f bytes ≡ messages f bytes) × (undecided f bytes ≡ []) }
{}

/// The messages without the first are the messages of the bytes after it.
pub fn messages_after_the_first()
    ensures { (f : Format) (bytes : List ℕ)
        → messages f (after_first f bytes) ≡ drop 1 (messages f bytes) }
{}

/// While nothing is held, or the bytes held begin with an incomplete message, no message is
/// decided, and all bytes held are undecided.
pub fn no_message_is_decided_while_bytes_wait()
    ensures decided { (f : Format) (rest : List ℕ) → IsWaiting f rest → decided f rest ≡ [] }
    ensures undecided { (f : Format) (rest : List ℕ) → IsWaiting f rest
        → undecided f rest ≡ rest }
{}

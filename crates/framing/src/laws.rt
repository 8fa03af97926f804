//! Theorems about the definitions. Each function does nothing; its contract is the theorem.

ghost use Rattle.std.specs.Prelude.{◌≡◌, ℕ, ◌+◌, ◌≤◌, length, ◌<◌};
ghost use Rattle.std.specs.Prelude.{◌↔◌, ◌&&◌, ◌++◌, ◌∷◌, nat_lt};
ghost use Rattle.std.specs.Prelude.{Bool, List, [], take, drop};
ghost use Rattle.framing.specs.Frames.{frame_size, frames, decided, undecided, after_first};
ghost use Rattle.framing.specs.Standard.{AreBytes, BeginsFrame};
ghost use Rattle.framing.specs.State.{IsWaiting, payload_of, TakesFrame, TakesNone};
ghost use Rattle.framing.specs.Writing.{frame_bytes};
ghost use Rattle.framing.specs.Places.{AreChosen, is_chosen, frames_from, IsUnfinished};
ghost use Rattle.framing.specs.Places.{IsOpenPlace};

/// `frame_size` finds a frame of a size at the start of the bytes exactly if the standard's bit
/// layout has one there.
pub fn frames_are_those_of_the_standard()
    ensures { (bytes : List ℕ) (n : ℕ) → AreBytes bytes
        → ((0 < n) × (frame_size bytes ≡ n)) ↔ BeginsFrame bytes n }
{
    nav_bits::one_crc();
    nav_bits::the_register_holds_the_crc();
}

/// Decided frames stay whatever bytes follow; the frames after them are those of the undecided
/// bytes with these.
pub fn decided_frames_stay()
    ensures { (bytes more : List ℕ)
        → frames (bytes ++ more) ≡ decided bytes ++ frames (undecided bytes ++ more) }
{}

/// There is exactly one set of chosen offsets, and the frames are those at its offsets, ascending.
pub fn frames_are_at_the_chosen_places()
    ensures exist { (bytes : List ℕ) → AreChosen bytes (is_chosen bytes) }
    ensures only { (bytes : List ℕ) (chosen : ℕ → Bool) → AreChosen bytes chosen
        → (p : ℕ) → chosen p ≡ is_chosen bytes p }
    ensures frames { (bytes : List ℕ) (chosen : ℕ → Bool) → AreChosen bytes chosen
        → frames_from chosen 0 bytes ≡ frames bytes }
{}

/// The decided frames are the chosen ones before the first unfinished frame.
pub fn decided_frames_stand_before_the_open_place()
    ensures before { (bytes : List ℕ) (chosen : ℕ → Bool) (place : ℕ) → AreChosen bytes chosen
        → IsOpenPlace bytes chosen place
        → (frames_from (λ p. chosen p && nat_lt p place) 0 bytes ≡ decided bytes)
        × (undecided bytes ≡ drop place bytes) }
    ensures all { (bytes : List ℕ) (chosen : ℕ → Bool) → AreChosen bytes chosen
        → ((place : ℕ) → IsUnfinished bytes chosen place → ⊥)
        → (decided bytes ≡ frames bytes) × (undecided bytes ≡ []) }
{}

/// The frames without the first are the frames of the bytes after it.
pub fn frames_after_the_first()
    ensures { (bytes : List ℕ) → frames (after_first bytes) ≡ drop 1 (frames bytes) }
{}

/// While the bytes are empty or begin with an incomplete frame, no frame is decided and all of them
/// are undecided.
pub fn nothing_is_decided_while_bytes_wait()
    ensures decided { (rest : List ℕ) → IsWaiting rest → decided rest ≡ [] }
    ensures undecided { (rest : List ℕ) → IsWaiting rest → undecided rest ≡ rest }
{}

/// What is written for a payload is exactly one complete frame, with this payload.
pub fn written_frames_are_whole()
    ensures whole { (payload : List ℕ) → length payload ≤ 1023
        → frame_size (frame_bytes payload) ≡ length payload + 6 }
    ensures size { (payload : List ℕ) → length (frame_bytes payload) ≡ length payload + 6 }
    ensures payload { (payload : List ℕ) → payload_of (frame_bytes payload) ≡ payload }
{}

/// The frames of a written frame followed by more bytes are that frame, then the frames of those
/// bytes.
pub fn frames_behind_a_written_frame()
    ensures { (payload more : List ℕ) → length payload ≤ 1023
        → frames (frame_bytes payload ++ more) ≡ frame_bytes payload ∷ frames more }
{}

/// The result of `next_frame` is determined: one frame or none, and one rest.
pub fn one_frame_is_next()
    ensures frame { (more : Bool) (old frame new frame' new' : List ℕ)
        → TakesFrame more old frame new → TakesFrame more old frame' new'
        → (frame ≡ frame') × (new ≡ new') }
    ensures none { (more : Bool) (old new new' : List ℕ)
        → TakesNone more old new → TakesNone more old new' → new ≡ new' }
    ensures either { (more : Bool) (old frame new new' : List ℕ)
        → TakesFrame more old frame new → TakesNone more old new' → ⊥ }
{}

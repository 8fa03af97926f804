//! A theorem about the definitions. The function does nothing; its contract is the theorem.

ghost use Rattle.std.specs.Prelude.{◌≡◌, ℕ, List, [], ◌++◌, true};
ghost use Rattle.framing.specs.Frames.{frames};
ghost use Rattle.framing.specs.State.{DeframerState};
ghost use Rattle.c_calls.specs.Deframers.{fresh};
ghost use Rattle.c_calls.specs.Calls.{Call, Leads, bytes_fed, frames_given};

/// Whatever the pieces, and however calls follow one another: the frames that a deframer gave, and
/// then those of what is left with the bytes that follow, are the frames of all bytes; and once it
/// is finished and empty, those that it gave are all.
pub fn what_a_deframer_gives_does_not_depend_on_pieces()
    ensures far { (calls : List Call) (state : DeframerState) (following : List ℕ)
        → Leads fresh calls state → (state.finished ≡ true → following ≡ [])
        → frames (bytes_fed calls ++ following)
        ≡ frames_given calls ++ frames (state.rest ++ following) }
    ensures whole { (calls : List Call) (state : DeframerState)
        → Leads fresh calls state → state.rest ≡ []
        → frames (bytes_fed calls) ≡ frames_given calls }
{}

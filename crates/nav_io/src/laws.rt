//! Theorems about lines and of their reader: each function does nothing, and its contract is the
//! theorem.

ghost use Rattle.std.specs.Prelude.{◌≡◌, ◌^◌, ◌<◌, ◌++◌, ◌∷◌, ℕ, Bool};
ghost use Rattle.std.specs.Prelude.{true, false, List, [], Option, Some};
ghost use Rattle.nav_io.specs.Lines.{IsOneLine, Line, ends, pieces, lines_by};
ghost use Rattle.nav_io.specs.Pieces.{ArePieces};
ghost use Rattle.nav_io.specs.LinesState.{LinesState, Reads, GivesLine, BreaksRead, BreaksLong};
ghost use Rattle.nav_io.specs.LineAnswers.{Answers};
ghost use Rattle.nav_io.specs.declared.lines.LineKind.{LineKind};
ghost use Rattle.nav_io.specs.declared.lines.LineKind.TheVariants.{End};

/// There is exactly one list of the pieces between LFs.
pub fn pieces_are_those_between_the_ends()
    ensures exist { (bytes : List ℕ) → ArePieces bytes (pieces false bytes) }
    ensures only { (bytes : List ℕ) (lines : List (List ℕ)) → ArePieces bytes lines
        → lines ≡ pieces false bytes }
{}

/// The pieces that an LF ends are the pieces of the bytes up to the last LF.
pub fn ended_pieces_are_those_up_to_the_last_end()
    ensures some { (prefix rest : List ℕ) → ends rest ≡ false
        → pieces true (prefix ++ 10 ∷ rest) ≡ pieces false (prefix ++ 10 ∷ []) }
    ensures none { (bytes : List ℕ) → ends bytes ≡ false → pieces true bytes ≡ [] }
{}

/// A line that was written with its LF is read back unchanged, whatever follows.
pub fn written_lines_are_given()
    ensures { (more : Bool) (line rest : List ℕ) → IsOneLine line
        → lines_by more (line ++ 10 ∷ rest)
        ≡ record { text = line; long = false } ∷ lines_by more rest }
{}

/// The lines that calls returned are the first lines of the bytes held and read; before the end of
/// the source, each of them was ended by an LF.
pub fn lines_given_are_the_first()
    ensures first { (left left_new : Option (List ℕ)) (old new : LinesState) (lines : List Line)
        (reads : Reads left left_new old new lines)
        → lines_by false (old.rest ++ reads.taken) ≡ lines ++ lines_by false new.rest }
    ensures ended { (left left_new : Option (List ℕ)) (old new : LinesState) (lines : List Line)
        (reads : Reads left left_new old new lines) → new.ended ≡ false
        → lines_by true (old.rest ++ reads.taken) ≡ lines ++ lines_by true new.rest }
    ensures more { (left middle left_new : Option (List ℕ)) (old now new : LinesState)
        (lines more : List Line) → Reads left middle old now lines
        → Reads middle left_new now new more → Reads left left_new old new (lines ++ more) }
{}

/// From the first call to the end, calls return the lines of all bytes, however reads split them;
/// up to an error, the lines that an LF has ended.
pub fn lines_given_are_those_of_the_bytes()
    ensures whole { (bytes : List ℕ) (left_new : Option (List ℕ)) (old new : LinesState)
        (lines : List Line) → Reads (Some bytes) left_new old new lines → old.rest ≡ []
        → old.ended ≡ false → new.rest ≡ [] → new.ended ≡ true → lines ≡ lines_by false bytes }
    ensures so_far { (left left_new : Option (List ℕ)) (old new : LinesState) (lines : List Line)
        (reads : Reads left left_new old new lines) → new.ended ≡ false → ends new.rest ≡ false
        → lines_by true (old.rest ++ reads.taken) ≡ lines }
{}

/// Once there were too many bytes, each further call fails with `TooLong`.
pub fn too_many_bytes_stay_too_many()
    ensures answer { (kind : LineKind) (left left_new : Option (List ℕ)) (old new : LinesState)
        → old.taken ≡ 2 ^ 32 → Answers kind left left_new old new → ⊥ }
    ensures read { (left left_new : Option (List ℕ)) (old new : LinesState)
        → old.taken ≡ 2 ^ 32 → BreaksRead left left_new old new → ⊥ }
{}

/// After a read that gave no byte no further read fails, and `TooLong` does not arise. If also no
/// byte is held, each further call gives `End`.
pub fn the_end_stays()
    ensures read { (left left_new : Option (List ℕ)) (old new : LinesState)
        → old.ended ≡ true → BreaksRead left left_new old new → ⊥ }
    ensures long { (left left_new : Option (List ℕ)) (old new : LinesState)
        → old.ended ≡ true → old.taken < 2 ^ 32 → BreaksLong left left_new old new → ⊥ }
    ensures answer { (kind : LineKind) (left left_new : Option (List ℕ)) (old new : LinesState)
        → old.ended ≡ true → old.rest ≡ [] → Answers kind left left_new old new → kind ≡ End }
{}

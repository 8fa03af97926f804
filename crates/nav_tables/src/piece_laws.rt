ghost use Rattle.std.specs.Prelude.{◌≡◌, ℕ, ◌%◌, ◌^◌, ◌<◌, List, IsTrue, get_or};
ghost use Rattle.nav_bits.specs.Fields.{Stand};
ghost use Rattle.nav_tables.specs.declared.piece.Piece.{Piece};
ghost use Rattle.nav_tables.specs.Pieces.{are_pieces, bits_of, fields_of, number_in};

/// A number that is written in pieces is read back equal.
pub fn split_numbers_join()
    ensures { (bytes : List ℕ) (k : ℕ) (pieces : List Piece) (numbers : List ℕ) →
        IsTrue (are_pieces pieces) → get_or numbers k 0 < 2 ^ bits_of k pieces →
        Stand bytes 0 0 (fields_of pieces numbers)
        → number_in bytes 0 k pieces ≡ get_or numbers k 0 }
{}

/// A number that is read has no more bits than its pieces.
pub fn numbers_in_pieces_fit()
    ensures { (bytes : List ℕ) (at k : ℕ) (pieces : List Piece) → IsTrue (are_pieces pieces) →
        number_in bytes at k pieces < 2 ^ bits_of k pieces }
{}

/// The numbers that are read in pieces have these pieces.
pub fn read_numbers_stand()
    ensures { (bytes : List ℕ) (pieces : List Piece) (numbers : List ℕ) →
        IsTrue (are_pieces pieces) →
        ((k : ℕ) → k < 40 → get_or numbers k 0 ≡ number_in bytes 0 k pieces) →
        Stand bytes 0 0 (fields_of pieces numbers) }
{}

//! Theorems about the format of a file: the contracts of empty functions.

ghost use Rattle.std.specs.Prelude.{◌≡◌, ◌<◌, ◌≤◌, ◌∷◌, ℕ, List, take};
ghost use Rattle.framing.specs.Frames.{frame_size};
ghost use Rattle.whole_file.specs.declared.kinds.Kind.TheVariants.{Stream};
ghost use Rattle.whole_file.specs.Kinds.{kind_of};

/// The first 65,536 bytes of a file decide its format.
pub fn first_bytes_decide()
    ensures { (n : ℕ) (bytes : List ℕ) → 65536 ≤ n → kind_of (take n bytes) ≡ kind_of bytes }
{}

/// Bytes that begin with a complete frame of RTCM 3, its six reserved bits 0, are recognised as a
/// stream.
pub fn a_frame_decides_a_stream()
    ensures { (second : ℕ) (rest : List ℕ) → second < 4
        → 0 < frame_size (take 65536 (211 ∷ second ∷ rest))
        → kind_of (211 ∷ second ∷ rest) ≡ Stream }
{}

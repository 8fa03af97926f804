ghost use Rattle.std.specs.Prelude.{◌≡◌, ℕ, ◌+◌, ◌*◌, ◌^◌, ◌<◌, ◌≤◌, IsTrue, length, get_or};
ghost use Rattle.nav_bits.specs.Fields.{Stand};
ghost use Rattle.nav_tables.specs.Pieces.{are_pieces, fields_of, number_in, width_of};

use crate::piece::Piece;
use arrayvec::ArrayVec;
use nav_bits::{number_in_bytes, put_numbers};

/// The numbers of a message, whose pieces begin at the first bit.
pub fn read_numbers(pieces: &[Piece], bytes: &[u8]) -> [u64; 40]
    requires pieces { IsTrue (are_pieces pieces.now) }
    requires inside { width_of pieces.now ≤ 8 * length bytes.now }
    requires small { 8 * length bytes.now < 2 ^ 64 }
    ensures { (k : ℕ) → k < 40 → get_or result k 0 ≡ number_in bytes.now 0 k pieces.now }
{
    let mut numbers = [0; 40];
    let mut at = 0;
    for piece in pieces {
        let width = piece.width as usize;
        let bits = number_in_bytes(bytes, at, width);
        numbers[piece.number] += bits << piece.low;
        at += width;
    }
    numbers
}

/// Writes the pieces of numbers from the first bit on.
pub fn put_pieces(pieces: &[Piece], numbers: &[u64; 40], bytes: &mut [u8])
    requires pieces { IsTrue (are_pieces pieces.now) }
    requires few { length pieces.now ≤ 128 }
    requires inside { width_of pieces.now ≤ 8 * length bytes.old }
    requires small { 8 * length bytes.old < 2 ^ 64 }
    ensures { Stand bytes.new 0 0 (fields_of pieces.now numbers.now) }
{
    let mut fields: ArrayVec<(u32, u64), 128> = ArrayVec::new();
    for piece in pieces {
        let bits = (numbers[piece.number] >> piece.low) % (1 << piece.width);
        fields.push((piece.width, bits));
    }
    put_numbers(bytes, 0, fields.as_slice());
}

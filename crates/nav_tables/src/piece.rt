/// A run of bits of a message: some bits of a number. Parity is a number, too.
#[derive(Clone, Copy)]
pub struct Piece {
    /// Which number.
    pub number: usize,
    /// The width in bits.
    pub width: u32,
    /// How many bits of the number are below them.
    pub low: u32,
}

//! What several tests take: bits that are written in hexadecimal digits, and sources over memory.

use nav_bits::Bits;
use nav_io::MemSource;
use std::alloc::{AllocError, Global};

/// The bits of hexadecimal digits, two for each byte; all 0 where these are not so many.
pub(crate) fn bits_of<const N: usize>(digits: &[u8]) -> Bits<N> {
    let mut bytes = [0; N];
    match hex::decode_to_slice(digits, &mut bytes) {
        Ok(()) => Bits::from_bytes(bytes),
        Err(_) => Bits::zero(),
    }
}

/// A source of these bytes, with these cuts, which fails at the calls of these numbers.
pub(crate) fn source_of(
    alloc: Global,
    bytes: &[u8],
    cuts: &[u32],
    fails: &[u32],
) -> Result<MemSource, AllocError> {
    let bytes = bytes.to_vec(alloc)?;
    let cuts = cuts.to_vec(alloc)?;
    Ok(MemSource::new(bytes, cuts, fails.to_vec(alloc)?))
}

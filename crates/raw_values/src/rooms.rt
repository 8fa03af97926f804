//! Texts that are put into buffers.

ghost use Rattle.std.specs.Prelude.{◌≡◌};
ghost use Rattle.raw_values.specs.Rooms.{StandsIn};

/// Puts the prefix of a text that fits into the buffer, and returns the length of the complete
/// text. What is after it is unchanged.
pub fn put(text: &[u8], into: &mut [u8]) -> usize
    ensures { StandsIn into.old into.new result text.now }
{
    let count = text.len().min(into.len());
    into[..count].copy_from_slice(&text[..count]);
    text.len()
}

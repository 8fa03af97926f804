//! What a format defines: preamble, size and checksum of its messages.

ghost use Rattle.std.specs.Prelude.{◌≡◌, ℕ, ◌+◌, ◌≤◌, List};
ghost use Rattle.std.specs.Prelude.{◌++◌, length, take, drop, true};
ghost use Rattle.framing.specs.Headings.{Heading, IsHeading};

/// How messages of a format begin, how long they are, and whether their checksum is right.
///
/// A judge may keep checksum states of bytes that it has read, so that it checks a message at any
/// offset without reading them again.
pub trait Judge: Drop {
    // The format.
    ghost heading: { Heading };

    // Whether the states kept are those of these bytes.
    ghost IsBeside: { Self → List ℕ → Type 0 };

    /// The first byte of each message.
    fn first() -> u8
        ensures { result ≡ heading.first };

    /// A judge that has read no byte.
    fn new() -> Self
        ensures { (bytes : List ℕ) → IsBeside result bytes };

    /// Whether the bytes agree with the start of a message, as far as they go.
    fn begins(bytes: &[u8]) -> bool
        ensures { result ≡ heading.begins bytes.now };

    /// How many bytes are needed to know more; once there are as many, the size of the message.
    fn wanted(bytes: &[u8]) -> usize
        ensures { result ≡ heading.wanted bytes.now };

    /// Whether the message at offset `place` has the right checksum.
    fn is_right(&mut self, bytes: &[u8], place: usize, size: usize) -> bool
        requires few { length bytes.now ≤ 98304 }
        requires inside { place + size ≤ length bytes.now }
        requires begins { heading.begins (drop place bytes.now) ≡ true }
        requires size { size ≡ heading.wanted (drop place bytes.now) }
        requires beside { IsBeside self.old bytes.now }
        ensures value { result ≡ heading.is_right (take size (drop place bytes.now)) }
        ensures beside { IsBeside self.new bytes.now };

    /// Drops the states of the first `count` bytes.
    fn cut_prefix(&mut self, count: usize)
        ensures { (bytes : List ℕ) → IsBeside self.old bytes
            → IsBeside self.new (drop count bytes) };

    ghost is_heading: { IsHeading heading };

    ghost is_short: { heading.longest ≤ 81920 };

    ghost stays: { (judge : Self) (xs ys : List ℕ) → IsBeside judge xs
        → IsBeside judge (xs ++ ys) };
}

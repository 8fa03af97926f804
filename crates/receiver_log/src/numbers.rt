//! Little-endian numbers in messages.

ghost use Rattle.std.specs.Prelude.{◌≡◌, ◌+◌, ◌^◌, ◌<◌, ◌≤◌, length};
ghost use Rattle.receiver_log.specs.Numbers.{eight_at, four_at, two_at};

// The two-byte number at byte offset `at`.
pub fn two(bytes: &[u8], at: usize) -> u32
    requires { at + 2 ≤ length bytes.now }
    ensures value { result ≡ two_at bytes.now at }
    ensures fits { result < 2 ^ 16 }
{
    u32::from(bytes[at]) + 256 * u32::from(bytes[at + 1])
}

// The four-byte number.
pub fn four(bytes: &[u8], at: usize) -> u32
    requires { at + 4 ≤ length bytes.now }
    ensures { result ≡ four_at bytes.now at }
{
    two(bytes, at) + 65_536 * two(bytes, at + 2)
}

// The eight-byte number.
pub fn eight(bytes: &[u8], at: usize) -> u64
    requires { at + 8 ≤ length bytes.now }
    ensures { result ≡ eight_at bytes.now at }
{
    u64::from(four(bytes, at)) + 4_294_967_296 * u64::from(four(bytes, at + 4))
}

//! The leap seconds of the header of a navigation file.

ghost use Rattle.std.specs.Prelude.{◌≡◌, ◌<◌, ◌≤◌, IfSome, IsTrue, length};
ghost use Rattle.file_conversion.specs.Leaps.{has_leap, leap_in, leap_of};

// The number of one or two digits in columns 5 and 6.
fn leap_in(tens: u8, ones: u8) -> Option<u8>
    ensures is { result ≡ leap_in tens ones }
    ensures range { IfSome result (λ leap. leap < 100) }
{
    if !ones.is_ascii_digit() {
        None
    } else if tens == b' ' {
        Some(ones - b'0')
    } else if tens.is_ascii_digit() {
        Some(10 * (tens - b'0') + (ones - b'0'))
    } else {
        None
    }
}

// Whether a line has leap seconds of GPS time after four blanks.
fn has_leap(line: &[u8]) -> bool
    ensures is { result ≡ has_leap line.now }
    ensures long { IsTrue result → 72 ≤ length line.now }
{
    line.len() >= 72
        && &line[60..72] == b"LEAP SECONDS".as_slice()
        && &line[24..27] != b"BDS".as_slice()
        && &line[..4] == b"    ".as_slice()
}

/// The leap seconds of GPS time that a line of a header has, in columns 1 to 6 (RINEX 2.11, 3.05
/// and 4.01, header record LEAP SECONDS): one or two digits after blanks. A line of those of BeiDou
/// time, by columns 25 to 27, has none.
pub fn leap_of(line: &[u8]) -> Option<u8>
    ensures is { result ≡ leap_of line.now }
    ensures range { IfSome result (λ leap. leap < 100) }
{
    if has_leap(line) {
        leap_in(line[4], line[5])
    } else {
        None
    }
}

ghost use Rattle.std.specs.Prelude.{◌≡◌, ℕ, ◌+◌, ◌*◌};
ghost use Rattle.std.specs.Prelude.{◌^◌, ◌<◌, ◌≤◌, length};
ghost use Rattle.nav_bits.specs.Bits.{number_at, Puts};

// The unsigned value of `width` bits of one byte, after its first `skip` bits.
fn part_of(bytes: &[u8], byte: usize, skip: usize, width: usize) -> u8
    requires some { 1 ≤ width }
    requires within { skip + width ≤ 8 }
    requires inside { byte < length bytes.now }
    ensures { result ≡ number_at bytes.now (8 * byte + skip) width }
{
    (bytes[byte] >> (8 - skip - width)) & (u8::MAX >> (8 - width))
}

// The unsigned value of the `width` bits from bit offset `at`, read a byte at a time.
fn number_by_bytes(bytes: &[u8], at: usize, width: usize) -> u64
    requires most { width ≤ 64 }
    requires inside { at + width ≤ 8 * length bytes.now }
    ensures { result ≡ number_at bytes.now at width }
{
    let mut value: u64 = 0;
    let mut done: usize = 0;
    while done < width {
        let place = at % 8 + done;
        let step = (width - done).min(8 - place % 8);
        let part = part_of(bytes, at / 8 + place / 8, place % 8, step);
        value = (value << step) | u64::from(part);
        done += step;
    }
    value
}

// The unsigned value of eight bytes from byte offset `first`, most significant byte first.
fn eight_bytes(bytes: &[u8], first: usize) -> u64
    requires inside { first + 8 ≤ length bytes.now }
    ensures { result ≡ number_at bytes.now (8 * first) 64 }
{
    u64::from_be_bytes([
        bytes[first],
        bytes[first + 1],
        bytes[first + 2],
        bytes[first + 3],
        bytes[first + 4],
        bytes[first + 5],
        bytes[first + 6],
        bytes[first + 7],
    ])
}

/// The unsigned value of the `width` bits from bit offset `at`, by one shift and mask where eight
/// bytes hold them.
pub fn number_in_bytes(bytes: &[u8], at: usize, width: usize) -> u64
    requires most { width ≤ 64 }
    requires inside { at + width ≤ 8 * length bytes.now }
    ensures { result ≡ number_at bytes.now at width }
{
    let length = bytes.len();
    if width == 0 || length < 8 {
        return number_by_bytes(bytes, at, width);
    }
    let first = (at / 8).min(length - 8);
    let skip = at - 8 * first;
    if skip + width > 64 {
        return number_by_bytes(bytes, at, width);
    }
    (eight_bytes(bytes, first) >> (64 - skip - width)) & (u64::MAX >> (64 - width))
}

// Writes a value of `width` bits into one byte, after its first `skip` bits.
fn put_part(bytes: &mut [u8], byte: usize, skip: usize, width: usize, value: u8)
    requires some { 1 ≤ width }
    requires within { skip + width ≤ 8 }
    requires inside { byte < length bytes.old }
    requires fits { value < 2 ^ width }
    ensures { Puts bytes.old bytes.new (8 * byte + skip) width value }
{
    let shift = 8 - skip - width;
    let mask = (u8::MAX >> (8 - width)) << shift;
    bytes[byte] = (bytes[byte] & !mask) | (value << shift);
}

// Writes a value of `width` bits from bit offset `at`, a byte at a time; all other bits stay.
fn put_by_bytes(bytes: &mut [u8], at: usize, width: usize, value: u64)
    requires most { width ≤ 64 }
    requires inside { at + width ≤ 8 * length bytes.old }
    requires fits { value < 2 ^ width }
    ensures { Puts bytes.old bytes.new at width value }
{
    let mut done: usize = 0;
    while done < width {
        let place = at % 8 + done;
        let step = (width - done).min(8 - place % 8);
        let part = ((value >> (width - done - step)) & (0xff >> (8 - step))) as u8;
        put_part(bytes, at / 8 + place / 8, place % 8, step, part);
        done += step;
    }
}

// Writes eight bytes from byte offset `first`, most significant byte first.
fn put_eight(bytes: &mut [u8], first: usize, word: u64)
    requires inside { first + 8 ≤ length bytes.old }
    ensures { Puts bytes.old bytes.new (8 * first) 64 word }
{
    bytes[first..first + 8].copy_from_slice(&word.to_be_bytes());
}

// Writes a value of `width` bits into eight bytes, after their first `skip` bits.
fn put_in_eight(bytes: &mut [u8], first: usize, skip: usize, width: usize, value: u64)
    requires some { 1 ≤ width }
    requires within { skip + width ≤ 64 }
    requires inside { first + 8 ≤ length bytes.old }
    requires fits { value < 2 ^ width }
    ensures { Puts bytes.old bytes.new (8 * first + skip) width value }
{
    let shift = 64 - skip - width;
    let mask = (u64::MAX >> (64 - width)) << shift;
    let word = (eight_bytes(bytes, first) & !mask) | (value << shift);
    put_eight(bytes, first, word);
}

/// Writes a value of `width` bits from bit offset `at`, by one shift and mask where eight bytes
/// hold them; all other bits stay.
pub(crate) fn put_number(bytes: &mut [u8], at: usize, width: usize, value: u64)
    requires most { width ≤ 64 }
    requires inside { at + width ≤ 8 * length bytes.old }
    requires fits { value < 2 ^ width }
    ensures { Puts bytes.old bytes.new at width value }
{
    let length = bytes.len();
    if width == 0 || length < 8 {
        put_by_bytes(bytes, at, width, value);
        return;
    }
    let first = (at / 8).min(length - 8);
    let skip = at - 8 * first;
    if skip + width > 64 {
        put_by_bytes(bytes, at, width, value);
        return;
    }
    put_in_eight(bytes, first, skip, width, value);
}

//! Header, length and checksum of the frame at the start of some bytes (RTCM 10403.3, the transport
//! layer).

ghost use Rattle.std.specs.Prelude.{◌≡◌, ◌<◌, ◌≤◌, ◌^◌};
ghost use Rattle.std.specs.Prelude.{◌&&◌, ◌↔◌, IsTrue, length, take, drop};
ghost use Rattle.std.specs.Prelude.{slice_index, if◌then◌else◌, Bool};
ghost use Rattle.framing.specs.Checksum.{checksum};
ghost use Rattle.framing.specs.Frames.{announced, frame_size, is_open, is_right};
ghost use Rattle.framing.specs.State.{IsWaiting};
ghost use Rattle.framing.specs.Mirrors.{from_first, Promises};

use byteorder::{BigEndian, ByteOrder};
use nav_bits::crc_bytes;

// The preamble of each frame.
pub const PREAMBLE: u8 = 0xD3;

// The size of the longest frame: three bytes of header, 1,023 of payload and three of checksum.
pub const LONGEST: usize = 1029;

// Whether the last three bytes are the checksum of those before them.
#[tactic(auto, unfolding(crate::specs::Frames::is_right))]
pub fn has_right_checksum(frame: &[u8]) -> bool
    requires { 3 ≤ length frame.now }
    ensures { result ≡ is_right frame.now }
{
    let end = frame.len() - 3;
    crc_bytes(&frame[..end]).value() == u64::from(BigEndian::read_u24(&frame[end..]))
}

// The size of the whole frame, header and checksum included, by the length in this header.
fn announced_size(bytes: &[u8]) -> usize
    requires { 3 ≤ length bytes.now }
    ensures { result ≡ announced (slice_index bytes.now 1) (slice_index bytes.now 2) }
{
    (BigEndian::read_u16(&bytes[1..]) % 1024) as usize + 6
}

// Whether the bytes begin with an incomplete frame: a preamble, and fewer bytes than its frame
// takes.
#[tactic(auto, using(crate::proofs::FormCases::form_cases))]
pub fn opens(bytes: &[u8]) -> bool
    ensures { result ≡ is_open bytes.now }
{
    match bytes {
        [] => false,
        [start, _, _, ..] => *start == PREAMBLE && bytes.len() < announced_size(bytes),
        [start, ..] => *start == PREAMBLE,
    }
}

// The same where more bytes may come, else false.
pub fn is_held(bytes: &[u8], more: bool) -> bool
    ensures { result ≡ (more && is_open bytes.now) }
{
    more && opens(bytes)
}

// The first offset from `from` on of a byte D3, or the end of the bytes.
pub fn next_start(bytes: &[u8], from: usize) -> usize
    requires { from ≤ length bytes.now }
    ensures onward { from ≤ result }
    ensures inside { result ≤ length bytes.now }
    ensures start { result < length bytes.now → slice_index bytes.now result ≡ 0xD3 }
    ensures passed { (more : Bool) →
        from_first more (drop result bytes.now) ≡ from_first more (drop from bytes.now) }
{
    let mut place = from;
    while place < bytes.len() && bytes[place] != PREAMBLE {
        place += 1;
    }
    place
}

// The size of the frame that the header at the start of these bytes announces, if the bytes hold
// all of it, else 0. The checksum is not looked at.
#[tactic(auto, using(crate::proofs::FormCases::form_cases))]
pub fn announced_within(bytes: &[u8]) -> usize
    ensures none { result ≡ 0 → frame_size bytes.now ≡ 0 }
    ensures some { 0 < result
        → frame_size bytes.now ≡ (if is_right (take result bytes.now) then result else 0) }
    ensures inside { result ≤ length bytes.now }
    ensures shortest { 0 < result → 6 ≤ result }
    ensures longest { result ≤ 1029 }
{
    match bytes {
        [start, _, _, ..] => {
            if *start != PREAMBLE {
                return 0;
            }
            let size = announced_size(bytes);
            if size <= bytes.len() { size } else { 0 }
        }
        _ => 0,
    }
}

// The number of bytes from here on below which no frame can be decided.
#[tactic(auto, using(crate::proofs::Promising::promises))]
pub fn wanted_of(rest: &[u8]) -> usize
    requires { IsWaiting rest.now }
    ensures promise { Promises rest.now result }
    ensures more { length rest.now < result }
    ensures most { result ≤ 1029 }
{
    match rest {
        [] => 1,
        [_, _, _, ..] => announced_size(rest),
        _ => 3,
    }
}

// Whether the bytes are empty or begin with an incomplete frame.
pub fn waits(rest: &[u8]) -> bool
    ensures { IsTrue result ↔ IsWaiting rest.now }
{
    rest.is_empty() || opens(rest)
}

// The size of the frame with right checksum at the start of these bytes, or 0 where there is none.
pub fn size_of_frame(bytes: &[u8]) -> usize
    ensures { result ≡ frame_size bytes.now }
{
    let size = announced_within(bytes);
    if size == 0 {
        return 0;
    }
    if has_right_checksum(&bytes[..size]) {
        size
    } else {
        0
    }
}

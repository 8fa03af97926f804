//! Writing a frame.

ghost use Rattle.std.specs.Prelude.{◌≡◌, ◌+◌, ◌^◌, ◌<◌};
ghost use Rattle.std.specs.Prelude.{◌≤◌, [], ◌++◌, length};
ghost use Rattle.arrayvec.specs.ArrayVec.{array_vec_len};
ghost use Rattle.framing.specs.Writing.{body_of, frame_bytes, three_bytes};

use crate::form::PREAMBLE;
use arrayvec::ArrayVec;
use nav_bits::crc_bytes;

/// Writes the frame of a payload of at most 1,023 bytes: the preamble, six reserved bits 0, the
/// payload's length, the payload, and the CRC-24Q of all these (RTCM 10403.3, the transport layer).
pub fn write_frame(payload: &[u8], into: &mut ArrayVec<u8, 1029>)
    requires short { length payload.now ≤ 1023 }
    requires empty { into.old.items ≡ [] }
    ensures { into.new.items ≡ frame_bytes payload.now }
{
    push_body(payload, into);
    let crc = crc_bytes(into.as_slice()).value();
    push_three(crc, into);
}

// Writes the header and the payload.
fn push_body(payload: &[u8], into: &mut ArrayVec<u8, 1029>)
    requires short { length payload.now ≤ 1023 }
    requires empty { into.old.items ≡ [] }
    ensures { into.new.items ≡ body_of payload.now }
{
    into.push(PREAMBLE);
    into.push((payload.len() / 256) as u8);
    into.push((payload.len() % 256) as u8);
    if into.try_extend_from_slice(payload).is_err() {
        unreachable!();
    }
}

// Appends a number of 24 bits in three bytes, most significant first.
fn push_three(number: u64, into: &mut ArrayVec<u8, 1029>)
    requires fits { number < 2 ^ 24 }
    requires room { array_vec_len into.old + 3 ≤ 1029 }
    ensures { into.new.items ≡ into.old.items ++ three_bytes number }
{
    into.push((number / 0x1_0000) as u8);
    into.push((number / 0x100 % 0x100) as u8);
    into.push((number % 0x100) as u8);
}

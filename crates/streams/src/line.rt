//! The line of a frame: the number of its message and the length of its payload.

ghost use Rattle.std.specs.Prelude.{◌≡◌, ◌+◌, ◌≤◌};
ghost use Rattle.std.specs.Prelude.{◌++◌, length, codes, decimal};
ghost use Rattle.arrayvec.specs.ArrayVec.{array_vec_len};
ghost use Rattle.streams.specs.FrameLines.{line_of, number_text};

use arrayvec::ArrayVec;
use framing::Frame;
use itoa::Buffer;

/// A line, which is built in place and takes no memory.
pub type FrameLine = ArrayVec<u8, 96>;

/// The line of a frame: `<number> <length>` and LF. The number is the payload's first 12 bits, the
/// message number (RTCM 10403.3, section 3.4), and `-` if the payload has fewer than two bytes; the
/// length is that of the payload in bytes.
#[tactic(auto, unfolding(crate::specs::FrameLines::line_of))]
pub fn frame_line(frame: &Frame) -> FrameLine
    ensures { result.items ≡ line_of frame.now }
{
    let payload = frame.payload();
    let mut line = FrameLine::new();
    append_number(&mut line, payload);
    append(&mut line, b" ");
    append_decimal(&mut line, payload.len());
    append(&mut line, b"\n");
    line
}

// Appends the number of the message, or a dash.
fn append_number(line: &mut FrameLine, payload: &[u8])
    requires { array_vec_len line.old ≤ 40 }
    ensures items { line.new.items ≡ line.old.items ++ number_text payload.now }
    ensures short { array_vec_len line.new ≤ array_vec_len line.old + 40 }
{
    match payload {
        [first, second, ..] => {
            append_decimal(line, *first as usize * 16 + *second as usize / 16);
        }
        _ => append(line, b"-"),
    }
}

// Appends the decimal digits of a number.
fn append_decimal(line: &mut FrameLine, number: usize)
    requires { array_vec_len line.old ≤ 56 }
    ensures items { line.new.items ≡ line.old.items ++ decimal number }
    ensures short { array_vec_len line.new ≤ array_vec_len line.old + 40 }
{
    let mut digits = Buffer::new();
    append(line, digits.format(number).as_bytes());
}

// Appends a piece, for which there is room.
fn append(line: &mut FrameLine, piece: &[u8])
    requires { array_vec_len line.old + length piece.now ≤ 96 }
    ensures items { line.new.items ≡ line.old.items ++ piece.now }
    ensures len { array_vec_len line.new ≡ array_vec_len line.old + length piece.now }
{
    if line.try_extend_from_slice(piece).is_err() {
        unreachable!();
    }
}

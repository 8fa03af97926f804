//! CRC registers for the bytes of a window. From the registers before and after a run of bytes its
//! checksum takes the same time for any length.

ghost use Rattle.std.specs.Prelude.{◌≡◌, ℕ, ◌-◌, ◌^◌, ◌<◌};
ghost use Rattle.std.specs.Prelude.{◌≤◌, List, length, take, drop};
ghost use Rattle.arrayvec.specs.ArrayVec.{array_vec_len};
ghost use Rattle.nav_bits.specs.Register.{crc_from};
ghost use Rattle.framing.specs.Frames.{is_right};
ghost use Rattle.framing.specs.States.{AreStates};

use crate::body_mover::BodyMover;
use arrayvec::ArrayVec;
use byteorder::{BigEndian, ByteOrder};
use nav_bits::with_byte;

// Computes the registers up to the one before offset `end`.
pub fn extend(bytes: &[u8], states: &mut ArrayVec<u32, 4097>, end: usize)
    requires states { AreStates bytes.now states.old.items }
    requires inside { end ≤ length bytes.now }
    requires room { length bytes.now ≤ 4096 }
    ensures states { AreStates bytes.now states.new.items }
    ensures reaches { end < array_vec_len states.new }
{
    let reached = states.len() - 1;
    let mut state = states.as_slice()[reached];
    for place in reached..end {
        state = with_byte(state, bytes[place]);
        states.push(state);
    }
}

// Removes the registers of the first `count` bytes.
pub fn cut_states(states: &mut ArrayVec<u32, 4097>, count: usize)
    ensures { (bytes : List ℕ) → AreStates bytes states.old.items →
        AreStates (drop count bytes) states.new.items }
{
    if count < states.len() {
        cut_prefix(states, count);
    } else {
        begin_states(states);
    }
}

// Removes the first `count` registers.
fn cut_prefix(states: &mut ArrayVec<u32, 4097>, count: usize)
    requires { count ≤ array_vec_len states.old }
    ensures { states.new.items ≡ drop count states.old.items }
{
    states.drain(..count);
}

// Leaves one register, the initial one.
pub fn begin_states(states: &mut ArrayVec<u32, 4097>)
    ensures { (bytes : List ℕ) → AreStates bytes states.new.items }
{
    states.clear();
    states.push(0);
}

// Whether the last three bytes are the checksum of those before them, from the registers before and
// after the latter.
#[tactic(auto, unfolding(crate::specs::Frames::is_right))]
pub fn has_right_checksum_by(mover: &mut BodyMover, before: u32, after: u32, frame: &[u8]) -> bool
    requires before { before < 2 ^ 24 }
    requires after { after ≡ crc_from before (take (length frame.now - 3) frame.now) }
    requires shortest { 3 ≤ length frame.now }
    requires longest { length frame.now ≤ 1029 }
    ensures { result ≡ is_right frame.now }
{
    let end = frame.len() - 3;
    after ^ mover.moved(before, end) == BigEndian::read_u24(&frame[end..])
}

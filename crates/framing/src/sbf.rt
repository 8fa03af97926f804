//! SBF as a format.

ghost use Rattle.std.specs.Prelude.{◌≡◌, ◌+◌, ◌≤◌, List};
ghost use Rattle.std.specs.Prelude.{ℕ, length, take, drop, slice_index};
ghost use Rattle.framing.specs.SbfForm.{announced, may_be as is_length, sbf};
ghost use Rattle.framing.specs.SbfFormLaws.{sbf_is_heading, sbf_is_short};
ghost use Rattle.framing.specs.SbfStates.{AreStates};
ghost use Rattle.framing.specs.SbfStateLaws.{states_stay};

use crate::sbf_states::{
    Powers, begin_states, cut_states, extend, has_right_crc, has_right_crc_by,
};
use crate::{Judge, MessageDeframer};
use arrayvec::ArrayVec;

/// Finds SBF blocks in bytes that come in pieces.
pub type SbfDeframer = MessageDeframer<SbfJudge>;

/// Checks SBF blocks.
///
/// Once a block has failed its CRC, keeps the CRC register after each byte up to its end, so that
/// no byte is processed twice; valid blocks need none.
#[derive(Drop)]
pub struct SbfJudge {
    // the CRC register before each byte read so far, from an arbitrary start
    states: ArrayVec<u16, 98_305>,
    powers: Powers,
}

impl Judge for SbfJudge {
    ghost heading = { sbf };

    ghost IsBeside = { λ judge bytes. AreStates bytes judge.states.items };

    fn first() -> u8 {
        0x24
    }

    fn new() -> Self {
        let mut states = ArrayVec::new();
        begin_states(&mut states);
        SbfJudge {
            states,
            powers: Powers::new(),
        }
    }

    #[tactic(auto, unfolding(crate::specs::Syncs::begins_by))]
    fn begins(bytes: &[u8]) -> bool {
        if bytes.is_empty() {
            return true;
        }
        bytes[0] == 0x24
            && (bytes.len() < 2 || (bytes[1] == 0x40 && (bytes.len() < 8 || may_be(told(bytes)))))
    }

    #[tactic(auto, unfolding(crate::specs::Syncs::wanted_by))]
    fn wanted(bytes: &[u8]) -> usize {
        if bytes.is_empty() {
            1
        } else if bytes.len() < 2 {
            2
        } else if bytes.len() < 8 {
            8
        } else {
            told(bytes).max(8)
        }
    }

    fn is_right(&mut self, bytes: &[u8], place: usize, size: usize) -> bool {
        if self.states.len() - 1 <= place && has_right_crc(&bytes[place..place + size]) {
            return true;
        }
        extend(bytes, &mut self.states, place + size);
        has_right_crc_by(self.states.as_slice(), &mut self.powers, bytes, place, size)
    }

    fn cut_prefix(&mut self, count: usize) {
        cut_states(&mut self.states, count);
    }

    ghost is_heading = { sbf_is_heading };

    ghost is_short = { sbf_is_short };

    ghost stays = { λ judge xs ys. states_stay xs ys judge.states.items };
}

// The block length in this header.
fn told(bytes: &[u8]) -> usize
    requires { 8 ≤ length bytes.now }
    ensures { result ≡ announced bytes.now }
{
    bytes[7] as usize * 256 + bytes[6] as usize
}

// Whether a block can have this length.
fn may_be(length: usize) -> bool
    ensures { result ≡ is_length length }
{
    length >= 8 && length % 4 == 0
}

//! UBX as a format.

ghost use Rattle.std.specs.Prelude.{◌≡◌, ◌+◌, ◌≤◌, List};
ghost use Rattle.std.specs.Prelude.{ℕ, length, take, drop, slice_index};
ghost use Rattle.framing.specs.UbxForm.{announced, ubx};
ghost use Rattle.framing.specs.UbxFormLaws.{ubx_is_heading, ubx_is_short};
ghost use Rattle.framing.specs.UbxSums.{AreSums};
ghost use Rattle.framing.specs.UbxSumLaws.{sums_stay};

use crate::ubx_sums::{begin_sums, cut_sums, extend, has_right_sums, has_right_sums_by};
use crate::{Judge, MessageDeframer};
use arrayvec::ArrayVec;

/// Finds UBX messages in bytes that come in pieces.
pub type UbxDeframer = MessageDeframer<UbxJudge>;

/// Checks UBX messages.
///
/// Once a message has failed its checksum, keeps the running sums of the bytes up to its end, so
/// that no byte is summed twice; valid messages need none.
#[derive(Drop)]
pub struct UbxJudge {
    // CK_A before each byte read so far, from an arbitrary start
    sums: ArrayVec<u8, 98_305>,
    // CK_B at the same offsets
    runs: ArrayVec<u8, 98_305>,
}

impl Judge for UbxJudge {
    ghost heading = { ubx };

    ghost IsBeside = { λ judge bytes. AreSums bytes judge.sums.items judge.runs.items };

    fn first() -> u8 {
        0xB5
    }

    fn new() -> Self {
        let mut sums = ArrayVec::new();
        let mut runs = ArrayVec::new();
        begin_sums(&mut sums, &mut runs);
        UbxJudge { sums, runs }
    }

    #[tactic(auto, unfolding(crate::specs::Syncs::begins_by))]
    fn begins(bytes: &[u8]) -> bool {
        bytes.is_empty() || (bytes[0] == 0xB5 && (bytes.len() < 2 || bytes[1] == 0x62))
    }

    #[tactic(auto, unfolding(crate::specs::Syncs::wanted_by))]
    fn wanted(bytes: &[u8]) -> usize {
        if bytes.is_empty() {
            1
        } else if bytes.len() < 2 {
            2
        } else if bytes.len() < 6 {
            6
        } else {
            announced_size(bytes)
        }
    }

    fn is_right(&mut self, bytes: &[u8], place: usize, size: usize) -> bool {
        if self.sums.len() - 1 <= place && has_right_sums(&bytes[place..place + size]) {
            return true;
        }
        extend(bytes, &mut self.sums, &mut self.runs, place + size - 2);
        has_right_sums_by(
            self.sums.as_slice(),
            self.runs.as_slice(),
            bytes,
            place,
            size,
        )
    }

    fn cut_prefix(&mut self, count: usize) {
        cut_sums(&mut self.sums, &mut self.runs, count);
    }

    ghost is_heading = { ubx_is_heading };

    ghost is_short = { ubx_is_short };

    ghost stays = { λ judge xs ys. sums_stay xs ys judge.sums.items judge.runs.items };
}

// The size of the message with this header.
fn announced_size(bytes: &[u8]) -> usize
    requires { 6 ≤ length bytes.now }
    ensures { result ≡ announced bytes.now }
{
    bytes[5] as usize * 256 + bytes[4] as usize + 8
}

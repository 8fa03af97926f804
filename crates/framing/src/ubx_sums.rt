//! Checksums of messages: of one message, and from running sums of all bytes.

ghost use Rattle.std.specs.Prelude.{◌≡◌, ℕ, ◌+◌, ◌-◌, ◌%◌, ◌^◌};
ghost use Rattle.std.specs.Prelude.{◌<◌, ◌≤◌, ◌==◌, ◌&&◌, List};
ghost use Rattle.std.specs.Prelude.{length, take, drop};
ghost use Rattle.arrayvec.specs.ArrayVec.{array_vec_len};
ghost use Rattle.framing.specs.UbxForm.{total, running, has_right_sums as are_right};
ghost use Rattle.framing.specs.UbxSums.{AreSums};

use crate::ubx_blocks::sums_by_16;
use arrayvec::ArrayVec;

// CK_A and CK_B of the bytes, before reduction modulo 256.
pub fn sums_of(bytes: &[u8]) -> (u64, u64)
    requires { length bytes.now ≤ 98304 }
    ensures sum { result.0 ≡ total bytes.now }
    ensures running { result.1 ≡ running 0 bytes.now }
{
    let (mut total, mut run) = sums_by_16(bytes);
    for place in 16 * (bytes.len() / 16)..bytes.len() {
        total += u64::from(bytes[place]);
        run += total;
    }
    (total, run)
}

// Whether the last two bytes are the checksum of those after the sync bytes.
#[tactic(auto, unfolding(crate::specs::UbxForm::has_right_sums))]
pub fn has_right_sums(message: &[u8]) -> bool
    requires shortest { 8 ≤ length message.now }
    requires longest { length message.now ≤ 98304 }
    ensures { result ≡ are_right message.now }
{
    let end = message.len() - 2;
    let (total, run) = sums_of(&message[2..end]);
    total % 256 == u64::from(message[end]) && run % 256 == u64::from(message[end + 1])
}

// Extends the running sums to those before offset `end`.
pub fn extend(
    bytes: &[u8],
    sums: &mut ArrayVec<u8, 98_305>,
    runs: &mut ArrayVec<u8, 98_305>,
    end: usize,
)
    requires sums { AreSums bytes.now sums.old.items runs.old.items }
    requires inside { end ≤ length bytes.now }
    requires room { length bytes.now ≤ 98304 }
    ensures sums { AreSums bytes.now sums.new.items runs.new.items }
    ensures reaches { end < array_vec_len sums.new }
{
    let reached = sums.len() - 1;
    let mut total = u32::from(sums.as_slice()[reached]);
    let mut run = u32::from(runs.as_slice()[reached]);
    for place in reached..end {
        total = (total + u32::from(bytes[place])) % 256;
        run = (run + total) % 256;
        sums.push(total as u8);
        runs.push(run as u8);
    }
}

// Whether the last two bytes of the message at offset `place` are its checksum, by the running
// sums.
pub fn has_right_sums_by(sums: &[u8], runs: &[u8], bytes: &[u8], place: usize, size: usize) -> bool
    requires sums { AreSums bytes.now sums.now runs.now }
    requires shortest { 8 ≤ size }
    requires longest { size ≤ 65543 }
    requires inside { place + size ≤ length bytes.now }
    requires reached { place + size - 2 < length sums.now }
    ensures { result ≡ are_right (take size (drop place bytes.now)) }
{
    let end = place + size - 2;
    let before = u64::from(sums[place + 2]);
    let run_before = u64::from(runs[place + 2]);
    let rest = u64::from(sums[end]);
    let run_rest = u64::from(runs[end]);
    let run = run_before + (size as u64 - 4) * before;
    both_fit(
        before + u64::from(bytes[end]),
        rest,
        run + u64::from(bytes[end + 1]),
        run_rest,
    )
}

// Whether both sums agree modulo 256.
fn both_fit(total: u64, rest: u64, run: u64, run_rest: u64) -> bool
    ensures { result ≡ (total % 256 == rest && run % 256 == run_rest) }
{
    total % 256 == rest && run % 256 == run_rest
}

// Removes the running sums of the first `count` bytes.
pub fn cut_sums(sums: &mut ArrayVec<u8, 98_305>, runs: &mut ArrayVec<u8, 98_305>, count: usize)
    ensures { (bytes : List ℕ) → AreSums bytes sums.old.items runs.old.items
        → AreSums (drop count bytes) sums.new.items runs.new.items }
{
    if count < sums.len() && count < runs.len() {
        cut_prefix(sums, count);
        cut_prefix(runs, count);
    } else {
        begin_sums(sums, runs);
    }
}

// Removes the first `count` sums.
fn cut_prefix(sums: &mut ArrayVec<u8, 98_305>, count: usize)
    requires { count ≤ array_vec_len sums.old }
    ensures { sums.new.items ≡ drop count sums.old.items }
{
    sums.drain(..count);
}

// Starts the running sums anew: only those before the first byte, 0.
pub fn begin_sums(sums: &mut ArrayVec<u8, 98_305>, runs: &mut ArrayVec<u8, 98_305>)
    ensures { (bytes : List ℕ) → AreSums bytes sums.new.items runs.new.items }
{
    sums.clear();
    sums.push(0);
    runs.clear();
    runs.push(0);
}

//! Checksums of blocks of bytes, by vectors.

ghost use Rattle.std.specs.Prelude.{◌≡◌, ◌+◌, ◌*◌, ◌/◌, ◌≤◌};
ghost use Rattle.std.specs.Prelude.{length, take, drop};
ghost use Rattle.framing.specs.UbxForm.{total, running};

use std::simd::prelude::*;

// How often a byte of a block is in the running sums of the block.
const TURNS_16: [u8; 16] = [16, 15, 14, 13, 12, 11, 10, 9, 8, 7, 6, 5, 4, 3, 2, 1];

const TURNS_64: [u8; 64] = [
    64, 63, 62, 61, 60, 59, 58, 57, 56, 55, 54, 53, 52, 51, 50, 49, 48, 47, 46, 45, 44, 43, 42, 41,
    40, 39, 38, 37, 36, 35, 34, 33, 32, 31, 30, 29, 28, 27, 26, 25, 24, 23, 22, 21, 20, 19, 18, 17,
    16, 15, 14, 13, 12, 11, 10, 9, 8, 7, 6, 5, 4, 3, 2, 1,
];

// The sum of the 16 bytes from offset `at`, and the sum of their running sums.
fn sums_of_16(bytes: &[u8], at: usize) -> (u64, u64)
    requires { at + 16 ≤ length bytes.now }
    ensures sum { result.0 ≡ total (take 16 (drop at bytes.now)) }
    ensures running { result.1 ≡ running 0 (take 16 (drop at bytes.now)) }
{
    let block = u8x16::from_slice(&bytes[at..]);
    let total = block.dot4(u8x16::splat(1)).strict_reduce_sum();
    let run = block.dot4(u8x16::from_array(TURNS_16)).strict_reduce_sum();
    (u64::from(total), u64::from(run))
}

// The same of 64 bytes.
fn sums_of_64(bytes: &[u8], at: usize) -> (u64, u64)
    requires { at + 64 ≤ length bytes.now }
    ensures sum { result.0 ≡ total (take 64 (drop at bytes.now)) }
    ensures running { result.1 ≡ running 0 (take 64 (drop at bytes.now)) }
{
    let block = u8x64::from_slice(&bytes[at..]);
    let total = block.dot4(u8x64::splat(1)).strict_reduce_sum();
    let run = block.dot4(u8x64::from_array(TURNS_64)).strict_reduce_sum();
    (u64::from(total), u64::from(run))
}

// The sums of the bytes that are taken by 64.
fn sums_by_64(bytes: &[u8]) -> (u64, u64)
    requires { length bytes.now ≤ 98304 }
    ensures sum { result.0 ≡ total (take (64 * (length bytes.now / 64)) bytes.now) }
    ensures running { result.1 ≡ running 0 (take (64 * (length bytes.now / 64)) bytes.now) }
{
    let mut total: u64 = 0;
    let mut run: u64 = 0;
    for i in 0..bytes.len() / 64 {
        let (sum, block_run) = sums_of_64(bytes, 64 * i);
        run += 64 * total + block_run;
        total += sum;
    }
    (total, run)
}

// The sums of the bytes that are taken by 64 and by 16.
pub fn sums_by_16(bytes: &[u8]) -> (u64, u64)
    requires { length bytes.now ≤ 98304 }
    ensures sum { result.0 ≡ total (take (16 * (length bytes.now / 16)) bytes.now) }
    ensures running { result.1 ≡ running 0 (take (16 * (length bytes.now / 16)) bytes.now) }
{
    let (mut total, mut run) = sums_by_64(bytes);
    for i in 4 * (bytes.len() / 64)..bytes.len() / 16 {
        let (sum, block_run) = sums_of_16(bytes, 16 * i);
        run += 16 * total + block_run;
        total += sum;
    }
    (total, run)
}

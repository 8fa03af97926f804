//! Page parts as keys of a tree, by time tag, satellite, signal, CRC remainder (equal for
//! partners), kind, and bits. So the partners of a page part are adjacent.

ghost use Rattle.std.specs.Prelude.{◌≡◌, ℕ, ◌+◌, ◌*◌, ◌^◌, ◌<◌};
ghost use Rattle.std.specs.Prelude.{◌≤◌, ◌⊎◌, ◌↔◌, length, map, Contains};
ghost use Rattle.std.specs.Prelude.{IfOk, IsTrue, OnErr, OnOk};
ghost use Rattle.std.specs.List.Sorted.{IsStrictlySortedBy};
ghost use Rattle.inav.specs.Mirrors.{bucket_of, end_of_partners, first_partner, key_at};
ghost use Rattle.inav.specs.Mirrors.{key_cmp, words_in_bucket};

use crate::half::{Half, HalfKind, ODD};
use crate::page::{remainder, word_of_two};
use nav_bits::Bits;
use std::alloc::{AllocError, Global};
use std::collections::BTreeSet;
use std::ops::Range;

// The bucket of a page part (the number of its stamp, satellite and signal, followed by its CRC
// remainder), and its bits.
pub(crate) type PageKey = (u64, u128);

// The bucket of a stamp, the number of a satellite and signal, and a CRC remainder.
pub(crate) fn bucket(stamp: u32, lane: u64, remainder: u64) -> u64
    requires lane { lane < 256 }
    requires remainder { remainder < 2 ^ 24 }
    ensures same { result ≡ bucket_of (stamp * 128 + lane) remainder }
    ensures fits { lane < 128 → result < 2 ^ 63 }
{
    (u64::from(stamp) * 128 + lane) * 0x100_0000 + remainder
}

// The key of the page part with this number in the second of a stamp.
pub(crate) fn key_of(stamp: u32, number: u128) -> PageKey
    ensures { result ≡ key_at stamp number }
{
    let lane = (number / (1 << 120)) as u64;
    let bits = number % (1 << 120);
    (bucket(stamp, lane, remainder(bits)), bits)
}

// Inserts a key, and says whether it was there.
pub(crate) fn put_key(keys: &mut BTreeSet<PageKey>, key: PageKey) -> Result<bool, AllocError>
    ensures there { IfOk result (λ there. IsTrue there ↔ Contains keys.old.keys key) }
    ensures keys { OnOk result ((other : ℕ × ℕ) → Contains keys.new.keys other ↔
        (Contains keys.old.keys other ⊎ (key ≡ other))) }
    ensures room { OnOk result (length keys.new.keys ≤ length keys.old.keys + 1) }
    ensures err { OnErr result (keys.new.keys ≡ keys.old.keys) }
{
    let added = keys.insert(key)?;
    Ok(!added)
}

// The keys of the page parts with these numbers, in a tree.
pub(crate) fn tree_of(
    alloc: Global,
    stamp: u32,
    numbers: &[u128],
) -> Result<BTreeSet<PageKey>, AllocError>
    ensures keys { IfOk result (λ keys. (other : ℕ × ℕ) → Contains keys.keys other ↔
        Contains (map (key_at stamp) numbers.now) other) }
    ensures room { IfOk result (λ keys. length keys.keys ≤ length numbers.now) }
{
    let mut keys = BTreeSet::new(alloc);
    for number in numbers {
        put_key(&mut keys, key_of(stamp, *number))?;
    }
    Ok(keys)
}

// The range of the page parts of the other kind in a bucket.
fn others_in(bucket: u64, kind: HalfKind) -> Range<PageKey>
    requires { bucket < 2 ^ 63 }
    ensures start { result.start ≡ first_partner bucket kind }
    ensures end { result.end ≡ end_of_partners bucket kind }
{
    match kind {
        HalfKind::Even => (bucket, ODD)..(bucket + 1, 0),
        HalfKind::Odd => (bucket, 0)..(bucket, ODD),
    }
}

// The words of a page part with those stored in a bucket.
pub(crate) fn words_with(
    alloc: Global,
    kept: &BTreeSet<PageKey>,
    bucket: u64,
    half: &Half,
) -> Result<Vec<Bits<16>>, AllocError>
    requires { bucket < 2 ^ 63 }
    ensures words { IfOk result
        (λ words. words.items ≡ words_in_bucket kept.now.keys bucket half.now) }
    ensures ordered { IsStrictlySortedBy key_cmp kept.now.keys }
{
    let kind = half.kind();
    let number = half.number();
    let mut words = Vec::new(alloc);
    let _length = kept.len();
    for key in kept.range(others_in(bucket, kind)) {
        words.push(word_of_two(kind, number, key.1))?;
    }
    Ok(words)
}

//! Page parts of one second as ascending numbers: satellite and signal, followed by the bits. So
//! those of a satellite and signal are adjacent, its even parts before its odd ones.

ghost use Rattle.std.specs.Prelude.{◌≡◌, ℕ, ◌+◌, ◌^◌, ◌<◌, ◌≤◌};
ghost use Rattle.std.specs.Prelude.{◌⊎◌, ◌↔◌, [], ◌∷◌, length, Contains};
ghost use Rattle.std.specs.Prelude.{slice_index, IfOk, IsTrue, OnErr, OnOk};
ghost use Rattle.nav_eph.specs.declared.sat.System.TheVariants.{Gal};
ghost use Rattle.inav.specs.Pages.{kind_of};
ghost use Rattle.inav.specs.Keeping.{stamped};
ghost use Rattle.inav.specs.Mirrors.{first_number, half_of, key_at, lane_of};
ghost use Rattle.inav.specs.Mirrors.{words_of_numbers, Rises};

use crate::half::{Half, HalfKind, ODD};
use crate::page::{belong_by, word_of_two};
use crate::signal::signal_code;
use nav_bits::Bits;
use nav_eph::Signal;
use std::alloc::{AllocError, Global};

// Above the bits of a page part.
const LANE: u128 = 1 << 120;

// The number of a Galileo satellite number and signal.
pub(crate) fn lane(number: u8, signal: Signal) -> u64
    requires { number < 64 }
    ensures same { result ≡ lane_of number signal }
    ensures fits { result < 128 }
{
    u64::from(number) * 2 + signal_code(signal)
}

// The number of a page part of this satellite and signal.
pub(crate) fn number_in(number: u8, signal: Signal, half: &Half) -> u128
    requires { number < 64 }
    ensures part { (stamp : ℕ) → half_of (key_at stamp result) ≡
        stamped stamp (record { system = Gal; number = number }) signal half.now }
    ensures fits { result < 2 ^ 127 }
{
    u128::from(lane(number, signal)) * LANE + half.number()
}

// The first number of the page parts of the other kind.
pub(crate) fn first_other(lane: u64, kind: HalfKind) -> u128
    requires { lane < 128 }
    ensures same { result ≡ first_number lane kind }
    ensures fits { result < 2 ^ 127 }
{
    match kind {
        HalfKind::Even => u128::from(lane) * LANE + ODD,
        HalfKind::Odd => u128::from(lane) * LANE,
    }
}

// Inserts a number, and says whether it was there.
pub(crate) fn put_number(numbers: &mut Vec<u128>, number: u128) -> Result<bool, AllocError>
    requires { Rises numbers.old.items }
    ensures there { IfOk result (λ there. IsTrue there ↔ Contains numbers.old.items number) }
    ensures numbers { OnOk result ((other : ℕ) → Contains numbers.new.items other ↔
        (Contains numbers.old.items other ⊎ (number ≡ other))) }
    ensures room { OnOk result (length numbers.new.items ≤ length numbers.old.items + 1) }
    ensures rises { Rises numbers.new.items }
    ensures err { OnErr result (numbers.new.items ≡ numbers.old.items) }
{
    match numbers.binary_search(&number) {
        Ok(_) => Ok(true),
        Err(place) => {
            numbers.insert(place, number)?;
            Ok(false)
        }
    }
}

// Puts a number in the place of all others, whose room stays.
pub(crate) fn only(numbers: &mut Vec<u128>, number: u128) -> Result<(), AllocError>
    ensures number { OnOk result (numbers.new.items ≡ number ∷ []) }
    ensures err { OnErr result (numbers.new.items ≡ numbers.old.items) }
{
    if numbers.is_empty() {
        numbers.push(number)?;
        return Ok(());
    }
    numbers.truncate(1);
    numbers[0] = number;
    Ok(())
}

// How many numbers are below this one.
fn count_below(numbers: &[u128], first: u128) -> usize
    requires { Rises numbers.now }
    ensures fits { result ≤ length numbers.now }
    ensures below { (k : ℕ) → k < result → slice_index numbers.now k < first }
    ensures above { (k : ℕ) → result ≤ k → k < length numbers.now →
        first ≤ slice_index numbers.now k }
{
    match numbers.binary_search(&first) {
        Ok(place) => place,
        Err(place) => place,
    }
}

// The place from this one on at which the numbers are no longer below the end.
fn stop_of(numbers: &[u128], start: usize, end: u128) -> usize
    requires rises { Rises numbers.now }
    requires starts { start ≤ length numbers.now }
    ensures from { start ≤ result }
    ensures fits { result ≤ length numbers.now }
    ensures below { (k : ℕ) → start ≤ k → k < result → slice_index numbers.now k < end }
    ensures above { (k : ℕ) → result ≤ k → k < length numbers.now
        → end ≤ slice_index numbers.now k }
{
    let mut stop = start;
    while stop < numbers.len() {
        if end <= numbers[stop] {
            return stop;
        }
        stop += 1;
    }
    stop
}

// The numbers from the first on that are below the end.
pub(crate) fn between(numbers: &[u128], first: u128, end: u128) -> &[u128]
    requires { Rises numbers.now }
    ensures those { (other : ℕ) → Contains result.now other ↔
        (Contains numbers.now other × (first ≤ other) × (other < end)) }
    ensures rises { Rises result.now }
    ensures fewer { length result.now ≤ length numbers.now }
{
    let start = count_below(numbers, first);
    let stop = stop_of(numbers, start, end);
    &numbers[start..stop]
}

// The words of a page part with those of these numbers with which the CRC is right.
pub(crate) fn words_among(
    alloc: Global,
    numbers: &[u128],
    half: &Half,
) -> Result<Vec<Bits<16>>, AllocError>
    ensures { IfOk result (λ words. words.items ≡
        words_of_numbers (kind_of half.now) half.now numbers.now) }
{
    let kind = half.kind();
    let own = half.number();
    let mut words = Vec::new(alloc);
    for number in numbers {
        let other = *number % LANE;
        if belong_by(kind, own, other) {
            words.push(word_of_two(kind, own, other))?;
        }
    }
    Ok(words)
}

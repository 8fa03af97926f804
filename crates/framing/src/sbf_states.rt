//! CRC registers after each byte: from those before and after a range of bytes, the CRC of the
//! range takes constant time.

ghost use Rattle.std.specs.Prelude.{◌≡◌, ℕ, ◌+◌, ◌*◌, ◌%◌, ◌^◌};
ghost use Rattle.std.specs.Prelude.{◌<◌, ◌≤◌, List, length, take, drop};
ghost use Rattle.arrayvec.specs.ArrayVec.{array_vec_len};
ghost use Rattle.framing.specs.SbfRegister.{shift};
ghost use Rattle.framing.specs.SbfForm.{has_right_crc as is_right};
ghost use Rattle.framing.specs.SbfStates.{AreStates, ArePowers};

use crate::sbf_register::{crc_of, moved_by, with_byte};
use arrayvec::ArrayVec;
use std::marker::Model;

// Whether the two bytes after the sync bytes are the CRC of all bytes after them.
#[tactic(auto, unfolding(crate::specs::SbfForm::has_right_crc))]
pub fn has_right_crc(block: &[u8]) -> bool
    requires { 8 ≤ length block.now }
    ensures { result ≡ is_right block.now }
{
    crc_of(&block[4..]) == u32::from(block[3]) * 256 + u32::from(block[2])
}

// Extends the registers to the one before offset `end`.
pub fn extend(bytes: &[u8], states: &mut ArrayVec<u16, 98_305>, end: usize)
    requires states { AreStates bytes.now states.old.items }
    requires inside { end ≤ length bytes.now }
    requires room { length bytes.now ≤ 98304 }
    ensures states { AreStates bytes.now states.new.items }
    ensures reaches { end < array_vec_len states.new }
{
    let reached = states.len() - 1;
    let mut state = u32::from(states.as_slice()[reached]);
    for place in reached..end {
        state = with_byte(state, bytes[place]);
        states.push(state as u16);
    }
}

// Whether the block at offset `place` has the right CRC, by the registers.
pub fn has_right_crc_by(
    states: &[u16],
    powers: &mut Powers,
    bytes: &[u8],
    place: usize,
    size: usize,
) -> bool
    requires states { AreStates bytes.now states.now }
    requires shortest { 8 ≤ size }
    requires longest { size ≤ 65535 }
    requires fours { size % 4 ≡ 0 }
    requires inside { place + size ≤ length bytes.now }
    requires reached { place + size < length states.now }
    ensures { result ≡ is_right (take size (drop place bytes.now)) }
{
    let before = u32::from(states[place + 4]);
    let after = u32::from(states[place + size]);
    let crc = u32::from(bytes[place + 3]) * 256 + u32::from(bytes[place + 2]);
    after ^ moved_by(before, powers.power(size / 4 - 1)) == crc
}

// Removes the registers of the first `count` bytes.
pub fn cut_states(states: &mut ArrayVec<u16, 98_305>, count: usize)
    ensures { (bytes : List ℕ) → AreStates bytes states.old.items
        → AreStates (drop count bytes) states.new.items }
{
    if count < states.len() {
        cut_prefix(states, count);
    } else {
        begin_states(states);
    }
}

// Removes the first `count` registers.
fn cut_prefix(states: &mut ArrayVec<u16, 98_305>, count: usize)
    requires { count ≤ array_vec_len states.old }
    ensures { states.new.items ≡ drop count states.old.items }
{
    states.drain(..count);
}

// Starts anew: only the register before the first byte, 0.
pub fn begin_states(states: &mut ArrayVec<u16, 98_305>)
    ensures { (bytes : List ℕ) → AreStates bytes states.new.items }
{
    states.clear();
    states.push(0);
}

// x^(32 k) modulo the generator, for k from 0 as far as asked for: k times four zero bytes.
#[derive(Drop)]
pub struct Powers {
    powers: ArrayVec<u16, 16_384>,
}

impl Model for Powers {
    ghost use Rattle.std.specs.Prelude.{List, ℕ};
    ghost use Rattle.framing.specs.SbfStates.{ArePowers};

    ghost Value = { List ℕ };

    ghost view = { λ p. p.powers.items };

    ghost invariant = { λ p. ArePowers p.powers.items };
}

impl Powers {
    ghost use Rattle.std.specs.Prelude.{◌≡◌, ◌∷◌, []};

    // Holds x^0 only.
    pub fn new() -> Self
        ensures { result ≡ 1 ∷ [] }
    {
        let mut powers = ArrayVec::new();
        powers.push(1);
        Powers { powers }
    }

    // x^(32 x `count`) modulo the generator.
    pub fn power(&mut self, count: usize) -> u32
        requires { count < 16384 }
        ensures value { result ≡ shift (32 * count) 1 }
        ensures fits { result < 2 ^ 16 }
    {
        grow(&mut self.powers, count);
        u32::from(self.powers.as_slice()[count])
    }
}

// The register after four zero bytes.
fn with_four_zeros(state: u32) -> u32
    requires { state < 2 ^ 16 }
    ensures value { result ≡ shift 32 state }
    ensures fits { result < 2 ^ 16 }
{
    with_byte(with_byte(with_byte(with_byte(state, 0), 0), 0), 0)
}

// Extends the powers to that of `count`.
fn grow(powers: &mut ArrayVec<u16, 16_384>, count: usize)
    requires powers { ArePowers powers.old.items }
    requires count { count < 16384 }
    ensures powers { ArePowers powers.new.items }
    ensures reaches { count < array_vec_len powers.new }
{
    let reached = powers.len() - 1;
    let mut power = u32::from(powers.as_slice()[reached]);
    for _next in reached..count {
        power = with_four_zeros(power);
        powers.push(power as u16);
    }
}

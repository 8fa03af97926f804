//! The generator of pseudo-random numbers.

ghost use Rattle.std.specs.Prelude.{◌≡◌, ◌-◌, ◌/◌, ◌^◌, ◌≤◌};
ghost use Rattle.nav_bits.specs.Signed.{signed_of};
ghost use Rattle.sent_captures.specs.Draws.{next};

use nav_bits::{S, U};

// The multiplier and increment of the generator (Knuth's MMIX).
const FACTOR: u64 = 6_364_136_223_846_793_005;

const ADDEND: u64 = 1_442_695_040_888_963_407;

// The next state.
#[tactic(auto, unfolding(crate::specs::Draws::next))]
fn next_state(state: u64) -> u64
    ensures { result ≡ next state }
{
    state.wrapping_mul(FACTOR).wrapping_add(ADDEND)
}

// Draws an unsigned number of `W` bits.
pub(crate) fn draw<const W: u32>(state: &mut u64) -> U<W>
    requires some { 1 ≤ W }
    requires most { W ≤ 64 }
    ensures value { result ≡ next state.old / 2 ^ (64 - W) }
    ensures after { state.new ≡ next state.old }
{
    *state = next_state(*state);
    U::from_bits(*state >> (64 - W))
}

// Draws a number of `W` bits in two's complement.
pub(crate) fn draw_signed<const W: u32>(state: &mut u64) -> S<W>
    requires some { 1 ≤ W }
    requires most { W ≤ 64 }
    ensures value { result ≡ signed_of W (next state.old / 2 ^ (64 - W)) }
    ensures after { state.new ≡ next state.old }
{
    S::from_bits(draw::<W>(state).value())
}

//! A set of messages that were given, looked up by a hash.

ghost use Rattle.std.specs.Prelude.{◌≡◌, ℕ, ◌+◌, ◌*◌, ◌^◌};
ghost use Rattle.std.specs.Prelude.{◌<◌, ◌≤◌, List, Option, None, Some};
ghost use Rattle.std.specs.Prelude.{IfOk, OnOk, false, not};
ghost use Rattle.streams.specs.Mirrors.{AddsKey, AddsOnce, first_of, has_key, hash_of};
ghost use Rattle.streams.specs.Mirrors.{hash_with};

use nav_bits::Bits;
use std::alloc::{AllocError, Global};
use std::collections::{BTreeMap, BTreeSet};
use std::marker::Model;

// The odd multiplier of the hash.
const FACTOR: u64 = 0x9e37_79b9_7f4a_7c15;

// The hash with the eight bytes more that begin at the bit offset `at`.
fn hash_with<const N: usize>(hash: u64, message: &Bits<N>, at: usize) -> u64
    requires inside { at + 64 ≤ 8 * N }
    ensures { result ≡ hash_with hash message.now at }
{
    hash.wrapping_mul(FACTOR) ^ message.get(at, 64)
}

// A 64-bit hash of the first 61 bytes of a message: collisions are rare.
#[tactic(auto, unfolding(crate::specs::Mirrors::hash_of))]
fn hash<const N: usize>(message: &Bits<N>) -> u64
    requires long { 61 ≤ N }
    ensures { result ≡ hash_of message.now }
{
    let hash = hash_with(0, message, 0);
    let hash = hash_with(hash, message, 64);
    let hash = hash_with(hash, message, 128);
    let hash = hash_with(hash, message, 192);
    let hash = hash_with(hash, message, 256);
    let hash = hash_with(hash, message, 320);
    let hash = hash_with(hash, message, 384);
    hash_with(hash, message, 424)
}

// A set of messages of `N` bytes. They stand in a list, and an ordered map from the hash of a
// message to its index in the list finds it quickly. On a hash collision the later message goes to
// an ordered set.
#[derive(Drop)]
pub(crate) struct Messages<const N: usize> {
    // the index in the list of the first message with a hash
    firsts: BTreeMap<u64, usize, Global>,
    list: Vec<[u8; N], Global>,
    // the messages whose hash an earlier one has
    others: BTreeSet<[u8; N], Global>,
}

impl<const N: usize> Model for Messages<N> {
    ghost use Rattle.std.specs.Prelude.{ℕ, ◌<◌, IfSome, length};
    ghost use Rattle.streams.specs.Mirrors.{MessagesState, place_of_hash};

    ghost Value = { MessagesState };

    ghost view = { λ m. record {
      firsts = m.firsts.entries;
      list = m.list.items;
      others = m.others;
    } };

    ghost invariant = { λ m. (hash : ℕ) →
        IfSome (place_of_hash m.firsts.entries hash) (λ place. place < length m.list.items) };
}

impl<const N: usize> Messages<N> {
    // No message.
    pub(crate) fn new(alloc: Global) -> Messages<N>
        requires small { N < 2 ^ 63 }
        ensures { (other : List ℕ) → has_key result other ≡ false }
    {
        Messages {
            firsts: BTreeMap::new(alloc),
            list: Vec::new(alloc),
            others: BTreeSet::new(alloc),
        }
    }

    // Whether this message is the first with its hash; `None` where no message has that hash.
    fn is_first(&self, hash: u64, message: &[u8; N]) -> Option<bool>
        requires hash { hash ≡ hash_of message.now }
        ensures { result ≡ first_of self.now message.now }
    {
        match self.firsts.get(&hash) {
            Some(place) => Some(self.list[*place].cmp(message).is_eq()),
            None => None,
        }
    }

    // Adds a message whose hash an earlier one has; whether it is new.
    #[tactic(auto, using(crate::proofs::MessageKeys::adds_other))]
    fn add_other(&mut self, message: &[u8; N]) -> Result<bool, AllocError>
        requires apart { first_of self.old message.now ≡ Some false }
        ensures added { IfOk result (λ added. added ≡ not (has_key self.old message.now)) }
        ensures adds { OnOk result (AddsKey self.old self.new message.now) }
        ensures once { IfOk result (AddsOnce self.old self.new) }
    {
        match self.others.insert(*message) {
            Ok(added) => Ok(added),
            Err(_) => Err(AllocError),
        }
    }

    // Adds a message as the first with its hash; whether it is new.
    #[tactic(auto, using(crate::proofs::MessageKeys::adds_none))]
    fn add_first(&mut self, hash: u64, message: &[u8; N]) -> Result<bool, AllocError>
        requires hash { hash ≡ hash_of message.now }
        requires none { first_of self.old message.now ≡ None }
        ensures added { IfOk result (λ added. added ≡ not (has_key self.old message.now)) }
        ensures adds { OnOk result (AddsKey self.old self.new message.now) }
        ensures once { IfOk result (AddsOnce self.old self.new) }
    {
        if self.others.contains(message) {
            return Ok(false);
        }
        let place = self.list.len();
        match self.list.push(*message) {
            Ok(()) => {}
            Err(_) => return Err(AllocError),
        }
        match self.firsts.insert(hash, place) {
            Ok(_) => Ok(true),
            Err(_) => Err(AllocError),
        }
    }

    // Adds a message; whether it is new.
    #[tactic(auto, using(crate::proofs::MessageKeys::adds_none))]
    pub(crate) fn add(&mut self, message: &Bits<N>) -> Result<bool, AllocError>
        requires long { 61 ≤ N }
        ensures added { IfOk result (λ added. added ≡ not (has_key self.old message.now)) }
        ensures adds { OnOk result (AddsKey self.old self.new message.now) }
        ensures once { IfOk result (AddsOnce self.old self.new) }
    {
        let hash = hash(message);
        let message = message.bytes();
        match self.is_first(hash, message) {
            Some(true) => Ok(false),
            Some(false) => self.add_other(message),
            None => self.add_first(hash, message),
        }
    }
}

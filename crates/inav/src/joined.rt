ghost use Rattle.std.specs.Prelude.{◌≡◌, ℕ, ◌<◌, List, [], length, slice_get, Some};

use nav_bits::Bits;
use std::alloc::Global;
use std::marker::Model;

/// The words that a page part makes with its partners, and their time tag.
#[derive(Drop)]
pub struct Joined {
    pub(crate) words: Vec<Bits<16>>,
    pub(crate) stamp: u32,
}

impl Model for Joined {
    ghost use Rattle.inav.specs.Keeping.{Words};

    ghost Value = { Words };

    ghost view = { λ j. record { words = j.words.items; stamp = j.stamp } };
}

impl Joined {
    // These words with that stamp.
    pub(crate) fn new(words: Vec<Bits<16>>, stamp: u32) -> Joined
        ensures words { result.words ≡ words.items }
        ensures stamp { result.stamp ≡ stamp }
    {
        Joined { words, stamp }
    }

    // Without words.
    pub(crate) fn none(alloc: Global) -> Joined
        ensures { result.words ≡ [] }
    {
        Joined::new(Vec::new(alloc), 0)
    }

    /// The number of words.
    pub fn len(&self) -> usize
        ensures { result ≡ length self.now.words }
    {
        self.words.len()
    }

    /// The word at an index from 0, 128 bits.
    pub fn word(&self, i: usize) -> &Bits<16>
        requires { i < length self.now.words }
        ensures { slice_get self.now.words i ≡ Some result.now }
    {
        &self.words[i]
    }

    /// The time tag at which the odd part of the words was received, in seconds; of no meaning
    /// without words.
    pub fn stamp(&self) -> u32
        ensures { result ≡ self.now.stamp }
    {
        self.stamp
    }
}

//! The page parts of one second: ascending numbers in a `Vec` while they are at most [`FEW`], keys
//! of a tree once there were more.

ghost use Rattle.std.specs.Prelude.{◌≡◌, ℕ, ◌+◌, ◌<◌, ◌≤◌, ◌⊎◌};
ghost use Rattle.std.specs.Prelude.{◌↔◌, [], length, Contains, IfOk, IsTrue};
ghost use Rattle.std.specs.Prelude.{OnErr, OnOk};
ghost use Rattle.inav.specs.Mirrors.{key_at, place_of, AreKeys, AreWordsIn};
ghost use Rattle.inav.specs.Kept.{keys_of};

use crate::half::{Half, ODD};
use crate::keys::{PageKey, bucket, key_of, put_key, tree_of, words_with};
use crate::numbers::{between, first_other, lane, only, put_number, words_among};
use crate::page::remainder;
use nav_bits::Bits;
use nav_eph::Signal;
use std::alloc::{AllocError, Global};
use std::collections::BTreeSet;
use std::marker::Model;

// The most page parts that stand as numbers: those of 36 satellites on two signals, one each.
const FEW: usize = 72;

// The page parts of one second.
#[derive(Drop)]
pub(crate) struct Second {
    stamp: u32,
    // All of them, while they are few.
    few: Vec<u128>,
    // All of them, once they were more; empty before.
    many: BTreeSet<PageKey>,
}

impl Model for Second {
    ghost use Rattle.std.specs.Prelude.{◌≡◌, ◌⊎◌, []};
    ghost use Rattle.inav.specs.Mirrors.{keys_shown, KeysOfSecond, Rises};

    ghost Value = { KeysOfSecond };

    ghost view = { λ s. record { stamp = s.stamp; keys = keys_shown s.stamp s.few.items s.many.keys } };

    ghost invariant = { λ s. Rises s.few.items × ((s.few.items ≡ []) ⊎ (s.many.keys ≡ [])) };
}

impl Second {
    // Without page parts; nothing is allocated.
    pub(crate) fn new(alloc: Global) -> Second
        ensures { result.keys ≡ [] }
    {
        Second {
            stamp: 0,
            few: Vec::new(alloc),
            many: BTreeSet::new(alloc),
        }
    }

    // Its stamp.
    pub(crate) fn stamp(&self) -> u32
        ensures { result ≡ self.now.stamp }
    {
        self.stamp
    }

    // Inserts a page part, and says whether it was there.
    fn add(&mut self, alloc: Global, number: u128) -> Result<bool, AllocError>
        ensures there { IfOk result (λ there.
            IsTrue there ↔ Contains self.old.keys (key_at self.old.stamp number)) }
        ensures stamp { self.new.stamp ≡ self.old.stamp }
        ensures keys { OnOk result ((other : ℕ × ℕ) → Contains self.new.keys other ↔
            (Contains self.old.keys other ⊎ (key_at self.old.stamp number ≡ other))) }
        ensures room { OnOk result (length self.new.keys ≤ length self.old.keys + 1) }
        ensures err { OnErr result (self.new ≡ self.old) }
    {
        if self.many.len() != 0 {
            return put_key(&mut self.many, key_of(self.stamp, number));
        }
        if self.few.len() < FEW {
            return put_number(&mut self.few, number);
        }
        let mut keys = tree_of(alloc, self.stamp, &self.few)?;
        let there = put_key(&mut keys, key_of(self.stamp, number))?;
        self.few = Vec::new(alloc);
        self.many = keys;
        Ok(there)
    }

    // Inserts a page part of that stamp, and says whether it was there; those of another stamp are
    // removed first.
    pub(crate) fn put(
        &mut self,
        alloc: Global,
        stamp: u32,
        number: u128,
    ) -> Result<bool, AllocError>
        ensures there { IfOk result (λ there.
            IsTrue there ↔ Contains (keys_of stamp self.old) (key_at stamp number)) }
        ensures stamp { OnOk result (self.new.stamp ≡ stamp) }
        ensures keys { OnOk result ((other : ℕ × ℕ) → Contains self.new.keys other ↔
            (Contains (keys_of stamp self.old) other ⊎ (key_at stamp number ≡ other))) }
        ensures room { OnOk result
            (length self.new.keys ≤ length (keys_of stamp self.old) + 1) }
        ensures err { OnErr result (self.new ≡ self.old) }
    {
        if self.stamp == stamp {
            return self.add(alloc, number);
        }
        only(&mut self.few, number)?;
        self.many = BTreeSet::new(alloc);
        self.stamp = stamp;
        Ok(false)
    }

    // The words of a page part of this satellite and signal with its partners here.
    pub(crate) fn words(
        &self,
        alloc: Global,
        number: u8,
        signal: Signal,
        half: &Half,
    ) -> Result<Vec<Bits<16>>, AllocError>
        requires number { number < 64 }
        requires keys { AreKeys self.now.keys }
        ensures { IfOk result (λ words.
            AreWordsIn self.now.keys (place_of self.now.stamp number signal) half.now words.items) }
    {
        let lane = lane(number, signal);
        if self.many.len() == 0 {
            let first = first_other(lane, half.kind());
            return words_among(alloc, between(&self.few, first, first + ODD), half);
        }
        words_with(
            alloc,
            &self.many,
            bucket(self.stamp, lane, remainder(half.number())),
            half,
        )
    }
}

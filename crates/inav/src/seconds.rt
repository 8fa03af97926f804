//! The page parts in a ring buffer of seconds: a time tag has the slot at its remainder modulo
//! `window + 2`, so a second is found without a search. A second that is too old counts as removed;
//! its memory is reused when another takes its slot.

ghost use Rattle.std.specs.Prelude.{◌≡◌, ℕ, ◌+◌, ◌%◌, ◌^◌, ◌<◌};
ghost use Rattle.std.specs.Prelude.{◌≤◌, ◌↔◌, IfSome, IfNone, IsTrue, IfOk};
ghost use Rattle.std.specs.Prelude.{OnOk, OnErr, [], length, max, Contains};
ghost use Rattle.inav.specs.Mirrors.{key_at};
ghost use Rattle.inav.specs.Kept.{keys_held, keys_in, AreSeconds, HoldsKey, IsSecondOf};
ghost use Rattle.inav.specs.Kept.{KeepsKeys, PutsKey};

use crate::second::Second;
use std::alloc::{AllocError, Global};

// The seconds of a window, which ends at the greatest stamp.
#[derive(Drop)]
pub(crate) struct Seconds {
    window: u32,
    greatest: u32,
    places: Vec<Second>,
}

// Appends empty slots up to that count.
fn make_places(alloc: Global, places: &mut Vec<Second>, count: usize) -> Result<(), AllocError>
    ensures enough { OnOk result (count ≤ length places.new.items) }
    ensures same { KeepsKeys places.old.items places.new.items }
    ensures held { keys_held places.new.items ≡ keys_held places.old.items }
{
    for _ in places.len()..count {
        places.push(Second::new(alloc))?;
    }
    Ok(())
}

impl Seconds {
    // Without keys; the slots are allocated with the first page part.
    pub(crate) fn new(alloc: Global, window: u32) -> Seconds
        requires { window ≤ 14400 }
        ensures window { result.window ≡ window }
        ensures greatest { result.greatest ≡ 0 }
        ensures keys { keys_in result ≡ [] }
        ensures held { keys_held result.places.items ≡ [] }
        ensures seconds { AreSeconds result }
    {
        Seconds {
            window,
            greatest: 0,
            places: Vec::new(alloc),
        }
    }

    // Whether the stamp is more than the window plus one second below the greatest stamp.
    pub(crate) fn is_too_old(&self, stamp: u32) -> bool
        requires { AreSeconds self.now }
        ensures { IsTrue result ↔ (stamp + self.now.window + 1 < self.now.greatest) }
    {
        stamp < self.greatest.saturating_sub(self.window + 1)
    }

    // The slot of a stamp.
    fn place(&self, stamp: u32) -> usize
        requires { AreSeconds self.now }
        ensures same { result ≡ stamp % (self.now.window + 2) }
        ensures fits { result < self.now.window + 2 }
    {
        (stamp % (self.window + 2)) as usize
    }

    // A second, unless it is too old or has no page parts.
    pub(crate) fn find(&self, stamp: u32) -> Option<&Second>
        requires { AreSeconds self.now }
        ensures there { IfSome result (λ second.
            IsSecondOf (keys_in self.now) stamp second.now.keys) }
        ensures stamp { IfSome result (λ second. second.now.stamp ≡ stamp) }
        ensures none { IfNone result (IsSecondOf (keys_in self.now) stamp []) }
    {
        if self.is_too_old(stamp) {
            return None;
        }
        let Some(second) = self.places.get(self.place(stamp)) else {
            return None;
        };
        if second.stamp() != stamp {
            return None;
        }
        Some(second)
    }

    // Inserts the page part with this number in its second, which is not too old, says whether it
    // was stored already, and raises the greatest stamp to its stamp.
    pub(crate) fn put(
        &mut self,
        alloc: Global,
        stamp: u32,
        number: u128,
    ) -> Result<bool, AllocError>
        requires seconds { AreSeconds self.old }
        requires fits { number < 2 ^ 127 }
        requires recent { self.old.greatest ≤ stamp + self.old.window + 1 }
        ensures there { IfOk result (λ there.
            IsTrue there ↔ Contains (keys_in self.old) (key_at stamp number)) }
        ensures kept { OnOk result (PutsKey self.old (key_at stamp number) self.new) }
        ensures greatest { OnOk result (self.new.greatest ≡ max self.old.greatest stamp) }
        ensures window { self.new.window ≡ self.old.window }
        ensures seconds { AreSeconds self.new }
        ensures err { OnErr result (self.new.greatest ≡ self.old.greatest) }
        ensures err_keys { OnErr result (keys_in self.new ≡ keys_in self.old) }
        ensures held { OnOk result (HoldsKey self.old (key_at stamp number) self.new) }
        ensures err_held { OnErr result
            (keys_held self.new.places.items ≡ keys_held self.old.places.items) }
    {
        let place = self.place(stamp);
        make_places(alloc, &mut self.places, self.window as usize + 2)?;
        let there = self.places[place].put(alloc, stamp, number)?;
        self.greatest = self.greatest.max(stamp);
        Ok(there)
    }
}

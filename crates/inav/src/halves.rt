ghost use Rattle.std.specs.Prelude.{◌≡◌, ℕ, ◌+◌, ◌≤◌, ◌⊎◌};
ghost use Rattle.std.specs.Prelude.{◌↔◌, List, [], IfOk, OnOk, OnErr};
ghost use Rattle.std.specs.Prelude.{length};
ghost use Rattle.std.specs.Prelude.{max};
ghost use Rattle.std.specs.Prelude.{Contains};
ghost use Rattle.nav_eph.specs.declared.sat.System.TheVariants.{Gal};
ghost use Rattle.inav.specs.Pages.{kind_of};
ghost use Rattle.inav.specs.Received.{AreWordsWith, stamp_by, StampedHalf};
ghost use Rattle.inav.specs.Keeping.{stamped, HoldsOneSecond, IsKeptWith};

use crate::half::Half;
use crate::joined::Joined;
use crate::joining::{join_with_kept, keep};
use crate::seconds::Seconds;
use nav_eph::{Sat, Signal};
use std::alloc::{AllocError, Global};
use std::marker::Model;

/// The page parts received, stored as long as a partner may come.
///
/// The partners of a page part are those of the same satellite and signal and the other kind, the
/// odd part one second after the even one, with which the CRC is right.
#[derive(Drop)]
pub struct Halves {
    alloc: Global,
    kept: Seconds,
}

impl Model for Halves {
    ghost use Rattle.std.specs.Prelude.{◌≡◌, ℕ, map};
    ghost use Rattle.inav.specs.Keeping.{Keeping};
    ghost use Rattle.inav.specs.Mirrors.{half_of};
    ghost use Rattle.inav.specs.Kept.{keys_held, keys_in, AreSeconds};

    ghost Value = { Keeping };

    ghost view = { λ h. record {
      window = h.kept.window;
      greatest = h.kept.greatest;
      kept = map half_of (keys_in h.kept);
      held = map half_of (keys_held h.kept.places.items);
    } };

    ghost invariant = { λ h. AreSeconds h.kept };
}

impl Halves {
    /// An empty store. `window` is in seconds: a page part is stored while its time tag is at most
    /// the window plus one second below the greatest time tag.
    pub fn new(alloc: Global, window: u32) -> Halves
        requires least { 60 ≤ window }
        requires most { window ≤ 14400 }
        ensures window { result.window ≡ window }
        ensures greatest { result.greatest ≡ 0 }
        ensures kept { result.kept ≡ [] }
        ensures held { result.held ≡ [] }
    {
        Halves {
            alloc,
            kept: Seconds::new(alloc, window),
        }
    }

    /// Takes a page part received at a time tag in seconds of the logger's clock, and gives the
    /// words that it makes with its stored partners, ascending by the partners' bits; none if the
    /// same page part is stored already. Then the part is stored, unless it is itself too old, and
    /// parts whose time tag is more than the window plus one second below the greatest time tag are
    /// removed.
    ///
    /// Costs one search among the stored parts of its own second, one for its partners among those
    /// of theirs, and the words. Of up to 72 parts of a second those of the satellite, signal and
    /// other kind are tried, a CRC each; of more the partners alone are found, by the remainder of
    /// one CRC. The parts are in a ring buffer of `window + 2` seconds, allocated with the first
    /// part, so a second is found without a search. Removed parts leave when another second takes
    /// their slot, which reuses their memory: a time tag far above the others costs no more.
    ///
    /// `AllocError` where memory runs out; nothing is changed then.
    pub fn take(
        &mut self,
        stamp: u32,
        sat: Sat,
        signal: Signal,
        half: &Half,
    ) -> Result<Joined, AllocError>
        requires { sat.system ≡ Gal }
        ensures words { IfOk result (λ joined.
            (Contains self.old.kept (stamped stamp sat signal half.now) → ⊥) →
            AreWordsWith (Contains self.old.kept) (stamped stamp sat signal half.now)
            joined.words) }
        ensures again { IfOk result (λ joined.
            Contains self.old.kept (stamped stamp sat signal half.now) → joined.words ≡ []) }
        ensures stamp { IfOk result (λ joined. (joined.words ≡ [] → ⊥) →
            joined.stamp ≡ stamp_by (kind_of half.now) stamp) }
        ensures count { IfOk result (λ joined. length joined.words ≤ length self.old.kept) }
        ensures kept { OnOk result ((other : StampedHalf) → Contains self.new.kept other ↔
            IsKeptWith self.old (stamped stamp sat signal half.now) self.new.greatest other) }
        ensures room { OnOk result (length self.new.kept ≤ length self.old.kept + 1) }
        ensures greatest { OnOk result (self.new.greatest ≡ max self.old.greatest stamp) }
        ensures window { self.new.window ≡ self.old.window }
        ensures err { OnErr result (self.new ≡ self.old) }

        // The allocated parts are at most those allocated before and this one, one more than
        // before, and in each of the `window + 2` slots of one second only.
        ensures held { OnOk result ((other : StampedHalf) → Contains self.new.held other →
            Contains self.old.held other ⊎ (stamped stamp sat signal half.now ≡ other)) }
        ensures held_room { OnOk result (length self.new.held ≤ length self.old.held + 1) }
        ensures held_seconds { HoldsOneSecond self.new }
    {
        let number = sat.number();
        if self.kept.is_too_old(stamp) {
            return join_with_kept(self.alloc, &self.kept, stamp, number, signal, half);
        }
        keep(self.alloc, &mut self.kept, stamp, number, signal, half)
    }
}

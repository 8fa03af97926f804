//! The slots of open periods by key and start, with a list of ends in the order of periods.
//!
//! The end by which a slot is listed may be earlier than its own, so that a part which repeats what
//! its slot holds changes no tree. It is moved to the true end when it comes first and its slot is
//! asked for.

ghost use Rattle.std.specs.Prelude.{◌≡◌, ℕ, ◌+◌, ◌<◌, ◌≤◌};
ghost use Rattle.std.specs.Prelude.{true, false, None, Some, IfOk, IfSome, IsSome, OnOk, OnErr};
ghost use Rattle.std.specs.BTreeMap.{btree_map_len};
ghost use Rattle.std.specs.Option.{option_map};
ghost use Rattle.periods.specs.Parts.{key_of};
ghost use Rattle.slot_assembly.specs.Joins.{IsMergedAt, IsPutForStarts, IsSecondFrom};
ghost use Rattle.slot_assembly.specs.Joins.{IsTouchedFrom, IsUnlisted, IsWithoutStart, kept_from};
ghost use Rattle.slot_assembly.specs.Joins.{packed_in};
ghost use Rattle.slot_assembly.specs.Order.{by_end, by_start, rank_of, start_place};
ghost use Rattle.slot_assembly.specs.Slots.{AreIndexed, AreListedAlike, AreSameSlots, HasEnd};
ghost use Rattle.slot_assembly.specs.Slots.{IsChanged, IsFirstDueAt, IsFirstEnd, IsLastTouched};
ghost use Rattle.slot_assembly.specs.Slots.{IsOneSlot, IsRelisted, IsSlotBelow, IsTaken};
ghost use Rattle.slot_assembly.specs.Slots.{at_of, kept_at, lag, merged, slot_of, slot_with};
ghost use Rattle.slot_assembly.specs.declared.slot.Slot.{Slot};

use crate::order::{ByEnd, ByStart, Rank, rank_of_key};
use crate::slot::{Held, IonSlot, PackedSlot, Slot, one_of};
use nav_bits::U;
use nav_eph::{
    GalIon, GalWord1, GalWord2, GalWord3, GalWord4, GpsClock, GpsIon, GpsOrbitA, GpsOrbitB,
    GpsSide, Part, Sat, Second, SentTag,
};
use periods::{Digest, GalDigest, GpsDigest, PeriodKey, Seen, Transmission};
use std::alloc::{AllocError, Global};
use std::collections::{BTreeMap, BTreeSet};

/// The slots of open periods, and a list of their ends.
#[derive(Drop)]
pub struct OpenSlots {
    pub alloc: Global,
    pub slots: BTreeMap<ByStart, Held>,
    pub ends: BTreeSet<ByEnd>,
}

// The types inside a slot, named here because the checker loads only modules of named types.
type Inside = (
    Seen<GpsClock>,
    GpsDigest,
    GalDigest,
    Transmission,
    GpsOrbitA,
    GpsOrbitB,
    GpsSide,
    SentTag,
    GalWord1,
    GalWord2,
    GalWord3,
    GalWord4,
    GpsIon,
    GalIon,
    U<1>,
    Second,
    Sat,
    PeriodKey,
    Digest,
    IonSlot,
    Slot,
);

// The option is this end.
fn is_end(of: Option<u32>, end: u32) -> bool
    ensures yes { result ≡ true → of ≡ Some end }
    ensures no { result ≡ false → of ≡ Some end → ⊥ }
{
    match of {
        None => false,
        Some(other) => other == end,
    }
}

// The end by which a slot was listed.
fn listed_in(held: &Option<Held>) -> Option<u32>
    ensures { result ≡ option_map (λ h. h.listed) held.now }
{
    match held {
        None => None,
        Some(held) => Some(held.listed),
    }
}

impl OpenSlots {
    // The key's last slot that starts below a bound.
    fn last_below(&self, rank: Rank, bound: u64) -> Option<&PackedSlot>
        requires indexed { AreIndexed self.now.slots.entries self.now.ends.keys }
        ensures { IsSlotBelow self.now.slots.entries rank bound (packed_in result) }
    {
        let (place, held) = self.slots.range(..rank.at_start(bound)).next_back()?;
        if place.is_of(rank) {
            Some(&held.packed)
        } else {
            None
        }
    }

    // That slot, where a stamp is at most a window after its end.
    fn last_touched(&self, rank: Rank, bound: u64, stamp: u32, window: u32) -> Option<&PackedSlot>
        requires indexed { AreIndexed self.now.slots.entries self.now.ends.keys }
        ensures { IsLastTouched self.now.slots.entries rank bound stamp window
            (packed_in result) }
    {
        match self.last_below(rank, bound) {
            None => None,
            Some(packed) => {
                if stamp as u64 <= packed.end() as u64 + window as u64 {
                    Some(packed)
                } else {
                    None
                }
            }
        }
    }

    // The start of that slot.
    fn touched_from(&self, rank: Rank, bound: u64, stamp: u32, window: u32) -> Option<u32>
        requires indexed { AreIndexed self.now.slots.entries self.now.ends.keys }
        ensures { IsTouchedFrom self.now.slots.entries rank bound stamp window result }
    {
        match self.last_touched(rank, bound, stamp, window) {
            None => None,
            Some(packed) => Some(packed.start()),
        }
    }

    // The slot of the key with a start.
    fn slot_from(&self, rank: Rank, start: Option<u32>) -> Option<&PackedSlot>
        ensures { packed_in result ≡ kept_from self.now.slots.entries rank start }
    {
        match start {
            None => None,
            Some(start) => self.slot_at(rank.at_start(start as u64)),
        }
    }

    // Merges a part into the slot at a place, where it stands.
    fn merge_at(&mut self, place: ByStart, part: &Part)
        ensures merged { (one : Slot) → IsOneSlot part.now one
            → IsMergedAt self.old.slots.entries place one self.new.slots.entries }
        ensures alike { AreListedAlike self.old.slots.entries self.new.slots.entries }
        ensures ends { self.new.ends.keys ≡ self.old.ends.keys }
    {
        match self.slots.get_mut(&place) {
            None => {}
            Some(held) => held.packed.add_part(part),
        }
    }

    // The slot of a part, merged into the slot of its key with a start, if there is one.
    fn merge_first(
        &self,
        rank: Rank,
        first: Option<u32>,
        one: Slot,
        part: &Part,
    ) -> Result<PackedSlot, AllocError>
        requires indexed { AreIndexed self.now.slots.entries self.now.ends.keys }
        requires one { IsOneSlot part.now one }
        requires rank { rank ≡ rank_of one.key }
        ensures slot { IfOk result (λ packed. slot_of packed
            ≡ merged (kept_from self.now.slots.entries rank first) one) }
        ensures rank { IfOk result (λ packed. rank ≡ rank_of (slot_of packed).key) }
    {
        match self.slot_from(rank, first) {
            None => PackedSlot::of(self.alloc, one),
            Some(touched) => {
                let mut packed = PackedSlot::of(self.alloc, touched.slot())?;
                packed.add_part(part);
                Ok(packed)
            }
        }
    }

    // Merges the slot of the key with a start, if there is one, into `packed`.
    fn add_second(&self, rank: Rank, second: Option<u32>, packed: &mut PackedSlot)
        ensures { slot_of packed.new ≡ slot_with (slot_of packed.old)
            (kept_from self.now.slots.entries rank second) }
    {
        match self.slot_from(rank, second) {
            None => {}
            Some(other) => packed.add(other),
        }
    }

    // Removes an end of a place from the list, where there is one and it is not to stay.
    fn unlist(&mut self, place: ByStart, was: Option<u32>, stays: Option<u32>)
        ensures ends { IsUnlisted self.old.ends.keys place was stays self.new.ends.keys }
        ensures same { self.new.slots.entries ≡ self.old.slots.entries }
    {
        match was {
            None => {}
            Some(end) => {
                if is_end(stays, end) {
                    return;
                }
                self.ends.remove(&place.at_end(end as u64));
            }
        }
    }

    // Inserts a slot, and its end into the list.
    fn put(&mut self, rank: Rank, packed: PackedSlot) -> Result<(), AllocError>
        requires indexed { AreIndexed self.old.slots.entries self.old.ends.keys }
        requires rank { rank ≡ rank_of (slot_of packed).key }
        ensures indexed { AreIndexed self.new.slots.entries self.new.ends.keys }
        ensures ok { OnOk result (IsChanged self.old.slots.entries (at_of (slot_of packed))
            (Some (slot_of packed)) self.new.slots.entries) }
        ensures err { OnErr result (AreSameSlots self.old.slots.entries self.new.slots.entries) }
    {
        let _inside: Option<Inside> = None;
        let place = rank.at_start(packed.start() as u64);
        let end = packed.end();
        let listed = place.at_end(end as u64);
        self.ends.insert(listed)?;
        let held = Held {
            listed: end,
            packed,
        };
        match self.slots.insert(place, held) {
            Ok(old) => {
                self.unlist(place, listed_in(&old), Some(end));
                Ok(())
            }
            Err(none) => {
                self.ends.remove(&listed);
                Err(none.into())
            }
        }
    }

    // Removes the slot at a place, and its end from the list.
    pub(crate) fn drop_at(&mut self, place: ByStart)
        requires indexed { AreIndexed self.old.slots.entries self.old.ends.keys }
        ensures indexed { AreIndexed self.new.slots.entries self.new.ends.keys }
        ensures gone { IsChanged self.old.slots.entries place None self.new.slots.entries }
        ensures fewer { IsSome (kept_at self.old.slots.entries place)
            → btree_map_len self.new.slots < btree_map_len self.old.slots }
    {
        let _inside: Option<Inside> = None;
        let old = self.slots.remove(&place);
        self.unlist(place, listed_in(&old), None);
    }

    // Removes the slot of a key with the start `other`, if there is one and `other` is not `start`.
    fn drop_other(&mut self, rank: Rank, other: Option<u32>, start: u32)
        requires indexed { AreIndexed self.old.slots.entries self.old.ends.keys }
        ensures indexed { AreIndexed self.new.slots.entries self.new.ends.keys }
        ensures gone { IsWithoutStart self.old.slots.entries rank other start
            self.new.slots.entries }
    {
        match other {
            None => {}
            Some(other) => {
                if other != start {
                    self.drop_at(rank.at_start(other as u64));
                }
            }
        }
    }

    // Replaces the slots of a key with two starts by one slot.
    fn replace(
        &mut self,
        rank: Rank,
        packed: PackedSlot,
        first: Option<u32>,
        second: Option<u32>,
    ) -> Result<(), AllocError>
        requires indexed { AreIndexed self.old.slots.entries self.old.ends.keys }
        requires rank { rank ≡ rank_of (slot_of packed).key }
        ensures indexed { AreIndexed self.new.slots.entries self.new.ends.keys }
        ensures ok { OnOk result (IsPutForStarts self.old.slots.entries rank (slot_of packed)
            first second self.new.slots.entries) }
        ensures err { OnErr result (AreSameSlots self.old.slots.entries self.new.slots.entries) }
    {
        let start = packed.start();
        self.put(rank, packed)?;
        self.drop_other(rank, first, start);
        self.drop_other(rank, second, start);
        Ok(())
    }

    // The start of the slot before the first one that is touched, where it is touched too.
    fn second_from(&self, rank: Rank, first: Option<u32>, stamp: u32, window: u32) -> Option<u32>
        requires indexed { AreIndexed self.now.slots.entries self.now.ends.keys }
        ensures { IsSecondFrom self.now.slots.entries rank stamp window first result }
    {
        match first {
            None => None,
            Some(start) => self.touched_from(rank, start as u64, stamp, window),
        }
    }

    // Adds the slot of a new part, merged with the one or two slots of its key that lie within the
    // window; the last of them is at `first`.
    fn join(
        &mut self,
        key: &PeriodKey,
        first: Option<u32>,
        part: &Part,
        window: u32,
    ) -> Result<(), AllocError>
        requires indexed { AreIndexed self.old.slots.entries self.old.ends.keys }
        requires key { key_of part.now ≡ Some key.now }
        requires first { IsTouchedFrom self.old.slots.entries (rank_of key.now)
            (part.now.stamp + window + 1) part.now.stamp window first }
        ensures indexed { AreIndexed self.new.slots.entries self.new.ends.keys }
        ensures ok { OnOk result (IsTaken self.old.slots.entries part.now window
            self.new.slots.entries) }
        ensures err { OnErr result (AreSameSlots self.old.slots.entries self.new.slots.entries) }
    {
        let _inside: Option<Inside> = None;
        let rank = rank_of_key(key);
        let Some(one) = one_of(part) else {
            return Ok(());
        };
        let mut packed = self.merge_first(rank, first, one, part)?;
        let second = self.second_from(rank, first, part.stamp, window);
        self.add_second(rank, second, &mut packed);
        self.replace(rank, packed, first, second)
    }

    // Takes a part of a key. Where it touches a slot that started before it, that slot changes in
    // its place, and no tree does.
    pub(crate) fn take(
        &mut self,
        key: &PeriodKey,
        part: &Part,
        window: u32,
    ) -> Result<(), AllocError>
        requires indexed { AreIndexed self.old.slots.entries self.old.ends.keys }
        requires key { key_of part.now ≡ Some key.now }
        ensures indexed { AreIndexed self.new.slots.entries self.new.ends.keys }
        ensures ok { OnOk result (IsTaken self.old.slots.entries part.now window
            self.new.slots.entries) }
        ensures err { OnErr result (AreSameSlots self.old.slots.entries self.new.slots.entries) }
    {
        let rank = rank_of_key(key);
        let bound = part.stamp as u64 + window as u64 + 1;
        let first = self.touched_from(rank, bound, part.stamp, window);
        if let Some(start) = first {
            if start <= part.stamp {
                self.merge_at(rank.at_start(start as u64), part);
                return Ok(());
            }
        }
        self.join(key, first, part, window)
    }

    // The first end in the list, where it is below a limit.
    fn first_end(&self, limit: u64) -> Option<ByEnd>
        ensures { IsFirstEnd self.now.ends.keys limit result }
    {
        let first = *self.ends.first()?;
        if first.end < limit { Some(first) } else { None }
    }

    // The slot at a place.
    pub(crate) fn slot_at(&self, place: ByStart) -> Option<&PackedSlot>
        ensures { packed_in result ≡ kept_at self.now.slots.entries place }
    {
        match self.slots.get(&place) {
            None => None,
            Some(held) => Some(&held.packed),
        }
    }

    // Lists the slot at a place by another end.
    fn list_at(&mut self, place: ByStart, end: u32)
        requires there { IsSome (kept_at self.old.slots.entries place) }
        ensures same { AreSameSlots self.old.slots.entries self.new.slots.entries }
        ensures listed { IsRelisted self.old.slots.entries place (Some end)
            self.new.slots.entries }
        ensures len { btree_map_len self.new.slots ≡ btree_map_len self.old.slots }
        ensures ends { self.new.ends.keys ≡ self.old.ends.keys }
    {
        match self.slots.get_mut(&place) {
            None => {}
            Some(held) => held.listed = end,
        }
    }

    // Moves a place in the list to the end of its slot.
    fn move_on(&mut self, place: ByEnd, end: u32) -> Result<(), AllocError>
        requires indexed { AreIndexed self.old.slots.entries self.old.ends.keys }
        requires there { HasEnd self.old.ends.keys place }
        requires later { place.end < end }
        requires slot { option_map (λ s. s.end) (kept_at self.old.slots.entries
            (start_place place)) ≡ Some end }
        ensures indexed { AreIndexed self.new.slots.entries self.new.ends.keys }
        ensures same { AreSameSlots self.old.slots.entries self.new.slots.entries }
        ensures len { btree_map_len self.new.slots ≡ btree_map_len self.old.slots }
        ensures lag { OnOk result ((limit : ℕ) → place.end < limit
            → lag limit self.new.ends.keys < lag limit self.old.ends.keys) }
    {
        let by_key = place.by_key();
        self.ends.insert(by_key.at_end(end as u64))?;
        self.list_at(by_key, end);
        self.ends.remove(&place);
        Ok(())
    }

    // The place of the first slot in order, where its end plus the window is below the watermark.
    pub(crate) fn first_due(
        &mut self,
        window: u32,
        watermark: u64,
    ) -> Result<Option<ByStart>, AllocError>
        requires indexed { AreIndexed self.old.slots.entries self.old.ends.keys }
        ensures indexed { AreIndexed self.new.slots.entries self.new.ends.keys }
        ensures same { AreSameSlots self.old.slots.entries self.new.slots.entries }
        ensures len { btree_map_len self.new.slots ≡ btree_map_len self.old.slots }
        ensures first { IfOk result (IsFirstDueAt self.new.slots.entries window watermark) }
    {
        let _inside: Option<Inside> = None;
        let limit = watermark.saturating_sub(window as u64);
        'moving: while let Some(place) = self.first_end(limit) {
            let by_key = place.by_key();
            match self.slot_at(by_key) {
                // (each place in the list has its slot)
                None => return Ok(None),
                Some(packed) => {
                    let end = packed.end();
                    if end as u64 <= place.end {
                        return Ok(Some(by_key));
                    }
                    self.move_on(place, end)?;
                }
            }
        }
        Ok(None)
    }
}

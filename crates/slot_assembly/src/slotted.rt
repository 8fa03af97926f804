//! The assembly that stores open periods in slots.

ghost use Rattle.std.specs.Prelude.{◌≡◌, ◌≤◌, ◌<◌, ◌+◌, true, false, Contains};
ghost use Rattle.std.specs.Prelude.{IfOk, IfSome, IsSome, OnErr};

use crate::assembly::Assembly;
use crate::closing::close_slot;
use crate::healths::Healths;
use crate::order::Rank;
use crate::slots::OpenSlots;
use nav_eph::{NavItem, Part, RefWeek};
use periods::{Closed, PeriodId, key_of_part, note_value};
use std::alloc::{AllocError, Global};
use std::collections::{BTreeMap, BTreeSet};
use std::marker::Model;

/// An assembly that stores a slot for each open period.
///
/// A contract sees all its state: the reference week `reference`, the `window` in seconds, the
/// `slots` of the open periods and a list `ends` of their ends, the health `heard` that a period
/// may still take and its index `stamps`, the greatest `watermark` given, the `last` period given,
/// the greatest watermark `none_at` at which no period was due, and in `known` for each ephemeris
/// the item of the last complete period given.
#[derive(Drop)]
pub struct SlotAssembly {
    held: OpenSlots,
    healths: Healths,
    reference: RefWeek,
    window: u32,
    watermark: u64,
    last: Option<PeriodId>,
    none_at: u64,
    known: BTreeMap<Rank, NavItem>,
}

impl Model for SlotAssembly {
    ghost use Rattle.slot_assembly.specs.SlotStanding.{SlotsState};

    ghost Value = { SlotsState };

    ghost view = { λ s. record {
      reference = s.reference;
      window = s.window;
      slots = s.held.slots.entries;
      ends = s.held.ends.keys;
      heard = s.healths.heard.entries;
      stamps = s.healths.stamps.keys;
      watermark = s.watermark;
      last = s.last;
      none_at = s.none_at;
      known = s.known.entries;
    } };
}

impl SlotAssembly {
    ghost use Rattle.slot_assembly.specs.SlotStanding.{SlotsStandFor, slots_left};
    ghost use Rattle.slot_assembly.specs.Standing.{Carries, IsNext, NoneDue, Stood, Tells};
    ghost use Rattle.slot_assembly.specs.Standing.{giving, nothing_yet, reaching, unchanged};
    ghost use Rattle.periods.specs.Verdicts.{closed_place};

    /// An assembly without parts, for the reference week `r` and a window of 60 to 14,400 seconds.
    pub fn new(alloc: Global, r: RefWeek, window: u32) -> SlotAssembly
        requires least { 60 ≤ window }
        requires most { window ≤ 14400 }
        ensures reference { result.reference ≡ r }
        ensures window { result.window ≡ window }
        ensures stands { SlotsStandFor result nothing_yet }
        ensures none_at { result.none_at ≡ 0 }
    {
        SlotAssembly {
            held: OpenSlots {
                alloc,
                slots: BTreeMap::new(alloc),
                ends: BTreeSet::new(alloc),
            },
            healths: Healths {
                heard: BTreeMap::new(alloc),
                stamps: BTreeSet::new(alloc),
            },
            reference: r,
            window,
            watermark: 0,
            last: None,
            none_at: 0,
            known: BTreeMap::new(alloc),
        }
    }

    /// The first period not given yet whose end plus the window is below the watermark, as
    /// [`Assembly::next_closed`] gives it, but into `closed`; `false`, with nothing of use in
    /// `closed`, exactly if there is none. A period holds a complete item, so this saves moves of
    /// that size.
    pub fn close_next(
        &mut self,
        watermark: u64,
        closed: &mut Option<Closed>,
    ) -> Result<bool, AllocError>
        requires { Stood (SlotsStandFor self.old) (λ at. at.watermark ≤ watermark) }
        ensures reference { self.new.reference ≡ self.old.reference }
        ensures window { self.new.window ≡ self.old.window }

        // The period given, or that none is due.
        ensures some { IfOk result (λ given. given ≡ true → IsSome closed.new) }
        ensures next { IfOk result (λ given. given ≡ true → IfSome closed.new (λ one.
            Tells (SlotsStandFor self.old) (λ at. IsNext self.old.reference self.old.window
            (Contains at.parts) watermark at.last one))) }
        ensures none { IfOk result (λ given. given ≡ false
            → Tells (SlotsStandFor self.old) (λ at. NoneDue self.old.window
            (Contains at.parts) watermark at.last)) }

        // The state after the call.
        ensures given { IfOk result (λ given. given ≡ true → IfSome closed.new (λ one.
            Carries (SlotsStandFor self.old) (SlotsStandFor self.new)
            (giving watermark (closed_place one)))) }
        ensures reached { IfOk result (λ given. given ≡ false
            → Carries (SlotsStandFor self.old) (SlotsStandFor self.new) (reaching watermark)) }
        ensures err { OnErr result
            (Carries (SlotsStandFor self.old) (SlotsStandFor self.new) unchanged) }

        // The number of slots decreases, so repeated calls end with `false`.
        ensures fewer { IfOk result (λ given. given ≡ true
            → slots_left self.new < slots_left self.old) }

        // The watermark is recorded where no period is due, and only there.
        ensures none_there { IfOk result (λ given. given ≡ false → self.new.none_at ≡ watermark) }
        ensures none_stays { IfOk result (λ given. given ≡ true
            → self.new.none_at ≡ self.old.none_at) }
        ensures none_kept { OnErr result (self.new.none_at ≡ self.old.none_at) }
    {
        match self.held.first_due(self.window, watermark) {
            Ok(None) => {
                self.healths.forget(self.window, watermark);
                self.watermark = watermark;
                self.none_at = watermark;
                Ok(false)
            }
            Err(none) => Err(none),
            Ok(Some(place)) => {
                let Some(packed) = self.held.slot_at(place) else {
                    unreachable!();
                };
                let period = packed.period();
                let health = self.healths.choose(self.window, period.key, period.end);
                match close_slot(packed, self.reference, health, &mut self.known, closed) {
                    Ok(()) => {}
                    Err(none) => return Err(none),
                }
                self.held.drop_at(place);
                self.watermark = watermark;
                self.last = Some(period);
                Ok(true)
            }
        }
    }
}

impl Assembly for SlotAssembly {
    ghost use Rattle.slot_assembly.specs.SlotStanding.{SlotsStandFor, slots_left};
    ghost use Rattle.slot_assembly.specs.SlotLaws.{parts_are_a_set, parts_are_values};

    ghost reference = { λ s. s.reference };

    ghost window = { λ s. s.window };

    ghost stands_for = { SlotsStandFor };

    ghost left = { slots_left };

    ghost none_at = { λ s. s.none_at };

    fn take(&mut self, part: &Part) -> Result<(), AllocError> {
        note_value(part);
        match key_of_part(part) {
            Some(key) => match self.held.take(&key, part, self.window) {
                Ok(()) => return Ok(()),
                Err(none) => return Err(none),
            },
            None => match self.healths.take(part) {
                Ok(()) => return Ok(()),
                Err(none) => return Err(none),
            },
        }
    }

    fn next_closed(&mut self, watermark: u64) -> Result<Option<Closed>, AllocError> {
        let mut closed: Option<Closed> = None;
        match self.close_next(watermark, &mut closed) {
            Ok(true) => Ok(closed),
            Ok(false) => Ok(None),
            Err(none) => Err(none),
        }
    }

    ghost parts_are_values = { parts_are_values };

    ghost parts_are_a_set = { parts_are_a_set };
}

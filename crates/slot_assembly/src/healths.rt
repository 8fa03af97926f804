//! The stored health, without duplicates, by satellite and time tag, with an index by time tag.

ghost use Rattle.std.specs.Prelude.{◌≡◌, ◌<◌, OnOk, OnErr, Some, None};
ghost use Rattle.std.specs.BTreeSet.{btree_set_len};
ghost use Rattle.periods.specs.Mirrors.{or_else};
ghost use Rattle.slot_assembly.specs.Order.{place_of_health, sat_place};
ghost use Rattle.slot_assembly.specs.Healths.{AreStamped, HasStamp, IsChosen, IsFirstAbove};
ghost use Rattle.slot_assembly.specs.Healths.{IsForgotten, IsReceived, IsReceivedChanged};
ghost use Rattle.slot_assembly.specs.Healths.{IsLastBelow};
ghost use Rattle.slot_assembly.specs.Healths.{IsLooked, IsOldest, IsSameHealth, near_behind};
ghost use Rattle.slot_assembly.specs.Healths.{near_up};

use crate::order::{BySat, ByStamp, place_in_sat, place_of_received};
use nav_bits::{S, U};
use nav_eph::{Body, GalHealth, Part, Sat, SentTag};
use periods::PeriodKey;
use std::alloc::AllocError;
use std::collections::{BTreeMap, BTreeSet};

/// The stored health, and an index of it by time tag.
#[derive(Drop)]
pub struct Healths {
    pub heard: BTreeMap<BySat, (u32, GalHealth, SentTag)>,
    pub stamps: BTreeSet<ByStamp>,
}

// The last health below a place.
fn last_below(
    heard: &BTreeMap<BySat, (u32, GalHealth, SentTag)>,
    at: BySat,
) -> Option<(BySat, (u32, GalHealth, SentTag))>
    ensures { IsLastBelow heard.now.entries at result }
{
    let (place, health) = heard.range(..at).next_back()?;
    Some((*place, *health))
}

// The first health at or after a place.
fn first_above(
    heard: &BTreeMap<BySat, (u32, GalHealth, SentTag)>,
    at: BySat,
) -> Option<(BySat, (u32, GalHealth, SentTag))>
    ensures { IsFirstAbove heard.now.entries at result }
{
    let (place, health) = heard.range(at..).next()?;
    Some((*place, *health))
}

// The health found before an end, where it is of the satellite and within the window.
fn near_before(
    found: Option<(BySat, (u32, GalHealth, SentTag))>,
    sat: Sat,
    window: u32,
    end: u32,
) -> Option<(u32, GalHealth, SentTag)>
    ensures { result ≡ near_up sat window end found }
{
    let (place, health) = found?;
    if place.is_of(sat) && end as u64 <= health.0 as u64 + window as u64 {
        Some(health)
    } else {
        None
    }
}

// The health found after an end, where it is of the satellite and within the window.
fn near_after(
    found: Option<(BySat, (u32, GalHealth, SentTag))>,
    sat: Sat,
    window: u32,
    end: u32,
) -> Option<(u32, GalHealth, SentTag)>
    ensures { result ≡ near_behind sat window end found }
{
    let (place, health) = found?;
    if place.is_of(sat) && health.0 as u64 <= end as u64 + window as u64 {
        Some(health)
    } else {
        None
    }
}

// The first option, or the second where it is `None`.
fn either(
    one: Option<(u32, GalHealth, SentTag)>,
    other: Option<(u32, GalHealth, SentTag)>,
) -> Option<(u32, GalHealth, SentTag)>
    ensures { result ≡ or_else one other }
{
    match one {
        Some(health) => Some(health),
        None => other,
    }
}

impl Healths {
    // The satellite's health near an end: the last one up to it, or else the first one after it.
    fn look(&self, sat: Sat, window: u32, end: u32) -> Option<(u32, GalHealth, SentTag)>
        ensures { IsLooked self.now.heard.entries sat window end result }
    {
        let at = place_in_sat(sat, end as u64 + 1, 0);
        let below = last_below(&self.heard, at);
        let above = first_above(&self.heard, at);
        either(
            near_before(below, sat, window, end),
            near_after(above, sat, window, end),
        )
    }

    // The health that a period of the key with that end takes; `None` unless it is of Galileo
    // ephemerides.
    pub(crate) fn choose(
        &self,
        window: u32,
        key: PeriodKey,
        end: u32,
    ) -> Option<(u32, GalHealth, SentTag)>
        ensures { IsChosen self.now.heard.entries window key end result }
    {
        match key {
            PeriodKey::Gal(sat, _) => self.look(sat, window, end),
            _ => None,
        }
    }

    // Stores a satellite's health.
    fn put(&mut self, sat: Sat, health: (u32, GalHealth, SentTag)) -> Result<(), AllocError>
        requires stamped { AreStamped self.old.heard.entries self.old.stamps.keys }
        ensures stamped { AreStamped self.new.heard.entries self.new.stamps.keys }
        ensures ok { OnOk result (IsReceivedChanged self.old.heard.entries
            (place_of_health sat health) (Some health) self.new.heard.entries) }
        ensures err { OnErr result (IsSameHealth self.old.heard.entries self.new.heard.entries) }
    {
        let _inside: Option<(S<10>, U<2>)> = None;
        let place = place_of_received(sat, &health);
        let stamp = place.among_all();
        self.stamps.insert(stamp)?;
        match self.heard.insert(place, health) {
            Ok(_) => Ok(()),
            Err(none) => {
                self.stamps.remove(&stamp);
                Err(none.into())
            }
        }
    }

    // Stores the health of a part; other parts change nothing.
    pub(crate) fn take(&mut self, part: &Part) -> Result<(), AllocError>
        requires stamped { AreStamped self.old.heard.entries self.old.stamps.keys }
        ensures stamped { AreStamped self.new.heard.entries self.new.stamps.keys }
        ensures ok { OnOk result (IsReceived self.old.heard.entries part.now
            self.new.heard.entries) }
        ensures err { OnErr result (IsSameHealth self.old.heard.entries self.new.heard.entries) }
    {
        match part.body {
            Body::GalHealth(health, tag) => {
                self.put(part.sat, (part.stamp, health, tag))?;
                Ok(())
            }
            _ => Ok(()),
        }
    }

    // Removes the health at a place.
    fn drop_at(&mut self, stamp: ByStamp)
        requires stamped { AreStamped self.old.heard.entries self.old.stamps.keys }
        requires there { HasStamp self.old.stamps.keys stamp }
        ensures stamped { AreStamped self.new.heard.entries self.new.stamps.keys }
        ensures gone { IsReceivedChanged self.old.heard.entries (sat_place stamp) None
            self.new.heard.entries }
        ensures fewer { btree_set_len self.new.stamps < btree_set_len self.old.stamps }
    {
        let _inside: Option<(S<10>, U<2>)> = None;
        self.heard.remove(&stamp.of_sat());
        self.stamps.remove(&stamp);
    }

    // The place of the oldest health, where its stamp plus two windows is below the watermark.
    fn oldest(&self, window: u32, watermark: u64) -> Option<ByStamp>
        requires stamped { AreStamped self.now.heard.entries self.now.stamps.keys }
        ensures { IsOldest self.now.stamps.keys window watermark result }
    {
        let first = *self.stamps.first()?;
        if first.stamp < watermark && watermark - first.stamp > 2 * window as u64 {
            Some(first)
        } else {
            None
        }
    }

    // Removes the health whose stamp plus two windows is below the watermark.
    pub(crate) fn forget(&mut self, window: u32, watermark: u64)
        requires stamped { AreStamped self.old.heard.entries self.old.stamps.keys }
        ensures stamped { AreStamped self.new.heard.entries self.new.stamps.keys }
        ensures forgotten { IsForgotten window watermark self.old.heard.entries
            self.new.heard.entries }
    {
        'forgetting: while let Some(stamp) = self.oldest(window, watermark) {
            self.drop_at(stamp);
        }
    }
}

//! What closes with a slot: its verdict, and the item that later periods are compared with.

ghost use Rattle.std.specs.Prelude.{◌≡◌, OnOk, OnErr, Some};
ghost use Rattle.std.specs.List.Sorted.{IsStrictlySortedBy};
ghost use Rattle.std.specs.Map.{keys_of};
ghost use Rattle.periods.specs.declared.closed.Verdict.TheVariants.{Partial};
ghost use Rattle.slot_assembly.specs.SlotStanding.{AreSameItems};
ghost use Rattle.slot_assembly.specs.Closing.{IsClosedBy};
ghost use Rattle.slot_assembly.specs.Slots.{slot_of};
ghost use Rattle.slot_assembly.specs.contracts.order.RankOrd.TheImpl.{cmp-value as rank_cmp};

use crate::known::{item_before, remember};
use crate::order::Rank;
use crate::slot::PackedSlot;
use nav_eph::{GalHealth, NavItem, RefWeek, SentTag};
use periods::{Closed, PeriodKey, Verdict, judge};
use std::alloc::AllocError;
use std::collections::BTreeMap;

// Puts a partial period in the room of another. A newly written period is cleared to its full size,
// so where the other is partial too only its end and key are changed.
fn put_partial(end: u32, key: &PeriodKey, into: &mut Option<Closed>)
    ensures { into.new ≡ Some (record { end = end; key = key.now; verdict = Partial }) }
{
    if let Some(
        Closed {
            end: own_end,
            key: own_key,
            verdict: Verdict::Partial,
        },
    ) = into
    {
        *own_end = end;
        *own_key = *key;
    } else {
        *into = Some(Closed {
            end,
            key: *key,
            verdict: Verdict::Partial,
        });
    }
}

// Puts the period of a slot, with its verdict, into `into`, and stores the item of a complete
// ephemeris. In a function of its own, so that the path of a partial period does not clear its
// locals.
#[inline(never)]
fn close_any(
    packed: &PackedSlot,
    r: RefWeek,
    health: Option<(u32, GalHealth, SentTag)>,
    known: &mut BTreeMap<Rank, NavItem>,
    into: &mut Option<Closed>,
) -> Result<(), AllocError>
    ensures ordered { IsStrictlySortedBy rank_cmp.it (keys_of known.new.entries) }
    ensures ok { OnOk result (IsClosedBy (slot_of packed.now) r health known.old.entries
        known.new.entries into.new) }
    ensures err { OnErr result (AreSameItems known.old.entries known.new.entries) }
{
    let slot = packed.slot();
    let finding = slot.digest.finding(r, slot.key, health);
    let before = item_before(known, &slot.key);
    match remember(known, &slot.key, &finding) {
        Ok(()) => {}
        Err(none) => return Err(none),
    }
    *into = Some(Closed {
        end: slot.end,
        key: slot.key,
        verdict: judge(before, finding),
    });
    Ok(())
}

// The same; where a kind of part is missing, the verdict is known without a finding.
pub(crate) fn close_slot(
    packed: &PackedSlot,
    r: RefWeek,
    health: Option<(u32, GalHealth, SentTag)>,
    known: &mut BTreeMap<Rank, NavItem>,
    into: &mut Option<Closed>,
) -> Result<(), AllocError>
    ensures ordered { IsStrictlySortedBy rank_cmp.it (keys_of known.new.entries) }
    ensures ok { OnOk result (IsClosedBy (slot_of packed.now) r health known.old.entries
        known.new.entries into.new) }
    ensures err { OnErr result (AreSameItems known.old.entries known.new.entries) }
{
    let _count = known.len();
    if packed.lacks_parts() {
        put_partial(packed.end(), packed.key(), into);
        return Ok(());
    }
    close_any(packed, r, health, known, into)
}

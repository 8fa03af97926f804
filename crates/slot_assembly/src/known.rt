//! The items that later ones of the same ephemeris are compared with.

ghost use Rattle.std.specs.Prelude.{◌≡◌, OnOk, OnErr};
ghost use Rattle.std.specs.List.Sorted.{IsStrictlySortedBy};
ghost use Rattle.std.specs.Map.{keys_of};
ghost use Rattle.slot_assembly.specs.Order.{rank_of};
ghost use Rattle.slot_assembly.specs.SlotStanding.{AreSameItems, IsRemembered, item_to_keep};
ghost use Rattle.slot_assembly.specs.SlotStanding.{known_for};
ghost use Rattle.slot_assembly.specs.contracts.order.RankOrd.TheImpl.{cmp-value as rank_cmp};

use crate::order::{Rank, rank_of_key};
use nav_bits::{S, U};
use nav_eph::{
    GalEph, GalHealth, GalIon, GalWord1, GalWord2, GalWord3, GalWord4, GpsClock, GpsEph, GpsIon,
    GpsOrbitA, GpsOrbitB, GpsSide, IonContent, IonEph, Moment, NavItem, Sat, Second, SentSecond,
    Week,
};
use periods::{Finding, PeriodKey};
use std::alloc::AllocError;
use std::collections::BTreeMap;

// The types inside an item, named here because the checker loads only modules of named types.
type Inside = (
    GalEph,
    GpsEph,
    IonEph,
    IonContent,
    GpsClock,
    GpsOrbitA,
    GpsOrbitB,
    GpsSide,
    GalWord1,
    GalWord2,
    GalWord3,
    GalWord4,
    GalHealth,
    GpsIon,
    GalIon,
    SentSecond,
    Sat,
    Week,
    Moment,
    Second,
    U<1>,
    S<8>,
);

// The item that one of the key is compared with; `None` for an ionosphere.
pub(crate) fn item_before(known: &BTreeMap<Rank, NavItem>, key: &PeriodKey) -> Option<NavItem>
    ensures { result ≡ known_for key.now known.now.entries }
{
    match key {
        PeriodKey::Gps(_, _) => known.get(&rank_of_key(key)).copied(),
        PeriodKey::Gal(_, _) => known.get(&rank_of_key(key)).copied(),
        PeriodKey::GpsIon(_) => None,
        PeriodKey::GalIon(_) => None,
    }
}

// The item to store for later comparison: that of a complete ephemeris.
fn kept_item(key: &PeriodKey, finding: &Finding) -> Option<NavItem>
    ensures { result ≡ item_to_keep key.now finding.now }
{
    match key {
        PeriodKey::GpsIon(_) => return None,
        PeriodKey::GalIon(_) => return None,
        _ => {}
    }
    match finding {
        Finding::Complete(item) => Some(*item),
        _ => None,
    }
}

// Stores the item of a complete ephemeris in place of the one before.
pub(crate) fn remember(
    known: &mut BTreeMap<Rank, NavItem>,
    key: &PeriodKey,
    finding: &Finding,
) -> Result<(), AllocError>
    ensures ordered { IsStrictlySortedBy rank_cmp.it (keys_of known.new.entries) }
    ensures ok { OnOk result (IsRemembered known.old.entries (rank_of key.now)
        (item_to_keep key.now finding.now) known.new.entries) }
    ensures err { OnErr result (AreSameItems known.old.entries known.new.entries) }
{
    let _inside: Option<Inside> = None;
    let _count = known.len();
    match kept_item(key, finding) {
        None => Ok(()),
        Some(item) => {
            known.insert(rank_of_key(key), item)?;
            Ok(())
        }
    }
}

//! The words that a page part makes with its stored partners.

ghost use Rattle.std.specs.Prelude.{◌≡◌, ℕ, ◌+◌, ◌<◌, ◌≤◌, IfOk};
ghost use Rattle.std.specs.Prelude.{OnErr, OnOk, [], length, map, max, Contains};
ghost use Rattle.nav_eph.specs.declared.sat.System.TheVariants.{Gal};
ghost use Rattle.inav.specs.Pages.{kind_of};
ghost use Rattle.inav.specs.Received.{AreWordsWith, stamp_by};
ghost use Rattle.inav.specs.Keeping.{stamped};
ghost use Rattle.inav.specs.Mirrors.{half_of, HasPartnerStamp};
ghost use Rattle.inav.specs.Kept.{keys_held, keys_in, AreSeconds, HoldsKey, PutsKey};

use crate::half::{Half, HalfKind};
use crate::joined::Joined;
use crate::numbers::number_in;
use crate::seconds::Seconds;
use nav_eph::Signal;
use std::alloc::{AllocError, Global};

// The stamp of the partners of a page part.
fn partner_stamp(kind: HalfKind, stamp: u32) -> Option<u32>
    ensures { HasPartnerStamp kind stamp result }
{
    match kind {
        HalfKind::Even => {
            if stamp < u32::MAX {
                Some(stamp + 1)
            } else {
                None
            }
        }
        HalfKind::Odd => { if 0 < stamp { Some(stamp - 1) } else { None } }
    }
}

// The words that a page part makes with the stored ones, and their stamp.
pub(crate) fn join_with_kept(
    alloc: Global,
    kept: &Seconds,
    stamp: u32,
    number: u8,
    signal: Signal,
    half: &Half,
) -> Result<Joined, AllocError>
    requires number { number < 64 }
    requires seconds { AreSeconds kept.now }
    ensures words { IfOk result (λ joined. AreWordsWith (Contains (map half_of (keys_in kept.now)))
        (stamped stamp (record { system = Gal; number = number }) signal half.now) joined.words) }
    ensures stamp { IfOk result (λ joined. (joined.words ≡ [] → ⊥) →
        joined.stamp ≡ stamp_by (kind_of half.now) stamp) }
    ensures count { IfOk result (λ joined. length joined.words ≤ length (keys_in kept.now)) }
{
    let kind = half.kind();
    let Some(other) = partner_stamp(kind, stamp) else {
        return Ok(Joined::none(alloc));
    };
    let Some(second) = kept.find(other) else {
        return Ok(Joined::none(alloc));
    };
    let words = second.words(alloc, number, signal, half)?;
    let heard = match kind {
        HalfKind::Even => other,
        HalfKind::Odd => stamp,
    };
    Ok(Joined::new(words, heard))
}

// Stores a page part that is not too old, and gives the words that it makes with those stored
// before; none where it was stored already.
pub(crate) fn keep(
    alloc: Global,
    kept: &mut Seconds,
    stamp: u32,
    number: u8,
    signal: Signal,
    half: &Half,
) -> Result<Joined, AllocError>
    requires number { number < 64 }
    requires seconds { AreSeconds kept.old }
    requires recent { kept.old.greatest ≤ stamp + kept.old.window + 1 }
    ensures words { IfOk result (λ joined. (Contains (map half_of (keys_in kept.old))
        (stamped stamp (record { system = Gal; number = number }) signal half.now) → ⊥) →
        AreWordsWith (Contains (map half_of (keys_in kept.old)))
        (stamped stamp (record { system = Gal; number = number }) signal half.now) joined.words) }
    ensures again { IfOk result (λ joined. Contains (map half_of (keys_in kept.old))
        (stamped stamp (record { system = Gal; number = number }) signal half.now) →
        joined.words ≡ []) }
    ensures stamp { IfOk result (λ joined. (joined.words ≡ [] → ⊥) →
        joined.stamp ≡ stamp_by (kind_of half.now) stamp) }
    ensures count { IfOk result (λ joined. length joined.words ≤ length (keys_in kept.old)) }
    ensures kept { OnOk result ((key : ℕ × ℕ) ×
        (half_of key ≡ stamped stamp (record { system = Gal; number = number }) signal half.now) ×
        PutsKey kept.old key kept.new) }
    ensures held { OnOk result ((key : ℕ × ℕ) ×
        (half_of key ≡ stamped stamp (record { system = Gal; number = number }) signal half.now) ×
        HoldsKey kept.old key kept.new) }
    ensures greatest { OnOk result (kept.new.greatest ≡ max kept.old.greatest stamp) }
    ensures window { kept.new.window ≡ kept.old.window }
    ensures seconds { AreSeconds kept.new }
    ensures err { OnErr result (kept.new.greatest ≡ kept.old.greatest) }
    ensures err_keys { OnErr result (keys_in kept.new ≡ keys_in kept.old) }
    ensures err_held { OnErr result
        (keys_held kept.new.places.items ≡ keys_held kept.old.places.items) }
{
    let joined = join_with_kept(alloc, kept, stamp, number, signal, half)?;
    if kept.put(alloc, stamp, number_in(number, signal, half))? {
        return Ok(Joined::none(alloc));
    }
    Ok(joined)
}

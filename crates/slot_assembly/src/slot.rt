//! A slot: the stored form of an open period.

ghost use Rattle.std.specs.Prelude.{◌≡◌, ℕ, true, IfOk, Option, Some};
ghost use Rattle.nav_eph.specs.declared.galileo.GalHealth.{GalHealth};
ghost use Rattle.nav_eph.specs.declared.tag.SentTag.{SentTag};
ghost use Rattle.periods.specs.DigestsOf.{digest_finding, digest_join};
ghost use Rattle.periods.specs.declared.closed.Finding.TheVariants.{Misses};
ghost use Rattle.periods.specs.declared.key.PeriodKey.{PeriodKey};
ghost use Rattle.periods.specs.declared.digest.Digest.TheVariants.{Ion};
ghost use Rattle.slot_assembly.specs.Slots.{IsOne, IsOneSlot, slot_of, slot_place};
ghost use Rattle.slot_assembly.specs.Slots.{slot_with};
ghost use Rattle.slot_assembly.specs.declared.slot.PackedSlot.TheVariants.{Ionosphere};
ghost use Rattle.slot_assembly.specs.declared.slot.Slot.{Slot};

use nav_bits::U;
use nav_eph::{
    GalWord1, GalWord2, GalWord3, GalWord4, GpsClock, GpsOrbitA, GpsOrbitB, GpsSide, Part, Sat,
    SentTag,
};
use periods::{Digest, GalDigest, GpsDigest, PeriodId, PeriodKey, Seen, Transmission, key_of_part};
use std::alloc::{AllocError, Global};

/// An open period: its key, the time tags of its first and last member, and the digest of its
/// members.
#[derive(Clone, Copy)]
pub struct Slot {
    /// The key of its parts.
    pub key: PeriodKey,
    /// The time tag of the first member.
    pub start: u32,
    /// The time tag of the last member.
    pub end: u32,
    /// The digest of the members.
    pub digest: Digest,
}

/// The slot of an ionosphere, as stored.
#[derive(Clone, Copy)]
pub struct IonSlot {
    /// The key of its parts.
    pub key: PeriodKey,
    /// The time tag of the first member.
    pub start: u32,
    /// The time tag of the last member.
    pub end: u32,
    /// The earliest transmission.
    pub transmission: Transmission,
}

/// A slot as stored. That of an ephemeris, four times as large as that of an ionosphere, is in a
/// box, so that many ionospheres take little memory.
#[derive(Drop)]
pub enum PackedSlot {
    /// Of an ephemeris.
    Ephemeris(Box<Slot>),
    /// Of an ionosphere.
    Ionosphere(IonSlot),
}

/// A slot as it is in the map, with the end by which it is listed.
#[derive(Drop)]
pub struct Held {
    /// An end that the slot had: that of its place in the list.
    pub listed: u32,
    /// The slot.
    pub packed: PackedSlot,
}

// Bytes of a slot in the map, and of an ephemeris' slot in its box.
const _: () = prove!(size_of::<Held>() <= 120);

const _: () = prove!(size_of::<Slot>() <= 456);

// The earlier of a transmission and that of another slot of the ionosphere.
fn earlier(transmission: &Transmission, other: &PackedSlot) -> Transmission
    ensures { Ion result ≡ digest_join (Ion transmission.now) (slot_of other.now).digest }
{
    let one = Digest::Ion(*transmission);
    match one.join(other.digest()) {
        Digest::Ion(first) => first,
        Digest::Gps(_) => *transmission,
        Digest::Gal(_) => *transmission,
    }
}

impl Slot {
    // Merges a part of its key into it.
    fn add_part(&mut self, part: &Part)
        ensures { (one : Slot) → IsOneSlot part.now one
            → self.new ≡ slot_with self.old (Some one) }
    {
        self.start = self.start.min(part.stamp);
        self.end = self.end.max(part.stamp);
        self.digest.add(part);
    }

    // Merges another slot of its key into it.
    fn add(&mut self, other: &Slot)
        ensures { self.new ≡ slot_with self.old (Some other.now) }
    {
        self.start = self.start.min(other.start);
        self.end = self.end.max(other.end);
        self.digest = self.digest.join(other.digest);
    }
}

impl IonSlot {
    // Merges a part of its key into it.
    fn add_part(&mut self, part: &Part)
        ensures { (one : Slot) → IsOneSlot part.now one
            → slot_of (Ionosphere self.new) ≡ slot_with (slot_of (Ionosphere self.old))
            (Some one) }
    {
        self.start = self.start.min(part.stamp);
        self.end = self.end.max(part.stamp);
        self.transmission.add(part);
    }

    // Merges another slot of its key into it.
    fn add(&mut self, other: &PackedSlot)
        ensures { slot_of (Ionosphere self.new) ≡ slot_with (slot_of (Ionosphere self.old))
            (Some (slot_of other.now)) }
    {
        self.start = self.start.min(other.start());
        self.end = self.end.max(other.end());
        self.transmission = earlier(&self.transmission, other);
    }
}

impl PackedSlot {
    // Packs a slot.
    pub(crate) fn of(alloc: Global, slot: Slot) -> Result<PackedSlot, AllocError>
        ensures { IfOk result (λ packed. slot_of packed ≡ slot) }
    {
        match &slot.digest {
            Digest::Ion(transmission) => Ok(PackedSlot::Ionosphere(IonSlot {
                key: slot.key,
                start: slot.start,
                end: slot.end,
                transmission: *transmission,
            })),
            _ => Ok(PackedSlot::Ephemeris(Box::new(alloc, slot)?)),
        }
    }

    // Unpacks the slot.
    pub(crate) fn slot(&self) -> Slot
        ensures { result ≡ slot_of self.now }
    {
        match self {
            PackedSlot::Ephemeris(boxed) => **boxed,
            PackedSlot::Ionosphere(slot) => Slot {
                key: slot.key,
                start: slot.start,
                end: slot.end,
                digest: Digest::Ion(slot.transmission),
            },
        }
    }

    // The stamp of its first member.
    pub(crate) fn start(&self) -> u32
        ensures { result ≡ (slot_of self.now).start }
    {
        match self {
            PackedSlot::Ephemeris(boxed) => boxed.start,
            PackedSlot::Ionosphere(slot) => slot.start,
        }
    }

    // The stamp of its last member.
    pub(crate) fn end(&self) -> u32
        ensures { result ≡ (slot_of self.now).end }
    {
        match self {
            PackedSlot::Ephemeris(boxed) => boxed.end,
            PackedSlot::Ionosphere(slot) => slot.end,
        }
    }

    // The key of its parts.
    pub(crate) fn key(&self) -> &PeriodKey
        ensures { result.now ≡ (slot_of self.now).key }
    {
        match self {
            PackedSlot::Ephemeris(boxed) => &boxed.key,
            PackedSlot::Ionosphere(slot) => &slot.key,
        }
    }

    // The end and key of its period.
    pub(crate) fn period(&self) -> PeriodId
        ensures { result ≡ slot_place (slot_of self.now) }
    {
        match self {
            PackedSlot::Ephemeris(boxed) => PeriodId {
                end: boxed.end,
                key: boxed.key,
            },
            PackedSlot::Ionosphere(slot) => PeriodId {
                end: slot.end,
                key: slot.key,
            },
        }
    }

    // A kind of part is missing, and none differs.
    pub(crate) fn lacks_parts(&self) -> bool
        ensures { result ≡ true
            → (r : ℕ) (key : PeriodKey) (health : Option (ℕ × GalHealth × SentTag))
            → digest_finding r key (slot_of self.now).digest health ≡ Misses }
    {
        match self {
            PackedSlot::Ephemeris(boxed) => boxed.digest.lacks_parts(),
            PackedSlot::Ionosphere(_) => false,
        }
    }

    // The digest of its members.
    fn digest(&self) -> Digest
        ensures { result ≡ (slot_of self.now).digest }
    {
        match self {
            PackedSlot::Ephemeris(boxed) => boxed.digest,
            PackedSlot::Ionosphere(slot) => Digest::Ion(slot.transmission),
        }
    }

    // Merges a part of its key into it, in place.
    pub(crate) fn add_part(&mut self, part: &Part)
        ensures { (one : Slot) → IsOneSlot part.now one
            → slot_of self.new ≡ slot_with (slot_of self.old) (Some one) }
    {
        match self {
            PackedSlot::Ephemeris(boxed) => boxed.add_part(part),
            PackedSlot::Ionosphere(slot) => slot.add_part(part),
        }
    }

    // Merges another slot of its key into it, in place.
    pub(crate) fn add(&mut self, other: &PackedSlot)
        ensures { slot_of self.new ≡ slot_with (slot_of self.old) (Some (slot_of other.now)) }
    {
        match self {
            PackedSlot::Ephemeris(boxed) => match other {
                PackedSlot::Ephemeris(more) => boxed.add(more),
                PackedSlot::Ionosphere(_) => boxed.add(&other.slot()),
            },
            PackedSlot::Ionosphere(slot) => slot.add(other),
        }
    }
}

// The slot of one part; `None` for health, which has no key.
pub(crate) fn one_of(part: &Part) -> Option<Slot>
    ensures { IsOne part.now result }
{
    let key = key_of_part(part)?;
    let digest = Digest::of(part)?;
    Some(Slot {
        key,
        start: part.stamp,
        end: part.stamp,
        digest,
    })
}

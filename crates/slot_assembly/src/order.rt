//! The orders in which slots and health are stored.

ghost use Rattle.std.specs.Prelude.{◌≡◌, ◌==◌, ◌&&◌};
ghost use Rattle.nav_eph.specs.Numbers.{health_number};
ghost use Rattle.slot_assembly.specs.Order.{by_end, by_sat, by_stamp, by_start, is_of_rank};
ghost use Rattle.slot_assembly.specs.Order.{is_of_sat, place_of_health, rank_of, sat_place};
ghost use Rattle.slot_assembly.specs.Order.{start_place};

use nav_eph::{GalHealth, Sat, SentTag};
use periods::{PeriodKey, system_number};

/// The numbers by which keys are ordered: class, system, satellite number, and issue of data or
/// content.
#[derive(Clone, Copy, PartialEq, Eq, PartialOrd, Ord)]
pub struct Rank {
    pub class: u8,
    pub system: u8,
    pub number: u8,
    pub issue: u64,
}

/// The place of a slot: by key, then by start.
#[derive(Clone, Copy, PartialEq, Eq, PartialOrd, Ord)]
pub struct ByStart {
    pub class: u8,
    pub system: u8,
    pub number: u8,
    pub issue: u64,
    pub start: u64,
}

/// A place of a slot in the order of periods: by an end that it had, then by key and start.
#[derive(Clone, Copy, PartialEq, Eq, PartialOrd, Ord)]
pub struct ByEnd {
    pub end: u64,
    pub class: u8,
    pub system: u8,
    pub number: u8,
    pub issue: u64,
    pub start: u64,
}

/// The place of a health among those of its satellite: by time tag, then by its bits.
#[derive(Clone, Copy, PartialEq, Eq, PartialOrd, Ord)]
pub struct BySat {
    pub system: u8,
    pub number: u8,
    pub stamp: u64,
    pub bit_pattern: u64,
}

/// The place of a health among all: by time tag, the oldest first.
#[derive(Clone, Copy, PartialEq, Eq, PartialOrd, Ord)]
pub struct ByStamp {
    pub stamp: u64,
    pub system: u8,
    pub number: u8,
    pub bit_pattern: u64,
}

// Bytes of a place in the map, and in the index.
const _: () = prove!(size_of::<ByStart>() <= 24);

const _: () = prove!(size_of::<ByEnd>() <= 32);

// The rank of a key.
pub(crate) fn rank_of_key(key: &PeriodKey) -> Rank
    ensures { result ≡ rank_of key.now }
{
    match key {
        PeriodKey::Gps(sat, issue) => Rank {
            class: 0,
            system: system_number(sat.system()),
            number: sat.number(),
            issue: issue.value(),
        },
        PeriodKey::Gal(sat, issue) => Rank {
            class: 1,
            system: system_number(sat.system()),
            number: sat.number(),
            issue: issue.value(),
        },
        PeriodKey::GpsIon(content) => Rank {
            class: 2,
            system: 0,
            number: 0,
            issue: content.number(),
        },
        PeriodKey::GalIon(content) => Rank {
            class: 3,
            system: 0,
            number: 0,
            issue: content.number(),
        },
    }
}

impl Rank {
    // The place of the slot of the key with a start.
    pub(crate) fn at_start(self, start: u64) -> ByStart
        ensures { result ≡ by_start self start }
    {
        ByStart {
            class: self.class,
            system: self.system,
            number: self.number,
            issue: self.issue,
            start,
        }
    }
}

impl ByStart {
    // The place is one of the key with that rank.
    pub(crate) fn is_of(self, rank: Rank) -> bool
        ensures { result ≡ is_of_rank rank self }
    {
        self.class == rank.class
            && (self.system == rank.system
                && (self.number == rank.number && self.issue == rank.issue))
    }

    // The slot's place in the order of periods by an end.
    pub(crate) fn at_end(self, end: u64) -> ByEnd
        ensures { result ≡ by_end self end }
    {
        ByEnd {
            end,
            class: self.class,
            system: self.system,
            number: self.number,
            issue: self.issue,
            start: self.start,
        }
    }
}

impl ByEnd {
    // The place by key and start.
    pub(crate) fn by_key(self) -> ByStart
        ensures { result ≡ start_place self }
    {
        ByStart {
            class: self.class,
            system: self.system,
            number: self.number,
            issue: self.issue,
            start: self.start,
        }
    }
}

impl BySat {
    // It is a place of the satellite.
    pub(crate) fn is_of(self, sat: Sat) -> bool
        ensures { result ≡ is_of_sat sat self }
    {
        self.system == system_number(sat.system()) && self.number == sat.number()
    }

    // The place by stamp.
    pub(crate) fn among_all(self) -> ByStamp
        ensures { result ≡ by_stamp self }
    {
        ByStamp {
            stamp: self.stamp,
            system: self.system,
            number: self.number,
            bit_pattern: self.bit_pattern,
        }
    }
}

impl ByStamp {
    // The place by satellite.
    pub(crate) fn of_sat(self) -> BySat
        ensures { result ≡ sat_place self }
    {
        BySat {
            system: self.system,
            number: self.number,
            stamp: self.stamp,
            bit_pattern: self.bit_pattern,
        }
    }
}

// A place by satellite, stamp and bits.
pub(crate) fn place_in_sat(sat: Sat, stamp: u64, bit_pattern: u64) -> BySat
    ensures { result ≡ by_sat sat stamp bit_pattern }
{
    BySat {
        system: system_number(sat.system()),
        number: sat.number(),
        stamp,
        bit_pattern,
    }
}

// The place of a satellite's health.
pub(crate) fn place_of_received(sat: Sat, health: &(u32, GalHealth, SentTag)) -> BySat
    ensures { result ≡ place_of_health sat health.now }
{
    place_in_sat(sat, health.0 as u64, health.1.number_with(&health.2))
}

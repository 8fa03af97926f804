//! The items that a stream gave so far: each is written at its first occurrence only.

ghost use Rattle.std.specs.Prelude.{◌≡◌, ◌||◌, not, false, ℕ, List};
ghost use Rattle.std.specs.Prelude.{None, OnOk, OnErr, IfOk, IsTrue, replicate};
ghost use Rattle.nav_eph.specs.declared.items.NavItem.{NavItem};
ghost use Rattle.rtcm_eph.specs.Writing.{bytes_1019, bytes_1046};
ghost use Rattle.streams.specs.Mirrors.{IsReadOf, KeptMore, KeptPlaces, NothingKept};
ghost use Rattle.streams.specs.Mirrors.{StandsIn, has_key, is_given, sent_alike};

use crate::messages::Messages;
use crate::seen::{RecentMessages, place_of};
use crate::stream_sent::{sent_1019, sent_1046};
use nav_eph::NavItem;
use std::alloc::{AllocError, Global};
use std::marker::Model;

/// The RTCM messages of the ephemerides that were given, each once: two ephemerides of a stream are
/// equal where the same message encodes them. A cache of payloads as they came saves the decoding
/// of most repeats.
#[derive(Drop)]
pub struct ItemsGiven {
    gps: Messages<61>,
    gal: Messages<63>,
    gps_seen: RecentMessages<61>,
    gal_seen: RecentMessages<63>,
}

impl Model for ItemsGiven {
    ghost use Rattle.streams.specs.Mirrors.{GivenState};

    ghost Value = { GivenState };

    ghost view = { λ g. record {
      gps = g.gps;
      gal = g.gal;
      gps_seen = g.gps_seen.places;
      gal_seen = g.gal_seen.places;
    } };
}

impl ItemsGiven {
    /// Nothing was given.
    pub fn new(alloc: Global) -> ItemsGiven
        ensures none { (other : NavItem) → is_given result other ≡ false }
        ensures kept { NothingKept result }
    {
        ItemsGiven {
            gps: Messages::new(alloc),
            gal: Messages::new(alloc),
            gps_seen: RecentMessages::new(),
            gal_seen: RecentMessages::new(),
        }
    }

    /// Whether this payload is in the cache; its item was given then.
    pub fn knows(&self, payload: &[u8]) -> bool
        ensures { IsTrue result → StandsIn self.now payload.now }
    {
        if payload.len() == 61 {
            return self.gps_seen.holds(payload, place_of(payload, 6));
        }
        payload.len() == 63 && self.gal_seen.holds(payload, place_of(payload, 4))
    }

    // Caches a payload whose item was given, if it is as long as its message: 61 or 63 bytes.
    fn keep(&mut self, payload: &[u8])
        ensures { KeptMore self.old self.new payload.now }
    {
        if payload.len() == 61 {
            self.gps_seen.keep(payload, place_of(payload, 6));
        } else if payload.len() == 63 {
            self.gal_seen.keep(payload, place_of(payload, 4));
        }
    }

    // Adds the item that was read from a payload, by the message that encodes it; whether the item
    // is new.
    fn add_item(&mut self, item: &NavItem, payload: &[u8]) -> Result<bool, AllocError>
        requires read { IsReadOf payload.now item.now }
        ensures added { IfOk result (λ added. added ≡ not (is_given self.old item.now)) }
        ensures adds { OnOk result ((other : NavItem)
            → is_given self.new other ≡ (sent_alike item.now other || is_given self.old other)) }
        ensures same { OnOk result ((self.new.gps_seen ≡ self.old.gps_seen)
            × (self.new.gal_seen ≡ self.old.gal_seen)) }
    {
        match item {
            NavItem::Gps(e) => self.gps.add(&sent_1019(e, payload)),
            NavItem::Gal(e) => self.gal.add(&sent_1046(e, payload)),
            NavItem::Ion(_) => Ok(true),
        }
    }

    /// Adds the item that was read from a payload, and caches the payload; whether the item is new.
    ///
    /// # Errors
    ///
    /// `AllocError` if out of memory.
    pub fn add(&mut self, item: &NavItem, payload: &[u8]) -> Result<bool, AllocError>
        requires read { IsReadOf payload.now item.now }
        ensures added { IfOk result (λ added. added ≡ not (is_given self.old item.now)) }
        ensures adds { OnOk result ((other : NavItem)
            → is_given self.new other ≡ (sent_alike item.now other || is_given self.old other)) }
        ensures kept { OnOk result (KeptPlaces self.old self.new payload.now) }
    {
        let added = self.add_item(item, payload)?;
        self.keep(payload);
        Ok(added)
    }
}

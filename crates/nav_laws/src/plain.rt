//! The plain assembly: it keeps all parts and searches.

ghost use Rattle.std.specs.Prelude.{◌≡◌, ◌≤◌, ◌<◌, ◌+◌, ◌^◌};

use crate::due::first_due;
use crate::kept::keep;
use nav_eph::{Part, RefWeek};
use periods::{Closed, PeriodId, note_value, verdict_on};
use slot_assembly::Assembly;
use std::alloc::{AllocError, Global};
use std::marker::Model;

/// An assembly that keeps every part, and searches them all for what is closed, as the definition
/// states.
///
/// A contract sees the reference week `reference`, the `window` in seconds, the `parts` that it
/// keeps, the greatest `watermark` given, the `last` period given, and the greatest watermark
/// `none_at` at which no period was due.
#[derive(Drop)]
pub struct PlainAssembly {
    parts: Vec<Part>,
    reference: RefWeek,
    window: u32,
    watermark: u64,
    last: Option<PeriodId>,
    // no kept part has an earlier stamp
    least: u32,
    // the greatest watermark at which no period was due
    none_at: u64,
}

impl Model for PlainAssembly {
    ghost use Rattle.nav_laws.specs.Plain.{PlainState};

    ghost Value = { PlainState };

    ghost view = { λ s. record {
      reference = s.reference;
      window = s.window;
      parts = s.parts.items;
      watermark = s.watermark;
      last = s.last;
      least = s.least;
      none_at = s.none_at;
    } };
}

impl PlainAssembly {
    ghost use Rattle.nav_laws.specs.Plain.{PlainStandsFor};
    ghost use Rattle.slot_assembly.specs.Standing.{nothing_yet};

    /// An assembly without parts, for the reference week `r`, with a window of 60 to 14,400
    /// seconds.
    pub fn new(alloc: Global, r: RefWeek, window: u32) -> PlainAssembly
        requires least { 60 ≤ window }
        requires most { window ≤ 14400 }
        ensures reference { result.reference ≡ r }
        ensures window { result.window ≡ window }
        ensures stands { PlainStandsFor result nothing_yet }
        ensures none_at { result.none_at ≡ 0 }
    {
        PlainAssembly {
            parts: Vec::new(alloc),
            reference: r,
            window,
            watermark: 0,
            last: None,
            least: u32::MAX,
            none_at: 0,
        }
    }
}

impl Assembly for PlainAssembly {
    ghost use Rattle.nav_laws.specs.Plain.{PlainStandsFor, plain_left};
    ghost use Rattle.nav_laws.specs.PlainLaws.{parts_are_a_set, parts_are_values};

    ghost reference = { λ s. s.reference };

    ghost window = { λ s. s.window };

    ghost stands_for = { PlainStandsFor };

    ghost left = { plain_left };

    ghost none_at = { λ s. s.none_at };

    fn take(&mut self, part: &Part) -> Result<(), AllocError> {
        note_value(part);
        keep(&mut self.parts, part)?;
        self.least = self.least.min(part.stamp);
        Ok(())
    }

    fn next_closed(&mut self, watermark: u64) -> Result<Option<Closed>, AllocError> {
        // No period was due at this watermark, and parts added since do not end before it; or no
        // kept part is old enough.
        if watermark <= self.none_at || watermark <= self.least as u64 + self.window as u64 {
            self.watermark = watermark;
            self.none_at = watermark;
            return Ok(None);
        }
        match first_due(&self.parts, self.window, watermark, &self.last) {
            None => {
                self.watermark = watermark;
                self.none_at = watermark;
                Ok(None)
            }
            Some(place) => {
                let said = verdict_on(&self.parts, self.reference, self.window, &place);
                self.watermark = watermark;
                self.last = Some(place);
                Ok(Some(Closed {
                    end: place.end,
                    key: place.key,
                    verdict: said,
                }))
            }
        }
    }

    ghost parts_are_values = { parts_are_values };

    ghost parts_are_a_set = { parts_are_a_set };
}

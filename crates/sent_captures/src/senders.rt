//! Tables of the values and pages that the satellites send.

ghost use Rattle.std.specs.Prelude.{◌≡◌, ℕ, ◌+◌, ◌*◌};
ghost use Rattle.std.specs.Prelude.{◌<◌, ◌≤◌, IfOk, OnOk, length};
ghost use Rattle.std.specs.List.{HoldsAt};
ghost use Rattle.sent_captures.specs.Draws.{state_after};
ghost use Rattle.sent_captures.specs.Values.{gal_values, gps_values};
ghost use Rattle.sent_captures.specs.Mirrors.{AreTables};

use crate::pages::{Page, empty_page, pages_of};
use crate::values::{GalValues, GpsValues, draw_gal, draw_gal_ion, draw_gps, draw_gps_ion};
use nav_eph::{GpsIon, RefWeek};
use std::alloc::{AllocError, Global};

/// The values and pages that the satellites send.
#[derive(Drop)]
pub struct Senders {
    /// The seed of the random values.
    pub seed: u32,
    /// The number of satellites of each system.
    pub sats: u8,
    /// The week in which they send.
    pub week: RefWeek,
    /// The values of the GPS satellites.
    pub gps: Vec<GpsValues>,
    /// The ionosphere of GPS.
    pub ion: GpsIon,
    /// The pages of the Galileo satellites that are not empty.
    pub pages: Vec<Page>,
    /// The empty page.
    pub empty: Page,
}

// Draws the values of the GPS satellites.
fn draw_all_gps(alloc: Global, state: &mut u64, sats: u8) -> Result<Vec<GpsValues>, AllocError>
    ensures after { OnOk result (state.new ≡ state_after state.old (24 * sats)) }
    ensures count { IfOk result (λ all. length all.items ≡ sats) }
    ensures values { IfOk result (λ all. (i : ℕ) → i < sats →
        HoldsAt (λ v. v ≡ gps_values (state_after state.old (24 * i))) all.items i) }
{
    let mut all = Vec::new(alloc);
    'satellites: for _i in 0..sats {
        all.push(draw_gps(state))?;
    }
    Ok(all)
}

// Draws the values of the Galileo satellites.
fn draw_all_gal(alloc: Global, state: &mut u64, sats: u8) -> Result<Vec<GalValues>, AllocError>
    ensures after { OnOk result (state.new ≡ state_after state.old (21 * sats)) }
    ensures count { IfOk result (λ all. length all.items ≡ sats) }
    ensures values { IfOk result (λ all. (i : ℕ) → i < sats →
        HoldsAt (λ v. v ≡ gal_values (state_after state.old (21 * i))) all.items i) }
{
    let mut all = Vec::new(alloc);
    'satellites: for _i in 0..sats {
        all.push(draw_gal(state))?;
    }
    Ok(all)
}

// The values and pages of `sats` satellites of each system in a week.
pub(crate) fn senders_of(
    alloc: Global,
    seed: u32,
    sats: u8,
    week: RefWeek,
) -> Result<Senders, AllocError>
    requires { sats ≤ 32 }
    ensures seed { IfOk result (λ senders. senders.seed ≡ seed) }
    ensures sats { IfOk result (λ senders. senders.sats ≡ sats) }
    ensures week { IfOk result (λ senders. senders.week ≡ week) }
    ensures tables { IfOk result (λ senders. AreTables senders) }
{
    let mut state = u64::from(seed);
    let gps = draw_all_gps(alloc, &mut state, sats)?;
    let gal = draw_all_gal(alloc, &mut state, sats)?;
    let ion = draw_gps_ion(&mut state);
    let gal_ion = draw_gal_ion(&mut state);
    let pages = pages_of(alloc, gal.as_slice(), &gal_ion, week)?;
    Ok(Senders {
        seed,
        sats,
        week,
        gps,
        ion,
        pages,
        empty: empty_page(),
    })
}

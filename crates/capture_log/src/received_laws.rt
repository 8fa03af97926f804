//! Theorems about the periods of the received parts. Each function does nothing; its contract is
//! the theorem.

ghost use Rattle.std.specs.Prelude.{◌≡◌, ℕ, List, All};
ghost use Rattle.nav_eph.specs.Weeks.{IsReference};
ghost use Rattle.nav_eph.specs.Ranges.{IsItem};
ghost use Rattle.nav_eph.specs.Values.{HasPartRanges};
ghost use Rattle.nav_eph.specs.declared.part.Part.{Part};
ghost use Rattle.periods.specs.declared.closed.Closed.{Closed};
ghost use Rattle.periods.specs.PeriodLists.{ArePeriods, items_in};
ghost use Rattle.periods.specs.PeriodsOf.{periods_of};
ghost use Rattle.nav_io.specs.Lines.{Line};
ghost use Rattle.capture_log.specs.Log.{line_items_of, parts_of};
ghost use Rattle.capture_log.specs.Received.{IsPartReceived};

use crate::laws::{
    lines_yield_what_is_received, parts_of_lines_are_sendable, parts_of_lines_are_values,
};

/// Each received part has a satellite of its system and each field within its width.
pub fn parts_received_have_ranges()
    ensures { (window : ℕ) (lines : List Line) (part : Part)
        → IsPartReceived window (line_items_of lines) part → HasPartRanges part }
{
    lnav_subframe::subframe_parts();
    inav::word_parts();
    rtcm_eph::message_parts();
    capture_lines::each_line_stands_for_one_thing();
}

/// The set of received parts has exactly one list of periods, and near a reference week each of its
/// items is consistent.
pub fn periods_received()
    ensures some { (r window : ℕ) (lines : List Line)
        → ArePeriods r window (IsPartReceived window (line_items_of lines))
        (periods_of r window (parts_of window lines)) }
    ensures only { (r window : ℕ) (lines : List Line) (some other : List Closed)
        → ArePeriods r window (IsPartReceived window (line_items_of lines)) some
        → ArePeriods r window (IsPartReceived window (line_items_of lines)) other → some ≡ other }
    ensures items { (r window : ℕ) (lines : List Line) (periods : List Closed) → IsReference r
        → ArePeriods r window (IsPartReceived window (line_items_of lines)) periods
        → All IsItem (items_in periods) }
{
    periods::items_fit_together();
    parts_of_lines_are_values();
    parts_of_lines_are_sendable();
    parts_received_have_ranges();
    lines_yield_what_is_received();
}

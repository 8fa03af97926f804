//! Theorems about what is received. Each function does nothing; its contract is the theorem.

ghost use Rattle.std.specs.Prelude.{◌≡◌, ℕ, ◌+◌, ◌^◌, ◌<◌, ◌≤◌};
ghost use Rattle.std.specs.Prelude.{◌++◌, ◌↔◌, List, length, Some, All};
ghost use Rattle.std.specs.Prelude.{Contains};
ghost use Rattle.nav_eph.specs.declared.part.Part.{Part};
ghost use Rattle.nav_eph.specs.Conditions.{IsPart};
ghost use Rattle.nav_eph.specs.Values.{IsPartValue};
ghost use Rattle.periods.specs.declared.closed.Closed.{Closed};
ghost use Rattle.periods.specs.PeriodLists.{AreClosed, ArePeriods, IsPeriodPrefix, items_in};
ghost use Rattle.periods.specs.PeriodsOf.{closed_of, periods_of};
ghost use Rattle.nav_io.specs.Lines.{Line};
ghost use Rattle.capture_lines.specs.Late.{stamp_of};
ghost use Rattle.capture_lines.specs.declared.item.LineItem.{LineItem};
ghost use Rattle.capture_log.specs.Events.{nothing_known};
ghost use Rattle.capture_log.specs.Log.{line_items_of, known_from};
ghost use Rattle.capture_log.specs.Log.{log_from, log_of, watermark_after};
ghost use Rattle.capture_log.specs.Log.{parts_in, parts_of};
ghost use Rattle.capture_log.specs.Received.{IsPartReceived, NoneLate, SameItems};

/// The parts in the log of the items are those received in all items.
pub fn taken_parts_are_received()
    ensures { (window number : ℕ) (items : List LineItem) (part : Part)
        → Contains (parts_in (log_from window nothing_known number items)) part
        ↔ IsPartReceived window items part }
{
    inav::halves_are_decided();
    inav::words_are_the_function();
    capture_lines::late_is_behind_the_greatest_stamp();
}

/// Each received part is a value: its time tag has 32 bits if those of the items have, and each
/// field is within its width.
pub fn parts_received_are_values()
    ensures { (window number : ℕ) (items : List LineItem)
        → All (λ item. (s : ℕ) → stamp_of item ≡ Some s → s < 2 ^ 32) items
        → All IsPartValue (parts_in (log_from window nothing_known number items)) }
{
    lnav_subframe::subframe_parts();
    inav::word_parts();
    rtcm_eph::message_parts();
    taken_parts_are_received();
}

/// The same of the lines of a capture.
pub fn parts_of_lines_are_values()
    ensures { (window : ℕ) (lines : List Line) → All IsPartValue (parts_of window lines) }
{
    capture_lines::stamps_have_32_bits();
    parts_received_are_values();
}

/// Each part of the lines of a capture can be sent by its satellite.
pub fn parts_of_lines_are_sendable()
    ensures { (window : ℕ) (lines : List Line)
        → All (λ part. IsPart part.sat part.body) (parts_of window lines) }
{
    lnav_subframe::subframe_parts();
    inav::word_parts();
    rtcm_eph::message_parts();
    capture_lines::each_line_stands_for_one_thing();
}

/// The periods of the parts in the log of the items are those of the parts received in all items.
pub fn periods_are_those_received()
    ensures { (r window number : ℕ) (items : List LineItem)
        → All IsPartValue (parts_in (log_from window nothing_known number items))
        → ArePeriods r window (IsPartReceived window items)
        (periods_of r window (parts_in (log_from window nothing_known number items))) }
{
    periods::periods_are();
    taken_parts_are_received();
}

/// What the lines of a capture give, stated over all of them at once. The parts are those received,
/// a set of values; the periods are those of that set, and those closed at the watermark are the
/// closed ones of that set. The set has no other list of periods, and none of periods closed at a
/// watermark.
pub fn lines_yield_what_is_received()
    ensures parts { (window : ℕ) (lines : List Line) (part : Part)
        → Contains (parts_of window lines) part ↔ IsPartReceived window (line_items_of lines) part }
    ensures values { (window : ℕ) (lines : List Line) (part : Part)
        → IsPartReceived window (line_items_of lines) part → IsPartValue part }
    ensures periods { (r window : ℕ) (lines : List Line)
        → ArePeriods r window (IsPartReceived window (line_items_of lines))
        (periods_of r window (parts_of window lines)) }
    ensures closed { (r window : ℕ) (lines : List Line)
        → AreClosed r window (IsPartReceived window (line_items_of lines))
        (watermark_after window lines)
        (closed_of r window (watermark_after window lines) (parts_of window lines)) }
    ensures only { (r window : ℕ) (lines : List Line) (some other : List Closed)
        → ArePeriods r window (IsPartReceived window (line_items_of lines)) some
        → ArePeriods r window (IsPartReceived window (line_items_of lines)) other → some ≡ other }
    ensures only_closed { (r window watermark : ℕ) (lines : List Line) (some other : List Closed)
        → AreClosed r window (IsPartReceived window (line_items_of lines)) watermark some
        → AreClosed r window (IsPartReceived window (line_items_of lines)) watermark other
        → some ≡ other }
{
    taken_parts_are_received();
    parts_of_lines_are_values();
    periods_are_those_received();
}

/// If no item is late, the set of items alone determines the periods, and so the ephemerides and
/// ionosphere parameters in them; order and repetition do not matter.
pub fn order_of_items_does_not_matter()
    ensures periods { (r window m n : ℕ) (some other : List LineItem) → SameItems some other
        → NoneLate window some → NoneLate window other
        → All IsPartValue (parts_in (log_from window nothing_known m some))
        → periods_of r window (parts_in (log_from window nothing_known m some))
        ≡ periods_of r window (parts_in (log_from window nothing_known n other)) }
    ensures items { (r window m n : ℕ) (some other : List LineItem) → SameItems some other
        → NoneLate window some → NoneLate window other
        → All IsPartValue (parts_in (log_from window nothing_known m some))
        → items_in (periods_of r window (parts_in (log_from window nothing_known m some)))
        ≡ items_in (periods_of r window (parts_in (log_from window nothing_known n other))) }
{
    periods::order_does_not_matter();
    taken_parts_are_received();
}

/// The same of the lines of two captures with one window: if no line is late and the same items are
/// in them, the periods, ephemerides and ionosphere parameters are the same.
pub fn order_of_lines_does_not_matter()
    ensures periods { (r window : ℕ) (some other : List Line)
        → SameItems (line_items_of some) (line_items_of other)
        → NoneLate window (line_items_of some) → NoneLate window (line_items_of other)
        → periods_of r window (parts_of window some) ≡ periods_of r window (parts_of window other) }
    ensures items { (r window : ℕ) (some other : List Line)
        → SameItems (line_items_of some) (line_items_of other)
        → NoneLate window (line_items_of some) → NoneLate window (line_items_of other)
        → items_in (periods_of r window (parts_of window some))
        ≡ items_in (periods_of r window (parts_of window other)) }
{
    parts_of_lines_are_values();
    order_of_items_does_not_matter();
}

/// What some lines give stays as more come, and what those give follows it. The same holds of the
/// state after them, and the watermark never falls.
pub fn further_lines_go_on()
    ensures log { (window : ℕ) (lines more : List Line) → log_of window (lines ++ more)
        ≡ log_of window lines
        ++ log_from window (known_from window nothing_known (line_items_of lines))
        (2 + length lines) (line_items_of more) }
    ensures known { (window : ℕ) (lines more : List Line)
        → known_from window nothing_known (line_items_of (lines ++ more))
        ≡ known_from window (known_from window nothing_known (line_items_of lines))
        (line_items_of more) }
    ensures watermark { (window : ℕ) (lines more : List Line)
        → watermark_after window lines ≤ watermark_after window (lines ++ more) }
{}

/// The parts of some lines stay as more come. The parts of the further lines follow them, none with
/// a time tag before the watermark.
pub fn further_lines_are_later()
    ensures { (window : ℕ) (lines more : List Line) → (later : List Part)
        × (parts_of window (lines ++ more) ≡ parts_of window lines ++ later)
        × All (λ p. watermark_after window lines ≤ p.stamp) later }
{
    lnav_subframe::subframe_parts();
    inav::word_parts();
    rtcm_eph::message_parts();
}

/// The periods closed by some lines stay as more come, as a prefix of those closed then and of all.
pub fn what_is_closed_stays()
    ensures later { (r window : ℕ) (lines more : List Line)
        → closed_of r window (watermark_after window lines) (parts_of window (lines ++ more))
        ≡ closed_of r window (watermark_after window lines) (parts_of window lines) }
    ensures rise { (r window : ℕ) (lines more : List Line)
        → IsPeriodPrefix (closed_of r window (watermark_after window lines) (parts_of window lines))
        (closed_of r window (watermark_after window (lines ++ more))
        (parts_of window (lines ++ more))) }
    ensures prefix { (r window : ℕ) (lines more : List Line)
        → IsPeriodPrefix (closed_of r window (watermark_after window lines) (parts_of window lines))
        (periods_of r window (parts_of window (lines ++ more))) }
{
    periods::closed_stays();
    parts_of_lines_are_values();
    further_lines_are_later();
}

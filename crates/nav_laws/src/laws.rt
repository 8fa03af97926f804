//! The theorems: each is the contract of an empty function.

ghost use Rattle.std.specs.Prelude.{◌≡◌, ◌∷◌, ◌↔◌, ℕ};
ghost use Rattle.std.specs.Prelude.{List, None, Some, All, Contains, codes};
ghost use Rattle.std.specs.Prelude.{false};
ghost use Rattle.nav_io.specs.Lines.{Line, lines_by};
ghost use Rattle.nav_eph.specs.Ranges.{IsItem};
ghost use Rattle.nav_eph.specs.declared.items.NavItem.{NavItem};
ghost use Rattle.nav_eph.specs.declared.part.Part.{Part};
ghost use Rattle.capture_lines.specs.Heads.{head_of, plain_head};
ghost use Rattle.periods.specs.PeriodLists.{items_in};
ghost use Rattle.periods.specs.PeriodsOf.{periods_of};
ghost use Rattle.capture_log.specs.Received.{NoneLate, SameItems};
ghost use Rattle.capture_log.specs.Log.{line_items_of, parts_of};
ghost use Rattle.sent_captures.specs.Sendable.{sendable, sent_lines, sent_text};
ghost use Rattle.sent_captures.specs.SentItems.{sent_items};
ghost use Rattle.nav_laws.specs.SentAgain.{AreRepeats, AreSentAgain, AreTurned, IsReceivedAgain};
ghost use Rattle.nav_laws.specs.SentAgain.{IsSentAgain, SameByType};
ghost use Rattle.nav_laws.specs.SentCapture.{IsOfLines, IsStillReceived, sent_capture};
ghost use Rattle.nav_laws.specs.SlotParts.{slots_parts};

/// The items of the periods of the parts of all slots are those that are read again of a
/// transmitted list.
pub fn parts_of_slots_come_back()
    ensures { (r : ℕ) (items : List NavItem) → All IsItem items
        → items_in (periods_of r 7200 (slots_parts 0 (sendable r 0 items))) ≡ sent_items r items }
{}

/// The capture that transmits items begins with a head that names no week and a window of 7,200 s,
/// its further lines are those of the slots, and exactly the parts of the slots are received from
/// them. From lines that repeat them, every 30 s for two hours, the same parts are received, at
/// other seconds of their slots, and no others.
pub fn what_is_sent_is_received()
    ensures head { (r : ℕ) (items : List NavItem) → lines_by false (sent_text r items)
        ≡ record { text = plain_head; long = false } ∷ sent_capture r items }
    ensures window { head_of plain_head ≡ Some (record { window = 7200; week = None }) }
    ensures items { (r : ℕ) (items : List NavItem) → All IsItem items
        → line_items_of (sent_capture r items) ≡ sent_lines r items }
    ensures parts { (r : ℕ) (items : List NavItem) (part : Part) → All IsItem items
        → Contains (parts_of 7200 (sent_capture r items)) part
        ↔ Contains (slots_parts 0 (sendable r 0 items)) part }
    ensures repeats { (r : ℕ) (items : List NavItem) (lines : List Line) (part : Part)
        → All IsItem items → AreRepeats lines (sent_capture r items)
        → Contains (parts_of 7200 lines) part → (sent : Part)
        × Contains (parts_of 7200 (sent_capture r items)) sent × IsSentAgain part sent }
{
    nav_io::written_lines_are_given();
    capture_lines::spellings_are_lines();
    capture_lines::each_line_stands_for_one_thing();
    capture_lines::texts_stand_for_their_items();
    lnav_subframe::subframe_bytes_are_written();
    inav::word_bytes();
    inav::written_word1_is_read();
    inav::written_word2_is_read();
    inav::written_word3_is_read();
    inav::written_word4_is_read();
    inav::written_word5_is_read();
    inav::split_is_a_word();
    inav::halves_are_read_again();
    inav::parts_are_their_bits();
    capture_log::lines_yield_what_is_received();
}

/// What is transmitted is read again. Take a capture with a window of 7,200 s from whose further
/// lines the same parts are received as from the transmission of a list of items. Its items are
/// each ephemeris that may be transmitted, with the transmission time of its slot, unless it
/// repeats the last one of its key in every field but that time; after each of Galileo the
/// ionosphere of its slot; and no others.
///
/// This holds for a capture whose lines with a time tag are lines of the transmission, late or not,
/// as long as each part is still received; and for one that has the same lines in another order or
/// repeated, if none is late.
///
/// Nor does it matter which transmission of a part is received: if each part is received at least
/// once, at whatever second of the first two hours of its slot, the ephemerides are the same in the
/// same order, and the ionospheres too. An ionosphere comes before the ephemeris of its slot only
/// if it was received before a word of it. So the transmission may be repeated every 30 s, and any
/// lines be lost, late or in another order, as long as each part is received.
pub fn what_is_sent_comes_back()
    ensures itself { (r : ℕ) (items : List NavItem) → All IsItem items
        → items_in (periods_of r 7200 (parts_of 7200 (sent_capture r items)))
        ≡ sent_items r items }
    ensures parts { (r : ℕ) (items : List NavItem) (lines : List Line) → All IsItem items
        → ((part : Part) → Contains (parts_of 7200 lines) part
        ↔ Contains (parts_of 7200 (sent_capture r items)) part)
        → items_in (periods_of r 7200 (parts_of 7200 lines)) ≡ sent_items r items }
    ensures lost { (r : ℕ) (items : List NavItem) (lines : List Line) → All IsItem items
        → IsOfLines lines (sent_capture r items) → IsStillReceived (sent_capture r items) lines
        → items_in (periods_of r 7200 (parts_of 7200 lines)) ≡ sent_items r items }
    ensures reordered { (r : ℕ) (items : List NavItem) (lines : List Line) → All IsItem items
        → SameItems (line_items_of lines) (line_items_of (sent_capture r items))
        → NoneLate 7200 (line_items_of lines)
        → items_in (periods_of r 7200 (parts_of 7200 lines)) ≡ sent_items r items }
    ensures again { (r : ℕ) (items : List NavItem) (lines : List Line) → All IsItem items
        → AreSentAgain (parts_of 7200 lines) (parts_of 7200 (sent_capture r items))
        → SameByType (items_in (periods_of r 7200 (parts_of 7200 lines))) (sent_items r items) }
    ensures in_order { (r : ℕ) (items : List NavItem) (lines : List Line) → All IsItem items
        → AreSentAgain (parts_of 7200 lines) (parts_of 7200 (sent_capture r items))
        → (AreTurned (parts_of 7200 lines) → ⊥)
        → items_in (periods_of r 7200 (parts_of 7200 lines)) ≡ sent_items r items }
    ensures repeated { (r : ℕ) (items : List NavItem) (lines : List Line) → All IsItem items
        → AreRepeats lines (sent_capture r items) → IsReceivedAgain (sent_capture r items) lines
        → SameByType (items_in (periods_of r 7200 (parts_of 7200 lines))) (sent_items r items) }
{
    periods::order_does_not_matter();
    capture_log::parts_of_lines_are_values();
    capture_log::lines_yield_what_is_received();
    parts_of_slots_come_back();
    what_is_sent_is_received();
}

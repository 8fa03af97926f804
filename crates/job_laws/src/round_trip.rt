//! The round trip of a navigation file through a capture, by command lines: the contract of an
//! empty function.

ghost use Rattle.std.specs.Prelude.{◌≡◌, ℕ, List, Some};
ghost use Rattle.nav_eph.specs.declared.items.NavItem.{NavItem};
ghost use Rattle.sent_captures.specs.SentItems.{sent_items};
ghost use Rattle.capture_log.specs.Log.{parts_of};
ghost use Rattle.nav_laws.specs.SentAgain.{AreRepeats, AreTurned, IsReceivedAgain, SameByType};
ghost use Rattle.nav_laws.specs.SentCapture.{sent_capture};
ghost use Rattle.captures.specs.Captures.{Capture, capture_of};
ghost use Rattle.captures.specs.declared.target.CaptureTo.{CaptureTo};
ghost use Rattle.job_laws.specs.RoundTrip.{AreReceived, AreTwoRuns, IsOfEphemerides, IsOfItems};
ghost use Rattle.job_laws.specs.RoundTrip.{Sends, items_text};
ghost use Rattle.job_laws.specs.Written.{IsWritten};

/// A navigation file that is accepted is written as a capture, and what is received of its lines is
/// converted back to the text of the items that were sent, in RINEX, RINEX 3 or RTCM: where lines
/// were lost, or late, and each part is still received; or if they came in another order or
/// repeated, none late.
///
/// If the transmission was repeated every 30 s for two hours, and each part was received at least
/// once, the text is that of the same ephemerides in the same order, and of the same ionospheres in
/// the same order; so in RINEX 3 and RTCM, which have no ionospheres, the same text. In RINEX 4
/// too, if no ionosphere was received before a word of its slot.
pub fn a_sent_file_comes_back()
    ensures sent { (words : List (List ℕ)) (r : ℕ) (file text : List ℕ) (items : List NavItem)
        → Sends words r file items → IsWritten words file text
        → capture_of (Some r) text
        ≡ Some (record { window = 7200; week = r; lines = sent_capture r items }) }
    ensures received { (r : ℕ) (to : CaptureTo) (items : List NavItem)
        (sent received : Capture) (text : List ℕ) → AreTwoRuns r to items sent received text
        → IsOfItems to → AreReceived sent.lines received.lines
        → text ≡ items_text to (sent_items r items) }
    ensures repeated { (r : ℕ) (to : CaptureTo) (items : List NavItem)
        (sent received : Capture) (text : List ℕ) → AreTwoRuns r to items sent received text
        → IsOfItems to → AreRepeats received.lines sent.lines
        → IsReceivedAgain sent.lines received.lines → (back : List NavItem)
        × SameByType back (sent_items r items) × (text ≡ items_text to back) }
    ensures ephemerides { (r : ℕ) (to : CaptureTo) (items : List NavItem)
        (sent received : Capture) (text : List ℕ) → AreTwoRuns r to items sent received text
        → IsOfEphemerides to → AreRepeats received.lines sent.lines
        → IsReceivedAgain sent.lines received.lines → text ≡ items_text to (sent_items r items) }
    ensures in_order { (r : ℕ) (to : CaptureTo) (items : List NavItem)
        (sent received : Capture) (text : List ℕ) → AreTwoRuns r to items sent received text
        → IsOfItems to → AreRepeats received.lines sent.lines
        → IsReceivedAgain sent.lines received.lines
        → (AreTurned (parts_of 7200 received.lines) → ⊥)
        → text ≡ items_text to (sent_items r items) }
{
    bridge_engine::words_give_one_job();
    rinex_read::listed_items_are_whole();
    nav_laws::what_is_sent_is_received();
    nav_laws::what_is_sent_comes_back();
}

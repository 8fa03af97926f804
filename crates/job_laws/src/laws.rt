//! Theorems about conversions of captures: each is the contract of an empty function.

ghost use Rattle.std.specs.Prelude.{◌≡◌, ◌↔◌, ℕ, List, Contains, Option, Some, IfSome};
ghost use Rattle.nav_io.specs.Lines.{Line};
ghost use Rattle.capture_lines.specs.declared.item.LineItem.{LineItem};
ghost use Rattle.periods.specs.PeriodLists.{ArePeriods, items_in};
ghost use Rattle.periods.specs.declared.closed.Closed.{Closed};
ghost use Rattle.nav_eph.specs.Weeks.{IsReference};
ghost use Rattle.rinex_write.specs.Texts.{IsHeader};
ghost use Rattle.rinex_write.specs.declared.words.HeaderWords.{HeaderWords};
ghost use Rattle.streams.specs.declared.target.Target.TheVariants as targets;
ghost use Rattle.capture_log.specs.Received.{IsPartReceived, SameItems};
ghost use Rattle.capture_log.specs.Log.{line_items_of};
ghost use Rattle.job_laws.specs.Counted.{ArePairsReceived, Pair};
ghost use Rattle.captures.specs.Captures.{Capture, capture_meaning, capture_of, counts_of};
ghost use Rattle.captures.specs.Captures.{output_of};
ghost use Rattle.captures.specs.declared.target.CaptureTo.{CaptureTo};
ghost use Rattle.captures.specs.declared.target.CaptureTo.TheVariants.{Rinex, Rinex3, Rtcm};
ghost use Rattle.bridge_engine.specs.CaptureBytes.{IsCapture, StandFor};
ghost use Rattle.job_laws.specs.Converted.{ArePeriodsReceived, ComeBack, IsConverted, IsConverted3};
ghost use Rattle.job_laws.specs.Converted.{IsFramed};
ghost use Rattle.job_laws.specs.CountedLines.{CountLines, CountPeriods};
ghost use Rattle.job_laws.specs.SayTheSame.{IsOfPeriods, SayTheSame};
ghost use Rattle.job_laws.specs.Written.{ConvertCapture, IsWritten};

/// Two captures of one week and one window whose lines have the same items, in any order, however
/// spelled and repeated or not, none of them late, give the same output in every format but the
/// counts. The same lines, in any order and repeated or not, have the same items.
pub fn order_of_lines_changes_no_text()
    ensures captures { (to : CaptureTo) (week named : Option ℕ) (bytes other : List ℕ)
        (c d : Capture) → IsOfPeriods to → capture_of week bytes ≡ Some c
        → capture_of named other ≡ Some d → SayTheSame c d
        → (capture_meaning to week).whole.output bytes
        ≡ (capture_meaning to named).whole.output other }
    ensures jobs { (words others : List (List ℕ)) (to : CaptureTo) (week named : Option ℕ)
        (bytes other text another : List ℕ) (c d : Capture) → IsOfPeriods to
        → ConvertCapture words to week → ConvertCapture others to named
        → capture_of week bytes ≡ Some c → capture_of named other ≡ Some d → SayTheSame c d
        → IsWritten words bytes text → IsWritten others other another → text ≡ another }
    ensures lines { (some other : List Line)
        → ((line : Line) → Contains some line ↔ Contains other line)
        → SameItems (line_items_of some) (line_items_of other) }
{
    capture_log::order_of_lines_does_not_matter();
    bridge_engine::words_give_one_job();
}

/// Each count of a capture's report is a number of events: those of each line alone, and those of
/// each word received, once, in whatever order the pairs of page parts are listed.
pub fn counts_are_of_lines_and_words()
    ensures { (c : Capture) (pairs : List Pair)
        → ArePairsReceived c.window (line_items_of c.lines) pairs
        → CountLines c pairs (counts_of c) }
{
    crate::counted::events_are_counted();
}

/// Each other count is the number of periods with its verdict, in the list of exactly the periods
/// of the parts received.
pub fn counts_are_of_periods()
    ensures { (c : Capture) (periods : List Closed) → ArePeriodsReceived c periods
        → CountPeriods periods (counts_of c) }
{
    capture_log::lines_yield_what_is_received();
}

/// The output for a capture is the text of the items of the periods of the parts received, and
/// reads back as these items; the message of each ephemeris reads back as it, without its
/// transmission time, for a reference week near its own.
pub fn converted_captures_come_back()
    ensures rinex { (week : Option ℕ) (header : HeaderWords) (bytes : List ℕ) (c : Capture)
        → IfSome week IsReference → IsHeader header → capture_of week bytes ≡ Some c
        → IsConverted c header (output_of (targets.Rinex header) week bytes) }
    ensures rinex3 { (week : Option ℕ) (header : HeaderWords) (bytes : List ℕ) (c : Capture)
        → IfSome week IsReference → IsHeader header → capture_of week bytes ≡ Some c
        → IsConverted3 c header (output_of (targets.Rinex3 header) week bytes) }
    ensures rtcm { (week : Option ℕ) (bytes : List ℕ) (c : Capture)
        → IfSome week IsReference → capture_of week bytes ≡ Some c
        → IsFramed c (output_of targets.Rtcm week bytes) }
{
    capture_log::periods_received();
    capture_lines::each_first_line_is_one_head();
    framing::written_frames_are_whole();
    framing::frames_behind_a_written_frame();
    rtcm_eph::item_function();
    rtcm_eph::message_bytes();
    rtcm_eph::sent_1019_is_read();
    rtcm_eph::sent_1046_is_read();
    rinex_read::files_are_read();
    rinex_read::files3_are_read();
}

/// The same for the arguments: whatever text their conversion writes of a capture.
pub fn what_is_converted_comes_back()
    ensures rinex { (words : List (List ℕ)) (week : Option ℕ) (header : HeaderWords)
        (bytes text : List ℕ) (c : Capture) → ConvertCapture words (Rinex header) week
        → capture_of week bytes ≡ Some c → IsWritten words bytes text → IsConverted c header text }
    ensures rinex3 { (words : List (List ℕ)) (week : Option ℕ) (header : HeaderWords)
        (bytes text : List ℕ) (c : Capture) → ConvertCapture words (Rinex3 header) week
        → capture_of week bytes ≡ Some c → IsWritten words bytes text
        → IsConverted3 c header text }
    ensures rtcm { (words : List (List ℕ)) (week : Option ℕ) (bytes text : List ℕ) (c : Capture)
        → ConvertCapture words Rtcm week
        → capture_of week bytes ≡ Some c → IsWritten words bytes text → IsFramed c text }
{
    bridge_engine::words_give_one_job();
    converted_captures_come_back();
}

/// The same of what the clause `headline` of `bridge` speaks of, stated by its relations: whatever
/// the capture, the items of its lines and the list of the periods of the parts received in them,
/// the RINEX text of the items of these periods reads back as these items, and the message of each
/// ephemeris as it.
pub fn what_the_main_theorem_states_comes_back()
    ensures { (words : List (List ℕ)) (week : Option ℕ) (header : HeaderWords) (bytes : List ℕ)
        (capture : Capture) (items : List LineItem) (periods : List Closed)
        → ConvertCapture words (Rinex header) week
        → IsCapture week bytes capture → StandFor capture.lines items
        → ArePeriods capture.week capture.window (IsPartReceived capture.window items) periods
        → ComeBack header (items_in periods) }
{
    bridge_engine::captures_are_selected();
    capture_log::lines_yield_what_is_received();
    converted_captures_come_back();
}

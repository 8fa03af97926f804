//! Theorems about lines; each function does nothing, and its contract is the theorem.

ghost use Rattle.std.specs.Prelude.{◌≡◌, ◌+◌, ◌^◌, ◌<◌, ◌≤◌};
ghost use Rattle.std.specs.Prelude.{◌↔◌, ℕ, List, Some, All, length};
ghost use Rattle.hex.specs.Hex.{IsBytes};
ghost use Rattle.nav_eph.specs.Satellite.{IsSat, Satellite};
ghost use Rattle.nav_eph.specs.declared.sat.System.TheVariants.{Gal, Gps};
ghost use Rattle.nav_eph.specs.declared.signal.Signal.{Signal};
ghost use Rattle.capture_lines.specs.Heads.{IsHead, head_of};
ghost use Rattle.capture_lines.specs.Late.{IsLate, greatest_stamp, stamp_of};
ghost use Rattle.capture_lines.specs.Reading.{item_of};
ghost use Rattle.capture_lines.specs.Spellings.{IsEnded, IsFrameLine, IsHalfLine, IsLnavLine};
ghost use Rattle.capture_lines.specs.Spellings.{IsPrinted, IsSpelling, StandsFor};
ghost use Rattle.capture_lines.specs.Texts.{frame_text, half_text, lnav_text};
ghost use Rattle.capture_lines.specs.declared.head.CaptureHead.{CaptureHead};
ghost use Rattle.capture_lines.specs.declared.item.LineItem.{LineItem};

/// `head_of` gives a head exactly for its spellings; so a first line is a spelling of at most one
/// head.
pub fn each_first_line_is_one_head()
    ensures { (line : List ℕ) (head : CaptureHead) → (head_of line ≡ Some head) ↔ IsHead head line }
{}

/// Each line has exactly one content: an item of which it is a spelling, a line to be skipped, or
/// malformed.
pub fn each_line_stands_for_one_thing()
    ensures some { (line : List ℕ) → StandsFor (item_of line) line }
    ensures only { (line : List ℕ) (item : LineItem) → StandsFor item line → item ≡ item_of line }
{}

/// The time tag of an item is below 2^32.
pub fn stamps_have_32_bits()
    ensures { (line : List ℕ) (stamp : ℕ) → stamp_of (item_of line) ≡ Some stamp → stamp < 2 ^ 32 }
{}

/// A line is late exactly if its time tag plus the window is below the greatest time tag before it.
pub fn late_is_behind_the_greatest_stamp()
    ensures { (window : ℕ) (before : List LineItem) (stamp : ℕ)
        → IsLate window before stamp ↔ (stamp + window < greatest_stamp before) }
{}

/// A spelling of an item has only printable ASCII characters and spaces, so no line end, and at
/// most 2,200 of them.
pub fn spellings_are_lines()
    ensures printed { (item : LineItem) (line : List ℕ) → IsSpelling item line
        → All IsPrinted line }
    ensures short { (item : LineItem) (line : List ℕ) → IsSpelling item line → length line ≤ 2200 }
{}

/// The written texts of items are their spellings followed by LF.
pub fn texts_stand_for_their_items()
    ensures lnav { (stamp : ℕ) (sat : Satellite) (bits : List ℕ) → stamp < 2 ^ 32 → sat.system ≡ Gps
        → IsSat sat.system sat.number → IsBytes bits → length bits ≡ 38
        → IsEnded (IsLnavLine stamp sat bits) (lnav_text stamp sat bits) }
    ensures half { (stamp : ℕ) (sat : Satellite) (signal : Signal) (bits : List ℕ) → stamp < 2 ^ 32
        → sat.system ≡ Gal → IsSat sat.system sat.number → IsBytes bits → length bits ≡ 15
        → IsEnded (IsHalfLine stamp sat signal bits) (half_text stamp sat signal bits) }
    ensures frame { (stamp : ℕ) (bytes : List ℕ) → stamp < 2 ^ 32 → IsBytes bytes
        → 6 ≤ length bytes → length bytes ≤ 1029
        → IsEnded (IsFrameLine stamp bytes) (frame_text stamp bytes) }
{}

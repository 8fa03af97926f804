//! Theorems about the log of a capture: each is the contract of an empty function.

ghost use Rattle.std.specs.Prelude.{◌≡◌, ◌↔◌, ℕ, ◌+◌};
ghost use Rattle.std.specs.Prelude.{List, [], Contains, length, map, sum};
ghost use Rattle.capture_lines.specs.declared.item.LineItem.{LineItem};
ghost use Rattle.capture_log.specs.Events.{nothing_known};
ghost use Rattle.capture_log.specs.Log.{log_from};
ghost use Rattle.capture_log.specs.declared.event.Event.{Event};
ghost use Rattle.capture_log.specs.declared.event.Event.TheVariants.{Late, Malformed, Refused};
ghost use Rattle.capture_log.specs.declared.event.EventFault.{EventFault};
ghost use Rattle.job_laws.specs.Places.{InLineOrder, IsLateLine, IsMalformedLine, IsRefusedLine};
ghost use Rattle.job_laws.specs.Counted.{ArePairsReceived, Pair};
ghost use Rattle.job_laws.specs.Counted.{own_weight, pairs_weight, weight_in};

/// The log has a line as late exactly if a line before it, late or not, has a time tag that is
/// later by more than the window, and as malformed exactly if it is malformed.
pub fn late_lines_are_reported()
    ensures late { (window first : ℕ) (items : List LineItem) (number : ℕ)
        → Contains (log_from window nothing_known first items)
        (record { line = number; event = Late })
        ↔ IsLateLine window first items number }
    ensures malformed { (window first : ℕ) (items : List LineItem) (number : ℕ)
        → Contains (log_from window nothing_known first items)
        (record { line = number; event = Malformed })
        ↔ IsMalformedLine first items number }
{
    capture_lines::late_is_behind_the_greatest_stamp();
}

/// Two lists of the words received have the same length, and the same sum of whatever is counted of
/// each word.
pub fn pairs_are_counted_once()
    ensures length { (window : ℕ) (items : List LineItem) (some other : List Pair)
        → ArePairsReceived window items some → ArePairsReceived window items other
        → length some ≡ length other }
    ensures sum { (window : ℕ) (items : List LineItem) (some other : List Pair)
        → ArePairsReceived window items some → ArePairsReceived window items other
        → (f : Pair → ℕ) → sum (map f some) ≡ sum (map f other) }
{}

/// The words received can be listed, each by its two page parts; and any count over the events of a
/// log is the sum over the events of each line alone and over those of each word received.
pub fn events_are_counted()
    ensures some { (window : ℕ) (items : List LineItem)
        → (pairs : List Pair) × ArePairsReceived window items pairs }
    ensures counts { (kind : Event → ℕ) (window first : ℕ) (items : List LineItem)
        (pairs : List Pair) → ArePairsReceived window items pairs
        → weight_in kind (log_from window nothing_known first items)
        ≡ own_weight kind window [] items + pairs_weight kind pairs }
{
    inav::halves_are_decided();
    inav::words_are_the_function();
    capture_lines::late_is_behind_the_greatest_stamp();
    pairs_are_counted_once();
}

/// The log has a line as rejected for a reason exactly if its own subframe or frame is rejected for
/// it, or a word that its page part completes; and the log is in the order of the lines.
pub fn rejected_lines_are_reported()
    ensures refused { (window first : ℕ) (items : List LineItem) (number : ℕ) (reason : EventFault)
        → Contains (log_from window nothing_known first items)
        (record { line = number; event = Refused reason })
        ↔ IsRefusedLine window first items number reason }
    ensures order { (window first : ℕ) (items : List LineItem)
        → InLineOrder first (log_from window nothing_known first items) }
{
    inav::halves_are_decided();
    inav::words_are_the_function();
    capture_lines::late_is_behind_the_greatest_stamp();
}

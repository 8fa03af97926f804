//! Theorems about what is sent. Each function does nothing; its contract is the theorem.

ghost use Rattle.std.specs.Prelude.{◌≡◌, ℕ, ◌+◌, ◌*◌, ◌<◌};
ghost use Rattle.std.specs.Prelude.{◌≤◌, ◌++◌, List, length, None, true};
ghost use Rattle.std.specs.Prelude.{All};
ghost use Rattle.nav_eph.specs.declared.items.NavItem.{NavItem};
ghost use Rattle.sent_captures.specs.Sendable.{IsEphemeris, is_sent, send_fault, sendable};
ghost use Rattle.sent_captures.specs.Sendable.{slots_items};
ghost use Rattle.sent_captures.specs.Slots.{text_of_items};

/// An item is sent in a slot exactly if it is an ephemeris without an error.
pub fn what_may_be_sent()
    ensures sent { (r slot : ℕ) (item : NavItem) → IsEphemeris item
        → send_fault r item slot ≡ None → is_sent r item slot ≡ true }
    ensures ephemeris { (r slot : ℕ) (item : NavItem) → is_sent r item slot ≡ true
        → IsEphemeris item × (send_fault r item slot ≡ None) × (slot < 198842) }
{}

/// What is sent of some items followed by more is that of the first, then that of the others in the
/// following slots.
pub fn sent_text_goes_on()
    ensures items { (r slot : ℕ) (some more : List NavItem) → sendable r slot (some ++ more)
        ≡ sendable r slot some ++ sendable r (slot + length (sendable r slot some)) more }
    ensures text { (slot : ℕ) (some more : List NavItem)
        → text_of_items (slots_items slot (some ++ more))
        ≡ text_of_items (slots_items slot some)
        ++ text_of_items (slots_items (slot + length some) more) }
{}

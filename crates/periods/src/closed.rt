use crate::key::{PeriodId, PeriodKey};
use nav_eph::NavItem;

/// What the parts of a period come to, without a look at earlier periods.
#[derive(Clone, Copy)]
pub enum Finding {
    /// Two parts of one kind differ in content.
    Differs,
    /// A part is missing: a subframe of GPS, or a word of Galileo.
    Misses,
    /// No health (word type 5) of the Galileo satellite was received within the window of the end.
    LacksHealth,
    /// All parts are there and agree; this is the item.
    Complete(NavItem),
}

/// The verdict on a period.
#[derive(Clone, Copy, PartialEq, Eq)]
pub enum Verdict {
    /// All parts were received and agree; this is their item, which is new.
    Whole(NavItem),
    /// A part was not received: a subframe of GPS, or a word of Galileo.
    Partial,
    /// Two parts of one kind differ in content.
    Contradicted,
    /// No health of the Galileo satellite was received within the window of the end.
    NoHealth,
    /// All parts were received and agree, and equal in all but the transmission time the last
    /// complete period of the same key.
    Again,
}

/// A period to which no further part can belong.
#[derive(Clone, Copy, PartialEq, Eq)]
pub struct Closed {
    /// The time tag of its last part.
    pub end: u32,
    /// The key of its parts.
    pub key: PeriodKey,
    /// The verdict on it.
    pub verdict: Verdict,
}

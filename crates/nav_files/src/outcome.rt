//! The outcome of a record of a file that is transmitted.

ghost use Rattle.std.specs.Prelude.{◌≡◌, ◌≤◌, length, true};
ghost use Rattle.nav_eph.specs.Ranges.{IsItem};
ghost use Rattle.rinex_read.specs.RoundTrip.{IsWholeRead};
ghost use Rattle.sent_captures.specs.Sendable.{IsEphemeris, is_ephemeris, send_fault};
ghost use Rattle.nav_files.specs.Following.{IsSendReported};
ghost use Rattle.nav_files.specs.Sends.{fault_text, slot_behind, told as decided_by, outcome_item};

use nav_eph::{NavItem, RefWeek};
use rinex_read::{ItemRead, RecordFault};
use sent_captures::{SendFault, can_send};

/// The outcome of a record of a navigation file whose ephemerides are transmitted.
#[derive(Clone, Copy)]
pub enum SendOutcome {
    /// An ephemeris that is transmitted.
    Sent {
        /// Its slot, counted from 0.
        slot: u32,
        /// The ephemeris.
        item: NavItem,
    },
    /// An ionosphere, which is not transmitted.
    NotSent,
    /// An ephemeris that may not be transmitted.
    Withheld {
        /// The number of the first line of its record.
        line: u32,
        /// Why not.
        fault: SendFault,
    },
    /// A record that is rejected.
    Refused {
        /// The number of its first line.
        line: u32,
        /// Why.
        reason: RecordFault,
    },
    /// A record of another kind.
    PassedOver,
}

// The outcome of an ephemeris.
fn outcome_of_ephemeris(r: RefWeek, slot: u32, line: u32, item: &NavItem) -> SendOutcome
    requires ephemeris { IsEphemeris item.now }
    requires whole { IsItem item.now }
    ensures told { result ≡ outcome_item line slot item.now true (send_fault r item.now slot) }
    ensures may { IsSendReported r result }
{
    match can_send(item, r, slot) {
        Ok(()) => SendOutcome::Sent { slot, item: *item },
        Err(fault) => SendOutcome::Withheld { line, fault },
    }
}

// The outcome of an item.
fn outcome_of_item(r: RefWeek, slot: u32, line: u32, item: &NavItem) -> SendOutcome
    requires whole { IsItem item.now }
    ensures told { result
        ≡ outcome_item line slot item.now (is_ephemeris item.now) (send_fault r item.now slot) }
    ensures may { IsSendReported r result }
{
    match item {
        NavItem::Gps(_) => outcome_of_ephemeris(r, slot, line, item),
        NavItem::Gal(_) => outcome_of_ephemeris(r, slot, line, item),
        NavItem::Ion(_) => SendOutcome::NotSent,
    }
}

// The outcome of a record, where this is the next slot.
pub(crate) fn outcome_of(r: RefWeek, slot: u32, read: &ItemRead) -> SendOutcome
    requires whole { IsWholeRead read.now }
    ensures told { result ≡ decided_by r slot read.now }
    ensures may { IsSendReported r result }
{
    match read {
        ItemRead::Item { line, item } => outcome_of_item(r, slot, *line, item),
        ItemRead::Refused { line, reason } => SendOutcome::Refused {
            line: *line,
            reason: *reason,
        },
        ItemRead::PassedOver { .. } => SendOutcome::PassedOver,
    }
}

// The next slot after this outcome.
pub(crate) fn next_slot(slot: u32, told: &SendOutcome) -> u32
    requires { slot ≤ 4000000000 }
    ensures { result ≡ slot_behind slot told.now }
{
    match told {
        SendOutcome::Sent { .. } => slot + 1,
        SendOutcome::NotSent => slot,
        SendOutcome::Withheld { .. } => slot,
        SendOutcome::Refused { .. } => slot,
        SendOutcome::PassedOver => slot,
    }
}

// The report's word for why an ephemeris may not be transmitted.
pub(crate) fn fault_word(fault: SendFault) -> &'static [u8]
    ensures word { result.now ≡ fault_text fault }
    ensures short { length result.now ≤ 32 }
{
    match fault {
        SendFault::Issue => b"issue",
        SendFault::Week => b"week",
        SendFault::Room => b"room",
    }
}

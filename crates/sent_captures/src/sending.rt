//! The transmissions of each second, in order, and the order of the lines.

ghost use Rattle.std.specs.Prelude.{◌≡◌, ◌+◌, ◌<◌, ◌++◌};
ghost use Rattle.std.specs.Prelude.{IfOk, OnOk, length, reverse};
ghost use Rattle.sent_captures.specs.Lines.{halves_at, sent_at, sent_before, subframes_at};
ghost use Rattle.sent_captures.specs.Capture.{lines_of, reversed};

use nav_eph::Signal;
use std::alloc::{AllocError, Global};

/// A transmission, which one line of the capture records.
#[derive(Clone, Copy)]
pub enum Sending {
    /// A subframe of the GPS satellite with that number.
    Subframe {
        /// The time tag, in seconds.
        stamp: u32,
        /// The satellite number.
        number: u8,
    },
    /// A page part of the Galileo satellite with that number.
    Half {
        /// The time tag, in seconds.
        stamp: u32,
        /// The satellite number.
        number: u8,
        /// The signal.
        signal: Signal,
    },
}

// The seconds of the capture.
const HOUR: u32 = 3600;

// The lines before this stamp are repeated.
const REPEATED: u32 = 30;

// The number of lines in a reversed block.
const BLOCK: usize = 16;

// Appends the subframes of the satellites 1 to `sats`.
#[tactic(auto, unfolding(crate::specs::Lines::subframes_at))]
fn push_subframes(sent: &mut Vec<Sending>, sats: u8, stamp: u32) -> Result<(), AllocError>
    requires { sats < 255 }
    ensures { OnOk result (sent.new.items ≡ sent.old.items ++ subframes_at stamp sats) }
{
    'satellites: for i in 0..sats {
        sent.push(Sending::Subframe {
            stamp,
            number: i + 1,
        })?;
    }
    Ok(())
}

// Appends the page parts of the satellites 1 to `sats`.
#[tactic(auto, unfolding(crate::specs::Lines::halves_at))]
fn push_halves(sent: &mut Vec<Sending>, sats: u8, stamp: u32) -> Result<(), AllocError>
    requires { sats < 255 }
    ensures { OnOk result (sent.new.items ≡ sent.old.items ++ halves_at stamp sats) }
{
    'satellites: for i in 0..sats {
        let number = i + 1;
        let first = Sending::Half {
            stamp,
            number,
            signal: Signal::E1b,
        };
        let second = Sending::Half {
            stamp,
            number,
            signal: Signal::E5b,
        };
        sent.push(first)?;
        sent.push(second)?;
    }
    Ok(())
}

// Appends the transmissions at a stamp.
#[tactic(auto, unfolding(crate::specs::Lines::sent_at))]
fn push_sent(sent: &mut Vec<Sending>, sats: u8, stamp: u32) -> Result<(), AllocError>
    requires { sats < 255 }
    ensures { OnOk result (sent.new.items ≡ sent.old.items ++ sent_at sats stamp) }
{
    if stamp % 6 == 0 {
        push_subframes(sent, sats, stamp)?;
    }
    push_halves(sent, sats, stamp)
}

// Appends the transmissions before a stamp, in order.
#[tactic(auto, unfolding(crate::specs::Lines::sent_before))]
fn push_sent_before(sent: &mut Vec<Sending>, sats: u8, end: u32) -> Result<(), AllocError>
    requires { sats < 255 }
    ensures { OnOk result (sent.new.items ≡ sent.old.items ++ sent_before sats end) }
{
    'stamps: for stamp in 0..end {
        push_sent(sent, sats, stamp)?;
    }
    Ok(())
}

// Appends a block in reversed order.
fn push_reversed(block: &[Sending], order: &mut Vec<Sending>) -> Result<(), AllocError>
    ensures { OnOk result (order.new.items ≡ order.old.items ++ reverse block.now) }
{
    'places: for i in 0..block.len() {
        order.push(block[block.len() - 1 - i])?;
    }
    Ok(())
}

// Appends the blocks, each reversed.
fn push_reversed_blocks(sent: &[Sending], order: &mut Vec<Sending>) -> Result<(), AllocError>
    ensures { OnOk result (order.new.items ≡ order.old.items ++ reversed sent.now) }
{
    let count = (sent.len() + (BLOCK - 1)) / BLOCK;
    for block in 0..count {
        let from = BLOCK * block;
        let to = (from + BLOCK).min(sent.len());
        push_reversed(&sent[from..to], order)?;
    }
    Ok(())
}

// The transmissions of the lines, in their order.
#[tactic(auto, unfolding(crate::specs::Capture::lines_of))]
pub(crate) fn order_of_lines(alloc: Global, sats: u8) -> Result<Vec<Sending>, AllocError>
    requires { sats < 255 }
    ensures { IfOk result (λ order. order.items ≡ lines_of sats) }
{
    let mut sent = Vec::new(alloc);
    push_sent_before(&mut sent, sats, HOUR)?;
    let mut order = Vec::new(alloc);
    push_reversed_blocks(sent.as_slice(), &mut order)?;
    push_sent_before(&mut order, sats, REPEATED)?;
    Ok(order)
}

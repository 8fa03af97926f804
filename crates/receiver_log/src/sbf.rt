//! The content of SBF blocks.

ghost use Rattle.std.specs.Prelude.{◌≡◌, ◌+◌, ◌<◌, ◌≤◌, length, true};
ghost use Rattle.receiver_log.specs.Sbf.{block_content as block_of, page_content as page_of};
ghost use Rattle.receiver_log.specs.Sbf.{pages_content as pages_of, sbf_message as said_of};
ghost use Rattle.receiver_log.specs.Sbf.{subframe_content as subframe_of, time_at};
ghost use Rattle.receiver_log.specs.Systems.{SaysOfSystem, SaysTimes};

use crate::content::{LogContent, LogMessage, LogReason};
use crate::halves::{even_of_sbf, odd_of_sbf};
use crate::numbers::{four, two};
use crate::times::time_in;
use crate::ubx::satellite;
use crate::words::words_from;
use nav_eph::{Moment, Signal, System};

/// The content of a complete SBF block.
///
/// GPSRawCA gives a subframe, GALRawINAV a page of E1-B or E5b, each with the block's own time, or
/// the reason why it gives none.
#[tactic(auto, unfolding(crate::specs::Sbf::sbf_message))]
pub fn sbf_message(block: &[u8]) -> LogMessage
    ensures value { result ≡ said_of block.now }
    ensures system { SaysOfSystem result }
    ensures times { SaysTimes true result }
{
    if block.len() < 8 {
        return LogMessage::Other;
    }
    block_content(two(block, 4) % 8192, block)
}

// The content of a block with this ID.
#[tactic(auto, unfolding(crate::specs::Sbf::block_content))]
fn block_content(number: u32, block: &[u8]) -> LogMessage
    ensures value { result ≡ block_of number block.now }
    ensures system { SaysOfSystem result }
    ensures times { SaysTimes true result }
{
    match number {
        4017 => subframe_content(block),
        4023 => pages_content(block),
        _ => LogMessage::Other,
    }
}

// The time stamp of a block (WNc and TOW).
fn time_of(block: &[u8]) -> Option<Moment>
    requires { 14 ≤ length block.now }
    ensures { result ≡ time_at block.now }
{
    time_in(u64::from(two(block, 12)), four(block, 8))
}

// The content of GPSRawCA.
#[tactic(auto, unfolding(crate::specs::Sbf::subframe_content))]
fn subframe_content(block: &[u8]) -> LogMessage
    ensures value { result ≡ subframe_of block.now }
    ensures system { SaysOfSystem result }
    ensures times { SaysTimes true result }
{
    if block.len() < 60 {
        return LogMessage::Dated(None, LogContent::Refused(LogReason::Length));
    }
    let time = time_of(block);
    match satellite(System::Gps, block[14]) {
        Some(sat) => LogMessage::Dated(
            time,
            LogContent::Subframe {
                sat,
                words: words_from(block, 20),
            },
        ),
        None => LogMessage::Dated(time, LogContent::Refused(LogReason::Satellite)),
    }
}

// The content of GALRawINAV.
#[tactic(auto, unfolding(crate::specs::Sbf::pages_content))]
fn pages_content(block: &[u8]) -> LogMessage
    ensures value { result ≡ pages_of block.now }
    ensures system { SaysOfSystem result }
    ensures times { SaysTimes true result }
{
    if block.len() < 52 {
        return LogMessage::Dated(None, LogContent::Refused(LogReason::Length));
    }
    match block[17] % 32 {
        17 => page_content(Signal::E1b, block),
        21 => page_content(Signal::E5b, block),
        _ => LogMessage::Other,
    }
}

// The page of GALRawINAV on this signal.
fn page_content(signal: Signal, block: &[u8]) -> LogMessage
    requires { 52 ≤ length block.now }
    ensures value { result ≡ page_of signal block.now }
    ensures system { SaysOfSystem result }
    ensures times { SaysTimes true result }
{
    let time = time_of(block);
    match satellite(System::Gal, block[14].saturating_sub(70)) {
        Some(sat) => LogMessage::Dated(
            time,
            LogContent::Page {
                sat,
                signal,
                even: even_of_sbf(block, 20),
                odd: odd_of_sbf(block, 20),
            },
        ),
        None => LogMessage::Dated(time, LogContent::Refused(LogReason::Satellite)),
    }
}

//! The content of UBX messages.

ghost use Rattle.std.specs.Prelude.{◌≡◌, ◌+◌, ◌≤◌, length, IfSome, false};
ghost use Rattle.receiver_log.specs.Ubx.{galileo_words as galileo_of, gps_words as gps_of};
ghost use Rattle.receiver_log.specs.Ubx.{payload_content as payload_of_kind};
ghost use Rattle.receiver_log.specs.Ubx.{ubx_message as said_of};
ghost use Rattle.receiver_log.specs.Ubx.{satellite_of, words_content as words_of};
ghost use Rattle.receiver_log.specs.Systems.{IsOfSystem, SaysOfSystem, SaysTimes};

use crate::content::{LogContent, LogMessage, LogReason};
use crate::halves::{even_of_ubx, odd_of_ubx};
use crate::times::{time_of_date, time_of_raw, time_of_week};
use crate::words::words_from;
use nav_eph::{Sat, Signal, System};

/// The content of a complete UBX message, from sync bytes to checksum.
///
/// NAV-TIMEGPS, NAV-PVT and RXM-RAWX set the time, or clear it where theirs is not valid; RXM-SFRBX
/// gives a GPS L1 C/A subframe or a Galileo E1-B or E5b page, or the reason why it gives none.
#[tactic(auto, unfolding(crate::specs::Ubx::ubx_message))]
pub fn ubx_message(message: &[u8]) -> LogMessage
    ensures value { result ≡ said_of message.now }
    ensures system { SaysOfSystem result }
    ensures times { SaysTimes false result }
{
    if message.len() < 8 {
        return LogMessage::Other;
    }
    payload_content(message[2], message[3], &message[6..message.len() - 2])
}

// The content of a payload of this class and ID.
#[tactic(auto, unfolding(crate::specs::Ubx::payload_content))]
fn payload_content(class: u8, number: u8, payload: &[u8]) -> LogMessage
    ensures value { result ≡ payload_of_kind class number payload.now }
    ensures system { SaysOfSystem result }
    ensures times { SaysTimes false result }
{
    match (class, number) {
        (1, 0x20) => LogMessage::Time(time_of_week(payload)),
        (1, 7) => LogMessage::Time(time_of_date(payload)),
        (2, 0x15) => LogMessage::Time(time_of_raw(payload)),
        (2, 0x13) => words_content(payload),
        _ => LogMessage::Other,
    }
}

// The content of RXM-SFRBX.
#[tactic(auto, unfolding(crate::specs::Ubx::words_content))]
fn words_content(payload: &[u8]) -> LogMessage
    ensures value { result ≡ words_of payload.now }
    ensures system { SaysOfSystem result }
    ensures times { SaysTimes false result }
{
    if payload.len() < 8 {
        return LogMessage::Received(LogContent::Refused(LogReason::Length));
    }
    match (payload[0], payload[2]) {
        (0, 0) => LogMessage::Received(gps_words(payload)),
        (2, 0 | 1) => LogMessage::Received(galileo_words(Signal::E1b, payload)),
        (2, 5) => LogMessage::Received(galileo_words(Signal::E5b, payload)),
        _ => LogMessage::Other,
    }
}

// The GPS subframe of RXM-SFRBX.
#[tactic(auto, unfolding(crate::specs::Ubx::gps_words, crate::specs::Ubx::satellite_of))]
fn gps_words(payload: &[u8]) -> LogContent
    requires { 8 ≤ length payload.now }
    ensures value { result ≡ gps_of payload.now }
    ensures system { IsOfSystem result }
{
    if payload[4] != 10 || payload.len() != 48 {
        return LogContent::Refused(LogReason::Length);
    }
    match satellite(System::Gps, payload[1]) {
        Some(sat) => LogContent::Subframe {
            sat,
            words: words_from(payload, 8),
        },
        None => LogContent::Refused(LogReason::Satellite),
    }
}

// The Galileo page of RXM-SFRBX.
#[tactic(auto, unfolding(crate::specs::Ubx::galileo_words))]
fn galileo_words(signal: Signal, payload: &[u8]) -> LogContent
    requires { 8 ≤ length payload.now }
    ensures value { result ≡ galileo_of signal payload.now }
    ensures system { IsOfSystem result }
{
    let count = payload[4] as usize;
    if count < 8 || payload.len() != 8 + 4 * count {
        return LogContent::Refused(LogReason::Length);
    }
    match satellite(System::Gal, payload[1]) {
        Some(sat) => LogContent::Page {
            sat,
            signal,
            even: even_of_ubx(payload, 8),
            odd: odd_of_ubx(payload, 8),
        },
        None => LogContent::Refused(LogReason::Satellite),
    }
}

// The satellite of a system with this number.
#[tactic(auto, unfolding(crate::specs::Ubx::satellite_of))]
pub fn satellite(system: System, number: u8) -> Option<Sat>
    ensures value { result ≡ satellite_of system number }
    ensures system { IfSome result (λ sat. sat.system ≡ system) }
{
    Sat::new(system, number)
}

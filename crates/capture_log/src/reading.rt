//! Events from the results of the readers.

ghost use Rattle.std.specs.Prelude.{◌≡◌};
ghost use Rattle.capture_log.specs.Events.{of_message_fault, of_subframe, of_word_fault};

use crate::event::{Event, EventFault};
use inav::WordFault;
use lnav_subframe::LnavFault;
use nav_eph::Part;
use rtcm_eph::MessageFault;

/// The event of a subframe: its part, why it is rejected, or that it is not used.
pub fn subframe_event(reading: Result<Part, LnavFault>) -> Event
    ensures { result ≡ of_subframe reading }
{
    match reading {
        Ok(part) => Event::Received(part),
        Err(LnavFault::Preamble) => Event::Refused(EventFault::Preamble),
        Err(LnavFault::Parity { word }) => Event::Refused(EventFault::Parity { word }),
        Err(LnavFault::BadTow) => Event::Refused(EventFault::Tow),
        Err(LnavFault::Unused { number: _, page: _ }) => Event::Unused,
        Err(LnavFault::BadTime) => Event::Refused(EventFault::Time),
    }
}

/// The event of a word that is rejected or not used.
pub fn word_event(fault: WordFault) -> Event
    ensures { result ≡ of_word_fault fault }
{
    match fault {
        WordFault::OtherWord { number: _ } => Event::Unused,
        WordFault::WrongSat => Event::Refused(EventFault::Satellite),
        WordFault::BadTime => Event::Refused(EventFault::Time),
        WordFault::SpareSisa => Event::Refused(EventFault::Sisa),
    }
}

/// The event of a message that is rejected or not used.
pub fn message_event(fault: MessageFault) -> Event
    ensures { result ≡ of_message_fault fault }
{
    match fault {
        MessageFault::NoNumber => Event::Unused,
        MessageFault::OtherMessage { number: _ } => Event::Unused,
        MessageFault::Short => Event::Refused(EventFault::Short),
        MessageFault::BadSat => Event::Refused(EventFault::Satellite),
        MessageFault::BadTime => Event::Refused(EventFault::Time),
        MessageFault::SpareSisa => Event::Refused(EventFault::Sisa),
    }
}

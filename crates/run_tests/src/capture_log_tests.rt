//! What readers answer, as events.

use capture_log::{
    Event, EventFault, lines_yield_what_is_received, message_event, order_of_lines_does_not_matter,
    subframe_event, taken_parts_are_received, what_is_closed_stays, word_event,
};
use inav::WordFault;
use lnav_subframe::LnavFault;
use nav_bits::U;
use nav_eph::{Body, Part, Sat, System};
use raw_values::gps_orbit_b;
use rtcm_eph::MessageFault;
use std::test::Fail;

#[test]
fn what_is_received_rejected_and_not_used(rt: HostRuntime) -> Result<(), Fail> {
    let part = Part {
        stamp: 6,
        sat: Sat::new(System::Gps, 5).ok_or("a satellite")?,
        body: Body::GpsB(gps_orbit_b(U::from_bits(85))),
    };
    let heard = subframe_event(Ok(part)) == Event::Received(part);
    let parity = EventFault::Parity { word: 7 };
    let subframes = subframe_event(Err(LnavFault::Parity { word: 7 })) == Event::Refused(parity)
        && subframe_event(Err(LnavFault::Unused {
            number: 4,
            page: 55,
        })) == Event::Unused;
    let words = word_event(WordFault::WrongSat) == Event::Refused(EventFault::Satellite)
        && word_event(WordFault::OtherWord { number: 6 }) == Event::Unused;
    let messages = message_event(MessageFault::Short) == Event::Refused(EventFault::Short)
        && message_event(MessageFault::OtherMessage { number: 1005 }) == Event::Unused;

    // Laws cost nothing.
    taken_parts_are_received();
    lines_yield_what_is_received();
    order_of_lines_does_not_matter();
    what_is_closed_stays();
    let differ = Event::Late != Event::Malformed;
    assert!(rt; heard && subframes && words && messages && differ);
    Ok(())
}

//! What messages of UBX say: times, refusals, and subframes in each form.

use receiver_log::{LogContent, LogMessage, LogReason, ubx_message};

// A time message, and the second that it gives, or 0 where it gives none.
struct TimeCase {
    name: &'static str,
    class: u8,
    number: u8,
    payload: [u8; 16],
    second: u64,
}

static TIMES: [TimeCase; 24] = [
    TimeCase {
        name: "a time of NAV-TIMEGPS",
        class: 1,
        number: 32,
        payload: *b"\x00\xdd\x6d\x00\x00\x00\x00\x00\xf7\x08\x12\x07\x00\x00\x00\x00",
        second: 1388023200,
    },
    TimeCase {
        name: "to the nearest second, halves upwards",
        class: 1,
        number: 32,
        payload: *b"\xf4\xde\x6d\x00\x00\x00\x00\x00\xf7\x08\x12\x03\x00\x00\x00\x00",
        second: 1388023201,
    },
    TimeCase {
        name: "over the week rollover",
        class: 1,
        number: 32,
        payload: *b"\xff\x83\x0c\x24\x00\x00\x00\x00\xf7\x08\x12\x03\x00\x00\x00\x00",
        second: 1388620800,
    },
    TimeCase {
        name: "no week",
        class: 1,
        number: 32,
        payload: *b"\x00\xdd\x6d\x00\x00\x00\x00\x00\xf7\x08\x12\x01\x00\x00\x00\x00",
        second: 0,
    },
    TimeCase {
        name: "no second of the week",
        class: 1,
        number: 32,
        payload: *b"\x00\x84\x0c\x24\x00\x00\x00\x00\xf7\x08\x12\x03\x00\x00\x00\x00",
        second: 0,
    },
    TimeCase {
        name: "week 1024",
        class: 1,
        number: 32,
        payload: *b"\x00\x00\x00\x00\x00\x00\x00\x00\x00\x04\x12\x03\x00\x00\x00\x00",
        second: 0,
    },
    TimeCase {
        name: "week 8191",
        class: 1,
        number: 32,
        payload: *b"\x00\x00\x00\x00\x00\x00\x00\x00\xff\x1f\x12\x03\x00\x00\x00\x00",
        second: 4953916800,
    },
    TimeCase {
        name: "a negative week",
        class: 1,
        number: 32,
        payload: *b"\x00\x00\x00\x00\x00\x00\x00\x00\xff\xff\x12\x03\x00\x00\x00\x00",
        second: 0,
    },
    TimeCase {
        name: "a date of NAV-PVT",
        class: 1,
        number: 7,
        payload: *b"\x50\x7f\x94\x05\xe8\x07\x01\x01\x02\x00\x00\x03\x00\x00\x00\x00",
        second: 1388109618,
    },
    TimeCase {
        name: "a date in the week before that of the time",
        class: 1,
        number: 7,
        payload: *b"\x68\x42\x00\x00\xe7\x07\x0c\x1e\x17\x3b\x3b\x03\x00\x00\x00\x00",
        second: 1388016017,
    },
    TimeCase {
        name: "a second 60",
        class: 1,
        number: 7,
        payload: *b"\x68\x42\x00\x00\xe7\x07\x0c\x1e\x17\x3b\x3c\x03\x00\x00\x00\x00",
        second: 1388016017,
    },
    TimeCase {
        name: "a second 61",
        class: 1,
        number: 7,
        payload: *b"\x68\x42\x00\x00\xe7\x07\x0c\x1e\x17\x3b\x3d\x03\x00\x00\x00\x00",
        second: 0,
    },
    TimeCase {
        name: "a day that is none",
        class: 1,
        number: 7,
        payload: *b"\x50\x7f\x94\x05\xe7\x07\x02\x1d\x02\x00\x00\x03\x00\x00\x00\x00",
        second: 0,
    },
    TimeCase {
        name: "no valid date",
        class: 1,
        number: 7,
        payload: *b"\x50\x7f\x94\x05\xe8\x07\x01\x01\x02\x00\x00\x02\x00\x00\x00\x00",
        second: 0,
    },
    TimeCase {
        name: "a time of RXM-RAWX before its second",
        class: 2,
        number: 21,
        payload: *b"\x68\x91\xed\x7c\xff\x1f\xbc\x40\xf7\x08\x00\x00\x00\x00\x00\x00",
        second: 1388023200,
    },
    TimeCase {
        name: "a half",
        class: 2,
        number: 21,
        payload: *b"\x00\x00\x00\x00\x80\x1f\xbc\x40\xf7\x08\x00\x00\x00\x00\x00\x00",
        second: 1388023200,
    },
    TimeCase {
        name: "below a half",
        class: 2,
        number: 21,
        payload: *b"\x08\x39\xef\xff\x7f\x1f\xbc\x40\xf7\x08\x00\x00\x00\x00\x00\x00",
        second: 1388023199,
    },
    TimeCase {
        name: "the last of the week",
        class: 2,
        number: 21,
        payload: *b"\x00\x00\x00\x80\xff\x74\x22\x41\xf7\x08\x00\x00\x00\x00\x00\x00",
        second: 1388620800,
    },
    TimeCase {
        name: "the next week",
        class: 2,
        number: 21,
        payload: *b"\x00\x00\x00\x00\x00\x75\x22\x41\xf7\x08\x00\x00\x00\x00\x00\x00",
        second: 0,
    },
    TimeCase {
        name: "a zero with a sign",
        class: 2,
        number: 21,
        payload: *b"\x00\x00\x00\x00\x00\x00\x00\x80\xf7\x08\x00\x00\x00\x00\x00\x00",
        second: 1388016000,
    },
    TimeCase {
        name: "below zero",
        class: 2,
        number: 21,
        payload: *b"\x95\xd6\x26\xe8\x0b\x2e\x11\xbe\xf7\x08\x00\x00\x00\x00\x00\x00",
        second: 0,
    },
    TimeCase {
        name: "the least number",
        class: 2,
        number: 21,
        payload: *b"\x01\x00\x00\x00\x00\x00\x00\x00\xf7\x08\x00\x00\x00\x00\x00\x00",
        second: 1388016000,
    },
    TimeCase {
        name: "no number",
        class: 2,
        number: 21,
        payload: *b"\x00\x00\x00\x00\x00\x00\xf8\x7f\xf7\x08\x00\x00\x00\x00\x00\x00",
        second: 0,
    },
    TimeCase {
        name: "without end",
        class: 2,
        number: 21,
        payload: *b"\x00\x00\x00\x00\x00\x00\xf0\x7f\xf7\x08\x00\x00\x00\x00\x00\x00",
        second: 0,
    },
];

// The second that the message with this payload gives, whose sums are not looked at, or 0 where it
// gives none; `None` where it is no time message.
fn second_of(case: &TimeCase) -> Option<u64> {
    let mut message = [0; 24];
    message[2] = case.class;
    message[3] = case.number;
    message[6..22].copy_from_slice(&case.payload);
    match ubx_message(&message) {
        LogMessage::Time(Some(time)) => Some(time.value()),
        LogMessage::Time(None) => Some(0),
        _ => None,
    }
}

// The head of RXM-SFRBX with so many bytes of payload behind it, and the reason why it is refused.
struct RefusedCase {
    name: &'static str,
    system: u8,
    satellite: u8,
    signal: u8,
    words: u8,
    payload: usize,
    refused: Option<LogReason>,
}

static REFUSED: [RefusedCase; 12] = [
    RefusedCase {
        name: "G01",
        system: 0,
        satellite: 1,
        signal: 0,
        words: 10,
        payload: 48,
        refused: None,
    },
    RefusedCase {
        name: "G32",
        system: 0,
        satellite: 32,
        signal: 0,
        words: 10,
        payload: 48,
        refused: None,
    },
    RefusedCase {
        name: "a satellite 0 of GPS",
        system: 0,
        satellite: 0,
        signal: 0,
        words: 10,
        payload: 48,
        refused: Some(LogReason::Satellite),
    },
    RefusedCase {
        name: "a satellite 33 of GPS",
        system: 0,
        satellite: 33,
        signal: 0,
        words: 10,
        payload: 48,
        refused: Some(LogReason::Satellite),
    },
    RefusedCase {
        name: "a satellite 33 and nine words",
        system: 0,
        satellite: 33,
        signal: 0,
        words: 9,
        payload: 48,
        refused: Some(LogReason::Length),
    },
    RefusedCase {
        name: "a longer payload than ten words",
        system: 0,
        satellite: 1,
        signal: 0,
        words: 10,
        payload: 52,
        refused: Some(LogReason::Length),
    },
    RefusedCase {
        name: "E36 of signal 1",
        system: 2,
        satellite: 36,
        signal: 1,
        words: 8,
        payload: 40,
        refused: None,
    },
    RefusedCase {
        name: "E36 of signal 5",
        system: 2,
        satellite: 36,
        signal: 5,
        words: 9,
        payload: 44,
        refused: None,
    },
    RefusedCase {
        name: "a satellite 37 of Galileo",
        system: 2,
        satellite: 37,
        signal: 0,
        words: 9,
        payload: 44,
        refused: Some(LogReason::Satellite),
    },
    RefusedCase {
        name: "a satellite 0 of Galileo",
        system: 2,
        satellite: 0,
        signal: 5,
        words: 8,
        payload: 40,
        refused: Some(LogReason::Satellite),
    },
    RefusedCase {
        name: "seven words",
        system: 2,
        satellite: 1,
        signal: 1,
        words: 7,
        payload: 36,
        refused: Some(LogReason::Length),
    },
    RefusedCase {
        name: "nine words in the length of eight",
        system: 2,
        satellite: 1,
        signal: 1,
        words: 9,
        payload: 40,
        refused: Some(LogReason::Length),
    },
];

// Whether the message is refused as the table says.
fn is_refused_so(case: &RefusedCase) -> bool {
    let mut message = [0u8; 64];
    message[2] = 2;
    message[3] = 0x13;
    message[6] = case.system;
    message[7] = case.satellite;
    message[8] = case.signal;
    message[10] = case.words;
    if case.payload > 56 {
        return false;
    }
    match ubx_message(&message[..case.payload + 8]) {
        LogMessage::Received(LogContent::Refused(reason)) => case.refused == Some(reason),
        LogMessage::Received(_) => case.refused.is_none(),
        _ => false,
    }
}

#[test]
fn times_and_words_are_taken_or_refused(rt: HostRuntime) {
    for case in &TIMES {
        assert_eq!(rt; second_of(case), Some(case.second), "{}", case.name);
    }
    for case in &REFUSED {
        assert!(rt; is_refused_so(case), "{}", case.name);
    }
}

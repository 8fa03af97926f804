//! Messages of an independent program both ways, and worked faults.

use arrayvec::ArrayVec;
use framing::{frame_of, write_frame};
use nav_eph::{NavItem, RefWeek, SentSecond};
use raw_values::{
    ClockNumbers, E01_OF_ISSUE_0, E01_OF_ISSUE_378, G01_OF_WEEK_1783, G32_OF_WEEK_2294, GalNumbers,
    GpsNumbers, HealthNumbers, MESSAGE_1019_OF_G05, OrbitANumbers, OrbitBNumbers, SideNumbers,
    Word1Numbers, Word2Numbers, Word3Numbers, Word4Numbers,
};
use rtcm_eph::{MessageFault, MessageParts, read_item, read_message, write_1019, write_1046};

// A payload, and what its message is read as, near week 2295.
struct MessageRow {
    name: &'static str,
    payload: &'static [u8],
    read: MessageRead,
}

enum MessageRead {
    // An ephemeris with no transmission time, of which the payload is written again.
    Gps(GpsNumbers),
    Gal(GalNumbers),
    // The fault of both readings.
    Fault(MessageFault),
}

// Messages made by an independent program, and worked faults: the last four have a time past the
// week, and three of them a second fault or a third.
static MESSAGES: [MessageRow; 15] = [
    MessageRow {
        name: "1019 of G32, week 2294",
        payload: b"\x3f\xb8\x0f\x62\x00\x24\x0f\x00\xe1\x91\xff\xf8\xc7\x37\x14\x01\x00\x01\x00\x00\
             \xc8\x94\x3b\x9f\x1e\x4a\x00\x00\x00\x00\x70\xb5\xff\xff\xff\xff\x92\x7c\x81\xa5\x80\
             \x00\x00\x01\x98\xb5\xc7\x60\x29\x19\x88\xdd\x92\xd0\xc3\x2c\x7f\xff\xff\x00\xb7",
        read: MessageRead::Gps(G32_OF_WEEK_2294),
    },
    MessageRow {
        name: "1019 of G01, week 1783",
        payload: b"\x3f\xb0\x6f\x71\x26\xe2\x29\x49\xd4\x5a\x00\x01\x5f\x7c\x3c\x29\xff\xf1\x00\x00\
             \x00\x00\x00\x01\x00\x00\xb2\x0a\x9b\x6b\xf5\xea\x00\x00\x00\x01\x6e\xbc\x00\x01\x92\
             \xd1\xbb\xb0\x00\x00\x28\x8d\x51\x17\x5f\xda\x7f\xff\xff\xff\x47\x9b\x71\x2b\xb0",
        read: MessageRead::Gps(G01_OF_WEEK_1783),
    },
    MessageRow {
        name: "1019 of G32, week 2295",
        payload: b"\x3f\xb8\x0f\x76\xa0\x00\x00\x00\x78\xca\x00\x00\xd9\x38\x40\x00\x7f\xff\xc6\xe9\
             \x80\x00\x00\x01\x00\x12\xb1\xbe\x71\xf7\xc3\x90\x00\x00\x00\x00\x8c\xc1\x00\x00\x79\
             \x7b\x93\x80\xe0\x83\xa5\xea\xdc\xe7\xc4\x4d\x7f\xff\xff\xff\x7f\xff\xfe\x00\xa5",
        read: MessageRead::Gps(GpsNumbers {
            sat: 32,
            week: 2295,
            clock: ClockNumbers {
                iodc: 0,
                toc: 120,
                af2: -54,
                af1: 0,
                af0: -635376,
                tgd: 0,
            },
            side: SideNumbers {
                l2_code: 2,
                ura: 6,
                health: 41,
                l2p: 0,
            },
            a: OrbitANumbers {
                iode: 0,
                crs: 32767,
                delta_n: -14615,
                m0: -2147483647,
                cuc: 18,
                e: 2982048247,
                cus: -15472,
                root_a: 0,
                toe: 36033,
            },
            fit: 1,
            b: OrbitBNumbers {
                iode: 0,
                cic: 0,
                omega0: 2038141824,
                cis: -8061,
                i0: -1511334681,
                crc: -15283,
                omega: 2147483647,
                omega_dot: 8388606,
                idot: -8192,
            },
        }),
    },
    MessageRow {
        name: "1046 of E01, issue 378",
        payload: b"\x41\x60\x53\xe1\x7a\x6b\x80\x01\xf6\x88\x58\xbc\x18\xff\xff\xff\xfe\x00\x01\xff\
             \xfa\x00\x00\x00\x05\xff\xfc\x00\x00\x00\x00\x00\x02\x90\x83\xe0\xb0\x07\x80\x00\x00\
             \x00\x00\x00\x00\x00\x07\xff\xff\xff\xfd\xcc\x30\x00\x00\x00\x0f\xf4\x7c\xea\xc3\x44\
             \x04",
        read: MessageRead::Gal(E01_OF_ISSUE_378),
    },
    MessageRow {
        name: "1046 of E01, issue 0",
        payload: b"\x41\x60\x53\xe0\x00\xff\x00\x06\x41\x08\x24\xc2\x66\xa2\x45\xa0\xbd\x38\x62\x2c\
             \x39\x16\x00\x72\x00\x00\x00\x00\x00\x00\x02\xdb\x23\xe1\x60\x9e\xd2\x42\xb8\x00\x10\
             \x00\x00\x01\x8a\xb4\x30\x00\x00\x00\x80\x00\x0f\xff\xff\xff\xf0\x00\x00\xd7\xf8\x1a\
             \x28",
        read: MessageRead::Gal(E01_OF_ISSUE_0),
    },
    MessageRow {
        name: "1046 of E01, issue 940",
        payload: b"\x41\x60\x53\xe3\xac\x63\x9c\xf1\x3b\x0f\xcf\x53\x8b\xc1\x3e\x69\x98\xb1\x62\x35\
             \xd0\x00\x00\x00\x07\x71\x82\x26\x71\xbb\x6c\xd8\xcc\x00\x00\x00\x00\x79\xf0\x6b\x0d\
             \xfc\x79\x49\xc2\x85\xe6\x8d\xfc\x50\x17\xff\xf8\xe8\x72\x41\x4d\xbd\x57\x0f\xea\x79\
             \xe0",
        read: MessageRead::Gal(GalNumbers {
            sat: 1,
            week: 2296,
            w1: Word1Numbers {
                iodnav: 940,
                toe: 1951,
                m0: 1,
                e: 2308730587,
                root_a: 0,
            },
            w2: Word2Numbers {
                iodnav: 940,
                omega0: -540568420,
                i0: 1759495425,
                omega: -1903746028,
                idot: -6340,
            },
            w3: Word3Numbers {
                iodnav: 940,
                omega_dot: -2370192,
                delta_n: -29324,
                cuc: -9120,
                cus: 13875,
                crc: 32767,
                crs: 11352,
                sisa: 99,
            },
            w4: Word4Numbers {
                iodnav: 940,
                cic: 1712,
                cis: 10334,
                toc: 5040,
                af0: -263218586,
                af1: 502213,
                af2: -1,
            },
            health: HealthNumbers {
                bgd_a: -6,
                bgd_b: -391,
                hs_e5b: 3,
                hs_e1b: 0,
                dvs_e5b: 1,
                dvs_e1b: 0,
            },
        }),
    },
    MessageRow {
        name: "one byte",
        payload: b"\x3f",
        read: MessageRead::Fault(MessageFault::NoNumber),
    },
    MessageRow {
        name: "message 1020",
        payload: b"\x3f\xc0",
        read: MessageRead::Fault(MessageFault::OtherMessage { number: 1020 }),
    },
    MessageRow {
        name: "1019 cut short",
        payload: b"\x3f\xb1\x4f\x70\x00\x00\x00\x00\x00\x00\x00\x00\x00\x00\x00\x00\x00\x00\x00\x00\
             \x00\x00\x00\x00\x00\x00\x00\x00\x00\x00\x00\x00\x00\x00\x00\x00\x00\x00\x00\x00\x00\
             \x00\x00\x00\x00\x00\x00\x00\x00\x00\x00\x00\x00\x00\x00\x00\x00\x00\x00\x00",
        read: MessageRead::Fault(MessageFault::Short),
    },
    MessageRow {
        name: "1019 of another satellite",
        payload: b"\x3f\xb8\x4f\x70\x00\x00\x00\x00\x00\x00\x00\x00\x00\x00\x00\x00\x00\x00\x00\x00\
             \x00\x00\x00\x00\x00\x00\x00\x00\x00\x00\x00\x00\x00\x00\x00\x00\x00\x00\x00\x00\x00\
             \x00\x00\x00\x00\x00\x00\x00\x00\x00\x00\x00\x00\x00\x00\x00\x00\x00\x00\x00\x00",
        read: MessageRead::Fault(MessageFault::BadSat),
    },
    MessageRow {
        name: "1046 of a spare accuracy",
        payload: b"\x41\x62\xd3\xdc\x05\x7e\x00\x00\x00\x00\x00\x00\x00\x00\x00\x00\x00\x00\x00\x00\
             \x00\x00\x00\x00\x00\x00\x00\x00\x00\x00\x00\x00\x00\x00\x00\x00\x00\x00\x00\x00\x00\
             \x00\x00\x00\x00\x00\x00\x00\x00\x00\x00\x00\x00\x00\x00\x00\x00\x00\x00\x00\x00\x00\
             \x00",
        read: MessageRead::Fault(MessageFault::SpareSisa),
    },
    MessageRow {
        name: "1019 with toe past the week",
        payload: b"\x3f\xb1\x40\x00\x00\x00\x00\x00\x00\x00\x00\x00\x00\x00\x00\x00\x00\x00\x00\x00\
             \x00\x00\x00\x00\x00\x00\x00\x00\x00\x00\x00\x00\x00\x00\x00\x00\x93\xa8\x00\x00\x00\
             \x00\x00\x00\x00\x00\x00\x00\x00\x00\x00\x00\x00\x00\x00\x00\x00\x00\x00\x00\x00",
        read: MessageRead::Fault(MessageFault::BadTime),
    },
    MessageRow {
        name: "1019 of satellite 0 with toc past the week",
        payload: b"\x3f\xb0\x00\x00\x00\x00\x00\x93\xa8\x00\x00\x00\x00\x00\x00\x00\x00\x00\x00\x00\
             \x00\x00\x00\x00\x00\x00\x00\x00\x00\x00\x00\x00\x00\x00\x00\x00\x00\x00\x00\x00\x00\
             \x00\x00\x00\x00\x00\x00\x00\x00\x00\x00\x00\x00\x00\x00\x00\x00\x00\x00\x00\x00",
        read: MessageRead::Fault(MessageFault::BadSat),
    },
    MessageRow {
        name: "1046 with toe past the week",
        payload: b"\x41\x62\xc0\x00\x00\x7e\x00\x02\x76\x00\x00\x00\x00\x00\x00\x00\x00\x00\x00\x00\
             \x00\x00\x00\x00\x00\x00\x00\x00\x00\x00\x00\x00\x00\x00\x00\x00\x00\x00\x00\x00\x00\
             \x00\x00\x00\x00\x00\x00\x00\x00\x00\x00\x00\x00\x00\x00\x00\x00\x00\x00\x00\x00\x00\
             \x00",
        read: MessageRead::Fault(MessageFault::BadTime),
    },
    MessageRow {
        name: "1046 of satellite 37 with toc past the week",
        payload: b"\x41\x69\x40\x00\x00\x7e\x00\x00\x00\x00\x00\x00\x00\x00\x00\x00\x00\x00\x00\x00\
             \x00\x00\x00\x00\x00\x00\x00\x00\x00\x00\x00\x00\x00\x00\x00\x00\x02\x76\x00\x00\x00\
             \x00\x00\x00\x00\x00\x00\x00\x00\x00\x00\x00\x00\x00\x00\x00\x00\x00\x00\x00\x00\x00\
             \x00",
        read: MessageRead::Fault(MessageFault::BadSat),
    },
];

// Whether the payload is read so, and an ephemeris of it written as the payload.
fn is_message(row: &MessageRow) -> bool {
    let Some(reference) = RefWeek::new(2295) else {
        return false;
    };
    match (&row.read, read_item(row.payload, reference)) {
        (MessageRead::Gps(numbers), Ok(NavItem::Gps(eph))) => {
            numbers.are_of(&eph)
                && eph.sent == SentSecond::Unknown
                && write_1019(&eph).bytes().as_slice() == row.payload
        }
        (MessageRead::Gal(numbers), Ok(NavItem::Gal(eph))) => {
            numbers.are_of(&eph)
                && eph.sent == SentSecond::Unknown
                && write_1046(&eph).bytes().as_slice() == row.payload
        }
        (MessageRead::Fault(fault), Err(read)) => {
            read == *fault && read_message(row.payload, 0) == Err(*fault)
        }
        _ => false,
    }
}

// Message 1046 of an ephemeris that is 0 but for the satellite, 11, the week, the issue and the
// accuracy.
const GAL: &[u8] =
    b"\x41\x62\xd3\xdc\x05\x6b\x00\x00\x00\x00\x00\x00\x00\x00\x00\x00\x00\x00\x00\x00\x00\x00\x00\
     \x00\x00\x00\x00\x00\x00\x00\x00\x00\x00\x00\x00\x00\x00\x00\x00\x00\x00\x00\x00\x00\x00\x00\
     \x00\x00\x00\x00\x00\x00\x00\x00\x00\x00\x00\x00\x00\x00\x00\x00\x00";

// Whether that and message 1019 are read as ephemerides, that of Galileo is written again, and its
// parts have the stamp and the satellite.
fn are_parts() -> Option<bool> {
    let reference = RefWeek::new(2295)?;
    let (Ok(NavItem::Gps(gps)), Ok(NavItem::Gal(gal))) = (
        read_item(&MESSAGE_1019_OF_G05, reference),
        read_item(GAL, reference),
    ) else {
        return None;
    };
    let Ok(MessageParts::Gal { health, .. }) = read_message(GAL, 7) else {
        return None;
    };
    let is_gps = gps.toe_week.value() == 2295 && gps.sat.number() == 5;
    let is_written = write_1046(&gal).bytes().as_slice() == GAL;
    Some(is_gps && is_written && health.stamp == 7 && health.sat.number() == 11)
}

// A frame, and the satellite of its message.
struct FrameRow {
    name: &'static str,
    bytes: &'static [u8],
    satellite: u8,
}

// Frames of an independent program: of message 1019 for G32, and of message 1046 for E01.
static FRAMES: [FrameRow; 2] = [
    FrameRow {
        name: "1019 of G32",
        bytes: b"\xd3\x00\x3d\x3f\xb8\x0f\x62\x00\x24\x0f\x00\xe1\x91\xff\xf8\xc7\x37\x14\x01\x00\x01\x00\x00\
             \xc8\x94\x3b\x9f\x1e\x4a\x00\x00\x00\x00\x70\xb5\xff\xff\xff\xff\x92\x7c\x81\xa5\x80\
             \x00\x00\
             \x01\x98\xb5\xc7\x60\x29\x19\x88\xdd\x92\xd0\xc3\x2c\x7f\xff\xff\x00\xb7\x00\x40\xc2",
        satellite: 32,
    },
    FrameRow {
        name: "1046 of E01",
        bytes: b"\xd3\x00\x3f\x41\x60\x53\xe1\x7a\x6b\x80\x01\xf6\x88\x58\xbc\x18\xff\xff\xff\xfe\x00\x01\xff\
             \xfa\x00\x00\x00\x05\xff\xfc\x00\x00\x00\x00\x00\x02\x90\x83\xe0\xb0\x07\x80\x00\x00\
             \x00\x00\
             \x00\x00\x00\x07\xff\xff\xff\xfd\xcc\x30\x00\x00\x00\x0f\xf4\x7c\xea\xc3\x44\x04\xb7\
             \x72\x15",
        satellite: 1,
    },
];

// Whether the frame is written again of its payload, which is that of the satellite.
fn is_frame(row: &FrameRow) -> Option<bool> {
    let frame = frame_of(row.bytes)?;
    let satellite = match read_item(frame.payload(), RefWeek::new(2295)?) {
        Ok(NavItem::Gps(eph)) => eph.sat.number(),
        Ok(NavItem::Gal(eph)) => eph.sat.number(),
        _ => return None,
    };
    let mut again = ArrayVec::new();
    write_frame(frame.payload(), &mut again);
    Some(again.as_slice() == row.bytes && satellite == row.satellite)
}

#[test]
fn messages_parts_and_frames(rt: HostRuntime) {
    for row in &MESSAGES {
        assert!(rt; is_message(row), "{}", row.name);
    }
    for row in &FRAMES {
        assert!(rt; is_frame(row) == Some(true), "{}", row.name);
    }
    assert!(rt; are_parts() == Some(true));
}

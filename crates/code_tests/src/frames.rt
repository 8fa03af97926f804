//! Streams and their frames: worked rows, an example of the standard, and the time of a long one.

use arrayvec::ArrayVec;
use framing::{Deframer, frame_of, write_frame};
use std::alloc::{AllocError, Global};
use std::test::Fail;

// The frame of an empty payload.
const EMPTY: &[u8] = b"\xd3\x00\x00\x47\xea\x4b";

// The example of a message 1005 in RTCM 10403.3, section 4.2.
const STATION: &[u8] =
    b"\xd3\x00\x13\x3e\xd7\xd3\x02\x02\x98\x0e\xde\xef\x34\xb4\xbd\x62\xac\x09\x41\x98\x6f\x33\x36\
     \x0b\x98";

// A stream, and its frames, concatenated.
struct StreamRow {
    name: &'static str,
    bytes: &'static [u8],
    frames: &'static [u8],
}

static STREAMS: [StreamRow; 8] = [
    StreamRow {
        name: "nothing",
        bytes: b"",
        frames: b"",
    },
    StreamRow {
        name: "a frame",
        bytes: EMPTY,
        frames: EMPTY,
    },
    // A preamble in front announces a frame that does not end.
    StreamRow {
        name: "a preamble in front",
        bytes: b"\xd3\xd3\x00\x00\x47\xea\x4b",
        frames: EMPTY,
    },
    StreamRow {
        name: "a frame cut short",
        bytes: b"\xd3\x00\x00\x47\xea",
        frames: b"",
    },
    StreamRow {
        name: "a wrong checksum",
        bytes: b"\xd3\x00\x00\x47\xea\x4a",
        frames: b"",
    },
    // A whole frame inside one of wrong checksum.
    StreamRow {
        name: "a frame inside a wrong one",
        bytes: b"\xd3\x00\x07\xd3\x00\x00\x47\xea\x4b\x00\x00\x00\x00",
        frames: EMPTY,
    },
    // Reserved bits are not looked at.
    StreamRow {
        name: "reserved bits",
        bytes: b"\x00\xd3\xfc\x00\x32\xc2\x4f\x00",
        frames: b"\xd3\xfc\x00\x32\xc2\x4f",
    },
    StreamRow {
        name: "a preamble inside a payload",
        bytes: STATION,
        frames: STATION,
    },
];

// Appends the frames that a deframer gives.
fn write_frames(deframer: &mut Deframer, frames: &mut Vec<u8>) -> Result<(), AllocError> {
    while let Some(frame) = deframer.next_frame() {
        frames.extend_from_slice(frame.bytes())?;
    }
    Ok(())
}

// Whether a stream has these frames, concatenated, and may be fed up to its end alone.
fn gives(alloc: Global, bytes: &[u8], wanted: &[u8]) -> Result<bool, AllocError> {
    let mut frames = Vec::new(alloc);
    let mut deframer = Deframer::new();
    let mut fed = true;
    for byte in bytes {
        if deframer.may_feed() {
            deframer.feed(*byte);
        } else {
            fed = false;
        }
        write_frames(&mut deframer, &mut frames)?;
    }
    deframer.finish();
    write_frames(&mut deframer, &mut frames)?;
    Ok(fed && !deframer.may_feed() && frames.as_slice() == wanted)
}

// A stream of one byte alone announces a frame of 985 bytes at each place. The one at place 300 is
// right, since the checksum of 982 bytes D3 follows there, and a frame stands behind it.
fn finds_a_frame_behind_many_false_starts(alloc: Global) -> Result<bool, AllocError> {
    let mut bytes = vec![in alloc; 0xd3u8; 1282]?;
    bytes.extend_from_slice(b"\x48\x1d\x21")?;
    bytes.extend_from_slice(EMPTY)?;
    gives(alloc, bytes.as_slice(), &bytes.as_slice()[300..])
}

// Whether frames are written and read, and none is read with a byte behind it.
fn one_frame_is_written_and_read() -> Option<bool> {
    let mut bytes = ArrayVec::new();
    write_frame(&STATION[3..22], &mut bytes);
    let frame = frame_of(STATION)?;
    let empty = frame_of(EMPTY)?;
    let longer = frame_of(b"\xd3\x00\x00\x47\xea\x4b\x00");
    let read = frame.payload() == &STATION[3..22] && frame.bytes() == STATION;
    let nothing = empty.payload() == b"".as_slice();
    Some(bytes.as_slice() == STATION && read && nothing && longer.is_none())
}

// A stream in which a frame of the longest kind is announced at each byte, and none is right: 20 MB
// go in a second only where no byte is gone over twice.
fn no_byte_is_gone_over_twice() -> bool {
    let mut deframer = Deframer::new();
    let mut none = true;
    for _ in 0..20_000_000u32 {
        if deframer.may_feed() {
            deframer.feed(0xd3);
        } else {
            none = false;
        }
        none = deframer.next_frame().is_none() && none;
    }
    none
}

#[test]
fn streams_and_frames(rt: HostRuntime) -> Result<(), Fail> {
    for row in &STREAMS {
        assert!(rt; gives(rt.alloc(), row.bytes, row.frames)?, "{}", row.name);
    }
    assert!(rt; finds_a_frame_behind_many_false_starts(rt.alloc())?);
    let one = one_frame_is_written_and_read() == Some(true);
    assert!(rt; one && no_byte_is_gone_over_twice());
    Ok(())
}

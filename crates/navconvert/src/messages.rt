//! What a stream or a log has of other systems: its messages, by their headers.

use crate::systems::{RTCM, SBF, Skips, System, UBX, system_in};
use arrayvec::ArrayVec;
use memchr::memchr;
use std::mem;
use whole_file::{Kind, LOOKED_AT, form_of, kind_so_far};

// So many bytes tell what a message is: of UBX those up to the sigId.
const ROOM: usize = 9;

// What a header says.
#[derive(Clone, Copy)]
enum Header {
    // it has more bytes
    More,
    // it is none
    Wrong,
    // that of a message: its own bytes, those of the message, and the system
    Message(usize, usize, Option<System>),
}

// The format of messages.
#[derive(Clone, Copy)]
enum Format {
    Rtcm,
    Ubx,
    Sbf,
}

/// What was seen of a stream or a log so far, under each format that it may have.
#[derive(Drop)]
pub(crate) struct Messages {
    // the format under which it is read, if its first piece told that
    read_as: Option<Kind>,
    rtcm: Walk,
    ubx: Walk,
    sbf: Walk,
}

impl Messages {
    /// Nothing yet.
    pub(crate) fn new() -> Messages {
        Messages {
            read_as: None,
            rtcm: Walk::new(Format::Rtcm),
            ubx: Walk::new(Format::Ubx),
            sbf: Walk::new(Format::Sbf),
        }
    }

    /// Looks at the first piece of an input for which this format is named, or none.
    pub(crate) fn look(&mut self, named: Option<Kind>, first: &[u8]) {
        let looked_at = &first[..first.len().min(LOOKED_AT)];
        let mut place = 0;
        if let Some(told) = kind_so_far(looked_at, &mut place) {
            self.read_as = Some(form_of(named, told));
        }
    }

    /// Sees a piece.
    pub(crate) fn see(&mut self, piece: &[u8]) {
        match self.read_as {
            Some(Kind::Stream) => self.rtcm.see(piece),
            Some(Kind::Ubx) => self.ubx.see(piece),
            Some(Kind::Sbf) => self.sbf.see(piece),
            Some(_) => {}
            None => {
                self.rtcm.see(piece);
                self.ubx.see(piece);
                self.sbf.see(piece);
            }
        }
    }

    /// The messages that are skipped of a file of this format, which is at its end.
    pub(crate) fn skips(&mut self, kind: Kind) -> Skips {
        match kind {
            Kind::Stream => self.rtcm.end(),
            Kind::Ubx => self.ubx.end(),
            Kind::Sbf => self.sbf.end(),
            _ => Skips::new(),
        }
    }
}

// The messages of one format. One counts where another one, or the end, stands behind it; of UBX
// one whose checksum is right.
#[derive(Drop)]
struct Walk {
    format: Format,
    header: ArrayVec<u8, ROOM>,
    // how many bytes of a message are still to come
    left: usize,
    // the system of the message before this place
    last: Option<System>,
    // the sums of UBX's checksum (Fletcher's)
    sums: (u8, u8),
    skips: Skips,
}

impl Walk {
    // Nothing yet.
    fn new(format: Format) -> Walk {
        Walk {
            format,
            header: ArrayVec::new(),
            left: 0,
            last: None,
            sums: (0, 0),
            skips: Skips::new(),
        }
    }

    // Those that are skipped, at the end.
    fn end(&mut self) -> Skips {
        if self.left == 0 {
            self.count_last();
        }
        self.skips
    }

    // Sees a piece.
    fn see(&mut self, piece: &[u8]) {
        let mut rest = piece;
        for _ in 0..piece.len() {
            rest = self.pass(rest);
            rest = self.search(rest);
            match rest.split_first() {
                None => return,
                Some((byte, behind)) => {
                    let read = self.see_header(rest);
                    if read == 0 {
                        self.see_byte(*byte);
                        rest = behind;
                    } else {
                        rest = rest.get(read..).unwrap_or(&[]);
                    }
                }
            }
        }
    }

    // Passes over bytes of a message; those behind it.
    fn pass<'a>(&mut self, rest: &'a [u8]) -> &'a [u8] {
        let passed = self.left.min(rest.len());
        let (within, behind) = rest.split_at(passed);
        if self.last.is_some() && matches!(self.format, Format::Ubx) {
            self.check(within);
        }
        self.left = self.left.saturating_sub(passed);
        behind
    }

    // Looks for the first byte of a header, where none has begun; what begins with it.
    fn search<'a>(&mut self, rest: &'a [u8]) -> &'a [u8] {
        if self.left > 0 || !self.header.is_empty() || rest.is_empty() {
            return rest;
        }
        match memchr(first_of(self.format), rest) {
            Some(0) => {
                self.count_last();
                rest
            }
            Some(place) => {
                self.drop_last();
                rest.get(place..).unwrap_or(&[])
            }
            None => {
                self.drop_last();
                &[]
            }
        }
    }

    // Sees a header that stands complete in a piece: how many bytes it has, or 0.
    fn see_header(&mut self, rest: &[u8]) -> usize {
        if !self.header.is_empty() {
            return 0;
        }
        let Some(first) = rest.get(..ROOM) else {
            return 0;
        };
        match header_of(self.format, first) {
            Header::Message(read, size, system) => {
                self.begin(first.get(..read).unwrap_or(&[]), size, system);
                read
            }
            _ => 0,
        }
    }

    // Sees a byte of a header.
    fn see_byte(&mut self, byte: u8) {
        if self.header.try_push(byte).is_err() {
            self.header.clear();
        }
        match header_of(self.format, self.header.as_slice()) {
            Header::More => {}
            Header::Wrong => self.header.clear(),
            Header::Message(_, size, system) => {
                let header = mem::replace(&mut self.header, ArrayVec::new());
                self.begin(header.as_slice(), size, system);
            }
        }
    }

    // Begins a message of so many bytes, of this system, behind its header.
    fn begin(&mut self, header: &[u8], size: usize, system: Option<System>) {
        self.left = size.saturating_sub(header.len());
        self.last = system;
        self.sums = sums_of((0, 0), header.get(2..).unwrap_or(&[]));
    }

    // Sees bytes of a UBX message, of which the last two are its checksum.
    fn check(&mut self, within: &[u8]) {
        let summed = self.left.saturating_sub(2).min(within.len());
        let (data, sums) = within.split_at(summed);
        self.sums = sums_of(self.sums, data);
        let first = self.left - summed;
        for (place, byte) in sums.iter().enumerate() {
            let sum = if first.saturating_sub(place) == 2 {
                self.sums.0
            } else {
                self.sums.1
            };
            if *byte != sum {
                self.last = None;
            }
        }
    }

    // Counts the message before this place.
    fn count_last(&mut self) {
        if let Some(system) = self.last {
            self.skips.add(system, 1);
        }
        self.last = None;
    }

    // Gives the message before this place up, where something else stands behind it; one whose
    // checksum was right counts.
    fn drop_last(&mut self) {
        if matches!(self.format, Format::Ubx) {
            self.count_last();
        }
        self.last = None;
    }
}

// Fletcher's sums of bytes, behind others.
fn sums_of(before: (u8, u8), bytes: &[u8]) -> (u8, u8) {
    let (mut first, mut second) = before;
    for byte in bytes {
        first = first.wrapping_add(*byte);
        second = second.wrapping_add(first);
    }
    (first, second)
}

// The byte with which messages of a format begin.
fn first_of(format: Format) -> u8 {
    match format {
        Format::Rtcm => 0xd3,
        Format::Ubx => 0xb5,
        Format::Sbf => b'$',
    }
}

// A number of two bytes.
fn two(high: u8, low: u8) -> u16 {
    u16::from(high) * 256 + u16::from(low)
}

// What a header says: of a frame of RTCM 3 six bits of 0, ten of the length, and twelve of the
// number; of a UBX message, which has at most 8,192 bytes, with the first bytes of its payload,
// where it is RXM-SFRBX (02 13); of an SBF block its CRC, its number in 13 bits, and its length.
fn header_of(format: Format, header: &[u8]) -> Header {
    match (format, header) {
        (Format::Rtcm, [_, high, ..]) if *high > 3 => Header::Wrong,
        (Format::Ubx, [_, second, ..]) if *second != b'b' => Header::Wrong,
        (Format::Sbf, [_, second, ..]) if *second != b'@' => Header::Wrong,
        (Format::Ubx, [_, _, _, _, low, high, ..]) if two(*high, *low) > 8184 => Header::Wrong,
        (Format::Rtcm, [_, 0, 0, _, _, ..]) => Header::Message(5, 6, None),
        (Format::Rtcm, [_, 0, 1, _, _, ..]) => Header::Message(5, 7, None),
        (Format::Rtcm, [_, high, low, first, second, ..]) => {
            let number = two(*first, *second) / 16;
            let size = usize::from(two(*high, *low));
            Header::Message(5, size + 6, system_in(&RTCM, number))
        }
        (Format::Ubx, [_, _, class, id, low, high, ..]) if *class != 2 || *id != 0x13 => {
            Header::Message(6, usize::from(two(*high, *low)) + 8, None)
        }
        (Format::Ubx, [_, _, _, _, low, high, system, _, signal, ..]) => {
            let system = system_in(&UBX, two(*system, *signal));
            Header::Message(9, usize::from(two(*high, *low)) + 8, system)
        }
        (Format::Sbf, [_, _, _, _, low, high, size_low, size_high, ..]) => {
            let system = system_in(&SBF, two(*high % 32, *low));
            Header::Message(8, usize::from(two(*size_high, *size_low)), system)
        }
        _ => Header::More,
    }
}

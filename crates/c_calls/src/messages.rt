//! Ephemeris messages of RTCM 10403.3 (3.5): 1019 and 1046.

ghost use Rattle.std.specs.Prelude.{◌≡◌};
ghost use Rattle.nav_eph.specs.Weeks.{IsReference};
ghost use Rattle.framing.specs.State.{payload_of};
ghost use Rattle.rtcm_eph.specs.Reading.{item_in as item_of_payload};
ghost use Rattle.raw_values.specs.Items.{IsItemIn, item_in};
ghost use Rattle.raw_values.specs.Rooms.{IsLeft};
ghost use Rattle.c_calls.specs.Messages.{IsFrame, PutsMessage, WritesFrame, WritesMessage};
ghost use Rattle.c_calls.specs.Messages.{message_status};

use crate::frames::make_frame;
use framing::frame_of;
use nav_eph::{NavItem, RefWeek};
use raw_values::reasons::{NO_FRAME, NO_ITEM, NO_MESSAGE, NO_WEEK};
use raw_values::{ItemRaw, item_of, put_item};
use rtcm_eph::{MessageFault, read_item, write_1019, write_1046};

// The number of a fault.
fn status_of(fault: &MessageFault) -> u32
    ensures { result ≡ message_status fault.now }
{
    match fault {
        MessageFault::NoNumber => 16,
        MessageFault::OtherMessage { number: _ } => 17,
        MessageFault::Short => 18,
        MessageFault::BadSat => 19,
        MessageFault::BadTime => 20,
        MessageFault::SpareSisa => 21,
    }
}

/// Puts the ephemeris in a payload of message 1019 or 1046, whose full week is the one near a
/// reference week, 1024 to 8191. Its transmission time is unknown.
///
/// 0; or the number of the payload's first error, 16 to 21, or 22 if there is no such week, and
/// then nothing is put.
pub fn read_message(payload: &[u8], week: u32, into: &mut ItemRaw) -> u32
    ensures message { IsReference week →
        PutsMessage (item_of_payload week payload.now) into.old into.new result }
    ensures week { (IsReference week → ⊥) → (result ≡ 22) × (into.new ≡ into.old) }
{
    let reference = match RefWeek::new(week) {
        None => return NO_WEEK,
        Some(reference) => reference,
    };
    match read_item(payload, reference) {
        Ok(item) => {
            put_item(&item, into);
            0
        }
        Err(fault) => status_of(&fault),
    }
}

/// Puts the ephemeris of message 1019 or 1046 of a complete frame, as [`read_message`] puts that of
/// its payload.
///
/// 26 if the bytes are not one complete frame with a right checksum and nothing else, and then
/// nothing is put.
pub fn read_frame(bytes: &[u8], week: u32, into: &mut ItemRaw) -> u32
    ensures message { IsFrame bytes.now → IsReference week →
        PutsMessage (item_of_payload week (payload_of bytes.now)) into.old into.new result }
    ensures week { IsFrame bytes.now → (IsReference week → ⊥) →
        (result ≡ 22) × (into.new ≡ into.old) }
    ensures frame { (IsFrame bytes.now → ⊥) → (result ≡ 26) × (into.new ≡ into.old) }
{
    match frame_of(bytes) {
        Some(frame) => read_message(frame.payload(), week, into),
        None => NO_FRAME,
    }
}

// Puts the frame of the message of an item.
fn put_frame(item: &NavItem, into: &mut [u8], used: &mut usize) -> u32
    ensures { WritesFrame item.now into.old into.new used.new result }
{
    match item {
        NavItem::Gps(value) => {
            *used = make_frame(write_1019(value).bytes(), into);
            0
        }
        NavItem::Gal(value) => {
            *used = make_frame(write_1046(value).bytes(), into);
            0
        }
        NavItem::Ion(_) => {
            *used = 0;
            NO_MESSAGE
        }
    }
}

/// Puts the frame of the message of an ephemeris, 1019 or 1046, and returns its size.
///
/// 0; or 23 if the numbers encode no item, or 25 if they are ionospheric parameters, which no
/// message carries, and then nothing is put.
pub fn write_message(raw: &ItemRaw, into: &mut [u8], used: &mut usize) -> u32
    ensures item { IsItemIn (item_in raw.now) →
        WritesMessage (item_in raw.now) into.old into.new used.new result }
    ensures none { (IsItemIn (item_in raw.now) → ⊥) →
        (result ≡ 23) × IsLeft into.old into.new used.new }
{
    match item_of(raw) {
        Some(item) => put_frame(&item, into, used),
        None => {
            *used = 0;
            NO_ITEM
        }
    }
}

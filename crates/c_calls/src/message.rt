//! Messages of rows.

ghost use Rattle.std.specs.Prelude.{◌≡◌, ◌≤◌};
ghost use Rattle.rinex_write.specs.Columns.{AreFields};
ghost use Rattle.nav_rows.specs.Kinds.{IsKind};
ghost use Rattle.nav_rows.specs.Encoding.{message_of};
ghost use Rattle.c_calls.specs.RecordReads.{reason_status};
ghost use Rattle.c_calls.specs.Rows.{PutsFrame, WritesFrame, encode_status, frame_status};

use crate::kinds::kind_for;
use crate::make_frame;
use crate::row_raw::RowRaw;
use crate::write::row_in;
use nav_rows::{EncodeFault, Kind, Row, message_of_row};
use nav_tables::TimeFault;
use raw_values::reasons::NO_ITEM;
use rinex_read::RecordFault;

// The number of the reason why an epoch is none of its kind.
fn epoch_status(reason: &RecordFault) -> u32
    ensures { result ≡ reason_status reason.now }
{
    match reason {
        RecordFault::BadSat => 32,
        RecordFault::Short => 33,
        RecordFault::NotANumber => 34,
        RecordFault::Blank => 35,
        RecordFault::OutOfRange => 36,
        RecordFault::NoSuchDate => 37,
        RecordFault::Week => 38,
        RecordFault::Fit => 39,
        RecordFault::EpochStep => 40,
        RecordFault::EpochFar => 41,
    }
}

// The number of the reason why times are not those of a frame.
fn frame_status(fault: &TimeFault) -> u32
    ensures { result ≡ frame_status fault.now }
{
    match fault {
        TimeFault::Epoch => 40,
        TimeFault::Sent => 30,
        TimeFault::Day => 29,
    }
}

// The number of a fault.
fn encode_status(fault: &EncodeFault) -> u32
    ensures { result ≡ encode_status fault.now }
{
    match fault {
        EncodeFault::Epoch(reason) => epoch_status(reason),
        EncodeFault::Frame(fault) => frame_status(fault),
        EncodeFault::OutOfRange { field } => { if *field == 1 { 19 } else { 28 } }
        EncodeFault::SpareSisa => 21,
        EncodeFault::NoMessage => 25,
    }
}

// How many bytes a message has.
fn message_size(kind: &Kind) -> usize
    requires { IsKind kind.now }
    ensures same { result ≡ kind.now.table.bytes }
    ensures few { result ≤ 192 }
{
    kind.table.bytes
}

// Puts the frame of the message of a row.
fn put_frame(kind: &Kind, row: &Row, into: &mut [u8], used: &mut usize) -> u32
    requires kind { IsKind kind.now }
    requires fields { AreFields kind.now.layout.columns.now row.now.columns.items }
    ensures { PutsFrame (message_of kind.now (record {
      number = row.now.number;
      moment = row.now.moment;
      columns = row.now.columns.items;
    })) into.old into.new used.new result }
{
    let mut message = [0; 192];
    let size = message_size(kind);
    match message_of_row(kind, row, &mut message[..size]) {
        Ok(()) => {
            *used = make_frame(&message[..size], into);
            0
        }
        Err(fault) => {
            *used = 0;
            encode_status(&fault)
        }
    }
}

/// Puts the frame of the message of a row, and its size into `used`: reserved bits are 0, and a
/// GLONASS message has no additional data. `letter` and `title` are not looked at.
///
/// 0; or 23 as [`crate::write_row`]; or the number of the first error: 38, 40 or 41 if the epoch is
/// none of its kind, 30 if the transmission time is none of a GLONASS frame, and 29 if its day has
/// no number; 19 if the satellite and 28 if another number is out of the range of its field, 21 for
/// a spare SISA index; and then nothing is put.
pub fn write_row_message(raw: &RowRaw, into: &mut [u8], used: &mut usize) -> u32
    ensures { WritesFrame raw.now into.old into.new used.new result }
{
    *used = 0;
    let Some(kind) = kind_for(raw.message, raw.satellite) else {
        return NO_ITEM;
    };
    match row_in(&kind, raw) {
        Some(row) => put_frame(&kind, &row, into, used),
        None => NO_ITEM,
    }
}

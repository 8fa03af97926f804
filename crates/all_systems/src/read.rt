//! What a payload gives beside the ephemerides of messages 1019 and 1046.

ghost use Rattle.std.specs.Prelude.{◌≡◌, ◌≤◌, length};
ghost use Rattle.all_systems.specs.Readings.{is_day, is_time, message_in, range_reason};
ghost use Rattle.all_systems.specs.Readings.{row_reason, satellite_in};

use nav_bits::number_in_bytes;
use nav_rows::{Clock, RowFault};
use nav_tables::TableFault;

// The six bits behind the message number.
pub(crate) fn satellite_in(payload: &[u8]) -> u64
    ensures { result ≡ satellite_in payload.now }
{
    if payload.len() < 3 {
        return 0;
    }
    number_in_bytes(payload, 12, 6)
}

// The message number; 0 where there is none.
pub(crate) fn message_in(payload: &[u8]) -> u64
    ensures { result ≡ message_in payload.now }
{
    if payload.len() < 2 {
        return 0;
    }
    number_in_bytes(payload, 0, 12)
}

// Whether a field has a time.
fn is_time(clock: &Clock, field: usize) -> bool
    ensures { result ≡ is_time clock.now field }
{
    match clock {
        Clock::Frame => field == 6 || (field == 7 || (field == 8 || field == 11)),
        Clock::Weeks(weeks) => field == weeks.toe || field == weeks.toc,
        Clock::Daily(_) => field == 3,
    }
}

// Whether a field has the number of the day.
fn is_day(clock: &Clock, field: usize) -> bool
    ensures { result ≡ is_day clock.now field }
{
    match clock {
        Clock::Frame => field == 30,
        Clock::Weeks(_) => false,
        Clock::Daily(_) => false,
    }
}

// Why a number is out of its range.
fn range_reason(clock: &Clock, field: usize) -> &'static [u8]
    ensures same { result.now ≡ range_reason clock.now field }
    ensures short { length result.now ≤ 9 }
{
    if field == 1 {
        return b"satellite";
    }
    if is_time(clock, field) {
        return b"time";
    }
    if is_day(clock, field) {
        return b"day";
    }
    b"range"
}

// Why a message of a kind is rejected.
pub(crate) fn row_reason(clock: &Clock, fault: &RowFault) -> &'static [u8]
    ensures same { result.now ≡ row_reason clock.now fault.now }
    ensures short { length result.now ≤ 9 }
{
    match fault {
        RowFault::Message(TableFault::Short) => b"short",
        RowFault::Message(TableFault::OutOfRange { field }) => range_reason(clock, *field),
        RowFault::SpareSisa => b"sisa",
        RowFault::Day => b"day",
    }
}

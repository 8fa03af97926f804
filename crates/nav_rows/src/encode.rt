//! Messages of rows.

ghost use Rattle.std.specs.Prelude.{◌≡◌, ◌≤◌, ◌<◌, ◌+◌, ◌*◌, ◌^◌, ◌∷◌, ◌++◌, [], length, pos, IfOk};
ghost use Rattle.std.specs.Prelude.{IfErr, IsTrue, Ok, Err, None, if◌then◌else◌};
ghost use Rattle.nav_tables.specs.Messages.{AreInRange, starts};
ghost use Rattle.nav_tables.specs.Links.{AreSmall, are_links};
ghost use Rattle.nav_tables.specs.Weeks.{is_week_rule};
ghost use Rattle.rinex_write.specs.Columns.{AreFields, is_unknown};
ghost use Rattle.nav_rows.specs.declared.kind.Clock.TheVariants.{Frame, Weeks};
ghost use Rattle.nav_rows.specs.Kinds.{IsKind, head_links};
ghost use Rattle.nav_rows.specs.Rows.{value};
ghost use Rattle.nav_rows.specs.Encoding.{HasClock, HasFlags, HasToe, epoch_fault, frame_stated};
ghost use Rattle.nav_rows.specs.Encoding.{is_near_toe, judged_row, known, message_of, numbers_in};
ghost use Rattle.nav_rows.specs.Encoding.{toe_at, toe_week, week_head, with_head_of};

use crate::kind::{Clock, Kind, WeekClock};
use crate::row::{Row, has_spare_sisa};
use arrayvec::ArrayVec;
use nav_eph::{Moment, Second, Week, nearest_moment};
use nav_tables::{
    FrameTime, Link, Part, TimeFault, Times, fill_numbers, first_outside, frame_time,
    number_of_week, start_numbers, write_message,
};
use rinex_read::RecordFault;
use rinex_write::{Column, NOT_KNOWN, Rule};

/// Why a row has no message: the first of these that holds, in this order.
#[derive(Clone, Copy, PartialEq, Eq, Debug)]
pub enum EncodeFault {
    /// Its epoch is none of its kind.
    Epoch(RecordFault),
    /// Its times are not those of a frame.
    Frame(TimeFault),
    /// A number is outside its field's range; no field before it has such a number.
    OutOfRange {
        /// The offset of the field in the table.
        field: usize,
    },
    /// Its SISA index is a spare one, 126 to 254.
    SpareSisa,
    /// No message has its kind.
    NoMessage,
}

// The week of toe, counted from 1980-01-06.
fn toe_week(clock: &WeekClock, columns: &[i64]) -> u64
    requires { HasToe clock.now columns.now }
    ensures same { result ≡ toe_week clock.now columns.now }
    ensures few { result < 2 ^ 34 }
{
    columns[21].unsigned_abs() + u64::from(clock.zero)
}

// Toe as GPS time in seconds.
pub(crate) fn toe_at(clock: &WeekClock, columns: &[i64]) -> u64
    requires { HasToe clock.now columns.now }
    ensures same { result ≡ toe_at clock.now columns.now }
    ensures few { result < 2 ^ 60 }
{
    604_800 * toe_week(clock, columns) + u64::from(clock.step) * columns[11].unsigned_abs()
}

// Whether an epoch is within half a week of toe.
fn is_near_toe(moment: u64, toe: u64) -> bool
    requires moment { moment < 2 ^ 60 }
    requires toe { toe < 2 ^ 60 }
    ensures { result ≡ is_near_toe moment toe }
{
    toe < moment + 302_400 && moment <= toe + 302_400
}

// The first reason why an epoch is none of its kind.
pub(crate) fn epoch_fault(clock: &Clock, moment: Moment, columns: &[i64]) -> Option<RecordFault>
    requires { HasClock clock.now columns.now }
    ensures { result ≡ epoch_fault clock.now moment columns.now }
{
    match clock {
        Clock::Frame => {
            if moment.value() % 900 == 0 {
                None
            } else {
                Some(RecordFault::EpochStep)
            }
        }
        Clock::Weeks(weeks) => {
            let week = toe_week(weeks, columns);
            if week < 1 || week > 16_382 {
                return Some(RecordFault::Week);
            }
            if moment.second().value() % weeks.step != 0 {
                return Some(RecordFault::EpochStep);
            }
            if !is_near_toe(moment.value(), toe_at(weeks, columns)) {
                return Some(RecordFault::EpochFar);
            }
            None
        }
        Clock::Daily(step) => {
            if moment.second().value() % *step == 0 {
                None
            } else {
                Some(RecordFault::EpochStep)
            }
        }
    }
}

// The time of a frame with this epoch, sent at this time of week.
fn frame_stated(moment: Moment, sent: u64) -> Result<FrameTime, TimeFault>
    ensures { result ≡ frame_stated moment sent }
{
    if sent >= 604_800 {
        return Err(TimeFault::Sent);
    }
    if moment.week() < 1 || moment.week() > 16_382 {
        return Err(TimeFault::Day);
    }
    let frame = nearest_moment(moment, Second::from_number(sent as u32));
    frame_time(&Times {
        epoch: moment,
        frame,
    })
}

// The fields with the satellite and the times of a frame.
const FRAME_LINKS: [Link; 8] = [
    Link::Field { field: 1 },
    Link::Field { field: 32 },
    Link::Field { field: 35 },
    Link::Field { field: 30 },
    Link::Field { field: 6 },
    Link::Field { field: 7 },
    Link::Field { field: 8 },
    Link::Field { field: 11 },
];

// The numbers of a frame's fields.
fn frame_head(satellite: u8, time: &FrameTime) -> [i64; 8]
    ensures same { result ≡ pos satellite ∷ pos time.now.additional ∷ pos time.now.period
        ∷ pos time.now.day ∷ pos time.now.hour ∷ pos time.now.minute ∷ pos time.now.half
        ∷ pos time.now.quarter ∷ [] }
    ensures small { AreSmall result }
{
    [
        i64::from(satellite),
        i64::from(time.additional),
        i64::from(time.period),
        i64::from(time.day),
        i64::from(time.hour),
        i64::from(time.minute),
        i64::from(time.half),
        i64::from(time.quarter),
    ]
}

// The numbers of the fields of a message with a week.
fn week_head(clock: &WeekClock, row: &Row) -> [i64; 3]
    requires toe { HasToe clock.now row.now.columns.items }
    requires rule { IsTrue (is_week_rule clock.now.rule) }
    requires some { 1 ≤ toe_week clock.now row.now.columns.items }
    requires most { toe_week clock.now row.now.columns.items ≤ 16382 }
    ensures same { result ≡ week_head clock.now (value row.now) }
    ensures small { AreSmall result }
{
    let week = Week::from_number(toe_week(clock, row.columns.as_slice()) as u32);
    [
        i64::from(row.number),
        i64::from(number_of_week(&clock.rule, week)),
        i64::from(row.moment.second().value() / clock.step),
    ]
}

// Writes the numbers of the fields with the satellite and the times of a frame.
fn write_frame_head(row: &Row, parts: &[Part], numbers: &mut [i64]) -> Result<(), EncodeFault>
    requires columns { HasFlags row.now.columns.items }
    requires links { IsTrue (are_links (length numbers.old) parts.now (head_links Frame)) }
    ensures ok { IfOk result (λ done. with_head_of parts.now Frame (value row.now) numbers.old
        ≡ Ok numbers.new) }
    ensures err { IfErr result (λ fault. with_head_of parts.now Frame (value row.now) numbers.old
        ≡ Err fault) }
    ensures count { length numbers.new ≡ length numbers.old }
{
    let columns = row.columns.as_slice();
    match frame_stated(row.moment, columns[2].unsigned_abs()) {
        Err(fault) => Err(EncodeFault::Frame(fault)),
        Ok(time) => {
            fill_numbers(&FRAME_LINKS, parts, &frame_head(row.number, &time), numbers);
            Ok(())
        }
    }
}

// Writes the numbers of the fields with the satellite, week and toc.
fn write_week_head(clock: &WeekClock, row: &Row, parts: &[Part], numbers: &mut [i64])
    requires toe { HasToe clock.now row.now.columns.items }
    requires rule { IsTrue (is_week_rule clock.now.rule) }
    requires epoch { epoch_fault (Weeks clock.now) row.now.moment row.now.columns.items ≡ None }
    requires links { IsTrue (are_links (length numbers.old) parts.now
        (head_links (Weeks clock.now))) }
    ensures value { with_head_of parts.now (Weeks clock.now) (value row.now) numbers.old
        ≡ Ok numbers.new }
    ensures count { length numbers.new ≡ length numbers.old }
{
    let links = [
        Link::Field { field: 1 },
        Link::Field { field: clock.week },
        Link::Field { field: clock.toc },
    ];
    fill_numbers(&links, parts, &week_head(clock, row), numbers);
}

// Writes the numbers of the satellite and the times.
fn write_head(kind: &Kind, row: &Row, numbers: &mut [i64]) -> Result<(), EncodeFault>
    requires kind { IsKind kind.now }
    requires fields { AreFields kind.now.layout.columns.now row.now.columns.items }
    requires epoch { epoch_fault kind.now.clock row.now.moment row.now.columns.items ≡ None }
    requires count { length numbers.old ≡ length kind.now.table.fields.now }
    ensures ok { IfOk result (λ done. with_head_of kind.now.parts.now kind.now.clock
        (value row.now) numbers.old ≡ Ok numbers.new) }
    ensures err { IfErr result (λ fault. with_head_of kind.now.parts.now kind.now.clock
        (value row.now) numbers.old ≡ Err fault) }
    ensures count { length numbers.new ≡ length numbers.old }
{
    match &kind.clock {
        Clock::Frame => write_frame_head(row, kind.parts, numbers),
        Clock::Weeks(clock) => {
            write_week_head(clock, row, kind.parts, numbers);
            Ok(())
        }
        Clock::Daily(_) => Err(EncodeFault::NoMessage),
    }
}

// Whether the numbers are those of a message, or the first fault.
fn judged(kind: &Kind, numbers: &[i64]) -> Result<(), EncodeFault>
    requires kind { IsKind kind.now }
    requires count { length numbers.now ≡ length kind.now.table.fields.now }
    ensures ok { IfOk result (λ done. judged_row kind.now (Ok numbers.now) ≡ Ok numbers.now) }
    ensures range { IfOk result (λ done. AreInRange kind.now.table.fields.now numbers.now) }
    ensures err { IfErr result (λ fault. judged_row kind.now (Ok numbers.now) ≡ Err fault) }
{
    match first_outside(kind.table.fields, numbers) {
        Some(field) => Err(EncodeFault::OutOfRange { field }),
        None => {
            if has_spare_sisa(kind.sisa, numbers) {
                Err(EncodeFault::SpareSisa)
            } else {
                Ok(())
            }
        }
    }
}

// A field, or 0 if it is a number that is not known.
fn known_field(rule: &Rule, field: i64) -> i64
    ensures { result ≡ (if is_unknown rule.now field then pos 0 else field) }
{
    match rule {
        Rule::OrUnknown { .. } if field >= NOT_KNOWN => 0,
        _ => field,
    }
}

// Appends fields, with 0 for a number that is not known.
#[tactic(auto, unfolding(crate::specs::Encoding::known))]
fn push_known(columns: &[Column], fields: &[i64], out: &mut ArrayVec<i64, 29>)
    requires { length out.old.items + length fields.now ≤ 29 }
    ensures { out.new.items ≡ out.old.items ++ known columns.now fields.now }
{
    if let [column, columns_left @ ..] = columns {
        if let [field, fields_left @ ..] = fields {
            out.push(known_field(&column.rule, *field));
            push_known(columns_left, fields_left, out);
        }
    }
}

// Writes the numbers of a row's message.
#[tactic(auto, unfolding(crate::specs::Encoding::numbers_in))]
fn write_numbers(kind: &Kind, row: &Row, numbers: &mut [i64]) -> Result<(), EncodeFault>
    requires kind { IsKind kind.now }
    requires fields { AreFields kind.now.layout.columns.now row.now.columns.items }
    requires starts { numbers.old ≡ starts kind.now.table.fields.now }
    ensures ok { IfOk result (λ done. numbers_in kind.now (value row.now) ≡ Ok numbers.new) }
    ensures range { IfOk result (λ done. AreInRange kind.now.table.fields.now numbers.new) }
    ensures err { IfErr result (λ fault. numbers_in kind.now (value row.now) ≡ Err fault) }
{
    let columns = row.columns.as_slice();
    match epoch_fault(&kind.clock, row.moment, columns) {
        Some(reason) => Err(EncodeFault::Epoch(reason)),
        None => {
            let mut known = ArrayVec::new();
            push_known(kind.layout.columns, columns, &mut known);
            fill_numbers(kind.links, kind.parts, known.as_slice(), numbers);
            match write_head(kind, row, numbers) {
                Ok(()) => judged(kind, numbers),
                Err(fault) => Err(fault),
            }
        }
    }
}

/// Writes the message of a row: reserved bits 0 and, for a GLONASS frame, no additional data.
///
/// The error is the first one, in the order of [`EncodeFault`]; nothing was written then.
pub fn message_of_row(kind: &Kind, row: &Row, out: &mut [u8]) -> Result<(), EncodeFault>
    requires kind { IsKind kind.now }
    requires fields { AreFields kind.now.layout.columns.now row.now.columns.items }
    requires room { length out.old ≡ kind.now.table.bytes }
    ensures ok { IfOk result (λ done. message_of kind.now (value row.now) ≡ Ok out.new) }
    ensures err { IfErr result (λ fault. message_of kind.now (value row.now) ≡ Err fault) }
    ensures kept { IfErr result (λ fault. out.new ≡ out.old) }
{
    let mut numbers = start_numbers(&kind.table);
    match write_numbers(kind, row, numbers.as_mut_slice()) {
        Ok(()) => {
            write_message(&kind.table, numbers.as_slice(), out);
            Ok(())
        }
        Err(fault) => Err(fault),
    }
}

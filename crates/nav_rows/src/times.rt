//! The times in messages.

ghost use Rattle.std.specs.Prelude.{◌≡◌, ◌<◌, ◌≤◌, ◌+◌, ◌*◌, ◌/◌, IfSome, IsTrue, length, pos};
ghost use Rattle.std.specs.Prelude.{◌≤ℤ◌, unsigned_abs};
ghost use Rattle.nav_eph.specs.Weeks.{week_of};
ghost use Rattle.nav_tables.specs.Links.{nth};
ghost use Rattle.nav_tables.specs.Times.{IsFrameTime, times_to};
ghost use Rattle.nav_rows.specs.declared.kind.Clock.TheVariants.{Frame, Weeks};
ghost use Rattle.nav_rows.specs.Kinds.{is_week_clock};
ghost use Rattle.nav_rows.specs.Times.{HasFrame, HasTimes, HasWeek, IsGiven, IsNumber, frame_of};
ghost use Rattle.nav_rows.specs.Times.{framed, times_stated, weekly};

use crate::kind::{Clock, WeekClock};
use nav_eph::{Moment, RefWeek, Second, Week, nearest_moment};
use nav_tables::{FrameTime, times_of, week_near};

/// The times of an ephemeris as its record gives them.
#[derive(Clone, Copy, PartialEq, Eq)]
pub struct RowTimes {
    /// The epoch.
    pub epoch: Moment,
    /// The week of toe as records count it; 0 if they have none.
    pub week: u32,
    /// The time of week of the frame; 0 if the message has none.
    pub sent: u32,
}

// The number of a field that is not negative.
fn number_at(numbers: &[i64], place: usize) -> u32
    requires { IsNumber numbers.now place }
    ensures { result ≡ unsigned_abs (nth numbers.now place) }
{
    numbers[place] as u32
}

// The time that a frame tells.
fn frame_of(numbers: &[i64]) -> FrameTime
    requires { HasFrame numbers.now }
    ensures same { result ≡ frame_of numbers.now }
    ensures range { IsFrameTime result }
{
    FrameTime {
        additional: number_at(numbers, 32),
        period: number_at(numbers, 35),
        day: number_at(numbers, 30),
        hour: number_at(numbers, 6),
        minute: number_at(numbers, 7),
        half: number_at(numbers, 8),
        quarter: number_at(numbers, 11),
    }
}

// The times of a frame near a reference week.
fn frame_times(numbers: &[i64], reference: RefWeek) -> Option<RowTimes>
    requires { HasFrame numbers.now }
    ensures value { result ≡ framed (times_to (frame_of numbers.now) reference) }
    ensures range { IfSome result (IsGiven Frame) }
{
    match times_of(&frame_of(numbers), reference) {
        None => None,
        Some(times) => Some(RowTimes {
            epoch: times.epoch,
            week: 0,
            sent: times.frame.second().value(),
        }),
    }
}

// The moment at a time of week.
fn toe_of(week: Week, second: u32) -> Moment
    requires { second < 604800 }
    ensures same { result ≡ 604800 * week + second }
    ensures week { week_of result ≡ week }
{
    Moment::from_seconds(604_800 * u64::from(week.value()) + u64::from(second))
}

// The times of a message with a week number.
fn week_times(clock: &WeekClock, numbers: &[i64], reference: RefWeek) -> RowTimes
    requires clock { IsTrue (is_week_clock clock.now) }
    requires numbers { HasWeek clock.now numbers.now }
    ensures value { result ≡ weekly clock.now numbers.now reference }
    ensures range { IsGiven (Weeks clock.now) result }
{
    let week = week_near(&clock.rule, reference, number_at(numbers, clock.week));
    let toe = clock.step * number_at(numbers, clock.toe);
    let toc = clock.step * number_at(numbers, clock.toc);
    RowTimes {
        epoch: nearest_moment(toe_of(week, toe), Second::from_number(toc)),
        week: week.value() - clock.zero,
        sent: 0,
    }
}

// The times of a message near a reference week; None where no day has its number.
pub(crate) fn times_stated(clock: &Clock, numbers: &[i64], reference: RefWeek) -> Option<RowTimes>
    requires { HasTimes clock.now numbers.now }
    ensures value { result ≡ times_stated clock.now numbers.now reference }
    ensures range { IfSome result (IsGiven clock.now) }
{
    match clock {
        Clock::Frame => frame_times(numbers, reference),
        Clock::Weeks(weeks) => Some(week_times(weeks, numbers, reference)),
        Clock::Daily(_) => None,
    }
}

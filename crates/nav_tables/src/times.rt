ghost use Rattle.std.specs.Prelude.{◌≡◌, ◌≤◌, ◌<◌, ◌+◌, ◌*◌, ◌-◌, ◌%◌, ◌/◌, IfSome};
ghost use Rattle.std.specs.Prelude.{MatchOption, Some};
ghost use Rattle.nav_tables.specs.Days.{day_of_number};
ghost use Rattle.nav_tables.specs.Times.{IsFrameTime, day_of, epoch_at, frame_in, frame_numbers};
ghost use Rattle.nav_tables.specs.Times.{has_day, is_sent, time_of, times_on, times_to};

use crate::day::{day_of_number, nearest_day, number_of_day};
use nav_eph::{Moment, RefWeek};

/// The times of a GLONASS frame as its message gives them, in Moscow time.
#[derive(Clone, Copy, PartialEq, Eq)]
pub struct FrameTime {
    /// Whether the message has additional data.
    pub additional: u32,
    /// The number of the four years, 1 from 1996 on.
    pub period: u32,
    /// The day in the four years, from 1.
    pub day: u32,
    /// The hour of the frame.
    pub hour: u32,
    /// Its minute.
    pub minute: u32,
    /// Its half minute.
    pub half: u32,
    /// The epoch in quarters of an hour of the day.
    pub quarter: u32,
}

/// The times of a GLONASS ephemeris, in UTC.
#[derive(Clone, Copy, PartialEq, Eq)]
pub struct Times {
    /// The epoch.
    pub epoch: Moment,
    /// The time of the frame.
    pub frame: Moment,
}

/// Why times are not those of a frame: the first of these that holds, in this order.
#[derive(Clone, Copy, PartialEq, Eq, Debug)]
pub enum TimeFault {
    /// The epoch is no quarter of an hour.
    Epoch,
    /// The frame is twelve hours or more away, or at no half minute.
    Sent,
    /// The day has no number.
    Day,
}

// The day of a frame.
fn day_of(time: &FrameTime, reference: RefWeek) -> Option<u32>
    requires { IsFrameTime time.now }
    ensures { result ≡ day_of time.now reference }
{
    if time.additional == 1 && time.period >= 1 {
        day_of_number(time.period, time.day)
    } else {
        nearest_day(7 * reference.value() + 3, time.day)
    }
}

// The time of day of a frame.
fn time_of(time: &FrameTime) -> u32
    requires { IsFrameTime time.now }
    ensures same { result ≡ time_of time.now }
    ensures less { result < 86400 }
{
    3_600 * time.hour + 60 * time.minute + 30 * time.half
}

// The epoch in UTC of a quarter of an hour near a Moscow time.
fn epoch_at(near: u64, quarter: u32) -> u64
    requires from { 504489600 ≤ near }
    requires to { near < 8000000000 }
    requires quarter { quarter ≤ 95 }
    ensures same { result ≡ epoch_at near quarter }
    ensures less { result < 9000000000 }
{
    let low = near - 43_199;
    let ahead = (900 * u64::from(quarter) + 86_400 - low % 86_400) % 86_400;
    low + ahead - 10_800
}

// The times of a frame on a day.
fn times_on(time: &FrameTime, day: u32) -> Times
    requires time { IsFrameTime time.now }
    requires from { 5839 ≤ day }
    requires to { day < 60000 }
    ensures { result ≡ times_on time.now day }
{
    let near = 86_400 * u64::from(day) + u64::from(time_of(time));
    Times {
        epoch: Moment::from_seconds(epoch_at(near, time.quarter)),
        frame: Moment::from_seconds(near - 10_800),
    }
}

/// The times of a frame near a reference week; None if no day has its number.
pub fn times_of(time: &FrameTime, reference: RefWeek) -> Option<Times>
    requires { IsFrameTime time.now }
    ensures { result ≡ times_to time.now reference }
{
    match day_of(time, reference) {
        None => None,
        Some(day) => Some(times_on(time, day)),
    }
}

// Whether the frame is at a half minute, less than twelve hours from the epoch.
fn is_sent(epoch: u64, frame: u64) -> bool
    requires epoch { epoch < 10000000000 }
    requires frame { frame < 10000000000 }
    ensures { result ≡ is_sent epoch frame }
{
    frame % 30 == 0 && frame < epoch + 43_200 && epoch < frame + 43_200
}

// Whether the day in Moscow is one of 1996 to 2119.
fn has_day(frame: u64) -> bool
    ensures { result ≡ has_day frame }
{
    frame >= 504_489_600 && frame < 4_417_545_600
}

// The numbers of a frame, from Moscow times.
fn frame_numbers(epoch: u64, frame: u64) -> FrameTime
    requires from { 504489600 ≤ frame }
    requires to { frame < 4417545600 }
    ensures { result ≡ frame_numbers epoch frame }
{
    let (period, day) = number_of_day((frame / 86_400) as u32);
    let time = (frame % 86_400) as u32;
    FrameTime {
        additional: 0,
        period,
        day,
        hour: time / 3_600,
        minute: time / 60 % 60,
        half: time / 30 % 2,
        quarter: (epoch % 86_400 / 900) as u32,
    }
}

/// The times of a frame as its message gives them, without additional data.
///
/// The error is the first one, in the order of [`TimeFault`].
#[tactic(auto, unfolding(crate::specs::Times::frame_in))]
pub fn frame_time(times: &Times) -> Result<FrameTime, TimeFault>
    ensures value { result ≡ frame_in times.now }
{
    let epoch = times.epoch.value() + 10_800;
    let frame = times.frame.value() + 10_800;
    if epoch % 900 != 0 {
        return Err(TimeFault::Epoch);
    }
    if !is_sent(epoch, frame) {
        return Err(TimeFault::Sent);
    }
    if !has_day(frame) {
        return Err(TimeFault::Day);
    }
    Ok(frame_numbers(epoch, frame))
}

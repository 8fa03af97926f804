//! Subframes and pages that wait for the time message after them.

ghost use Rattle.std.specs.Prelude.{◌≡◌, ℕ, Bool, List, ◌∷◌, [], Some, None, ◌≤◌, ◌<◌, ◌+◌, ◌-◌};
ghost use Rattle.arrayvec.specs.ArrayVec.{array_vec_len};
ghost use Rattle.std.specs.Prelude.{◌++◌, IfSome, IfNone, ◌⊎◌, All, length, drop, true, false};
ghost use Rattle.receiver_log.specs.Systems.{IsOfSystem};
ghost use Rattle.receiver_log.specs.declared.content.LogMessage.{LogMessage};
ghost use Rattle.receiver_log.specs.declared.content.LogMessage.TheVariants.{Time, Received, Dated};
ghost use Rattle.receiver_log.specs.Log.{one_more};
ghost use Rattle.receiver_log.specs.Mirrors.{to_come, empty_queue};
ghost use Rattle.receiver_log.specs.Receptions.{between as time_between};

use crate::reception::Reception;
use crate::{LogContent, LogReason};
use arrayvec::ArrayVec;
use nav_eph::Moment;
use std::marker::Model;

// The most subframes and pages between two time messages.
const MOST: usize = 1_024;

// Seconds from one time message to the next, at most.
const APART: u64 = 60;

// A subframe or a page that waits for its time.
#[derive(Clone, Copy, PartialEq, Eq)]
pub struct Pending {
    /// The number of its message in the log, from 1.
    pub number: u64,
    /// The subframe or the page.
    pub content: LogContent,
}

impl Default for Pending {
    fn default() -> Self {
        Pending {
            number: 0,
            content: LogContent::Refused(LogReason::Length),
        }
    }
}

// Subframes and pages behind the last time message. Once their time is settled they are taken one
// by one, and nothing is put behind them before all are.
#[derive(Drop)]
pub struct Queue {
    pending: ArrayVec<Pending, 1025>,
    // how many were taken
    taken: usize,
    // the time of the last time message
    time: Option<Moment>,
    // their time, once it is settled
    settled: Option<Option<Moment>>,
}

impl Model for Queue {
    ghost use Rattle.std.specs.Prelude.{◌≡◌, ◌≤◌, [], None, All, length, drop};
    ghost use Rattle.receiver_log.specs.Systems.{IsOfSystem};
    ghost use Rattle.receiver_log.specs.Mirrors.{QueueState};

    ghost Value = { QueueState };

    ghost view = { λ q. record {
      waiting = drop q.taken q.pending.items;
      time = q.time;
      settled = q.settled;
    } };

    ghost invariant = { λ q. (q.taken ≤ length q.pending.items)
        × (q.settled ≡ None → (q.taken ≡ 0) × (length q.pending.items ≤ 1024)
        × (q.time ≡ None → q.pending.items ≡ []))
        × All (λ x. IsOfSystem x.content) q.pending.items };
}

impl Queue {
    // A queue before the first message.
    pub fn new() -> Self
        ensures { result ≡ empty_queue }
    {
        Queue {
            pending: ArrayVec::new(),
            taken: 0,
            time: None,
            settled: None,
        }
    }

    // Takes the next subframe or page whose time is settled.
    pub fn next(&mut self) -> Option<Reception>
        ensures some { IfSome result (λ r. (more : Bool) (number : ℕ) (says : List LogMessage)
            → to_come more self.old number says ≡ r ∷ to_come more self.new number says) }
        ensures system { IfSome result (λ r. IsOfSystem r.content) }
        ensures fewer { IfSome result (λ _.
            (length self.new.waiting + 1 ≡ length self.old.waiting)
            × (self.new.settled ≡ self.old.settled)) }
        ensures same { IfNone result ((self.new.waiting ≡ self.old.waiting)
            × ((self.old.settled ≡ None) ⊎ (self.new.waiting ≡ []))) }
        ensures time { self.new.time ≡ self.old.time }
        ensures none { IfNone result ((self.new.settled ≡ None)
            × ((more : Bool) (number : ℕ) (says : List LogMessage)
            → to_come more self.old number says ≡ to_come more self.new number says)) }
    {
        let time = self.settled?;
        if self.taken < self.pending.len() {
            let next = self.pending[self.taken];
            self.taken += 1;
            return Some(Reception {
                number: next.number,
                time,
                content: next.content,
            });
        }
        self.pending.clear();
        self.taken = 0;
        self.settled = None;
        None
    }

    // A time message: the time of what waits is settled.
    pub fn set_time(&mut self, time: Option<Moment>)
        requires { self.old.settled ≡ None }
        ensures same { self.new.waiting ≡ self.old.waiting }
        ensures comes { (more : Bool) (number : ℕ) (says : List LogMessage)
            → to_come more self.old number (Time time ∷ says)
            ≡ to_come more self.new (one_more number) says }
    {
        let settled = between(&self.time, &time);
        self.settled = Some(settled);
        self.time = time;
    }

    // A subframe or page without a time of its own.
    pub fn put(&mut self, part: &Pending)
        requires settled { self.old.settled ≡ None }
        requires system { IsOfSystem part.now.content }
        ensures more { length self.new.waiting ≡ length self.old.waiting + 1 }
        ensures comes { (more : Bool) (before : ℕ) (says : List LogMessage)
            → part.now.number ≡ one_more before
            → to_come more self.old before (Received part.now.content ∷ says)
            ≡ to_come more self.new part.now.number says }
    {
        append(&mut self.pending, part);
        if self.pending.len() > MOST {
            self.time = None;
            self.settled = Some(None);
            return;
        }
        if self.time.is_none() {
            self.settled = Some(None);
        }
    }

    // A subframe or page with a time of its own, where nothing waits.
    pub fn put_dated(&mut self, part: &Pending, time: Option<Moment>)
        requires settled { self.old.settled ≡ None }
        requires none { self.old.time ≡ None }
        requires system { IsOfSystem part.now.content }
        ensures more { length self.new.waiting ≡ length self.old.waiting + 1 }
        ensures time { self.new.time ≡ None }
        ensures comes { (more : Bool) (before : ℕ) (says : List LogMessage)
            → part.now.number ≡ one_more before
            → to_come more self.old before (Dated time part.now.content ∷ says)
            ≡ to_come more self.new part.now.number says }
    {
        append(&mut self.pending, part);
        self.settled = Some(time);
    }

    // The end of the log: what waits has no time.
    pub fn end(&mut self)
        requires { self.old.settled ≡ None }
        ensures same { self.new.waiting ≡ self.old.waiting }
        ensures settled { self.new.settled ≡ Some None }
        ensures time { self.new.time ≡ None }
        ensures comes { (number : ℕ)
            → to_come false self.old number [] ≡ to_come false self.new number [] }
    {
        self.time = None;
        self.settled = Some(None);
    }

    // Whether nothing waits.
    pub fn is_empty(&self) -> bool
        requires { self.now.settled ≡ None }
        ensures none { result ≡ true → self.now.waiting ≡ [] }
        ensures some { result ≡ false → 0 < length self.now.waiting }
        ensures waits { (number : ℕ) → to_come true self.now number [] ≡ [] }
    {
        self.pending.is_empty()
    }
}

// The time of what lies between time messages with these times, 1,024 messages at most.
fn between(first: &Option<Moment>, second: &Option<Moment>) -> Option<Moment>
    ensures { (parts : ℕ) → parts ≤ 1024 → result ≡ time_between first.now second.now parts }
{
    if let (Some(first), Some(second)) = (first, second) {
        let (time, next) = (first.value(), second.value());
        if time <= next + 1 && next <= time + APART {
            return Some(*first);
        }
    }
    None
}

// Appends one, for which there is room.
fn append(pending: &mut ArrayVec<Pending, 1025>, part: &Pending)
    requires { array_vec_len pending.old < 1025 }
    ensures { pending.new.items ≡ pending.old.items ++ part.now ∷ [] }
{
    if pending.try_extend_from_slice(&[*part]).is_err() {
        unreachable!();
    }
}

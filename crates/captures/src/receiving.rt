//! The state of a run over a capture between two lines, and its step for the next line.

ghost use Rattle.std.specs.Prelude.{◌≡◌, ℕ, ◌+◌, ◌-◌, ◌^◌};
ghost use Rattle.std.specs.Prelude.{◌<◌, ◌≤◌, length, max, nat_lt};
ghost use Rattle.nav_eph.specs.declared.sat.System.TheVariants.{Gal};
ghost use Rattle.capture_log.specs.Events.{Known, events_of, known_with, of_half};
ghost use Rattle.capture_log.specs.Log.{noted};
ghost use Rattle.one_run.specs.Causes.{faults_of};
ghost use Rattle.captures.specs.Hearings.{Finishes, HoldsSome, IsNew, IsNextOf, IsOpenAt};
ghost use Rattle.captures.specs.Hearings.{Steps, Took};
ghost use Rattle.captures.specs.Notes.{HasSystem, KeepsHalves, known_half, total};

use crate::counts::{EventCounts, VerdictCounts};
use crate::flush::{write_closed, write_risen};
use crate::receiver::PartReceiver;
use capture_lines::LineItem;
use capture_log::{Event, parts_of_lines_are_values, what_is_closed_stays};
use inav::{HalfFault, Halves, halves_are_decided, read_half, words_are_the_function};
use nav_bits::Bits;
use nav_eph::{RefWeek, Sat, Signal};
use nav_io::Sink;
use one_run::BridgeFault;
use slot_assembly::SlotAssembly;
use std::alloc::Global;
use streams::Target;

// The state between two lines: the window in seconds, the greatest stamp of the lines so far, the
// page parts that may still get a partner, where events go, and the counts of verdicts.
#[derive(Drop)]
pub(crate) struct CaptureState {
    pub(crate) window: u32,
    pub(crate) greatest: u32,
    pub(crate) halves: Halves,
    pub(crate) receiver: PartReceiver,
    pub(crate) said: VerdictCounts,
}

impl CaptureState {
    // The state before any line.
    pub(crate) fn new(alloc: Global, week: RefWeek, window: u32) -> CaptureState
        requires least { 60 ≤ window }
        requires most { window ≤ 14400 }
        ensures { IsNew result week window }
    {
        CaptureState {
            window,
            greatest: 0,
            halves: Halves::new(alloc, window),
            receiver: PartReceiver {
                assembly: SlotAssembly::new(alloc, week, window),
                tally: EventCounts::new(),
            },
            said: VerdictCounts::new(),
        }
    }

    // The watermark of the lines so far: no accepted line has a stamp below it.
    fn watermark(&self) -> u64
        ensures { result ≡ self.now.greatest - self.now.window }
    {
        u64::from(self.greatest.saturating_sub(self.window))
    }

    // Whether a stamp is before the greatest by more than the window.
    fn is_late(&self, stamp: u32) -> bool
        ensures { result ≡ nat_lt (stamp + self.now.window) self.now.greatest }
    {
        u64::from(stamp) + u64::from(self.window) < u64::from(self.greatest)
    }

    // Processes a page part that is not late.
    fn half<U: Sink>(
        &mut self,
        number: u32,
        stamp: u32,
        sat: Sat,
        signal: Signal,
        bits: &Bits<15>,
        report: &mut U,
    ) -> Result<(), BridgeFault>
        requires system { sat.system ≡ Gal }
        requires open { IsOpenAt self.old.receiver stamp }
        requires room { total self.old.receiver.tally + length self.old.halves.kept + 1 < 2 ^ 64 }
        ensures { (known : Known) → KeepsHalves self.old.halves self.old.window known
            → known.greatest ≡ self.old.greatest
            → self.old.greatest ≤ stamp + self.old.window
            → Took self.old self.new (U.written report.old) (U.written report.new)
            (U.faults report.old) (U.faults report.new)
            (noted number (of_half known.halves stamp sat signal bits.now))
            (known_half known stamp sat signal bits.now) result }
    {
        halves_are_decided();
        words_are_the_function();
        self.greatest = self.greatest.max(stamp);
        match read_half(bits) {
            Err(HalfFault::Alert) => self.receiver.event(number, &Event::Unused, report),
            Ok(half) => match self.halves.take(stamp, sat, signal, &half) {
                Ok(joined) => self.receiver.words(number, sat, &joined, report),
                Err(_) => Err(BridgeFault::NoMemory),
            },
        }
    }

    // Processes the item of the line with this number.
    fn item<U: Sink>(
        &mut self,
        number: u32,
        item: &LineItem,
        report: &mut U,
    ) -> Result<(), BridgeFault>
        requires system { HasSystem item.now }
        requires open { IsOpenAt self.old.receiver (self.old.greatest - self.old.window) }
        requires room { total self.old.receiver.tally + length self.old.halves.kept + 1 < 2 ^ 64 }
        ensures { (known : Known) → known.greatest ≡ self.old.greatest
            → KeepsHalves self.old.halves self.old.window known
            → Took self.old self.new (U.written report.old) (U.written report.new)
            (U.faults report.old) (U.faults report.new)
            (noted number (events_of self.old.window known item.now))
            (known_with self.old.window known item.now) result }
    {
        match item {
            LineItem::Pass => Ok(()),
            LineItem::Malformed => self.receiver.event(number, &Event::Malformed, report),
            LineItem::Lnav { stamp, sat, bits } => {
                if self.is_late(*stamp) {
                    return self.receiver.event(number, &Event::Late, report);
                }
                self.greatest = self.greatest.max(*stamp);
                self.receiver.subframe(number, *stamp, *sat, bits, report)
            }
            LineItem::Half {
                stamp,
                sat,
                signal,
                bits,
            } => {
                if self.is_late(*stamp) {
                    return self.receiver.event(number, &Event::Late, report);
                }
                self.half(number, *stamp, *sat, *signal, bits, report)
            }
            LineItem::Frame { stamp, bytes } => {
                if self.is_late(*stamp) {
                    return self.receiver.event(number, &Event::Late, report);
                }
                self.greatest = self.greatest.max(*stamp);
                self.receiver
                    .frame(number, *stamp, bytes.as_slice(), report)
            }
        }
    }

    // Processes the line with this number: its item, and then writes each period that it closes.
    pub(crate) fn step<T: Sink, U: Sink>(
        &mut self,
        number: u32,
        item: &LineItem,
        to: &Target,
        output: &mut T,
        report: &mut U,
    ) -> Result<(), BridgeFault>
        requires system { HasSystem item.now }
        requires next { IsNextOf to.now number item.now self.old
            (T.written output.old) (U.written report.old) }
        ensures { Steps to.now number item.now self.old self.new
            (T.written output.old) (T.written output.new)
            (U.written report.old) (U.written report.new)
            (faults_of 0 (T.faults output.old) (U.faults report.old))
            (faults_of 0 (T.faults output.new) (U.faults report.new)) result }
    {
        what_is_closed_stays();
        parts_of_lines_are_values();
        let before = self.watermark();
        match self.item(number, item, report) {
            Ok(()) => {}
            Err(fault) => return Err(fault),
        }
        let watermark = self.watermark();
        write_risen(
            to,
            &mut self.receiver.assembly,
            before,
            watermark,
            output,
            &mut self.said,
        )
    }

    // Writes each period that was not written yet: no more lines come.
    pub(crate) fn finish<T: Sink>(&mut self, to: &Target, output: &mut T) -> Result<(), BridgeFault>
        requires { HoldsSome to.now self.old (T.written output.old) }
        ensures { Finishes to.now self.old self.new
            (T.written output.old) (T.written output.new)
            (T.faults output.old) (T.faults output.new) result }
    {
        what_is_closed_stays();
        parts_of_lines_are_values();
        let _greatest = self.greatest;
        write_closed(
            to,
            &mut self.receiver.assembly,
            u64::MAX,
            output,
            &mut self.said,
        )
    }
}

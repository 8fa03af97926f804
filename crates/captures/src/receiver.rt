//! What the lines of a capture yield: parts go to the assembly, refusals to the report, and the
//! rest is counted.

ghost use Rattle.std.specs.Prelude.{◌≡◌, ◌+◌, ◌^◌, ◌<◌, ◌≤◌};
ghost use Rattle.std.specs.Prelude.{◌∷◌, [], codes, length, OnOk, OnErr};
ghost use Rattle.std.specs.Io.KnownBytes.{Appends};
ghost use Rattle.nav_io.specs.Prefix.{AppendsPrefix};
ghost use Rattle.nav_eph.specs.declared.sat.System.TheVariants.{Gps, Gal};
ghost use Rattle.inav.specs.Reading.{reading_of};
ghost use Rattle.lnav_subframe.specs.Reading.{subframe_of};
ghost use Rattle.capture_log.specs.Events.{of_frame, of_subframe, of_word};
ghost use Rattle.capture_log.specs.Log.{noted};
ghost use Rattle.one_run.specs.Reports.{report_line};
ghost use Rattle.captures.specs.Hearings.{Received, IsOpenAt, IsOpenFor};
ghost use Rattle.captures.specs.Notes.{IsReporting, of_received, total, weight, weights};
ghost use Rattle.captures.specs.Reports.{refusal_text};

use crate::counts::EventCounts;
use crate::report::refused_text;
use capture_log::{Event, EventFault, message_event, subframe_event, word_event};
use framing::frame_of;
use inav::{Joined, WordParts, read_word};
use lnav_subframe::{read_subframe, subframe_function};
use nav_bits::Bits;
use nav_eph::Sat;
use nav_io::{Failed, Sink};
use one_run::{BridgeFault, report_text};
use rtcm_eph::{MessageParts, message_parts, read_message};
use slot_assembly::{Assembly, SlotAssembly};

// Writes a line of the report.
fn write_line<U: Sink>(line: &[u8], report: &mut U) -> Result<(), BridgeFault>
    ensures text { OnOk result
        (Appends (U.written report.old) (U.written report.new) line.now) }
    ensures part { OnErr result
        (AppendsPrefix (U.written report.old) (U.written report.new) line.now) }
    ensures cause { IsReporting (U.faults report.old) (U.faults report.new) result }
{
    match report.write(line) {
        Ok(()) => Ok(()),
        Err(Failed) => Err(BridgeFault::ReportFault),
    }
}

// Reports why the line with this number is not used. The buffer of the text is here, so that the
// path of a part does not make it.
fn report_reason<U: Sink>(number: u64, reason: &[u8], report: &mut U) -> Result<(), BridgeFault>
    requires { length reason.now ≤ 32 }
    ensures text { OnOk result (Appends (U.written report.old) (U.written report.new)
        (report_line (codes "line") number reason.now)) }
    ensures part { OnErr result (AppendsPrefix (U.written report.old) (U.written report.new)
        (report_line (codes "line") number reason.now)) }
    ensures cause { IsReporting (U.faults report.old) (U.faults report.new) result }
{
    write_line(report_text(b"line", number, reason).as_slice(), report)
}

// Reports why the content of the line with this number is refused.
fn report_refusal<U: Sink>(
    number: u64,
    refusal: &EventFault,
    report: &mut U,
) -> Result<(), BridgeFault>
    ensures text { OnOk result (Appends (U.written report.old) (U.written report.new)
        (report_line (codes "line") number (refusal_text refusal.now))) }
    ensures part { OnErr result (AppendsPrefix (U.written report.old) (U.written report.new)
        (report_line (codes "line") number (refusal_text refusal.now))) }
    ensures cause { IsReporting (U.faults report.old) (U.faults report.new) result }
{
    write_line(refused_text(b"line", number, refusal).as_slice(), report)
}

// Where events go: the assembly of the periods, and the counts of events other than parts.
#[derive(Drop)]
pub(crate) struct PartReceiver {
    pub(crate) assembly: SlotAssembly,
    pub(crate) tally: EventCounts,
}

impl PartReceiver {
    // Processes an event of the line with this number.
    pub(crate) fn event<U: Sink>(
        &mut self,
        number: u32,
        event: &Event,
        report: &mut U,
    ) -> Result<(), BridgeFault>
        requires open { IsOpenFor self.old (event.now ∷ []) }
        requires room { total self.old.tally + weight event.now < 2 ^ 64 }
        ensures { Received self.old self.new (U.written report.old) (U.written report.new)
            (U.faults report.old) (U.faults report.new) (noted number (event.now ∷ [])) result }
    {
        let number = u64::from(number);
        match event {
            Event::Received(part) => match self.assembly.take(part) {
                Ok(()) => Ok(()),
                Err(_) => Err(BridgeFault::NoMemory),
            },
            Event::Malformed => {
                report_reason(number, b"malformed", report)?;
                self.tally.malformed += 1;
                Ok(())
            }
            Event::Late => {
                report_reason(number, b"late", report)?;
                self.tally.late += 1;
                Ok(())
            }
            Event::Refused(refusal) => {
                report_refusal(number, refusal, report)?;
                self.tally.refused += 1;
                Ok(())
            }
            Event::Unused => {
                self.tally.unused += 1;
                Ok(())
            }
        }
    }

    // Processes the events of the line with this number, in order.
    pub(crate) fn events<U: Sink>(
        &mut self,
        number: u32,
        events: &[Event],
        report: &mut U,
    ) -> Result<(), BridgeFault>
        requires open { IsOpenFor self.old events.now }
        requires room { total self.old.tally + weights events.now < 2 ^ 64 }
        ensures { Received self.old self.new (U.written report.old) (U.written report.new)
            (U.faults report.old) (U.faults report.new) (noted number events.now) result }
    {
        'taking: for event in events {
            match self.event(number, event, report) {
                Ok(()) => {}
                Err(fault) => return Err(fault),
            }
        }
        Ok(())
    }

    // Processes the events of a subframe.
    pub(crate) fn subframe<U: Sink>(
        &mut self,
        number: u32,
        stamp: u32,
        sat: Sat,
        bits: &Bits<38>,
        report: &mut U,
    ) -> Result<(), BridgeFault>
        requires system { sat.system ≡ Gps }
        requires open { IsOpenAt self.old stamp }
        requires room { total self.old.tally + 1 < 2 ^ 64 }
        ensures { Received self.old self.new (U.written report.old) (U.written report.new)
            (U.faults report.old) (U.faults report.new)
            (noted number (of_subframe (subframe_of bits.now sat stamp) ∷ [])) result }
    {
        subframe_function();
        let event = subframe_event(read_subframe(bits, sat, stamp));
        self.event(number, &event, report)
    }

    // Processes the events of the bytes of a frame.
    pub(crate) fn frame<U: Sink>(
        &mut self,
        number: u32,
        stamp: u32,
        bytes: &[u8],
        report: &mut U,
    ) -> Result<(), BridgeFault>
        requires open { IsOpenAt self.old stamp }
        requires room { total self.old.tally + 1 < 2 ^ 64 }
        ensures { Received self.old self.new (U.written report.old) (U.written report.new)
            (U.faults report.old) (U.faults report.new)
            (noted number (of_frame stamp bytes.now)) result }
    {
        let Some(frame) = frame_of(bytes) else {
            return self.event(number, &Event::Refused(EventFault::Frame), report);
        };
        message_parts();
        match read_message(frame.payload(), stamp) {
            Ok(MessageParts::Gps { clock, a, b }) => {
                let events = [
                    Event::Received(clock),
                    Event::Received(a),
                    Event::Received(b),
                ];
                self.events(number, &events, report)
            }
            Ok(
                MessageParts::Gal {
                    w1,
                    w2,
                    w3,
                    w4,
                    health,
                },
            ) => {
                let events = [
                    Event::Received(w1),
                    Event::Received(w2),
                    Event::Received(w3),
                    Event::Received(w4),
                    Event::Received(health),
                ];
                self.events(number, &events, report)
            }
            Err(fault) => {
                let event = message_event(fault);
                self.event(number, &event, report)
            }
        }
    }

    // Processes the events of an I/NAV word.
    fn word<U: Sink>(
        &mut self,
        number: u32,
        stamp: u32,
        sat: Sat,
        word: &Bits<16>,
        report: &mut U,
    ) -> Result<(), BridgeFault>
        requires system { sat.system ≡ Gal }
        requires open { IsOpenAt self.old stamp }
        requires room { total self.old.tally + 1 < 2 ^ 64 }
        ensures { Received self.old self.new (U.written report.old) (U.written report.new)
            (U.faults report.old) (U.faults report.new)
            (noted number (of_word (reading_of word.now sat stamp))) result }
    {
        match read_word(word, sat, stamp) {
            Ok(parts) => {
                let WordParts { first, second } = parts;
                match second {
                    Some(second) => {
                        let events = [Event::Received(first), Event::Received(second)];
                        self.events(number, &events, report)
                    }
                    None => self.event(number, &Event::Received(first), report),
                }
            }
            Err(fault) => {
                let event = word_event(fault);
                self.event(number, &event, report)
            }
        }
    }

    // Processes the events of the words that a page part completes, in order.
    pub(crate) fn words<U: Sink>(
        &mut self,
        number: u32,
        sat: Sat,
        joined: &Joined,
        report: &mut U,
    ) -> Result<(), BridgeFault>
        requires system { sat.system ≡ Gal }
        requires open { (joined.now.words ≡ [] → ⊥) → IsOpenAt self.old joined.now.stamp }
        requires room { total self.old.tally + length joined.now.words < 2 ^ 64 }
        ensures { Received self.old self.new (U.written report.old) (U.written report.new)
            (U.faults report.old) (U.faults report.new)
            (noted number (of_received sat joined.now.stamp joined.now.words)) result }
    {
        let stamp = joined.stamp();
        'taking: for i in 0..joined.len() {
            match self.word(number, stamp, sat, joined.word(i), report) {
                Ok(()) => {}
                Err(fault) => return Err(fault),
            }
        }
        Ok(())
    }
}

//! Writing the periods that are closed.

ghost use Rattle.std.specs.Prelude.{◌≡◌, ◌≤◌, ℕ, List, Option, OnOk, OnErr};
ghost use Rattle.nav_eph.specs.declared.part.Part.{Part};
ghost use Rattle.periods.specs.PeriodsOf.{closed_of};
ghost use Rattle.slot_assembly.specs.Standing.{Stood};
ghost use Rattle.slot_assembly.specs.SlotStanding.{SlotsStandFor};
ghost use Rattle.captures.specs.Captures.{texts_of};
ghost use Rattle.one_run.specs.Runs.{AppendsBetween};
ghost use Rattle.captures.specs.Flushed.{HasRoom, IsWriting, Flushed};

use crate::counts::VerdictCounts;
use nav_io::{Failed, Sink};
use one_run::BridgeFault;
use periods::Closed;
use slot_assembly::SlotAssembly;
use streams::Target;

// Writes what is closed at the watermark, if it rose: at an unchanged watermark the parts added
// since close nothing more.
pub(crate) fn write_risen<T: Sink>(
    to: &Target,
    assembly: &mut SlotAssembly,
    before: u64,
    watermark: u64,
    output: &mut T,
    said: &mut VerdictCounts,
) -> Result<(), BridgeFault>
    requires low { before ≤ watermark }
    requires stood { Stood (SlotsStandFor assembly.old) (λ at. at.watermark ≤ watermark) }
    requires room { HasRoom (SlotsStandFor assembly.old) assembly.old.reference
        assembly.old.window watermark said.old }
    ensures reference { assembly.new.reference ≡ assembly.old.reference }
    ensures window { assembly.new.window ≡ assembly.old.window }
    ensures ok { OnOk result ((parts : List Part) (start : Option (List ℕ))
        → Flushed (SlotsStandFor assembly.old) assembly.old.reference assembly.old.window
        to.now parts before start (T.written output.old) said.old
        → Flushed (SlotsStandFor assembly.new) assembly.old.reference assembly.old.window
        to.now parts watermark start (T.written output.new) said.new) }
    ensures err { OnErr result ((parts : List Part) (start : Option (List ℕ))
        → Flushed (SlotsStandFor assembly.old) assembly.old.reference assembly.old.window
        to.now parts before start (T.written output.old) said.old
        → AppendsBetween start (T.written output.new)
        (texts_of to.now
        (closed_of assembly.old.reference assembly.old.window before parts))
        (texts_of to.now
        (closed_of assembly.old.reference assembly.old.window watermark parts))) }
    ensures cause { IsWriting (T.faults output.old) (T.faults output.new) result }
{
    if watermark > before {
        write_closed(to, assembly, watermark, output, said)
    } else {
        Ok(())
    }
}

// Writes each period that is closed at the watermark and was not written yet, and counts its
// verdict.
pub(crate) fn write_closed<T: Sink>(
    to: &Target,
    assembly: &mut SlotAssembly,
    watermark: u64,
    output: &mut T,
    said: &mut VerdictCounts,
) -> Result<(), BridgeFault>
    requires stood { Stood (SlotsStandFor assembly.old) (λ at. at.watermark ≤ watermark) }
    requires room { HasRoom (SlotsStandFor assembly.old) assembly.old.reference
        assembly.old.window watermark said.old }
    ensures reference { assembly.new.reference ≡ assembly.old.reference }
    ensures window { assembly.new.window ≡ assembly.old.window }
    ensures ok { OnOk result ((parts : List Part) (before : ℕ) (start : Option (List ℕ))
        → before ≤ watermark
        → Flushed (SlotsStandFor assembly.old) assembly.old.reference assembly.old.window
        to.now parts before start (T.written output.old) said.old
        → Flushed (SlotsStandFor assembly.new) assembly.old.reference assembly.old.window
        to.now parts watermark start (T.written output.new) said.new) }
    ensures err { OnErr result ((parts : List Part) (before : ℕ) (start : Option (List ℕ))
        → before ≤ watermark
        → Flushed (SlotsStandFor assembly.old) assembly.old.reference assembly.old.window
        to.now parts before start (T.written output.old) said.old
        → AppendsBetween start (T.written output.new)
        (texts_of to.now
        (closed_of assembly.old.reference assembly.old.window before parts))
        (texts_of to.now
        (closed_of assembly.old.reference assembly.old.window watermark parts))) }
    ensures cause { IsWriting (T.faults output.old) (T.faults output.new) result }
{
    let mut room: Option<Closed> = None;
    'giving: loop {
        match assembly.close_next(watermark, &mut room) {
            Ok(true) => match &room {
                Some(closed) => match to.list(closed, output) {
                    Ok(()) => said.count(&closed.verdict),
                    Err(Failed) => return Err(BridgeFault::WriteFault),
                },
                None => unreachable!(),
            },
            Ok(false) => return Ok(()),
            Err(_) => return Err(BridgeFault::NoMemory),
        }
    }
}

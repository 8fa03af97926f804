//! A conversion whose input is pushed in pieces, and whose output and report are taken as they
//! come.

ghost use Rattle.std.specs.Prelude.{◌≡◌, ◌≢◌, ◌⊎◌, ◌↔◌, length};
ghost use Rattle.std.specs.Prelude.{All, IfErr, IfOk, IsUtf8, OnOk, map};
ghost use Rattle.std.specs.String.{string_bytes};
ghost use Rattle.one_run.specs.declared.fault.BridgeFault.TheVariants.{NotThisForm};
ghost use Rattle.one_run.specs.declared.fault.BridgeFault.TheVariants.{ReadFault, TooLong};
ghost use Rattle.one_run.specs.Ends.{number_of};
ghost use Rattle.streams.specs.Mirrors.{IsStreamFault};
ghost use Rattle.bridge_engine.specs.Job.{GivesJob, IsJob};
ghost use Rattle.c_calls.specs.Mirrors.{BreaksOff, Ends, EndsShort, GoesOn, KeepsReleased};
ghost use Rattle.c_calls.specs.Pending.{all_of};
ghost use Rattle.c_calls.specs.Pushes.{Begins, Finishes, Opens, Pushes, RetainsFew};
ghost use Rattle.c_calls.specs.Pushes.{Takes, closed, taken_more, reported_more};

use crate::pending::Pending;
use crate::words::{are_texts, texts_of};
use bridge_engine::{BridgeFault, Job, job_of};
use captures::{CaptureRun, what_is_written_of_a_capture_stays};
use nav_io::Failed;
use one_run::Status;
use raw_values::put;
use raw_values::reasons::NO_MEMORY;
use std::alloc::{AllocError, Global};
use std::marker::Model;
use streams::{StreamRun, what_is_written_of_a_stream_stays};

// The input of the job cannot be pushed.
const NOT_PUSHED: u32 = 10;

// The input has ended.
const ENDED: u32 = 11;

// No job was opened.
const CLOSED: u32 = 12;

// The run that takes the input.
#[derive(Drop)]
enum PushedRun {
    // There is none: nothing was opened, or the input has ended.
    Idle,
    Capture(CaptureRun),
    Stream(StreamRun),
}

impl PushedRun {
    // Pushes a piece of the input, where there is a run.
    fn push(
        &mut self,
        piece: &[u8],
        output: &mut Pending,
        report: &mut Pending,
    ) -> Result<(), BridgeFault>
        ensures goes { OnOk result (GoesOn self.old self.new piece.now
            (all_of output.old) (all_of output.new) (all_of report.old) (all_of report.new)) }
        ensures breaks { IfErr result (BreaksOff self.old piece.now
            (all_of output.old) (all_of output.new) (all_of report.old) (all_of report.new)) }
        ensures kept { KeepsReleased self.old output.old output.new report.old report.new }
    {
        match self {
            PushedRun::Idle => Ok(()),
            PushedRun::Capture(run) => run.push(piece, output, report),
            PushedRun::Stream(run) => run.push(piece, output, report),
        }
    }

    // Ends the input, where there is a run.
    fn finish(self, output: &mut Pending, report: &mut Pending) -> Result<(), BridgeFault>
        ensures ends { OnOk result (Ends self
            (all_of output.old) (all_of output.new) (all_of report.old) (all_of report.new)) }
        ensures short { IfErr result (EndsShort self
            (all_of output.old) (all_of output.new) (all_of report.old) (all_of report.new)) }
        ensures kept { KeepsReleased self output.old output.new report.old report.new }
    {
        match self {
            PushedRun::Idle => Ok(()),
            PushedRun::Capture(run) => match run.finish(output, report) {
                Ok(_) => Ok(()),
                Err(fault) => Err(fault),
            },
            PushedRun::Stream(run) => match run.finish(output, report) {
                Ok(_) => Ok(()),
                Err(fault) => Err(fault),
            },
        }
    }
}

/// A conversion whose input comes in pieces.
///
/// It retains what it writes and reports until that is taken.
#[derive(Drop)]
pub struct PushedJob {
    alloc: Global,
    run: PushedRun,
    output: Pending,
    // how many bytes of those that are retained were taken
    taken: usize,
    report: Pending,
    // the same of the report
    told: usize,
    status: u32,
}

impl Model for PushedJob {
    ghost use Rattle.std.specs.Prelude.{◌+◌, length};
    ghost use Rattle.c_calls.specs.Pending.{all_of};
    ghost use Rattle.c_calls.specs.Pushes.{IsOfJob, PushState};

    ghost Value = { PushState };

    ghost view = { λ p. record {
      run = p.run;
      output = all_of p.output;
      taken = length p.output.released.text + p.taken;
      released = length p.output.released.text;
      report = all_of p.report;
      told = length p.report.released.text + p.told;
      report_released = length p.report.released.text;
      status = p.status;
    } };

    ghost invariant = { λ p. IsOfJob (record {
      run = p.run;
      output = all_of p.output;
      taken = length p.output.released.text + p.taken;
      released = length p.output.released.text;
      report = all_of p.report;
      told = length p.report.released.text + p.told;
      report_released = length p.report.released.text;
      status = p.status;
    }) };
}

/// A conversion that is not open yet.
pub fn new(alloc: Global) -> PushedJob
    ensures { result ≡ closed }
{
    PushedJob {
        alloc,
        run: PushedRun::Idle,
        output: Pending::new(alloc),
        taken: 0,
        report: Pending::new(alloc),
        told: 0,
        status: CLOSED,
    }
}

/// The conversion that the arguments name.
///
/// # Errors
///
/// `NoJob` if they give none, `NoText` if an argument is not UTF-8, `NoMemory`.
pub fn job_in(alloc: Global, words: &[&[u8]]) -> Result<Job, Status>
    ensures job { IfOk result (IsJob (map (λ word. word.now) words.now)) }
    ensures texts { IfOk result (λ _. All IsUtf8 (map (λ word. word.now) words.now)) }
    ensures none { IfErr result (λ status. ((number_of status ≡ 2)
        × (¬ GivesJob (map (λ word. word.now) words.now))
        × All IsUtf8 (map (λ word. word.now) words.now))
        ⊎ ((number_of status ≡ 6) × All IsUtf8 (map (λ word. word.now) words.now))
        ⊎ ((number_of status ≡ 9) × (¬ All IsUtf8 (map (λ word. word.now) words.now)))) }
{
    if !are_texts(words) {
        return Err(Status::NoText);
    }
    let texts = match texts_of(alloc, words) {
        Ok(texts) => texts,
        Err(AllocError) => return Err(Status::NoMemory),
    };
    match job_of(alloc, &texts) {
        Ok(Some(job)) => Ok(job),
        Ok(None) => Err(Status::NoJob),
        Err(AllocError) => Err(Status::NoMemory),
    }
}

// Begins a job in a closed conversion, in its place: a run is large.
fn begin(state: &mut PushedJob, job: &Job)
    requires { state.old ≡ closed }
    ensures { Begins job.now state.new }
{
    let alloc = state.alloc;
    match job {
        Job::Capture(job) => {
            state.run = PushedRun::Capture(CaptureRun::new(alloc, job.week, &job.to));
            state.status = 0;
        }
        Job::Stream(job) => match StreamRun::new(alloc, job.week, &job.to, &mut state.output) {
            Ok(run) => {
                state.run = PushedRun::Stream(run);
                state.status = 0;
            }
            Err(Failed) => {
                state.output = Pending::new(alloc);
                state.status = NO_MEMORY;
            }
        },
        _ => state.status = NOT_PUSHED,
    }
}

/// Opens the conversion that the arguments name, whatever was done before, and returns 0; or 2 if
/// they give no conversion, 6 if out of memory, 9 if an argument is not UTF-8, and 10 if the input
/// of their conversion cannot be pushed.
pub fn open(state: &mut PushedJob, words: &[&[u8]]) -> u32
    ensures { Opens (map (λ word. word.now) words.now) state.new result }
{
    close(state);
    match job_in(state.alloc, words) {
        Ok(job) => {
            begin(state, &job);
            state.status
        }
        Err(status) => {
            state.status = u32::from(status.number());
            state.status
        }
    }
}

// The answer where a run ended for this fault: its sinks fail for want of memory alone.
fn answer_of(fault: BridgeFault) -> u32
    ensures some { result ≢ 0 }
    ensures memory { IsStreamFault fault → result ≡ 6 }
    ensures long { fault ≡ TooLong → result ≡ 8 }
    ensures capture { (fault ≡ ReadFault → ⊥) → (result ≡ 5) ⊎ (result ≡ 6) ⊎ (result ≡ 8) }
    ensures form { result ≡ 5 → fault ≡ NotThisForm }
    ensures last { result ≡ 8 → fault ≡ TooLong }
    ensures lack { result ≡ 6 → (fault ≢ NotThisForm) × (fault ≢ TooLong) }
{
    match fault {
        BridgeFault::ReadFault => 3,
        BridgeFault::NotThisForm => 5,
        BridgeFault::WriteFault | BridgeFault::ReportFault | BridgeFault::NoMemory => NO_MEMORY,
        BridgeFault::TooLong => 8,
    }
}

/// Pushes a piece of the input, and returns 0; or 5 if the first line of a capture is rejected, 6
/// if out of memory, and 8 if a capture has 2^32 bytes, or a stream 2^64. Each return but 0 is that
/// of each further call; if no conversion was opened it is 12, and after `finish` 11.
pub fn push(state: &mut PushedJob, piece: &[u8]) -> u32
    ensures { Pushes state.old piece.now state.new result }
{
    if state.status != 0 {
        return state.status;
    }
    what_is_written_of_a_stream_stays();
    what_is_written_of_a_capture_stays();
    match state.run.push(piece, &mut state.output, &mut state.report) {
        Ok(()) => 0,
        Err(fault) => {
            let answer = answer_of(fault);
            state.status = answer;
            answer
        }
    }
}

/// Ends the input, and returns 0; or 5 or 6 as `push`. Each further call returns 11, or again what
/// was returned before.
pub fn finish(state: &mut PushedJob) -> u32
    ensures { Finishes state.old state.new result }
{
    if state.status != 0 {
        return state.status;
    }
    what_is_written_of_a_stream_stays();
    what_is_written_of_a_capture_stays();
    let run = std::mem::replace(&mut state.run, PushedRun::Idle);
    match run.finish(&mut state.output, &mut state.report) {
        Ok(()) => {
            state.status = ENDED;
            0
        }
        Err(fault) => {
            let answer = answer_of(fault);
            state.status = answer;
            answer
        }
    }
}

// Puts what follows in a text behind the bytes that were taken of it, as many as there is room for,
// and tells how many.
fn put_behind(made: &[u8], taken: usize, room: &mut [u8]) -> usize
    ensures { Takes made.now taken room.old room.new result }
{
    let waiting = &made[taken.min(made.len())..];
    let count = waiting.len().min(room.len());
    put(&waiting[..count], room)
}

/// Puts pending output into a buffer, as many bytes as fit, and returns how many. What was taken is
/// released: at most twice what waits is retained.
pub fn take(state: &mut PushedJob, room: &mut [u8]) -> usize
    ensures takes { Takes state.old.output state.old.taken room.old room.new result }
    ensures state { state.new ≡ taken_more state.old result }
    ensures few { RetainsFew (length state.new.output) state.new.taken state.new.released }
{
    let count = put_behind(&state.output.bytes, state.taken, room);
    state.taken = state.output.release(state.taken + count);
    count
}

/// Puts the pending report into a buffer, as many bytes as fit, and returns how many.
pub fn take_report(state: &mut PushedJob, room: &mut [u8]) -> usize
    ensures takes { Takes state.old.report state.old.told room.old room.new result }
    ensures state { state.new ≡ reported_more state.old result }
    ensures few { RetainsFew (length state.new.report) state.new.told state.new.report_released }
{
    let count = put_behind(&state.report.bytes, state.told, room);
    state.told = state.report.release(state.told + count);
    count
}

/// Releases all memory; no conversion is open then.
pub fn close(state: &mut PushedJob)
    ensures { state.new ≡ closed }
{
    *state = new(state.alloc);
}

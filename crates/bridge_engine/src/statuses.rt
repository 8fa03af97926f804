//! The top call: the arguments, an input, an output and a report give a status.

ghost use Rattle.std.specs.Prelude.{◌≡◌, ◌⊎◌, ℕ, List, Option, Some, map, IfSome};
ghost use Rattle.std.specs.String.{string_bytes};
ghost use Rattle.std.specs.Io.KnownBytes.{Appends, IsAtEnd};
ghost use Rattle.rinex_write.specs.Texts.{rinex_text};
ghost use Rattle.rinex_write.specs.declared.words.HeaderWords.{HeaderWords};
ghost use Rattle.capture_lines.specs.declared.item.LineItem.{LineItem};
ghost use Rattle.periods.specs.PeriodLists.{ArePeriods, items_in};
ghost use Rattle.periods.specs.declared.closed.Closed.{Closed};
ghost use Rattle.capture_log.specs.Received.{IsPartReceived};
ghost use Rattle.one_run.specs.Ends.{RanBy};
ghost use Rattle.captures.specs.Captures.{Capture};
ghost use Rattle.captures.specs.declared.target.CaptureTo.TheVariants.{Rinex};
ghost use Rattle.bridge_engine.specs.CaptureBytes.{IsCapture, StandFor};
ghost use Rattle.bridge_engine.specs.Job.{IsJob, GivesJob};
ghost use Rattle.bridge_engine.specs.Meanings.{IsAhead, meaning_of};
ghost use Rattle.bridge_engine.specs.declared.job.Job.{Job};

use crate::job::{Job, job_of};
use crate::laws::captures_are_selected;
use crate::run::run_job;
use capture_log::lines_yield_what_is_received;
use nav_io::{Sink, Source};
use one_run::Status;
use std::alloc::{AllocError, Global};

/// Runs the conversion that the arguments name, and returns the status.
///
/// | Status | Meaning |
/// |---|---|
/// | 0 | the input, if the conversion reads one, was read to its end, and all output was written |
/// | 2 | the arguments name no conversion; nothing is read or written |
/// | 3 | only when a read failed: the input's error count rose, or is at its maximum |
/// | 4 | only when a write failed: the output's error count rose, or is at its maximum |
/// | 5 | exactly when the first line of a capture, or the header of a navigation file, is rejected and nothing failed before |
/// | 6 | out of memory |
/// | 7 | only when a write to the report failed: its error count rose, or is at its maximum |
/// | 8 | only when 4,294,967,295 bytes of input were read and there was one more |
///
/// The first line of a capture is accepted for the reference week of the command line, if it names
/// one. The header of a navigation file must be that of the RINEX version that `--from` names.
///
/// Parsing the arguments takes memory: if they ask for no conversion, the status is 2, or 6 if out
/// of memory. Conversions that convert or send a navigation file, and from a stream to frames,
/// allocate no more: when one ends with 6, nothing was read or written.
///
/// After 3, 4, 6, 7 and 8 the output is a prefix of what the bytes read would give; after 3 in a
/// capture it is exactly what the complete lines close. The conversions `--from stream --to frames`
/// and `--from seed --to capture` write nothing to the report. Conversions from a seed read
/// nothing.
pub fn bridge<S: Source, T: Sink, U: Sink>(
    alloc: Global,
    words: &[String],
    input: &mut S,
    output: &mut T,
    report: &mut U,
) -> u8
    // The job that the words ask for ended with this status. Otherwise nothing was touched: the
    // words ask for no job, or there was no memory to parse them.
    ensures ended { ((job : Job) × IsJob (map string_bytes words.now) job × RanBy (meaning_of job)
        S.left S.never_fails S.faults T.written T.faults U.written U.faults
        input.old input.new output.old output.new report.old report.new result)
        ⊎ ((((result ≡ 2) × ¬ GivesJob (map string_bytes words.now)) ⊎ (result ≡ 6))
        × (input.new ≡ input.old) × (output.new ≡ output.old) × (report.new ≡ report.old)) }

    // However the reads split a capture, a run with status 0 has written the RINEX text of the
    // items of exactly the periods of the parts received in it, each once and in order.
    ensures headline { (week : Option ℕ) (header : HeaderWords)
        → IsJob (map string_bytes words.now)
        (Job.Capture (record { week = week; to = Rinex header }))
        → result ≡ 0 → IfSome (S.left input.old) (λ bytes.
        (capture : Capture) × (items : List LineItem) × (periods : List Closed)
        × IsCapture week bytes capture × StandFor capture.lines items
        × ArePeriods capture.week capture.window (IsPartReceived capture.window items) periods
        × Appends (T.written output.old) (T.written output.new)
        (rinex_text header (items_in periods))
        × IsAtEnd (S.left input.new)) }

    // After any fault, the output and the report are prefixes of what the whole input gives, unread
    // bytes included; and counts of a capture are written only after the whole input was read.
    ensures also { (job : Job) → IsJob (map string_bytes words.now) job
        → ¬ (result ≡ 0) → IsAhead job
        (S.left input.old) (S.left input.new) (T.written output.old) (T.written output.new)
        (U.written report.old) (U.written report.new) }
{
    lines_yield_what_is_received();
    captures_are_selected();
    match job_of(alloc, words) {
        Err(AllocError) => Status::NoMemory.number(),
        Ok(None) => Status::NoJob.number(),
        Ok(Some(job)) => {
            let ended = run_job(alloc, &job, input, output, report);
            Status::of(&ended).number()
        }
    }
}

//! One conversion, from its input to its output and its report.

ghost use Rattle.std.specs.Prelude.{OnErr};
ghost use Rattle.one_run.specs.Runs.{Ran};
ghost use Rattle.bridge_engine.specs.Meanings.{IsAhead, done_of};

use crate::done::{self, Done};
use crate::job::Job;
use captures::{run_capture, run_seed};
use nav_files::{run_cover, run_merge, run_rinex, run_rinex3, send_rinex, send_rinex3};
use nav_io::{Sink, Source};
use one_run::BridgeFault;
use std::alloc::Global;
use streams::{run_frames, run_stream};

/// Runs a conversion: reads the input to its end, and writes the output and the report for its
/// bytes.
pub fn run_job<S: Source, T: Sink, U: Sink>(
    alloc: Global,
    job: &Job,
    input: &mut S,
    output: &mut T,
    report: &mut U,
) -> Result<Done, BridgeFault>
    ensures ended { Ran (done_of job.now)
        S.left S.never_fails S.faults T.written T.faults U.written U.faults
        input.old input.new output.old output.new report.old report.new result }
    ensures also { OnErr result (IsAhead job.now (S.left input.old) (S.left input.new)
        (T.written output.old) (T.written output.new) (U.written report.old)
        (U.written report.new)) }
{
    match job {
        Job::StreamToFrames => done::frames(run_frames(input, output)),
        Job::Capture(job) => {
            done::capture(run_capture(alloc, job.week, &job.to, input, output, report))
        }
        Job::Stream(job) => {
            done::stream(run_stream(alloc, job.week, &job.to, input, output, report))
        }
        Job::Rinex(to) => done::file(run_rinex(to, input, output, report)),
        Job::Rinex3(to) => done::file(run_rinex3(to, input, output, report)),
        Job::SendRinex(week) => done::sent(send_rinex(*week, input, output, report)),
        Job::SendRinex3(week) => done::sent(send_rinex3(*week, input, output, report)),
        Job::Merge(words) => done::merged(run_merge(alloc, words, input, output, report)),
        Job::Cover => done::covered(run_cover(alloc, input, output, report)),
        Job::Seed(job) => done::generated(run_seed(
            alloc, job.seed, job.sats, job.week, job.to, output, report,
        )),
    }
}

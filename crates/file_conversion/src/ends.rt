//! How conversions end.

ghost use Rattle.std.specs.Prelude.{◌≡◌, ◌<◌, ◌≤◌, Err, None, Some};
ghost use Rattle.receiver_log.specs.Capture.{too_many};
ghost use Rattle.file_conversion.specs.Steps.{EndsSo, IsLack, LacksMore, decided_by};
ghost use Rattle.file_conversion.specs.Stops.{stopped_by};

use crate::begun::Begun;
use crate::reading::{Input, Taken, taken_of};
use crate::stops::{Made, Stop, stopped_by};
use crate::tasks::TaskRun;
use bridge_engine::BridgeFault;
use nav_io::{Sink, Source};
use receiver_log::{LogCounts, Refused};
use whole_file::{FileFault, Kind, Progress, StepFault};

/// Who observes a conversion.
#[derive(Drop)]
pub struct Observers<U: Sink, N: Refused + Drop, P: Progress> {
    /// The report of the conversion.
    pub report: U,
    /// Who is notified of the rejected messages of a log.
    pub refusals: N,
    /// Who is notified of how many bytes were read.
    pub progress: P,
}

/// How a conversion ended.
#[derive(Drop)]
pub struct Outcome<U: Sink> {
    /// The output and its counts, or why there is none.
    pub done: Result<Made, Stop>,
    /// The report.
    pub report: U,
    /// The format under which the file was read, if it was.
    pub kind: Option<Kind>,
    /// How many bytes were read.
    pub count: u64,
    /// What was counted of a log.
    pub counts: Option<LogCounts>,
}

/// How the conversion of a source ended, with the source.
#[derive(Drop)]
pub struct Sourced<U: Sink, S: Source> {
    /// How it ended.
    pub outcome: Outcome<U>,
    /// The source, which may report why a read failed.
    pub source: S,
}

impl<U: Sink> Outcome<U> {
    /// One that was not begun.
    pub(crate) fn stopped(stop: Stop, report: U) -> Outcome<U>
        ensures done { result.done ≡ Err stop }
        ensures report { result.report ≡ report }
        ensures kind { result.kind ≡ None }
    {
        Outcome {
            done: Err(stop),
            report,
            kind: None,
            count: 0,
            counts: None,
        }
    }

    /// The same with what its input reports of a failed read.
    pub(crate) fn decided_by(self, read: Option<FileFault>) -> Outcome<U>
        ensures ends { EndsSo IsLack self.done result.done }
        ensures told { result.done ≡ decided_by self.done read }
        ensures report { result.report ≡ self.report }
        ensures kind { result.kind ≡ self.kind }
    {
        let Outcome {
            done,
            report,
            kind,
            count,
            counts,
        } = self;
        Outcome {
            done: decided_by(done, read),
            report,
            kind,
            count,
            counts,
        }
    }
}

/// How a conversion that was begun has ended, by what the step and the reading report.
pub(crate) fn ended<S: Source, U: Sink, N: Refused + Drop, P: Progress>(
    begun: Begun<U, Input<S, N, P>>,
    done: Result<Made, StepFault<BridgeFault>>,
) -> Sourced<U, S>
    ensures done { EndsSo (LacksMore result.outcome.count) done result.outcome.done }
    ensures report { result.outcome.report ≡ begun.run.report }
    ensures kind { result.outcome.kind ≡ Some begun.kind }
    ensures faults { result.outcome.count < too_many
        → ⟦<Input<S, N, P> as Source>⟧.faults begun.input ≡ S.faults result.source }
    ensures stopped { result.outcome.done ≡ stopped_by begun.kind done result.outcome.count }
    ensures most { S.faults result.source ≤ ⟦<Input<S, N, P> as Source>⟧.faults begun.input }
{
    let Begun { kind, run, input } = begun;
    let Taken {
        source,
        count,
        counts,
    } = taken_of(input);
    let TaskRun {
        alloc: _,
        task: _,
        report,
    } = run;
    Sourced {
        outcome: Outcome {
            done: stopped_by(kind, done, count),
            report,
            kind: Some(kind),
            count,
            counts,
        },
        source,
    }
}

// How a conversion ended, with what its input says of a read that failed.
fn decided_by(done: Result<Made, Stop>, read: Option<FileFault>) -> Result<Made, Stop>
    ensures ends { EndsSo IsLack done result }
    ensures told { result ≡ decided_by done read }
{
    match done {
        Ok(made) => Ok(made),
        Err(Stop::Look(_)) => Err(Stop::Look(read)),
        Err(Stop::Run(kind, fault, count, _, put)) => {
            Err(Stop::Run(kind, fault, count, read, put))
        }
        Err(stop) => Err(stop),
    }
}

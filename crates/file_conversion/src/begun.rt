//! A conversion of a source that is begun: the source was looked at, and it is known what is done
//! with it.

ghost use Rattle.std.specs.Prelude.{◌≡◌, ◌⊎◌, [], IfErr, IfOk, IfSome, MatchResult, OnOk};
ghost use Rattle.std.specs.Prelude.{None};
ghost use Rattle.std.specs.Io.KnownBytes.{Keeps};
ghost use Rattle.nav_io.specs.Causes.{Rose};
ghost use Rattle.file_conversion.specs.Makes.{CanConvert, ReadsUnder, kind_under, task_under};
ghost use Rattle.file_conversion.specs.Steps.{IsBegun, IsLack, IsReady, IsStopped};
ghost use Rattle.file_conversion.specs.Steps.{StopsAhead};

use crate::ends::{Observers, Outcome, Sourced};
use crate::reading::{Input, reading_of};
use crate::ready::Ready;
use crate::stops::Stop;
use crate::table::{Plan, task_for};
use crate::tasks::TaskRun;
use nav_io::{Sink, Source};
use receiver_log::Refused;
use std::alloc::Global;
use whole_file::{Kind, PeekFault, Peeked, Progress, look};

/// A conversion that is begun: the format of its input, its task, and the input as it is read.
pub(crate) struct Begun<U: Sink, R> {
    pub kind: Kind,
    pub run: TaskRun<U>,
    pub input: R,
}

/// Begins the conversion of a source, as the plan asks.
///
/// # Errors
///
/// How it ended, if it could not be begun.
pub(crate) fn begin<S: Source, U: Sink, N: Refused + Drop, P: Progress>(
    alloc: Global,
    plan: &Plan,
    source: S,
    observers: Observers<U, N, P>,
) -> Result<Begun<U, Input<S, N, P>>, Sourced<U, S>>
    ensures begun { IfOk result (λ begun. IsBegun plan.now (S.left source)
        (⟦<Input<S, N, P> as Source>⟧.left begun.input) begun.run.task) }
    ensures faults { IfOk result (λ begun.
        ⟦<Input<S, N, P> as Source>⟧.faults begun.input ≡ S.faults source) }
    ensures report { IfOk result (λ begun. begun.run.report ≡ observers.report) }
    ensures form { MatchResult result
        (λ begun. ReadsUnder plan.now (S.left source) begun.kind)
        (λ left. left.outcome.kind ≡ None) }
    ensures stopped { IfErr result (λ left. IsStopped plan.now (S.left source)
        (S.faults source) (S.faults left.source) left.outcome.done) }
    ensures ahead { IfErr result (λ left. IfErr left.outcome.done (StopsAhead plan.now
        (S.left source) (S.faults source) (S.faults left.source))) }
    ensures unreported { IfErr result (λ left. left.outcome.report ≡ observers.report) }
{
    let mut input = Peeked::new(alloc, source);
    let Observers {
        report,
        refusals,
        progress,
    } = observers;
    match prepare(plan, &mut input) {
        Ok(Ready { kind, task }) => Ok(Begun {
            kind,
            run: TaskRun {
                alloc,
                task,
                report,
            },
            input: reading_of(kind, input, refusals, progress),
        }),
        Err(stop) => Err(Sourced {
            outcome: Outcome::stopped(stop, report),
            source: input.into_source(),
        }),
    }
}

// Looks at a source, and finds what is done with it.
fn prepare<S: Source>(plan: &Plan, input: &mut Peeked<S>) -> Result<Ready, Stop>
    requires { input.old.prefix.items ≡ [] }
    ensures left { OnOk result (Keeps (⟦<Peeked<S> as Source>⟧.left input.old)
        (⟦<Peeked<S> as Source>⟧.left input.new)) }
    ensures ready { IfOk result (λ ready. IsReady plan.now (S.left input.old.source) ready) }
    ensures faults { OnOk result
        (S.faults input.new.source ≡ S.faults input.old.source) }
    ensures complete { IfErr result (λ stop. IfSome (S.left input.old.source) (λ bytes.
        CanConvert plan.now bytes
        → ¬ Rose (S.faults input.old.source) (S.faults input.new.source) → IsLack stop)) }
    ensures none { IfErr result (λ stop. IfSome (S.left input.old.source) (λ bytes.
        task_under plan.now bytes ≡ None
        → ¬ Rose (S.faults input.old.source) (S.faults input.new.source)
        → (stop ≡ Stop.NoConversion (kind_under plan.now bytes)) ⊎ (stop ≡ Stop.NoMemory))) }
    ensures ahead { IfErr result (StopsAhead plan.now (S.left input.old.source)
        (S.faults input.old.source) (S.faults input.new.source)) }
{
    match look(plan.form, input) {
        Ok(kind) => match task_for(plan, kind) {
            Some(task) => Ok(Ready { kind, task }),
            None => Err(Stop::NoConversion(kind)),
        },
        Err(PeekFault::NoMemory) => Err(Stop::NoMemory),
        Err(PeekFault::ReadFault) => Err(Stop::Look(None)),
    }
}

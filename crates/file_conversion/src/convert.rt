//! From the file of one name, or a source, to the file of another.

ghost use Rattle.std.specs.Prelude.{◌≡◌, ◌⊎◌, ◌<◌, ◌≤◌, Err, IfErr, IfOk, IfSome, None, OnErr};
ghost use Rattle.std.specs.Prelude.{OnOk};
ghost use Rattle.std.specs.String.{string_bytes};
ghost use Rattle.nav_io.specs.Causes.{Rose};
ghost use Rattle.whole_file.specs.Files.{Stays};
ghost use Rattle.whole_file.specs.Steps.{bytes_of};
ghost use Rattle.file_conversion.specs.Makes.{CanConvert, ConvertsAs, CountsAs, PutsAs};
ghost use Rattle.file_conversion.specs.Makes.{kind_under, task_under};
ghost use Rattle.file_conversion.specs.Says.{status_for};
ghost use Rattle.file_conversion.specs.Causes.{ComesFrom, StopsFor, StopsOrLacks, StopsWith};
ghost use Rattle.file_conversion.specs.Causes.{file_errors};
ghost use Rattle.file_conversion.specs.Steps.{IsLack, IsMissing, IsNotOpened, IsUnconverted};
ghost use Rattle.file_conversion.specs.Steps.{DecidesFormat};

use crate::begun::{Begun, begin};
use crate::done::Done;
use crate::ends::{Observers, Outcome, Sourced, ended};
use crate::stops::Stop;
use crate::table::Plan;
use nav_io::{Sink, Source};
use receiver_log::Refused;
use std::alloc::Global;
use whole_file::{Folder, Namer, Progress, put_output};

/// Converts the file of one name to another file, as the plan asks: opens it, looks at its first
/// bytes, does the conversion for it and names the output.
///
/// # Errors
///
/// Every name but that of the part is as it was, and the part is removed if the directory can
/// remove it. Each [`Stop`] has its cause, and each cause its exit status: 2 no such conversion, 3
/// the input, 4 the output, 5 bytes that are not accepted or an output without a name, 6 memory, 7
/// the report, 8 too many bytes.
pub fn convert_one<F: Folder, U: Sink, N: Refused + Drop, P: Progress, A: Namer<Option<Done>>>(
    alloc: Global,
    plan: &Plan,
    folder: &mut F,
    observers: Observers<U, N, P>,
    from: &str,
    part: &str,
    names: &mut A,
) -> Outcome<U>
    ensures converts { IfOk result.done (λ made. ConvertsAs plan.now (F.files folder.old)
        (F.files folder.new) from.now part.now (string_bytes made.name)) }
    ensures counts { IfOk result.done (λ made.
        IfSome (bytes_of (F.files folder.old) from.now) (λ bytes.
        CountsAs plan.now bytes made.done)) }
    ensures named { IfOk result.done (λ made.
        A.gives names.old made.done (string_bytes made.name)) }
    ensures stays { OnErr result.done (Stays (F.files folder.old) (F.files folder.new) part.now) }
    ensures form { DecidesFormat plan.now (bytes_of (F.files folder.old) from.now) result.done
        result.kind }

    // Where no file has the name it is not opened (status 3), and where there is no conversion of
    // its bytes, and nothing fails, that is the reason (status 2), or there was no memory (6).
    ensures missing { IsMissing (F.files folder.old) from.now → IsNotOpened result.done }
    ensures none { IfSome (bytes_of (F.files folder.old) from.now) (λ bytes.
        task_under plan.now bytes ≡ None
        → ¬ Rose (F.faults folder.old) (F.faults folder.new)
        → IsUnconverted (kind_under plan.now bytes) result.done) }

    // It is done where the file is there, its bytes are accepted, the output has a name and nothing
    // fails, but for want of memory or of a log's 2^64 - 1 bytes.
    ensures complete { IfSome (bytes_of (F.files folder.old) from.now) (λ bytes.
        CanConvert plan.now bytes
        → ¬ Rose (U.faults observers.report) (U.faults result.report)
        → ¬ Rose (A.faults names.old) (A.faults names.new)
        → ¬ Rose (F.faults folder.old) (F.faults folder.new)
        → IfErr result.done IsLack) }

    // It is done only with bytes that are accepted, and each reason has its cause. A read that
    // fails counts as an error of the directory.
    ensures accepted { OnOk result.done (IfSome (bytes_of (F.files folder.old) from.now)
        (λ bytes. CanConvert plan.now bytes)) }
    ensures cause { IfErr result.done (ComesFrom plan.now
        (bytes_of (F.files folder.old) from.now)
        (file_errors (F.faults folder.old) (F.faults folder.old) (U.faults observers.report)
        (A.faults names.old))
        (file_errors (F.faults folder.new) (F.faults folder.new) (U.faults result.report)
        (A.faults names.new))) }

    // Each cause has its reason: the report 7, the namer 5; if nothing fails bytes that are not
    // accepted 5, and too many 8; and where only the directory fails it is done, or 3 or 4.
    ensures unreported { U.faults observers.report < U.faults result.report
        → StopsWith 7 result.done }
    ensures unnamed { A.faults names.old < A.faults names.new → result.done ≡ Err Stop.Unnamed }
    ensures rejected { IfSome (bytes_of (F.files folder.old) from.now) (λ bytes.
        ¬ Rose (U.faults observers.report) (U.faults result.report)
        → ¬ Rose (A.faults names.old) (A.faults names.new)
        → ¬ Rose (F.faults folder.old) (F.faults folder.new)
        → StopsFor plan.now bytes result.done) }
    ensures failed { IfSome (bytes_of (F.files folder.old) from.now) (λ bytes.
        CanConvert plan.now bytes
        → ¬ Rose (U.faults observers.report) (U.faults result.report)
        → ¬ Rose (A.faults names.old) (A.faults names.new)
        → IfErr result.done (λ stop. (status_for stop ≡ 3)
        ⊎ ((status_for stop ≡ 4) ⊎ IsLack stop))) }
{
    match folder.open(from) {
        Ok(input) => {
            let left = convert_source(alloc, plan, folder, input, observers, part, names);
            let Sourced { outcome, source } = left;
            let closed = folder.close(source);
            outcome.decided_by(closed.err())
        }
        Err(fault) => Outcome::stopped(Stop::Open(fault), observers.report),
    }
}

/// Converts what a source gives to a file.
///
/// # Errors
///
/// As those of [`convert_one`].
pub fn convert_source<
    F: Folder,
    S: Source,
    U: Sink,
    N: Refused + Drop,
    P: Progress,
    A: Namer<Option<Done>>,
>(
    alloc: Global,
    plan: &Plan,
    folder: &mut F,
    source: S,
    observers: Observers<U, N, P>,
    part: &str,
    names: &mut A,
) -> Sourced<U, S>
    ensures puts { IfOk result.outcome.done (λ made. IfSome (S.left source) (λ bytes.
        PutsAs plan.now bytes (F.files folder.old) (F.files folder.new) part.now
        (string_bytes made.name))) }
    ensures counts { IfOk result.outcome.done (λ made. IfSome (S.left source) (λ bytes.
        CountsAs plan.now bytes made.done)) }
    ensures named { IfOk result.outcome.done (λ made.
        A.gives names.old made.done (string_bytes made.name)) }
    ensures stays { OnErr result.outcome.done
        (Stays (F.files folder.old) (F.files folder.new) part.now) }
    ensures later { F.faults folder.old ≤ F.faults folder.new }
    ensures form { DecidesFormat plan.now (S.left source) result.outcome.done result.outcome.kind }

    // Where there is no conversion of the bytes of the source, and no read fails, that is the
    // reason, or there was no memory.
    ensures none { IfSome (S.left source) (λ bytes. task_under plan.now bytes ≡ None
        → ¬ Rose (S.faults source) (S.faults result.source)
        → IsUnconverted (kind_under plan.now bytes) result.outcome.done) }

    // It is done where the bytes of the source are accepted, the output has a name and nothing
    // fails, but for want of memory or of a log's 2^64 - 1 bytes.
    ensures complete { IfSome (S.left source) (λ bytes.
        CanConvert plan.now bytes
        → ¬ Rose (S.faults source) (S.faults result.source)
        → ¬ Rose (U.faults observers.report) (U.faults result.outcome.report)
        → ¬ Rose (A.faults names.old) (A.faults names.new)
        → ¬ Rose (F.faults folder.old) (F.faults folder.new)
        → IfErr result.outcome.done IsLack) }

    // It is done only with bytes that are accepted, and each reason has its cause.
    ensures accepted { OnOk result.outcome.done (IfSome (S.left source) (λ bytes.
        CanConvert plan.now bytes)) }
    ensures cause { IfErr result.outcome.done (ComesFrom plan.now (S.left source)
        (file_errors (S.faults source) (F.faults folder.old) (U.faults observers.report)
        (A.faults names.old))
        (file_errors (S.faults result.source) (F.faults folder.new)
        (U.faults result.outcome.report) (A.faults names.new))) }

    // Each cause has its reason: a read that fails 3, the report 7, the namer 5; the directory, if
    // nothing else fails, 4; and if nothing fails bytes that are not accepted 5, and too many 8.
    ensures unread { S.faults source < S.faults result.source → StopsWith 3 result.outcome.done }
    ensures unreported { U.faults observers.report < U.faults result.outcome.report
        → StopsWith 7 result.outcome.done }
    ensures unnamed { A.faults names.old < A.faults names.new
        → result.outcome.done ≡ Err Stop.Unnamed }
    ensures unwritten { IfSome (S.left source) (λ bytes. CanConvert plan.now bytes
        → F.faults folder.old < F.faults folder.new
        → ¬ Rose (S.faults source) (S.faults result.source)
        → ¬ Rose (U.faults observers.report) (U.faults result.outcome.report)
        → ¬ Rose (A.faults names.old) (A.faults names.new)
        → StopsOrLacks 4 result.outcome.done) }
    ensures rejected { IfSome (S.left source) (λ bytes.
        ¬ Rose (S.faults source) (S.faults result.source)
        → ¬ Rose (U.faults observers.report) (U.faults result.outcome.report)
        → ¬ Rose (A.faults names.old) (A.faults names.new)
        → ¬ Rose (F.faults folder.old) (F.faults folder.new)
        → StopsFor plan.now bytes result.outcome.done) }
{
    match begin(alloc, plan, source, observers) {
        Ok(begun) => {
            let Begun {
                kind,
                mut run,
                mut input,
            } = begun;
            let done = put_output(folder, &mut run, &mut input, names, part);
            ended(Begun { kind, run, input }, done)
        }
        Err(stopped) => stopped,
    }
}

//! An input as it is read under a format.

ghost use Rattle.std.specs.Prelude.{◌≡◌, ◌<◌, ◌≤◌};
ghost use Rattle.std.specs.Option.{option_map};
ghost use Rattle.receiver_log.specs.Capture.{too_many};
ghost use Rattle.file_conversion.specs.Logs.{read_as};

use framing::{SbfJudge, UbxJudge};
use nav_io::{Failed, Source};
use receiver_log::{LogCounts, LogParts, LogSource, Receiver, Refused};
use rinex_lines::{Rinex2Parts, Rinex2Source};
use whole_file::{Counted, Kind, Peeked, Progress};

/// An input as it is read: of a log its capture, of a file of RINEX 2 that of RINEX 3 with the same
/// records, and of any other its bytes.
pub(crate) enum Reading<A: Source, N: Refused + Drop> {
    Plain(A),
    Rinex2(Rinex2Source<A>),
    Ubx(LogSource<UbxJudge, A, N>),
    Sbf(LogSource<SbfJudge, A, N>),
}

/// An input whose first bytes were looked at, and whose bytes are counted, as it is read.
pub(crate) type Input<S, N, P> = Reading<Counted<Peeked<S>, P>, N>;

/// What is left of an input that was read.
pub(crate) struct Taken<S: Source> {
    /// The source inside.
    pub source: S,
    /// How many bytes were read.
    pub count: u64,
    /// What was counted of a log.
    pub counts: Option<LogCounts>,
}

impl<A: Source, N: Refused + Drop> Source for Reading<A, N> {
    ghost use Rattle.file_conversion.specs.declared.reading.Reading.TheVariants.{Plain, Rinex2};
    ghost use Rattle.file_conversion.specs.declared.reading.Reading.TheVariants.{Ubx, Sbf};

    ghost left = { elim [
      | Plain input ↦ A.left input
      | Rinex2 file ↦ ⟦<Rinex2Source<A> as Source>⟧.left file
      | Ubx log ↦ ⟦<LogSource<UbxJudge, A, N> as Source>⟧.left log
      | Sbf log ↦ ⟦<LogSource<SbfJudge, A, N> as Source>⟧.left log
    ] };

    ghost faults = { elim [
      | Plain input ↦ A.faults input
      | Rinex2 file ↦ ⟦<Rinex2Source<A> as Source>⟧.faults file
      | Ubx log ↦ ⟦<LogSource<UbxJudge, A, N> as Source>⟧.faults log
      | Sbf log ↦ ⟦<LogSource<SbfJudge, A, N> as Source>⟧.faults log
    ] };

    ghost never_fails = { elim [
      | Plain input ↦ A.never_fails input
      | Rinex2 file ↦ ⟦<Rinex2Source<A> as Source>⟧.never_fails file
      | Ubx log ↦ ⟦<LogSource<UbxJudge, A, N> as Source>⟧.never_fails log
      | Sbf log ↦ ⟦<LogSource<SbfJudge, A, N> as Source>⟧.never_fails log
    ] };

    /// One `read` of the input inside.
    fn read(&mut self, into: &mut [u8]) -> Result<usize, Failed> {
        match self {
            Reading::Plain(input) => input.read(into),
            Reading::Rinex2(file) => file.read(into),
            Reading::Ubx(log) => log.read(into),
            Reading::Sbf(log) => log.read(into),
        }
    }
}

/// An input as it is read under this format.
pub(crate) fn reading_of<S: Source, N: Refused + Drop, P: Progress>(
    kind: Kind,
    input: Peeked<S>,
    refusals: N,
    progress: P,
) -> Input<S, N, P>
    ensures left { ⟦<Input<S, N, P> as Source>⟧.left result
        ≡ option_map (read_as kind) (⟦<Peeked<S> as Source>⟧.left input) }
    ensures faults { ⟦<Input<S, N, P> as Source>⟧.faults result ≡ S.faults input.source }
{
    let input = Counted::new(input, progress);
    match kind {
        Kind::Ubx => Reading::Ubx(LogSource::new(input, refusals)),
        Kind::Sbf => Reading::Sbf(LogSource::new(input, refusals)),
        Kind::Rinex2 => Reading::Rinex2(Rinex2Source::new(input)),
        _ => Reading::Plain(input),
    }
}

/// What is left of an input.
pub(crate) fn taken_of<S: Source, N: Refused + Drop, P: Progress>(input: Input<S, N, P>) -> Taken<S>
    // Where there were not too many bytes, it has failed as often as the source inside.
    ensures few { result.count < too_many
        → ⟦<Input<S, N, P> as Source>⟧.faults input ≡ S.faults result.source }
    ensures most { S.faults result.source ≤ ⟦<Input<S, N, P> as Source>⟧.faults input }
{
    match input {
        Reading::Plain(input) => Taken {
            count: input.count(),
            counts: None,
            source: source_of(input),
        },
        Reading::Rinex2(file) => taken_of_file(file),
        Reading::Ubx(log) => taken_of_log(log),
        Reading::Sbf(log) => taken_of_log(log),
    }
}

// What is left of a file of RINEX 2.
fn taken_of_file<S: Source, P: Progress>(file: Rinex2Source<Counted<Peeked<S>, P>>) -> Taken<S>
    ensures few { result.count < too_many
        → ⟦<Rinex2Source<Counted<Peeked<S>, P>> as Source>⟧.faults file ≡ S.faults result.source }
    ensures most { S.faults result.source
        ≤ ⟦<Rinex2Source<Counted<Peeked<S>, P>> as Source>⟧.faults file }
{
    let Rinex2Parts { source, taken } = file.into_parts();
    Taken {
        source: source_of(source),
        count: taken,
        counts: None,
    }
}

// What is left of a log.
fn taken_of_log<J: Receiver, S: Source, N: Refused + Drop, P: Progress>(
    log: LogSource<J, Counted<Peeked<S>, P>, N>,
) -> Taken<S>
    ensures few { result.count < too_many
        → ⟦<LogSource<J, Counted<Peeked<S>, P>, N> as Source>⟧.faults log ≡ S.faults result.source }
    ensures most { S.faults result.source
        ≤ ⟦<LogSource<J, Counted<Peeked<S>, P>, N> as Source>⟧.faults log }
{
    let LogParts {
        source,
        refused: _,
        counts,
        taken,
    } = log.into_parts();
    Taken {
        source: source_of(source),
        count: taken,
        counts: Some(counts),
    }
}

// The source inside an input that is counted.
fn source_of<S: Source, P: Progress>(input: Counted<Peeked<S>, P>) -> S
    ensures { S.faults result ≡ ⟦<Counted<Peeked<S>, P> as Source>⟧.faults input }
{
    let (input, _) = input.into_parts();
    input.into_source()
}

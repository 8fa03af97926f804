//! The step from one file to another.

ghost use Rattle.std.specs.Prelude.{◌≡◌, ◌⊎◌, ℕ, List};
ghost use Rattle.std.specs.Prelude.{Some, IfSome, IfErr, IfOk, ◌≤◌};
ghost use Rattle.std.specs.Prelude.{OnOk, OnErr};
ghost use Rattle.std.specs.String.{string_bytes};
ghost use Rattle.std.specs.Io.KnownBytes.{Appends};
ghost use Rattle.nav_io.specs.Causes.{Rose};
ghost use Rattle.whole_file.specs.Files.{Publishes, Stays};
ghost use Rattle.whole_file.specs.Steps.{BrokeOff, Finishes, Lacks};
ghost use Rattle.whole_file.specs.Steps.{Cause, EndsFor, FinishCounts, IfBrokeOff, StepEndsFor};
ghost use Rattle.whole_file.specs.Steps.{error_counts};

use crate::faults::FileFault;
use crate::folder::Folder;
use crate::names::Namer;
use nav_io::{Failed, Sink, Source};

/// A conversion from the bytes of one file to those of another.
pub trait Conversion {
    /// What it has counted.
    type Done: Drop;

    /// Why it breaks off.
    type Fault: Drop;

    // The output for the bytes.
    ghost makes: { Self → List ℕ → List ℕ };

    // What is counted of the bytes.
    ghost counts: { Self → List ℕ → Self.Done → Type 0 };

    // The bytes that it accepts.
    ghost can: { Self → List ℕ → Type 0 };

    // A fault for want of something, such as memory, that neither the bytes nor a call decides.
    ghost lacks: { Self.Fault → Type 0 };

    // How often a call failed on neither the input nor the output, but on a report for instance.
    ghost faults: { Self → ℕ };

    // What each of its faults comes from.
    ghost cause_of: { Self.Fault → Cause };

    // The bytes with which it may break off with this fault.
    ghost breaks: { Self → List ℕ → Self.Fault → Type 0 };

    /// Reads the input to its end, and writes the conversion of its bytes.
    fn run<S: Source, T: Sink>(
        &mut self,
        input: &mut S,
        output: &mut T,
    ) -> Result<Self::Done, Self::Fault>
        ensures text { OnOk result (IfSome (S.left input.old) (λ bytes.
            Appends (T.written output.old) (T.written output.new) (makes self.old bytes))) }
        ensures counts { IfOk result (λ done. IfSome (S.left input.old) (λ bytes.
            counts self.old bytes done)) }
        ensures complete { IfSome (S.left input.old) (λ bytes. can self.old bytes
            → ¬ Rose (S.faults input.old) (S.faults input.new)
            → ¬ Rose (T.faults output.old) (T.faults output.new)
            → ¬ Rose (faults self.old) (faults self.new)
            → IfErr result lacks) }

        // It is done only with bytes that it accepts. Each fault comes from a call that failed,
        // from the bytes, or from what it lacks.
        ensures accepts { OnOk result (IfSome (S.left input.old) (λ bytes. can self.old bytes)) }
        ensures causes { EndsFor cause_of
            (error_counts (S.faults input.old) (T.faults output.old) (faults self.old))
            (error_counts (S.faults input.new) (T.faults output.new) (faults self.new)) result }
        ensures breaks { IfErr result (λ fault. IfSome (S.left input.old) (λ bytes.
            breaks self.old bytes fault)) };
}

/// An output that has its name.
#[derive(Drop)]
pub struct Named<D: Drop> {
    /// The name.
    pub name: String,
    /// What was counted.
    pub done: D,
}

/// Why an output did not get its name.
#[derive(Drop)]
pub enum StepFault<E> {
    /// The part could not be created.
    Begin(FileFault),
    /// The conversion broke off, and the part was given up: the directory's result of that.
    Run(E, Result<(), FileFault>),
    /// It has no name, or may not have it: the namer reports why.
    Unnamed,
    /// The output was not fully written, or did not get its name.
    Publish(FileFault),
}

/// Writes the conversion of the input to a part, and gives it its name once it is complete.
///
/// # Errors
///
/// Every name is as it was, and the part is removed if the directory can remove it.
pub fn put_output<F: Folder, S: Source, C: Conversion, A: Namer<C::Done>>(
    folder: &mut F,
    conversion: &mut C,
    input: &mut S,
    names: &mut A,
    part: &str,
) -> Result<Named<C::Done>, StepFault<C::Fault>>
    ensures put { IfOk result (λ named. IfSome (S.left input.old) (λ bytes.
        Publishes (F.files folder.old) (F.files folder.new) part.now (string_bytes named.name)
        (Some (C.makes conversion.old bytes)))) }
    ensures counts { IfOk result (λ named. IfSome (S.left input.old) (λ bytes.
        C.counts conversion.old bytes named.done)) }
    ensures named { IfOk result (λ named. A.gives names.old named.done (string_bytes named.name)) }
    ensures stays { OnErr result (Stays (F.files folder.old) (F.files folder.new) part.now) }
    ensures failed { IfErr result (λ fault. BrokeOff fault
        ⊎ (Rose (A.faults names.old) (A.faults names.new)
        ⊎ Rose (F.faults folder.old) (F.faults folder.new))) }
    ensures later { F.faults folder.old ≤ F.faults folder.new }

    // It succeeds where the bytes are accepted, the output has a name, and nothing fails.
    ensures complete { IfSome (S.left input.old) (λ bytes. C.can conversion.old bytes
        → ¬ Rose (S.faults input.old) (S.faults input.new)
        → ¬ Rose (C.faults conversion.old) (C.faults conversion.new)
        → ¬ Rose (A.faults names.old) (A.faults names.new)
        → ¬ Rose (F.faults folder.old) (F.faults folder.new)
        → IfErr result (Lacks C.lacks)) }

    // It succeeds only where the bytes are accepted. Each fault comes from a call that failed, or
    // is one of the conversion.
    ensures accepts { OnOk result (IfSome (S.left input.old) (λ bytes.
        C.can conversion.old bytes)) }
    ensures causes { StepEndsFor C.cause_of
        (error_counts (S.faults input.old) (F.faults folder.old) (C.faults conversion.old))
        (error_counts (S.faults input.new) (F.faults folder.new) (C.faults conversion.new))
        (A.faults names.old) (A.faults names.new) result }
    ensures breaks { IfErr result (λ fault. IfSome (S.left input.old) (λ bytes.
        IfBrokeOff (C.breaks conversion.old bytes) fault)) }
{
    let mut draft = match folder.draft(part) {
        Ok(draft) => draft,
        Err(fault) => return Err(StepFault::Begin(fault)),
    };
    let ran = conversion.run(input, &mut draft);
    finished(folder, draft, ran, names, part)
}

// Gives the draft its name where the conversion ran to its end, or gives it up.
fn finished<F: Folder, D: Drop, E: Drop, A: Namer<D>>(
    folder: &mut F,
    draft: F::Draft,
    ran: Result<D, E>,
    names: &mut A,
    part: &str,
) -> Result<Named<D>, StepFault<E>>
    ensures later { F.faults folder.old ≤ F.faults folder.new }
    ensures ends { Finishes (Publishes (F.files folder.old) (F.files folder.new) part.now)
        (Stays (F.files folder.old) (F.files folder.new) part.now) (A.gives names.old)
        (Rose (A.faults names.old) (A.faults names.new)) (F.Draft.written draft)
        (F.Draft.faults draft) (F.faults folder.old) (F.faults folder.new) ran result }
    ensures counts { FinishCounts (A.faults names.old) (A.faults names.new)
        (F.faults folder.old) (F.faults folder.new) result }
{
    match ran {
        Ok(done) => match names.name(&done, part) {
            Ok(name) => match folder.publish(draft, part, name.as_str()) {
                Ok(()) => Ok(Named { name, done }),
                Err(fault) => Err(StepFault::Publish(fault)),
            },
            Err(Failed) => {
                let _ = folder.discard(draft, part);
                Err(StepFault::Unnamed)
            }
        },
        Err(fault) => Err(StepFault::Run(fault, folder.discard(draft, part))),
    }
}

//! The format of what a conversion accepts: the contract of an empty function.

ghost use Rattle.std.specs.Prelude.{ℕ, List, IsSome};
ghost use Rattle.bridge_engine.specs.Meanings.{meaning_of};
ghost use Rattle.bridge_engine.specs.declared.job.Job.{Job};
ghost use Rattle.whole_file.specs.Kinds.{kind_of};
ghost use Rattle.job_laws.specs.Told.{IsReportedFor};

/// What a conversion accepts is recognised as its format, as far as bytes show it: a capture, and a
/// navigation file of its version. Any bytes are a stream: [`whole_file`] states which are
/// recognised.
pub fn accepted_bytes_decide_their_format()
    ensures { (job : Job) (bytes : List ℕ) → IsSome ((meaning_of job).counts bytes)
        → IsReportedFor job (kind_of bytes) }
{}

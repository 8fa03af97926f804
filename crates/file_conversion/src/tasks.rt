//! The run of a task.

ghost use Rattle.std.specs.Prelude.{◌≡◌, ◌<◌, ◌^◌, IfErr, IfOk, IfSome, IsSome, OnOk, Some};
ghost use Rattle.std.specs.Prelude.{length, option_map, true};
ghost use Rattle.std.specs.Io.KnownBytes.{Appends};
ghost use Rattle.nav_io.specs.Causes.{Rose};
ghost use Rattle.whole_file.specs.Steps.{EndsFor, error_counts};
ghost use Rattle.bridge_engine.specs.Meanings.{done_of, meaning_of};
ghost use Rattle.file_conversion.specs.Tasks.{breaks_by, cause_in, reads_input};
ghost use Rattle.file_conversion.specs.Tasks.{system_file_of, system_merge_of, systems_of};
ghost use Rattle.file_conversion.specs.declared.done.Done.TheVariants as dones;

use crate::copies::copy;
use crate::done::Done;
use crate::table::{SystemFileJob, SystemMergeJob, SystemsJob, Task};
use all_systems::{Version, run_system_file, run_system_merge, run_systems};
use bridge_engine::{BridgeFault, Job, run_job};
use nav_io::{Sink, Source};
use std::alloc::Global;
use whole_file::Conversion;

/// A task that is done with a report.
pub(crate) struct TaskRun<U: Sink> {
    pub alloc: Global,
    pub task: Task,
    pub report: U,
    pub ghost reads: { reads_input task ≡ true },
}

impl<U: Sink> Conversion for TaskRun<U> {
    ghost use Rattle.std.specs.Prelude.{◌≡◌, ◌^◌, ◌<◌, length};
    ghost use Rattle.one_run.specs.declared.fault.BridgeFault.TheVariants.{NoMemory};
    ghost use Rattle.file_conversion.specs.Tasks.{accepts, counts_by, makes_by};
    ghost use Rattle.file_conversion.specs.Tasks.{breaks_by, cause_in};

    type Done = Option<Done>;

    type Fault = BridgeFault;

    ghost makes = { λ s. makes_by s.task };

    ghost counts = { λ s bytes done. done ≡ counts_by s.task bytes };

    ghost can = { λ s bytes. accepts s.task bytes × (length bytes < 2 ^ 32) };

    ghost lacks = { λ fault. fault ≡ NoMemory };

    ghost faults = { λ s. U.faults s.report };

    ghost cause_of = { λ fault. cause_in fault };

    ghost breaks = { λ s bytes. breaks_by (accepts s.task bytes) bytes };

    /// Does the task.
    fn run<S: Source, T: Sink>(
        &mut self,
        input: &mut S,
        output: &mut T,
    ) -> Result<Option<Done>, BridgeFault> {
        match &self.task {
            Task::Does(job) => do_job(self.alloc, job, input, output, &mut self.report),
            Task::Systems(job) => do_systems(self.alloc, job, input, output, &mut self.report),
            Task::SystemFile(job) => do_system_file(
                self.alloc,
                job,
                input,
                output,
                &mut self.report,
            ),
            Task::SystemMerge(job) => do_system_merge(
                self.alloc,
                job,
                input,
                output,
                &mut self.report,
            ),
            Task::Copied => copy(input, output),
        }
    }
}

// Does a job that reads its input.
fn do_job<S: Source, T: Sink, U: Sink>(
    alloc: Global,
    job: &Job,
    input: &mut S,
    output: &mut T,
    report: &mut U,
) -> Result<Option<Done>, BridgeFault>
    requires { (meaning_of job.now).reads ≡ true }
    ensures text { OnOk result (IfSome (S.left input.old) (λ bytes.
        Appends (T.written output.old) (T.written output.new)
        ((meaning_of job.now).whole.output bytes))) }
    ensures counts { IfOk result (λ done. IfSome (S.left input.old) (λ bytes.
        done ≡ option_map dones.Job ((done_of job.now).counts bytes))) }
    ensures complete { IfSome (S.left input.old) (λ bytes.
        IsSome ((done_of job.now).counts bytes) × (length bytes < 2 ^ 32)
        → ¬ Rose (S.faults input.old) (S.faults input.new)
        → ¬ Rose (T.faults output.old) (T.faults output.new)
        → ¬ Rose (U.faults report.old) (U.faults report.new)
        → IfErr result (λ fault. fault ≡ BridgeFault.NoMemory)) }
    ensures accepts { OnOk result (IfSome (S.left input.old) (λ bytes.
        IsSome ((done_of job.now).counts bytes) × (length bytes < 2 ^ 32))) }
    ensures causes { EndsFor cause_in
        (error_counts (S.faults input.old) (T.faults output.old) (U.faults report.old))
        (error_counts (S.faults input.new) (T.faults output.new) (U.faults report.new)) result }
    ensures breaks { IfErr result (λ fault. IfSome (S.left input.old) (λ bytes.
        breaks_by (IsSome ((done_of job.now).counts bytes)) bytes fault)) }
{
    match run_job(alloc, job, input, output, report) {
        Ok(done) => Ok(Some(Done::Job(done))),
        Err(fault) => Err(fault),
    }
}

// Converts the ephemerides of all systems in a stream.
fn do_systems<S: Source, T: Sink, U: Sink>(
    alloc: Global,
    job: &SystemsJob,
    input: &mut S,
    output: &mut T,
    report: &mut U,
) -> Result<Option<Done>, BridgeFault>
    ensures text { OnOk result (IfSome (S.left input.old) (λ bytes.
        Appends (T.written output.old) (T.written output.new)
        ((systems_of job.now).whole.output bytes))) }
    ensures counts { IfOk result (λ done. IfSome (S.left input.old) (λ bytes.
        done ≡ (systems_of job.now).counts bytes)) }
    ensures complete { IfSome (S.left input.old) (λ bytes.
        IsSome ((systems_of job.now).counts bytes) × (length bytes < 2 ^ 32)
        → ¬ Rose (S.faults input.old) (S.faults input.new)
        → ¬ Rose (T.faults output.old) (T.faults output.new)
        → ¬ Rose (U.faults report.old) (U.faults report.new)
        → IfErr result (λ fault. fault ≡ BridgeFault.NoMemory)) }
    ensures accepts { OnOk result (IfSome (S.left input.old) (λ bytes.
        IsSome ((systems_of job.now).counts bytes) × (length bytes < 2 ^ 32))) }
    ensures causes { EndsFor cause_in
        (error_counts (S.faults input.old) (T.faults output.old) (U.faults report.old))
        (error_counts (S.faults input.new) (T.faults output.new) (U.faults report.new)) result }
    ensures breaks { IfErr result (λ fault. IfSome (S.left input.old) (λ bytes.
        breaks_by (IsSome ((systems_of job.now).counts bytes)) bytes fault)) }
{
    match run_systems(alloc, &job.kinds, job.week, &job.to, input, output, report) {
        Ok(counts) => Ok(Some(Done::Stream(counts))),
        Err(fault) => Err(fault),
    }
}

// Converts those in a navigation file.
fn do_system_file<S: Source, T: Sink, U: Sink>(
    alloc: Global,
    job: &SystemFileJob,
    input: &mut S,
    output: &mut T,
    report: &mut U,
) -> Result<Option<Done>, BridgeFault>
    ensures text { OnOk result (IfSome (S.left input.old) (λ bytes.
        Appends (T.written output.old) (T.written output.new)
        ((system_file_of job.now).whole.output bytes))) }
    ensures counts { IfOk result (λ done. IfSome (S.left input.old) (λ bytes.
        done ≡ option_map dones.File ((system_file_of job.now).counts bytes))) }
    ensures complete { IfSome (S.left input.old) (λ bytes.
        IsSome ((system_file_of job.now).counts bytes) × (length bytes < 2 ^ 32)
        → ¬ Rose (S.faults input.old) (S.faults input.new)
        → ¬ Rose (T.faults output.old) (T.faults output.new)
        → ¬ Rose (U.faults report.old) (U.faults report.new)
        → IfErr result (λ fault. fault ≡ BridgeFault.NoMemory)) }
    ensures accepts { OnOk result (IfSome (S.left input.old) (λ bytes.
        IsSome ((system_file_of job.now).counts bytes) × (length bytes < 2 ^ 32))) }
    ensures causes { EndsFor cause_in
        (error_counts (S.faults input.old) (T.faults output.old) (U.faults report.old))
        (error_counts (S.faults input.new) (T.faults output.new) (U.faults report.new)) result }
    ensures breaks { IfErr result (λ fault. IfSome (S.left input.old) (λ bytes.
        breaks_by (IsSome ((system_file_of job.now).counts bytes)) bytes fault)) }
{
    let read = run_system_file(
        alloc,
        &job.kinds,
        job.version,
        &job.to,
        input,
        output,
        report,
    );
    match read {
        Ok(counts) => Ok(Some(Done::File(counts))),
        Err(fault) => Err(fault),
    }
}

// Merges those in several.
fn do_system_merge<S: Source, T: Sink, U: Sink>(
    alloc: Global,
    job: &SystemMergeJob,
    input: &mut S,
    output: &mut T,
    report: &mut U,
) -> Result<Option<Done>, BridgeFault>
    ensures text { OnOk result (IfSome (S.left input.old) (λ bytes.
        Appends (T.written output.old) (T.written output.new)
        ((system_merge_of job.now).whole.output bytes))) }
    ensures counts { IfOk result (λ done. IfSome (S.left input.old) (λ bytes.
        done ≡ option_map dones.Merged ((system_merge_of job.now).counts bytes))) }
    ensures complete { IfSome (S.left input.old) (λ bytes.
        IsSome ((system_merge_of job.now).counts bytes) × (length bytes < 2 ^ 32)
        → ¬ Rose (S.faults input.old) (S.faults input.new)
        → ¬ Rose (T.faults output.old) (T.faults output.new)
        → ¬ Rose (U.faults report.old) (U.faults report.new)
        → IfErr result (λ fault. fault ≡ BridgeFault.NoMemory)) }
    ensures accepts { OnOk result (IfSome (S.left input.old) (λ bytes.
        IsSome ((system_merge_of job.now).counts bytes) × (length bytes < 2 ^ 32))) }
    ensures causes { EndsFor cause_in
        (error_counts (S.faults input.old) (T.faults output.old) (U.faults report.old))
        (error_counts (S.faults input.new) (T.faults output.new) (U.faults report.new)) result }
    ensures breaks { IfErr result (λ fault. IfSome (S.left input.old) (λ bytes.
        breaks_by (IsSome ((system_merge_of job.now).counts bytes)) bytes fault)) }
{
    let merged = run_system_merge(
        alloc,
        &job.kinds,
        Version::Four,
        job.to,
        &job.header,
        input,
        output,
        report,
    );
    match merged {
        Ok(counts) => Ok(Some(Done::Merged(counts))),
        Err(fault) => Err(fault),
    }
}

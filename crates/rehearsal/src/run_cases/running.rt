//! A job that is run at a gate.
ghost use Rattle.std.specs.Prelude.{IfOk};
ghost use Rattle.tool_run.specs.Passed.{IsLoaded, IsLawfulRun};

use crate::run_cases::trouble::Trouble;
use job_rounds::{make_hooks, run_job_heard};
use std::alloc::Global;
use std::sync::Wait;
use std::thread::Threads;
use tc_base::{Gate, MemShelf, MemSink, NoEar, Numbers, Tender};
use tool_run::{Check, LoadedJob, RunRecord, load_job, recheck, write_report};

/// A run, its report, and whether `recheck` finds that lawful.
#[derive(Drop)]
pub(crate) struct Ran {
    pub(crate) run: RunRecord,
    pub(crate) report: MemSink,
    pub(crate) is_lawful: bool,
}

impl Ran {
    /// The report alone.
    pub(crate) fn into_report(self) -> MemSink {
        let Ran { run, report, .. } = self;
        drop(run);
        report
    }
}

// Runs a loaded job over a hook of its own.
fn run_loaded<R: Threads + Wait + Sync, G: Gate, T: Tender>(
    rt: &R,
    alloc: Global,
    job: &LoadedJob,
    gates: &G,
    tender: &mut T,
) -> Result<RunRecord, Trouble>
    requires { IsLoaded job.now }
    ensures { IfOk result (λ run. IsLawfulRun job.now run) }
{
    let hooks = make_hooks(alloc, job.job.workers)?;
    let (run, hooks, _) = run_job_heard(rt, alloc, hooks, job, gates, NoEar, tender)?;
    drop(hooks);
    Ok(run)
}

// Writes the report of a run. Whether `recheck` finds it lawful.
fn judge(
    alloc: Global,
    job: &LoadedJob,
    run: &RunRecord,
    report: &mut MemSink,
) -> Result<bool, Trouble>
    requires job { IsLoaded job.now }
    requires run { IsLawfulRun job.now run.now }
{
    write_report(alloc, run, report)?;
    Ok(recheck(alloc, job, report.bytes())? == Check::Lawful)
}

// A run with its report.
fn reported(alloc: Global, job: &LoadedJob, run: RunRecord) -> Result<Ran, Trouble>
    requires job { IsLoaded job.now }
    requires run { IsLawfulRun job.now run }
{
    let mut report = MemSink::new(alloc, Numbers::from_vec(Vec::new(alloc)));
    match judge(alloc, job, &run, &mut report) {
        Ok(is_lawful) => Ok(Ran {
            run,
            report,
            is_lawful,
        }),
        Err(trouble) => {
            drop((run, report));
            Err(trouble)
        }
    }
}

/// Runs the job that a shelf holds.
pub(crate) fn run_held<R: Threads + Wait + Sync, G: Gate, T: Tender>(
    rt: &R,
    alloc: Global,
    shelf: &mut MemShelf,
    gates: &G,
    tender: &mut T,
) -> Result<Ran, Trouble> {
    let Ok(job) = load_job(alloc, shelf, "job") else {
        return Err(Trouble::NotLoaded);
    };
    let ran = match run_loaded(rt, alloc, &job, gates, tender) {
        Ok(run) => reported(alloc, &job, run),
        Err(trouble) => Err(trouble),
    };
    drop(job);
    ran
}

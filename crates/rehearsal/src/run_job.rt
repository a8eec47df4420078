//! The command `run`.
ghost use Rattle.std.specs.Prelude.{◌≡◌, [], ◌⊎◌, ◌<◌, ◌^◌, IfOk, IfErr, OnOk};
ghost use Rattle.tc_base.specs.Outside.{Appended, AppendsUpTo};
ghost use Rattle.tool_words.specs.Command.{Run};
ghost use Rattle.tool_words.specs.Ends.{IsAllDone};
ghost use Rattle.tool_run.specs.Asks.{PutsOutput, output_names};
ghost use Rattle.tool_run.specs.Causes.{CausedTo};
ghost use Rattle.tool_run.specs.Delivered.{LeavesAllUnlessRun};
ghost use Rattle.tool_run.specs.OfOutputs.Outputs.{outputs_of};
ghost use Rattle.tool_run.specs.OfOutputs.Puts.{ArePut, ArePutUpTo};
ghost use Rattle.tool_run.specs.Parts.{DeliveryFails};
ghost use Rattle.tool_run.specs.Passed.{FetchesInput, IsLoaded, IsLawfulRun};
ghost use Rattle.tool_run.specs.Passed.{events_in, packets_in, report_text};
ghost use Rattle.tool_run.specs.Runs.{RanJob, RanSoFar, status_of_run};

use job_rounds::{make_hooks, run_job};
use std::alloc::Global;
use std::sync::Wait;
use std::thread::Threads;
use tc_base::{Gate, NoMemory, Shelf, Sink};
use tool_run::{LoadedJob, RunRecord, load_job, put_outputs, summary_of, write_report};
use tool_words::Status;

/// Runs a job over a hook of its own.
pub(crate) fn run_loaded<R: Threads + Wait + Sync, G: Gate>(
    rt: &R,
    alloc: Global,
    loaded: &LoadedJob,
    gates: &G,
) -> Result<RunRecord, NoMemory>
    requires { IsLoaded loaded.now }
    ensures { IfOk result (λ run. IsLawfulRun loaded.now run) }
{
    let hooks = make_hooks(alloc, loaded.job.workers)?;
    let (run, _hooks) = run_job(rt, alloc, hooks, loaded, gates)?;
    Ok(run)
}

// Puts the captures of a run, and writes its report.
fn deliver<S: Shelf, O: Sink>(
    alloc: Global,
    loaded: &LoadedJob,
    run: &RunRecord,
    shelf: &mut S,
    out: &mut O,
) -> Result<(), Status>
    requires loaded { IsLoaded loaded.now }
    requires run { IsLawfulRun loaded.now run.now }
    ensures put { OnOk result (ArePut (S.held shelf.old) (S.held shelf.new) (outputs_of loaded.now run.now)) }
    ensures wrote { OnOk result (Appended (O.written out.old) (O.written out.new) (report_text run.now)) }
    ensures up_to { ArePutUpTo (S.held shelf.old) (S.held shelf.new) (outputs_of loaded.now run.now) }
    ensures front { (O.written out.new ≡ O.written out.old)
        ⊎ (ArePut (S.held shelf.old) (S.held shelf.new) (outputs_of loaded.now run.now)
        × AppendsUpTo (O.written out.old) (O.written out.new) (report_text run.now)) }
    ensures cause { IfErr result (DeliveryFails S.write_faults O.faults shelf.old shelf.new out.old out.new) }
    ensures fetched { S.fetched shelf.new ≡ S.fetched shelf.old }
    ensures put_names { AppendsUpTo (S.put_names shelf.old) (S.put_names shelf.new)
        (output_names loaded.now.job.rounds) }
{
    put_outputs(alloc, loaded, run, shelf)?;
    Ok(write_report(alloc, run, out)?)
}

// How a run ends: with how many of its lines were refused.
fn status_of(run: &RunRecord) -> Status
    requires events { events_in run.now.rounds < 2 ^ 32 }
    requires packets { packets_in run.now.rounds < 2 ^ 64 }
    ensures status { result ≡ status_of_run run.now }
    ensures done { IsAllDone result }
{
    match summary_of(run.rounds.as_slice()).refused {
        0 => Status::Done,
        refused => Status::LinesRefused {
            count: refused as u32,
        },
    }
}

/// Runs the job under a name on threads, puts its captures in order, and writes its report. Answers how the
/// run ended.
pub fn run_named<R: Threads + Wait + Sync, S: Shelf, O: Sink, G: Gate>(
    rt: &R,
    alloc: Global,
    job: &str,
    shelf: &mut S,
    out: &mut O,
    gates: &G,
) -> Result<Status, Status>
    ensures done { IfOk result (RanJob (S.held shelf.old) (S.held shelf.new) (O.written out.old)
        (O.written out.new) job.now) }
    ensures all_done { IfOk result IsAllDone }
    ensures cause { IfErr result (CausedTo S.held S.read_faults S.failed_name S.write_faults O.faults
        shelf.old shelf.new out.old out.new (Run job.now)) }
    ensures not_done { IfErr result (λ status. IsAllDone status → ⊥) }
    ensures nothing { IfErr result (LeavesAllUnlessRun (S.held shelf.old) (S.held shelf.new)
        (O.written out.old) (O.written out.new)) }
    ensures so_far { RanSoFar (S.held shelf.old) (S.held shelf.new) (O.written out.old) (O.written out.new)
        job.now }
    ensures fetched { FetchesInput (S.held shelf.old) (S.fetched shelf.old) (S.fetched shelf.new) job.now [] }
    ensures put_names { PutsOutput (S.held shelf.old) (S.put_names shelf.old) (S.put_names shelf.new) job.now }
{
    let loaded = load_job(alloc, shelf, job)?;
    let run = run_loaded(rt, alloc, &loaded, gates)?;
    deliver(alloc, &loaded, &run, shelf, out)?;
    Ok(status_of(&run))
}

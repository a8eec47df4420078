//! The command `trace`, of a job and a report.
ghost use Rattle.std.specs.Prelude.{◌≡◌, ◌≤◌, ℕ, List, IfOk, IfErr, OnOk, IsErrOf, [], ◌∷◌};
ghost use Rattle.tc_base.specs.Outside.{Rose, Appended, AppendsUpTo};
ghost use Rattle.lawful_runs.specs.Given.{IsLoaded};
ghost use Rattle.job_files.specs.Inputs.{FetchesInput};
ghost use Rattle.report_trace.specs.Passed.{IsReplayedOf};
ghost use Rattle.tool_words.specs.Command.{TraceReport};
ghost use Rattle.tool_words.specs.Ends.{IsAllDone};
ghost use Rattle.tool_run.specs.Causes.{CausedTo};
ghost use Rattle.tool_run.specs.Delivered.{TracedReport, LeavesAllUnlessRun, CameSoFar};
ghost use Rattle.tool_run.specs.Rechecks.{status_of_check};
ghost use Rattle.tool_run.specs.ReportTraces.{IsToldOf, check_of};

use crate::judging::{ReportFiles, load_files, write_check};
use report_trace::{Check, Replayed, replay, trace_report};
use std::alloc::Global;
use tc_base::{Put, Shelf, Sink};
use tool_words::Status;

// What a report is.
fn judgment(replayed: &Replayed) -> Check
    ensures { result ≡ check_of replayed.now }
{
    match *replayed {
        Replayed::Lawful(_) => Check::Lawful,
        Replayed::Unlawful { line, reason } => Check::Unlawful { line, reason },
    }
}

// Writes the trace of a lawful report, and of another the line that says what it is.
fn tell<O: Sink>(
    alloc: Global,
    files: &ReportFiles,
    replayed: &Replayed,
    out: &mut O,
) -> Result<(), Put>
    requires loaded { IsLoaded files.now.job }
    requires replayed { IsReplayedOf files.now.job files.now.report.items replayed.now }
    ensures all { OnOk result ((text : List ℕ)
        → IsToldOf files.now.job files.now.report.items (check_of replayed.now) text
        → Appended (O.written out.old) (O.written out.new) text) }
    ensures up_to { (text : List ℕ)
        → IsToldOf files.now.job files.now.report.items (check_of replayed.now) text
        → AppendsUpTo (O.written out.old) (O.written out.new) text }
    ensures later { O.faults out.old ≤ O.faults out.new }
    ensures cause { IsErrOf result Put.Failed → Rose (O.faults out.old) (O.faults out.new) }
{
    match replayed {
        Replayed::Lawful(replay) => trace_report(alloc, &files.job, &files.report, replay, out),
        Replayed::Unlawful { .. } => write_check(alloc, judgment(replayed), out),
    }
}

/// Judges the report under a name as one of the job under another, as `recheck` does. Of a lawful report it
/// writes the trace, and of another what `recheck` writes. Nothing is put. Answers what the report is.
pub fn run_trace_report<S: Shelf, O: Sink>(
    alloc: Global,
    job: &str,
    report: &str,
    shelf: &mut S,
    out: &mut O,
) -> Result<Check, Status>
    ensures done { IfOk result (λ check. TracedReport (S.held shelf.old) (S.held shelf.new)
        (O.written out.old) (O.written out.new) job.now report.now (status_of_check check)) }
    ensures cause { IfErr result (CausedTo S.held S.read_faults S.failed_name S.write_faults O.faults
        shelf.old shelf.new out.old out.new (TraceReport job.now report.now)) }
    ensures not_done { IfErr result (λ status. IsAllDone status → ⊥) }
    ensures nothing { IfErr result (LeavesAllUnlessRun (S.held shelf.old) (S.held shelf.new)
        (O.written out.old) (O.written out.new)) }
    ensures so_far { CameSoFar (S.held shelf.old) (S.held shelf.new) (O.written out.old) (O.written out.new)
        (TraceReport job.now report.now) }
    ensures fetched { FetchesInput (S.held shelf.old) (S.fetched shelf.old) (S.fetched shelf.new) job.now
        (report.now ∷ []) }
    ensures put_names { S.put_names shelf.new ≡ S.put_names shelf.old }
{
    let files = load_files(alloc, job, report, shelf)?;
    let replayed = replay(alloc, &files.job, &files.report)?;
    tell(alloc, &files, &replayed, out)?;
    Ok(judgment(&replayed))
}

//! The command `recheck`.
ghost use Rattle.std.specs.Prelude.{◌≡◌, ◌≤◌, IfOk, IfErr, [], ◌∷◌};
ghost use Rattle.job_files.specs.Inputs.{FetchesInput};
ghost use Rattle.tool_words.specs.Command.{Recheck};
ghost use Rattle.tool_words.specs.Ends.{IsAllDone};
ghost use Rattle.tool_run.specs.Causes.{CausedTo};
ghost use Rattle.tool_run.specs.Delivered.{Rechecked, LeavesAllUnlessRun, CameSoFar};
ghost use Rattle.tool_run.specs.Rechecks.{Judges, JudgingFails, status_of_check};

use crate::judging::{load_files, write_check};
use report_trace::{Check, recheck};
use std::alloc::Global;
use tc_base::{Shelf, Sink};
use tool_words::Status;

// Loads the job under the one name and the report under the other, in that order, and judges it.
fn judge<S: Shelf>(alloc: Global, job: &str, report: &str, shelf: &mut S) -> Result<Check, Status>
    ensures judged { IfOk result (Judges (S.held shelf.old) job.now report.now) }
    ensures cause { IfErr result
        (JudgingFails S.held S.read_faults S.failed_name shelf.old shelf.new job.now report.now) }
    ensures held { S.held shelf.new ≡ S.held shelf.old }
    ensures write_faults { S.write_faults shelf.new ≡ S.write_faults shelf.old }
    ensures fetched { FetchesInput (S.held shelf.old) (S.fetched shelf.old) (S.fetched shelf.new) job.now
        (report.now ∷ []) }
    ensures put_names { S.put_names shelf.new ≡ S.put_names shelf.old }
{
    let files = load_files(alloc, job, report, shelf)?;
    Ok(recheck(alloc, &files.job, &files.report)?)
}

/// Judges the report under a name as one of the job under another, and writes what came of it. Answers that.
pub fn run_recheck<S: Shelf, O: Sink>(
    alloc: Global,
    job: &str,
    report: &str,
    shelf: &mut S,
    out: &mut O,
) -> Result<Check, Status>
    ensures done { IfOk result (λ check. Rechecked (S.held shelf.old) (S.held shelf.new) (O.written out.old)
        (O.written out.new) job.now report.now (status_of_check check)) }
    ensures cause { IfErr result (CausedTo S.held S.read_faults S.failed_name S.write_faults O.faults
        shelf.old shelf.new out.old out.new (Recheck job.now report.now)) }
    ensures not_done { IfErr result (λ status. IsAllDone status → ⊥) }
    ensures nothing { IfErr result (LeavesAllUnlessRun (S.held shelf.old) (S.held shelf.new)
        (O.written out.old) (O.written out.new)) }
    ensures so_far { CameSoFar (S.held shelf.old) (S.held shelf.new) (O.written out.old) (O.written out.new)
        (Recheck job.now report.now) }
    ensures fetched { FetchesInput (S.held shelf.old) (S.fetched shelf.old) (S.fetched shelf.new) job.now
        (report.now ∷ []) }
    ensures put_names { S.put_names shelf.new ≡ S.put_names shelf.old }
{
    let check = judge(alloc, job, report, shelf)?;
    write_check(alloc, check, out)?;
    Ok(check)
}

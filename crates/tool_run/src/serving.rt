//! The command that the words are, and its run.
ghost use Rattle.std.specs.Prelude.{◌≡◌, false};
ghost use Rattle.tool_words.specs.Command.{TraceReport, Foresee, texts, request_of, runs_job, asks_for_job};
ghost use Rattle.tool_words.specs.Requests.{request, files_seen};
ghost use Rattle.tool_words.specs.Ends.{status_after, IsAllDone};
ghost use Rattle.tool_run.specs.Asks.{Fetches, Puts};
ghost use Rattle.tool_run.specs.Causes.{CausedTo};
ghost use Rattle.tool_run.specs.Rechecks.{status_of_check};
ghost use Rattle.tool_run.specs.Delivered.{DeliveredTo, LeavesAllUnlessRun, CameSoFar};
ghost use Rattle.tool_run.specs.Promises.{UsageExactlyForNoCommand, DoneOnlyIfDelivered, HasCause};
ghost use Rattle.tool_run.specs.Promises.{DueUnlessFailed, DoneIfReady, NothingIfAtFault, CameInOrder};
ghost use Rattle.tool_run.specs.Promises.{FetchedInOrder, PutInOrder};

use crate::run_foresee::{foreseen_status, run_foresee};
use crate::run_recheck::run_recheck;
use crate::run_show::run_show;
use crate::run_trace::run_trace;
use crate::run_trace_report::run_trace_report;
use crate::run_walk::run_walk;
use report_trace::Check;
use std::alloc::Global;
use tc_base::{Hook, Shelf, Sink};
use tool_words::{ChangeNames, Command, Status, WalkNames, command_of};

/// How a command ends that applied a batch, of which a line was refused or none: a batch stops at its first
/// refused line.
pub fn ended(refused: bool) -> Status
    ensures { result ≡ status_after refused }
{
    if refused {
        Status::LinesRefused { count: 1 }
    } else {
        Status::Done
    }
}

fn judged(check: Check) -> Status
    ensures { result ≡ status_of_check check }
{
    match check {
        Check::Lawful => Status::Done,
        Check::Unlawful { line, reason } => Status::NotLawful { line, reason },
    }
}

// Traces a report.
fn serve_trace<S: Shelf, O: Sink>(
    alloc: Global,
    job: &str,
    report: &str,
    shelf: &mut S,
    out: &mut O,
) -> Status
    ensures done { IsAllDone result → DeliveredTo (S.held shelf.old) (S.held shelf.new) (O.written out.old)
        (O.written out.new) (TraceReport job.now report.now) result }
    ensures cause { CausedTo S.held S.read_faults S.failed_name S.write_faults O.faults shelf.old shelf.new
        out.old out.new (TraceReport job.now report.now) result }
    ensures nothing { LeavesAllUnlessRun (S.held shelf.old) (S.held shelf.new) (O.written out.old)
        (O.written out.new) result }
    ensures so_far { CameSoFar (S.held shelf.old) (S.held shelf.new) (O.written out.old) (O.written out.new)
        (TraceReport job.now report.now) }
    ensures fetched { Fetches (S.held shelf.old) (S.fetched shelf.old) (S.fetched shelf.new)
        (TraceReport job.now report.now) }
    ensures put_names { Puts (S.held shelf.old) (S.put_names shelf.old) (S.put_names shelf.new)
        (TraceReport job.now report.now) }
{
    match run_trace_report(alloc, job, report, shelf, out) {
        Ok(check) => judged(check),
        Err(status) => status,
    }
}

// Foresees a change.
fn serve_foresee<S: Shelf, O: Sink>(
    alloc: Global,
    hook: Hook,
    names: &ChangeNames<'_>,
    force: bool,
    shelf: &mut S,
    out: &mut O,
) -> Status
    ensures done { IsAllDone result → DeliveredTo (S.held shelf.old) (S.held shelf.new) (O.written out.old)
        (O.written out.new) (Foresee hook (files_seen names.now) force) result }
    ensures cause { CausedTo S.held S.read_faults S.failed_name S.write_faults O.faults shelf.old shelf.new
        out.old out.new (Foresee hook (files_seen names.now) force) result }
    ensures nothing { LeavesAllUnlessRun (S.held shelf.old) (S.held shelf.new) (O.written out.old)
        (O.written out.new) result }
    ensures so_far { CameSoFar (S.held shelf.old) (S.held shelf.new) (O.written out.old) (O.written out.new)
        (Foresee hook (files_seen names.now) force) }
    ensures fetched { Fetches (S.held shelf.old) (S.fetched shelf.old) (S.fetched shelf.new)
        (Foresee hook (files_seen names.now) force) }
    ensures put_names { Puts (S.held shelf.old) (S.put_names shelf.old) (S.put_names shelf.new)
        (Foresee hook (files_seen names.now) force) }
{
    match run_foresee(alloc, hook, names, force, shelf, out) {
        Ok(foreseen) => foreseen_status(foreseen),
        Err(status) => status,
    }
}

// Does what a command asks for that runs no job.
fn serve<S: Shelf, O: Sink>(
    alloc: Global,
    command: Command<'_>,
    shelf: &mut S,
    out: &mut O,
) -> Status
    requires { runs_job (request command) ≡ false }
    ensures done { IsAllDone result → DeliveredTo (S.held shelf.old) (S.held shelf.new) (O.written out.old)
        (O.written out.new) (request command.entry) result }
    ensures cause { CausedTo S.held S.read_faults S.failed_name S.write_faults O.faults shelf.old shelf.new
        out.old out.new (request command.entry) result }
    ensures nothing { LeavesAllUnlessRun (S.held shelf.old) (S.held shelf.new) (O.written out.old)
        (O.written out.new) result }
    ensures so_far { CameSoFar (S.held shelf.old) (S.held shelf.new) (O.written out.old) (O.written out.new)
        (request command.entry) }
    ensures fetched { Fetches (S.held shelf.old) (S.fetched shelf.old) (S.fetched shelf.new) (request command.entry) }
    ensures put_names { Puts (S.held shelf.old) (S.put_names shelf.old) (S.put_names shelf.new)
        (request command.entry) }
{
    match command {
        Command::Show { batch } => match run_show(alloc, batch, shelf, out) {
            Ok(refused) => ended(refused),
            Err(status) => status,
        },
        Command::Walk {
            hook,
            batch,
            capture,
            output,
        } => {
            let names = WalkNames {
                batch,
                capture,
                output,
            };
            match run_walk(alloc, hook, &names, shelf, out) {
                Ok(refused) => ended(refused),
                Err(status) => status,
            }
        }
        Command::Trace {
            hook,
            batch,
            capture,
        } => match run_trace(alloc, hook, batch, capture, shelf, out) {
            Ok(refused) => ended(refused),
            Err(status) => status,
        },
        Command::Recheck { job, report } => match run_recheck(alloc, job, report, shelf, out) {
            Ok(check) => judged(check),
            Err(status) => status,
        },
        Command::TraceReport { job, report } => serve_trace(alloc, job, report, shelf, out),
        Command::Foresee {
            hook,
            batch,
            change,
            capture,
            force,
        } => {
            let names = ChangeNames {
                batch,
                change,
                capture,
            };
            serve_foresee(alloc, hook, &names, force, shelf, out)
        }
        Command::Run { .. } | Command::Gen { .. } => unreachable!(),
    }
}

/// Does what the words say, on lists and without threads, for the commands that run no job: all but `run` and
/// `gen`. It returns always.
pub fn obey<S: Shelf, O: Sink>(
    alloc: Global,
    words: &[String],
    shelf: &mut S,
    out: &mut O,
) -> Status
    requires { asks_for_job (request_of (texts words.now)) ≡ false }
    ensures usage { UsageExactlyForNoCommand (texts words.now) result }
    ensures done { DoneOnlyIfDelivered S.held O.written shelf.old shelf.new out.old out.new (texts words.now)
        result }
    ensures cause { HasCause S.held S.read_faults S.failed_name S.write_faults O.faults
        shelf.old shelf.new out.old out.new (texts words.now) result }
    ensures exact { DueUnlessFailed S.held S.read_faults S.write_faults O.faults
        shelf.old shelf.new out.old out.new (texts words.now) result }
    ensures complete { DoneIfReady S.held S.read_faults S.write_faults O.faults
        shelf.old shelf.new out.old out.new (texts words.now) result }
    ensures nothing { NothingIfAtFault S.held O.written shelf.old shelf.new out.old out.new result }
    ensures so_far { CameInOrder S.held O.written shelf.old shelf.new out.old out.new (texts words.now) }
    ensures fetched { FetchedInOrder S.held S.fetched shelf.old shelf.new (texts words.now) }
    ensures put_names { PutInOrder S.held S.put_names shelf.old shelf.new (texts words.now) }
{
    match command_of(words) {
        None => Status::Usage,
        Some(command) => serve(alloc, command, shelf, out),
    }
}

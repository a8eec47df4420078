//! The top call.
ghost use Rattle.gen_files.specs.declared.limits.TheConstants.{GEN_MAX};
ghost use Rattle.std.specs.Prelude.{◌≡◌, ◌≤◌};
ghost use Rattle.tool_words.specs.Command.{texts, Run, Gen};
ghost use Rattle.tool_words.specs.Ends.{IsAllDone};
ghost use Rattle.tool_run.specs.Asks.{Fetches, Puts};
ghost use Rattle.tool_run.specs.Causes.{CausedTo};
ghost use Rattle.tool_run.specs.Delivered.{DeliveredTo, LeavesAllUnlessRun, CameSoFar};
ghost use Rattle.tool_run.specs.Promises.{UsageExactlyForNoCommand, DoneOnlyIfDelivered, HasCause};
ghost use Rattle.tool_run.specs.Promises.{DueUnlessFailed, DoneIfReady, NothingIfAtFault, CameInOrder};
ghost use Rattle.tool_run.specs.Promises.{FetchedInOrder, PutInOrder};

use crate::gen_job::gen_counted;
use crate::run_job::run_named;
use std::alloc::Global;
use std::sync::Wait;
use std::thread::Threads;
use tc_base::{Gate, Shelf, Sink};
use tool_run::{ended, obey};
use tool_words::{Command, Status, command_of};

// Runs a job.
fn serve_run<R: Threads + Wait + Sync, S: Shelf, O: Sink, G: Gate>(
    rt: &R,
    alloc: Global,
    job: &str,
    shelf: &mut S,
    out: &mut O,
    gates: &G,
) -> Status
    ensures done { IsAllDone result → DeliveredTo (S.held shelf.old) (S.held shelf.new) (O.written out.old)
        (O.written out.new) (Run job.now) result }
    ensures cause { CausedTo S.held S.read_faults S.failed_name S.write_faults O.faults shelf.old shelf.new
        out.old out.new (Run job.now) result }
    ensures nothing { LeavesAllUnlessRun (S.held shelf.old) (S.held shelf.new) (O.written out.old)
        (O.written out.new) result }
    ensures so_far { CameSoFar (S.held shelf.old) (S.held shelf.new) (O.written out.old) (O.written out.new)
        (Run job.now) }
    ensures fetched { Fetches (S.held shelf.old) (S.fetched shelf.old) (S.fetched shelf.new) (Run job.now) }
    ensures put_names { Puts (S.held shelf.old) (S.put_names shelf.old) (S.put_names shelf.new) (Run job.now) }
{
    match run_named(rt, alloc, job, shelf, out, gates) {
        Ok(status) => status,
        Err(status) => status,
    }
}

// Makes a workload, and runs its job.
fn serve_gen<R: Threads + Wait + Sync, S: Shelf, O: Sink, G: Gate>(
    rt: &R,
    alloc: Global,
    count: u32,
    front: &str,
    shelf: &mut S,
    out: &mut O,
    gates: &G,
) -> Status
    requires some { 1 ≤ count }
    requires few { count ≤ GEN_MAX }
    ensures done { IsAllDone result → DeliveredTo (S.held shelf.old) (S.held shelf.new) (O.written out.old)
        (O.written out.new) (Gen count front.now) result }
    ensures cause { CausedTo S.held S.read_faults S.failed_name S.write_faults O.faults shelf.old shelf.new
        out.old out.new (Gen count front.now) result }
    ensures nothing { LeavesAllUnlessRun (S.held shelf.old) (S.held shelf.new) (O.written out.old)
        (O.written out.new) result }
    ensures so_far { CameSoFar (S.held shelf.old) (S.held shelf.new) (O.written out.old) (O.written out.new)
        (Gen count front.now) }
    ensures fetched { Fetches (S.held shelf.old) (S.fetched shelf.old) (S.fetched shelf.new) (Gen count front.now) }
    ensures put_names { Puts (S.held shelf.old) (S.put_names shelf.old) (S.put_names shelf.new) (Gen count front.now) }
{
    match gen_counted(rt, alloc, count, front, shelf, out, gates) {
        Ok(refused) => ended(refused),
        Err(status) => status,
    }
}

/// Does what the words say. For `run` and `gen`, which run a job, it starts threads and waits for them; for
/// every other command it starts none and returns always.
pub fn tool<R: Threads + Wait + Sync, S: Shelf, O: Sink, G: Gate>(
    rt: &R,
    alloc: Global,
    words: &[String],
    shelf: &mut S,
    out: &mut O,
    gates: &G,
) -> Status
    ensures usage { UsageExactlyForNoCommand (texts words.now) result }
    ensures done { DoneOnlyIfDelivered S.held O.written shelf.old shelf.new out.old out.new (texts words.now)
        result }
    ensures cause { HasCause S.held S.read_faults S.failed_name S.write_faults O.faults
        shelf.old shelf.new out.old out.new (texts words.now) result }
    ensures exact { DueUnlessFailed S.held S.read_faults S.write_faults O.faults
        shelf.old shelf.new out.old out.new (texts words.now) result }
    ensures complete { DoneIfReady S.held S.read_faults S.write_faults O.faults
        shelf.old shelf.new out.old out.new (texts words.now) result }
    ensures nothing { NothingIfAtFault S.held O.written shelf.old shelf.new out.old out.new result }
    ensures so_far { CameInOrder S.held O.written shelf.old shelf.new out.old out.new (texts words.now) }
    ensures fetched { FetchedInOrder S.held S.fetched shelf.old shelf.new (texts words.now) }
    ensures put_names { PutInOrder S.held S.put_names shelf.old shelf.new (texts words.now) }
{
    match command_of(words) {
        None => Status::Usage,
        Some(Command::Run { job }) => serve_run(rt, alloc, job, shelf, out, gates),
        Some(Command::Gen { count, front }) => {
            serve_gen(rt, alloc, count, front, shelf, out, gates)
        }
        Some(_) => obey(alloc, words, shelf, out),
    }
}

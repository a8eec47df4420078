//! The command `gen`.
ghost use Rattle.gen_files.specs.declared.limits.TheConstants.{GEN_MAX};
ghost use Rattle.std.specs.Prelude.{◌≡◌, ◌≤◌, IfOk, IfErr};
ghost use Rattle.tool_words.specs.Command.{Gen};
ghost use Rattle.tool_words.specs.Ends.{status_after, IsAllDone};
ghost use Rattle.tc_base.specs.Outside.{AppendsUpTo};
ghost use Rattle.tool_run.specs.Asks.{made_names};
ghost use Rattle.tool_run.specs.Causes.{CausedTo};
ghost use Rattle.tool_run.specs.Delivered.{Made, LeavesAllUnlessRun, MadeSoFar};

use crate::run_job::run_loaded;
use std::alloc::Global;
use std::sync::Wait;
use std::thread::Threads;
use tc_base::{Gate, Shelf, Sink};
use tool_run::{deliver_workload, load_workload};
use tool_words::Status;

/// Makes a batch of so many filters, a capture, and a job of both, runs the job on threads, puts its files
/// and its output under names that begin with `front`, and writes the counters and the summary of the run.
/// Answers whether a line was refused.
pub fn gen_counted<R: Threads + Wait + Sync, S: Shelf, O: Sink, G: Gate>(
    rt: &R,
    alloc: Global,
    count: u32,
    front: &str,
    shelf: &mut S,
    out: &mut O,
    gates: &G,
) -> Result<bool, Status>
    requires some { 1 ≤ count }
    requires few { count ≤ GEN_MAX }
    ensures done { IfOk result (λ refused. Made (S.held shelf.old) (S.held shelf.new) (O.written out.old)
        (O.written out.new) count front.now (status_after refused)) }
    ensures cause { IfErr result (CausedTo S.held S.read_faults S.failed_name S.write_faults O.faults
        shelf.old shelf.new out.old out.new (Gen count front.now)) }
    ensures not_done { IfErr result (λ status. IsAllDone status → ⊥) }
    ensures nothing { IfErr result (LeavesAllUnlessRun (S.held shelf.old) (S.held shelf.new)
        (O.written out.old) (O.written out.new)) }
    ensures so_far { MadeSoFar (S.held shelf.old) (S.held shelf.new) (O.written out.old) (O.written out.new)
        count front.now }
    ensures fetched { S.fetched shelf.new ≡ S.fetched shelf.old }
    ensures put_names { AppendsUpTo (S.put_names shelf.old) (S.put_names shelf.new) (made_names front.now) }
{
    let loaded = load_workload(alloc, count)?;
    let run = run_loaded(rt, alloc, &loaded, gates)?;
    deliver_workload(alloc, count, front, &loaded, &run, shelf, out)
}

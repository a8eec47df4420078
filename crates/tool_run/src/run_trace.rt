//! The command `trace`, of a batch and a capture.
ghost use Rattle.std.specs.Prelude.{◌≡◌, IfOk, IfErr};
ghost use Rattle.tool_words.specs.Command.{Trace};
ghost use Rattle.tool_words.specs.Ends.{status_after, IsAllDone};
ghost use Rattle.tool_run.specs.Asks.{Fetches};
ghost use Rattle.tool_run.specs.Causes.{CausedTo};
ghost use Rattle.tool_run.specs.Delivered.{Traced, LeavesAllUnlessRun, CameSoFar};

use crate::input::batch_lines;
use batch_walk::walk_batch;
use job_files::inputs::{load, load_capture};
use report_trace::{trace_batch, write_trace};
use std::alloc::Global;
use tc_base::{Hook, Shelf, Sink};
use tool_words::Status;
use walk_ends::PACKETS_MAX;

/// Applies a batch, walks the packets of a capture through a hook of what it leaves, and writes of each visit
/// what it met and which line brought it. Nothing is put. Answers whether a line was refused.
pub fn run_trace<S: Shelf, O: Sink>(
    alloc: Global,
    hook: Hook,
    batch: &str,
    capture: &str,
    shelf: &mut S,
    out: &mut O,
) -> Result<bool, Status>
    ensures done { IfOk result (λ refused. Traced (S.held shelf.old) (S.held shelf.new) (O.written out.old)
        (O.written out.new) hook batch.now capture.now (status_after refused)) }
    ensures cause { IfErr result (CausedTo S.held S.read_faults S.failed_name S.write_faults O.faults
        shelf.old shelf.new out.old out.new (Trace hook batch.now capture.now)) }
    ensures not_done { IfErr result (λ status. IsAllDone status → ⊥) }
    ensures nothing { IfErr result (LeavesAllUnlessRun (S.held shelf.old) (S.held shelf.new)
        (O.written out.old) (O.written out.new)) }
    ensures so_far { CameSoFar (S.held shelf.old) (S.held shelf.new) (O.written out.old) (O.written out.new)
        (Trace hook batch.now capture.now) }
    ensures fetched { Fetches (S.held shelf.old) (S.fetched shelf.old) (S.fetched shelf.new)
        (Trace hook batch.now capture.now) }
    ensures put_names { S.put_names shelf.new ≡ S.put_names shelf.old }
{
    let bytes = load(alloc, shelf, batch)?;
    let texts = batch_lines(alloc, batch, &bytes)?;
    let capture = load_capture(alloc, shelf, capture, PACKETS_MAX)?;
    let walk = walk_batch(alloc, &texts, hook, &capture)?;
    let traced = trace_batch(alloc, &texts)?;
    write_trace(alloc, &walk.text, &traced, hook, &capture.packets, out)?;
    Ok(walk.refused)
}

//! The command `foresee`.
ghost use Rattle.std.specs.Prelude.{◌≡◌, ◌≤◌, IfOk, IfErr, OnOk, IsErrOf};
ghost use Rattle.tc_base.specs.Outside.{Rose, Appended, AppendsUpTo};
ghost use Rattle.change_fates.specs.Passed.{Changed, refused_in};
ghost use Rattle.change_fates.specs.Foreseen.{foreseen_text, not_hitless};
ghost use Rattle.tool_words.specs.Command.{Foresee};
ghost use Rattle.tool_words.specs.Requests.{files_seen};
ghost use Rattle.tool_words.specs.Ends.{status_of_foreseen, IsAllDone};
ghost use Rattle.tool_run.specs.Asks.{Fetches};
ghost use Rattle.tool_run.specs.Causes.{CausedTo};
ghost use Rattle.tool_run.specs.Delivered.{Foresaw, LeavesAllUnlessRun, CameSoFar};
ghost use Rattle.tool_run.specs.Foresights.{IsWithin, IsChangeOf};

use change_fates::{Foreseen, foresee};
use job_files::inputs::{LoadedChange, load_change};
use std::alloc::Global;
use tc_base::{Hook, Put, Shelf, Sink};
use tc_words::lines;
use tool_words::{ChangeNames, Status};

/// How a run ends in which a change was foreseen: a refused line goes before packets that aren't hitless.
pub fn foreseen_status(foreseen: Foreseen) -> Status
    ensures { result ≡ status_of_foreseen foreseen.refused foreseen.not_hitless }
{
    match (foreseen.refused, foreseen.not_hitless) {
        (0, 0) => Status::Done,
        (0, count) => Status::NotHitless { count },
        (count, _) => Status::LinesRefused { count },
    }
}

// Foresees the packets of files that were loaded, and writes that.
fn tell<O: Sink>(
    alloc: Global,
    files: &LoadedChange,
    hook: Hook,
    force: bool,
    out: &mut O,
) -> Result<Foreseen, Put>
    requires { IsWithin files.now }
    ensures all { OnOk result ((changed : Changed) → IsChangeOf files.now force changed
        → Appended (O.written out.old) (O.written out.new)
        (foreseen_text changed hook files.now.capture.packets)) }
    ensures up_to { (changed : Changed) → IsChangeOf files.now force changed
        → AppendsUpTo (O.written out.old) (O.written out.new)
        (foreseen_text changed hook files.now.capture.packets) }
    ensures counts { IfOk result (λ foreseen. (changed : Changed) → IsChangeOf files.now force changed
        → (foreseen.refused ≡ refused_in changed)
        × (foreseen.not_hitless ≡ not_hitless changed hook files.now.capture.packets)) }
    ensures later { O.faults out.old ≤ O.faults out.new }
    ensures cause { IsErrOf result Put.Failed → Rose (O.faults out.old) (O.faults out.new) }
{
    let batch = lines(alloc, files.batch.as_slice())?;
    let change = lines(alloc, files.change.as_slice())?;
    foresee(
        alloc,
        &batch,
        &change,
        force,
        hook,
        &files.capture.packets,
        out,
    )
}

/// Applies a batch, and foresees what each packet of a capture can meet at a hook while the change of another is
/// applied behind it, and writes that. Nothing is put. Answers how many lines of both were refused, and of how
/// many packets the change isn't hitless.
pub fn run_foresee<S: Shelf, O: Sink>(
    alloc: Global,
    hook: Hook,
    names: &ChangeNames<'_>,
    force: bool,
    shelf: &mut S,
    out: &mut O,
) -> Result<Foreseen, Status>
    ensures done { IfOk result (λ foreseen. Foresaw (S.held shelf.old) (S.held shelf.new) (O.written out.old)
        (O.written out.new) hook (files_seen names.now) force
        (status_of_foreseen foreseen.refused foreseen.not_hitless)) }
    ensures cause { IfErr result (CausedTo S.held S.read_faults S.failed_name S.write_faults O.faults
        shelf.old shelf.new out.old out.new (Foresee hook (files_seen names.now) force)) }
    ensures not_done { IfErr result (λ status. IsAllDone status → ⊥) }
    ensures nothing { IfErr result (LeavesAllUnlessRun (S.held shelf.old) (S.held shelf.new)
        (O.written out.old) (O.written out.new)) }
    ensures so_far { CameSoFar (S.held shelf.old) (S.held shelf.new) (O.written out.old) (O.written out.new)
        (Foresee hook (files_seen names.now) force) }
    ensures fetched { Fetches (S.held shelf.old) (S.fetched shelf.old) (S.fetched shelf.new)
        (Foresee hook (files_seen names.now) force) }
    ensures put_names { S.put_names shelf.new ≡ S.put_names shelf.old }
{
    let files = load_change(alloc, shelf, names)?;
    let foreseen = tell(alloc, &files, hook, force, out)?;
    Ok(foreseen)
}

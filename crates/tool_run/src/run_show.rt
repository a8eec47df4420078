//! The command `show`.
ghost use Rattle.std.specs.Prelude.{◌≡◌, ◌≤◌, length, is_some, IfOk, IfErr};
ghost use Rattle.filter_state.specs.States.{no_state};
ghost use Rattle.batch_run.specs.Commands.{commands_of};
ghost use Rattle.batch_run.specs.Runs.{Ran, IsRun};
ghost use Rattle.tc_report.specs.OfShownBatches.Shown.{shown};
ghost use Rattle.tool_words.specs.Command.{Show};
ghost use Rattle.tool_words.specs.Ends.{status_after, IsAllDone};
ghost use Rattle.tool_run.specs.Asks.{Fetches};
ghost use Rattle.tool_run.specs.Causes.{CausedTo};
ghost use Rattle.batch_run.specs.declared.limit.TheConstants.{COMMANDS_MAX};
ghost use Rattle.tool_run.specs.Parts.{ApplyingFails};
ghost use Rattle.tool_run.specs.Delivered.{Showed, LeavesAllUnlessRun, CameSoFar};

use crate::input::batch_lines;
use crate::text::write_text;
use job_files::inputs::load;
use std::alloc::Global;
use tc_base::{Shelf, Sink};
use tc_report::shown_batches::{Shown, show_batch};
use tool_words::Status;

// Applies the bytes of the batch that the name stands for, unless they have too many commands.
fn show_bytes(alloc: Global, name: &str, bytes: &[u8]) -> Result<Shown, Status>
    ensures few { IfOk result (λ _. length (commands_of bytes.now) ≤ COMMANDS_MAX) }
    ensures shown { IfOk result (λ s. (ran : Ran) × IsRun no_state 0 (commands_of bytes.now) ran
        × (s.text.items ≡ shown ran) × (s.refused ≡ is_some ran.stop)) }
    ensures cause { IfErr result (ApplyingFails name.now (commands_of bytes.now)) }
{
    let texts = batch_lines(alloc, name, bytes)?;
    Ok(show_batch(alloc, &texts)?)
}

/// Applies the batch under a name, and writes the text that shows what it leaves. Answers whether a line was
/// refused.
pub fn run_show<S: Shelf, O: Sink>(
    alloc: Global,
    name: &str,
    shelf: &mut S,
    out: &mut O,
) -> Result<bool, Status>
    ensures done { IfOk result (λ refused. Showed (S.held shelf.old) (S.held shelf.new) (O.written out.old)
        (O.written out.new) name.now (status_after refused)) }
    ensures cause { IfErr result (CausedTo S.held S.read_faults S.failed_name S.write_faults O.faults
        shelf.old shelf.new out.old out.new (Show name.now)) }
    ensures not_done { IfErr result (λ status. IsAllDone status → ⊥) }
    ensures nothing { IfErr result (LeavesAllUnlessRun (S.held shelf.old) (S.held shelf.new)
        (O.written out.old) (O.written out.new)) }
    ensures so_far { CameSoFar (S.held shelf.old) (S.held shelf.new) (O.written out.old) (O.written out.new)
        (Show name.now) }
    ensures fetched { Fetches (S.held shelf.old) (S.fetched shelf.old) (S.fetched shelf.new) (Show name.now) }
    ensures put_names { S.put_names shelf.new ≡ S.put_names shelf.old }
{
    let bytes = load(alloc, shelf, name)?;
    let shown = show_bytes(alloc, name, &bytes)?;
    write_text(&shown.text, out)?;
    Ok(shown.refused)
}

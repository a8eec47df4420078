//! The command `walk`.
ghost use Rattle.std.specs.Prelude.{◌≡◌, ◌⊎◌, IfOk, IfErr, OnOk, [], ◌∷◌};
ghost use Rattle.tc_base.specs.Outside.{Appended, AppendsUpTo, OthersStay, Stands};
ghost use Rattle.tc_base.specs.Pieces.{joined};
ghost use Rattle.batch_walk.specs.Walked.{told_text};
ghost use Rattle.tool_words.specs.Requests.{names_seen, walk_of};
ghost use Rattle.tool_words.specs.Ends.{status_after, IsAllDone};
ghost use Rattle.tool_run.specs.Asks.{Fetches};
ghost use Rattle.tool_run.specs.Causes.{CausedTo};
ghost use Rattle.tool_run.specs.Parts.{DeliveryFails};
ghost use Rattle.tool_run.specs.Delivered.{Walked, LeavesAllUnlessRun, WalkedSoFar};

use crate::input::batch_lines;
use crate::text::write_walk;
use batch_walk::{BatchWalk, walk_batch};
use job_files::inputs::{load, load_capture};
use std::alloc::Global;
use tc_base::{Hook, Shelf, Sink};
use tool_words::{Status, WalkNames};
use walk_ends::PACKETS_MAX;

// Puts the output, and writes the text.
fn deliver<S: Shelf, O: Sink>(
    alloc: Global,
    walk: &BatchWalk<'_>,
    name: &str,
    shelf: &mut S,
    out: &mut O,
) -> Result<(), Status>
    ensures put { OnOk result (Stands (S.held shelf.new) name.now (joined walk.now.output.pieces)) }
    ensures wrote { OnOk result
        (Appended (O.written out.old) (O.written out.new) (told_text walk.now.text)) }
    ensures others { OthersStay (S.held shelf.old) (S.held shelf.new) name.now }
    ensures front { (O.written out.new ≡ O.written out.old)
        ⊎ (Stands (S.held shelf.new) name.now (joined walk.now.output.pieces)
        × AppendsUpTo (O.written out.old) (O.written out.new) (told_text walk.now.text)) }
    ensures cause { IfErr result (DeliveryFails S.write_faults O.faults shelf.old shelf.new out.old out.new) }
    ensures fetched { S.fetched shelf.new ≡ S.fetched shelf.old }
    ensures put_names { AppendsUpTo (S.put_names shelf.old) (S.put_names shelf.new) (name.now ∷ []) }
{
    shelf.put_pieces(name, &walk.output)?;
    Ok(write_walk(alloc, &walk.text, out)?)
}

/// Applies a batch, walks the packets of a capture through a hook of what it leaves, puts those that pass,
/// and writes the text. Answers whether a line was refused.
pub fn run_walk<S: Shelf, O: Sink>(
    alloc: Global,
    hook: Hook,
    names: &WalkNames<'_>,
    shelf: &mut S,
    out: &mut O,
) -> Result<bool, Status>
    ensures done { IfOk result (λ refused. Walked (S.held shelf.old) (S.held shelf.new) (O.written out.old)
        (O.written out.new) hook (names_seen names.now) (status_after refused)) }
    ensures cause { IfErr result (CausedTo S.held S.read_faults S.failed_name S.write_faults O.faults
        shelf.old shelf.new out.old out.new (walk_of hook (names_seen names.now))) }
    ensures not_done { IfErr result (λ status. IsAllDone status → ⊥) }
    ensures nothing { IfErr result (LeavesAllUnlessRun (S.held shelf.old) (S.held shelf.new)
        (O.written out.old) (O.written out.new)) }
    ensures so_far { WalkedSoFar (S.held shelf.old) (S.held shelf.new) (O.written out.old) (O.written out.new)
        hook (names_seen names.now) }
    ensures fetched { Fetches (S.held shelf.old) (S.fetched shelf.old) (S.fetched shelf.new)
        (walk_of hook (names_seen names.now)) }
    ensures put_names { AppendsUpTo (S.put_names shelf.old) (S.put_names shelf.new) (names.now.output.now ∷ []) }
{
    let bytes = load(alloc, shelf, names.batch)?;
    let texts = batch_lines(alloc, names.batch, &bytes)?;
    let capture = load_capture(alloc, shelf, names.capture, PACKETS_MAX)?;
    let walk = walk_batch(alloc, &texts, hook, &capture)?;
    deliver(alloc, &walk, names.output, shelf, out)?;
    Ok(walk.refused)
}

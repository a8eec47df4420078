//! A change, applied behind a batch.
ghost use Rattle.std.specs.Prelude.{◌≡◌, ◌≤◌, ◌+◌, length, IfOk};
ghost use Rattle.batch_run.specs.declared.limit.TheConstants.{COMMANDS_MAX};
ghost use Rattle.batch_run.specs.Commands.{commands_in};
ghost use Rattle.change_fate_laws.specs.Changes.{Changed, IsChanged};
ghost use Rattle.change_lines.specs.Reached.{IsApplied};

use crate::changing::apply_lines;
use crate::opening::{Opened, apply_batch};
use change_points::HookHeads;
use journal_replay::Replay;
use std::alloc::Global;
use tc_base::{Hook, NoMemory, Point};

/// What a change came to, behind a batch.
#[derive(Drop)]
pub struct AppliedChange {
    /// The edits of both, and what they lead to.
    pub replay: Replay,
    /// The hook at which packets come.
    pub hook: Hook,
    /// Its tables from the point before the change on.
    pub heads: HookHeads,
    /// How many edits stood before the change.
    pub before: Point,
    /// The line that tells where the batch stopped; nothing, where it didn't.
    pub stop: Vec<u8>,
    /// A line for each line of the change that was met.
    pub lines: Vec<u8>,
}

/// Applies a batch up to its first refused line, and then a change, which goes on behind a refused line where
/// it is forced; both have at most 262,144 commands together. What happened is the change's one outcome.
///
/// `NoMemory`: memory was refused.
pub fn apply_change(
    alloc: Global,
    batch: &[&[u8]],
    change: &[&[u8]],
    force: bool,
    hook: Hook,
) -> Result<AppliedChange, NoMemory>
    requires { length (commands_in batch.now) + length (commands_in change.now) ≤ COMMANDS_MAX }
    ensures { IfOk result (λ applied. (it : Changed)
        × IsChanged (commands_in batch.now) (commands_in change.now) force it × IsApplied hook applied it) }
{
    let opened = apply_batch(alloc, batch)?;
    let Opened { mut replay, stop } = opened;
    let before = replay.past.point();
    let mut heads = HookHeads::begin(alloc, &replay.lists, hook, before)?;
    let lines = apply_lines(alloc, &mut replay, &mut heads, change, force)?;
    Ok(AppliedChange {
        replay,
        hook,
        heads,
        before,
        stop,
        lines,
    })
}

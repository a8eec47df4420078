//! The batch before a change.
ghost use Rattle.std.specs.Prelude.{◌≡◌, ◌<◌, ◌≤◌, List, length, IfOk};
ghost use Rattle.batch_run.specs.declared.limit.TheConstants.{COMMANDS_MAX};
ghost use Rattle.batch_run.specs.Commands.{commands_in};
ghost use Rattle.journal_replay.specs.Passed.{Event as AnEvent};
ghost use Rattle.change_lines.specs.Reached.{IsOpened};

use crate::meeting::meet_line;
use journal_replay::{Replay, goes_on, push_event_line};
use std::alloc::Global;
use tc_base::NoMemory;
use tc_batch::is_command;

/// A batch that was applied, and the line that tells where it stopped.
#[derive(Drop)]
pub(crate) struct Opened {
    pub(crate) replay: Replay,
    /// Nothing, where no line was refused.
    pub(crate) stop: Vec<u8>,
}

/// Applies the commands of a batch up to its first refused one.
///
/// `NoMemory`: memory was refused.
pub(crate) fn apply_batch(alloc: Global, texts: &[&[u8]]) -> Result<Opened, NoMemory>
    requires { length (commands_in texts.now) ≤ COMMANDS_MAX }
    ensures { IfOk result (λ opened. (events : List AnEvent)
        × IsOpened (commands_in texts.now) opened events) }
{
    let mut replay = Replay::new(alloc);
    let mut stop = Vec::new(alloc);
    let mut number = 0;
    for text in texts {
        number += 1;
        if !is_command(text) {
            continue;
        }
        let before = replay.past.point();
        let event = meet_line(alloc, &mut replay, text, number)?;
        if !goes_on(false, &event.kind) {
            push_event_line(&mut stop, before, &event)?;
            return Ok(Opened { replay, stop });
        }
    }
    Ok(Opened { replay, stop })
}

//! The text of a batch.
ghost use Rattle.std.specs.Prelude.{◌≡◌, ◌≤◌, ◌++◌, length, is_some, IfOk, OnOk};
ghost use Rattle.filter_state.specs.States.{no_state};
ghost use Rattle.batch_run.specs.declared.limit.TheConstants.{COMMANDS_MAX};
ghost use Rattle.batch_run.specs.Commands.{commands_in};
ghost use Rattle.batch_run.specs.Runs.{Ran, IsRun};
ghost use Rattle.tc_report.specs.OfShownBatches.Shown.{stop_shown, shown};

use crate::{push_bad_line, push_refused, show_text};
use batch_run::{Stop, run_batch};
use std::alloc::Global;
use tc_base::NoMemory;

// A batch is one control of a run, and so its first.
const CONTROL: u32 = 1;

/// The text of a batch.
#[derive(Drop)]
pub struct Shown {
    pub text: Vec<u8>,
    /// Whether a line was refused.
    pub refused: bool,
}

/// Applies the lines of a batch file of at most 262,144 commands to lists in which nothing stands, and makes
/// the text that `show` writes.
///
/// `NoMemory`: memory was refused.
pub fn show_batch(alloc: Global, texts: &[&[u8]]) -> Result<Shown, NoMemory>
    requires { length (commands_in texts.now) ≤ COMMANDS_MAX }
    ensures { IfOk result (λ s. (ran : Ran) × IsRun no_state 0 (commands_in texts.now) ran
        × (s.text.items ≡ shown ran) × (s.refused ≡ is_some ran.stop)) }
{
    let run = run_batch(alloc, texts)?;
    let mut text = Vec::new(alloc);
    push_stop(&mut text, run.accepted, &run.stop)?;
    text.extend_from_slice(&show_text(alloc, &run.lists)?)?;
    Ok(Shown {
        text,
        refused: run.stop.is_some(),
    })
}

/// Puts the line that tells where a batch stopped and why, if it did.
pub fn push_stop(out: &mut Vec<u8>, accepted: u32, stop: &Option<Stop>) -> Result<(), NoMemory>
    ensures { OnOk result (out.new.items ≡ out.old.items ++ stop_shown accepted stop.now) }
{
    match stop {
        None => Ok(()),
        Some(Stop::Refused { line, refusal }) => {
            push_refused(out, accepted, CONTROL, *line, refusal)
        }
        Some(Stop::Syntax { line, word }) => push_bad_line(out, accepted, CONTROL, *line, *word),
    }
}

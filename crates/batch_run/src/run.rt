//! Applying a batch.
ghost use Rattle.std.specs.Prelude.{◌≡◌, ◌≤◌, length, IfOk};
ghost use Rattle.tc_words.specs.Lines.{words_of};
ghost use Rattle.filter_state.specs.States.{State, no_state};
ghost use Rattle.filter_lists.specs.Spells.{Spells};
ghost use Rattle.filter_lists.specs.Edits.{MayStep};
ghost use Rattle.batch_run.specs.declared.limit.TheConstants.{COMMANDS_MAX};
ghost use Rattle.batch_run.specs.Commands.{commands_in};
ghost use Rattle.batch_run.specs.Runs.{Ran, IsRun};
ghost use Rattle.batch_run.specs.Applied.{IsApplied};

use crate::made_action::{MadeAction, log_made};
use crate::stop::Stop;
use filter_lists::Lists;
use filter_state::Refusal;
use std::alloc::Global;
use tc_base::NoMemory;
use tc_batch::{LineFault, is_command, line};

/// What a batch leaves.
#[derive(Drop)]
pub struct BatchRun {
    pub lists: Lists,
    /// How many edits were accepted.
    pub accepted: u32,
    /// All actions that were made, by serial, with those that are gone.
    pub made: Vec<MadeAction>,
    /// The first line that was refused, with which the batch stopped.
    pub stop: Option<Stop>,
}

/// Applies the lines of a batch file of at most 262,144 commands to lists in which nothing stands, up to the
/// first line that is refused.
///
/// `NoMemory`: memory was refused. Nothing is told of the lists then.
pub fn run_batch(alloc: Global, texts: &[&[u8]]) -> Result<BatchRun, NoMemory>
    requires { length (commands_in texts.now) ≤ COMMANDS_MAX }
    ensures { IfOk result (λ run. (ran : Ran) × Spells run.lists ran.state × (run.accepted ≡ ran.accepted)
        × (run.made.items ≡ ran.made) × (run.stop ≡ ran.stop)
        × IsRun no_state 0 (commands_in texts.now) ran) }
{
    let mut lists = Lists::new(alloc);
    let mut accepted = 0;
    let mut made = Vec::new(alloc);
    let mut number = 0;
    for text in texts {
        number += 1;
        if !is_command(text) {
            continue;
        }
        let before = lists.actions().made();
        match apply(alloc, &mut lists, text, number) {
            Ok(None) => accepted += 1,
            Ok(Some(stop)) => {
                return Ok(BatchRun {
                    lists,
                    accepted,
                    made,
                    stop: Some(stop),
                });
            }
            Err(refused) => return Err(refused),
        }
        log_made(&mut made, lists.actions().entries(), before)?;
    }
    Ok(BatchRun {
        lists,
        accepted,
        made,
        stop: None,
    })
}

// Applies the command of a line; the batch stops at one that is refused.
fn apply(
    alloc: Global,
    lists: &mut Lists,
    text: &[u8],
    number: u64,
) -> Result<Option<Stop>, NoMemory>
    requires { MayStep lists.old }
    ensures { IfOk result (λ stop. (s : State) → Spells lists.old s
        → IsApplied s lists.new (words_of text.now) number stop) }
{
    let edit = match line(alloc, text) {
        Ok(edit) => edit,
        Err(LineFault::NoMemory(memory)) => return Err(memory),
        Err(LineFault::Syntax { word }) => {
            return Ok(Some(Stop::Syntax { line: number, word }));
        }
    };
    match lists.step(&edit) {
        Ok(_) => Ok(None),
        Err(refusal) => match refusal {
            Refusal::NoMemory(memory) => Err(memory),
            _ => Ok(Some(Stop::Refused {
                line: number,
                refusal,
            })),
        },
    }
}

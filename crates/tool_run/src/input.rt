//! The lines of a batch.
ghost use Rattle.std.specs.Prelude.{◌≡◌, ◌≤◌, length, IfOk, IfErr, OnOk};
ghost use Rattle.batch_run.specs.Commands.{commands_in, commands_of};
ghost use Rattle.batch_run.specs.declared.limit.TheConstants.{COMMANDS_MAX};
ghost use Rattle.tool_run.specs.Parts.{ApplyingFails};

use batch_run::line_past_limit;
use job_files::inputs::{bad_input, copied_name};
use std::alloc::Global;
use tc_words::lines;
use tool_words::{InputKind, Status};

// Refuses the lines of the batch that the name stands for where they have more than 262,144 commands.
fn check_command_count(alloc: Global, name: &str, texts: &[&[u8]]) -> Result<(), Status>
    ensures few { OnOk result (length (commands_in texts.now) ≤ COMMANDS_MAX) }
    ensures many { IfErr result (ApplyingFails name.now (commands_in texts.now)) }
{
    match line_past_limit(texts) {
        None => Ok(()),
        Some(line) => {
            let name = copied_name(alloc, name)?;
            Err(bad_input(name, line, InputKind::TooManyLines))
        }
    }
}

/// The lines of the batch that the name stands for, unless they have more than 262,144 commands.
pub fn batch_lines<'a>(alloc: Global, name: &str, bytes: &'a [u8]) -> Result<Vec<&'a [u8]>, Status>
    ensures commands { IfOk result (λ texts. commands_in texts.items ≡ commands_of bytes.now) }
    ensures few { IfOk result (λ _. length (commands_of bytes.now) ≤ COMMANDS_MAX) }
    ensures cause { IfErr result (ApplyingFails name.now (commands_of bytes.now)) }
{
    let texts = lines(alloc, bytes)?;
    check_command_count(alloc, name, &texts)?;
    Ok(texts)
}

//! How many commands a batch may have.
ghost use Rattle.std.specs.Prelude.{◌≡◌, ◌≤◌, length, IfNone};
ghost use Rattle.batch_run.specs.Commands.{commands_in, line_past};

use tc_batch::is_command;

/// The command lines of one run at most, those of all its batches together (this project's own).
pub const COMMANDS_MAX: u32 = 262_144;

/// The line of a batch at which its command lines pass that limit, and `None` where they don't.
pub fn line_past_limit(texts: &[&[u8]]) -> Option<u64>
    ensures line { result ≡ line_past COMMANDS_MAX (commands_in texts.now) }
    ensures few { IfNone result (length (commands_in texts.now) ≤ COMMANDS_MAX) }
{
    let mut room = COMMANDS_MAX;
    let mut number = 0;
    for text in texts {
        number += 1;
        if !is_command(text) {
            continue;
        }
        if room == 0 {
            return Some(number);
        }
        room -= 1;
    }
    None
}

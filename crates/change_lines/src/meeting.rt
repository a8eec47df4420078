//! A line is met.
ghost use Rattle.std.specs.Prelude.{◌≡◌, ◌<◌, length, IfOk};
ghost use Rattle.tc_words.specs.Lines.{words_of};
ghost use Rattle.batch_run.specs.declared.limit.TheConstants.{COMMANDS_MAX};
ghost use Rattle.journal_replay.specs.Replays.{IsKept};
ghost use Rattle.change_lines.specs.Reached.{HasMet};

use edit_lines::LinePlace;
use journal_replay::{Event, Replay};
use std::alloc::Global;
use tc_base::NoMemory;

/// Meets a command line of the one control, and tells what it came to.
///
/// `NoMemory`: memory was refused, and nothing is promised of the replay.
pub(crate) fn meet_line(
    alloc: Global,
    replay: &mut Replay,
    text: &[u8],
    number: u64,
) -> Result<Event, NoMemory>
    requires kept { IsKept replay.old }
    requires short { length replay.old.journal.items < COMMANDS_MAX }
    requires few { replay.old.refused < COMMANDS_MAX }
    ensures { IfOk result (HasMet replay.old replay.new (words_of text.now) number) }
{
    let place = LinePlace {
        control: 1,
        line: number,
    };
    let kind = replay.meet(alloc, text, place)?;
    Ok(Event {
        control: 1,
        line: number,
        kind,
    })
}

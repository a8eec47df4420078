//! The lines of a change.
ghost use Rattle.std.specs.Prelude.{◌≡◌, ◌<◌, ◌≤◌, ◌+◌, ◌^◌, ◌++◌, [], List, length, IfOk, OnOk};
ghost use Rattle.std.specs.Prelude.{if◌then◌else◌};
ghost use Rattle.tc_words.specs.Lines.{words_of};
ghost use Rattle.filter_state.specs.declared.edit.Edit.{Edit};
ghost use Rattle.filter_state.specs.States.{no_state};
ghost use Rattle.filter_state.specs.Journals.{state_from};
ghost use Rattle.filter_lists.specs.Spells.{Spells};
ghost use Rattle.walk_texts.specs.Texts.{joined};
ghost use Rattle.batch_run.specs.declared.limit.TheConstants.{COMMANDS_MAX};
ghost use Rattle.batch_run.specs.Commands.{commands_in};
ghost use Rattle.journal_replay.specs.Passed.{Event as AnEvent};
ghost use Rattle.journal_replay.specs.Passed.{is_accepted};
ghost use Rattle.journal_replay.specs.Passed.{event_line, event_lines};
ghost use Rattle.journal_replay.specs.Replays.{IsKept};
ghost use Rattle.change_points.specs.Heads.{KnowsHeads};
ghost use Rattle.change_lines.specs.Reached.{HasMet, IsReached};

use crate::meeting::meet_line;
use change_points::HookHeads;
use filter_lists::Lists;
use journal_replay::{Event, EventKind, Replay, goes_on, push_event_line};
use std::alloc::Global;
use tc_base::NoMemory;
use tc_batch::is_command;

// Notes the tables behind a line that came to that, and to these edits. A refused line leaves them as they are.
fn note_heads(heads: &mut HookHeads, lists: &Lists, kind: &EventKind) -> Result<(), NoMemory>
    requires few { heads.old.point + 1 < 2 ^ 32 }
    ensures knows { (journal own : List Edit) → length own ≡ (if is_accepted kind.now then 1 else 0)
        → KnowsHeads heads.old journal → Spells lists.now (state_from no_state (journal ++ own))
        → OnOk result (KnowsHeads heads.new (journal ++ own)) }
    ensures of { (heads.new.hook ≡ heads.old.hook) × (heads.new.before ≡ heads.old.before) }
{
    match kind {
        EventKind::Accepted(_) => heads.note(lists),
        EventKind::Refused(_) => Ok(()),
        EventKind::Syntax { .. } => Ok(()),
    }
}

// Meets a command line, puts the line that tells what it came to, and notes the tables behind it.
fn take_line(
    alloc: Global,
    replay: &mut Replay,
    heads: &mut HookHeads,
    lines: &mut Vec<u8>,
    text: &[u8],
    number: u64,
) -> Result<Event, NoMemory>
    requires kept { IsKept replay.old }
    requires short { length replay.old.journal.items < COMMANDS_MAX }
    requires few { replay.old.refused < COMMANDS_MAX }
    requires knows { KnowsHeads heads.old replay.old.journal.items }
    ensures met { IfOk result (HasMet replay.old replay.new (words_of text.now) number) }
    ensures told { IfOk result (λ event. lines.new.items
        ≡ lines.old.items ++ event_line (length replay.old.journal.items) event) }
    ensures knows { OnOk result (KnowsHeads heads.new replay.new.journal.items) }
    ensures of { OnOk result ((heads.new.hook ≡ heads.old.hook) × (heads.new.before ≡ heads.old.before)) }
{
    let before = replay.past.point();
    let event = meet_line(alloc, replay, text, number)?;
    push_event_line(lines, before, &event)?;
    note_heads(heads, &replay.lists, &event.kind)?;
    Ok(event)
}

/// Applies the commands of a change behind what a replay keeps, tells a line for each of them that is met, and
/// notes the tables at each point. The change goes on behind a refused line where it is forced.
///
/// `NoMemory`: memory was refused, and nothing is promised of what is kept.
pub(crate) fn apply_lines(
    alloc: Global,
    replay: &mut Replay,
    heads: &mut HookHeads,
    texts: &[&[u8]],
    force: bool,
) -> Result<Vec<u8>, NoMemory>
    requires kept { IsKept replay.old }
    requires short { length replay.old.journal.items + length (commands_in texts.now) ≤ COMMANDS_MAX }
    requires few { replay.old.refused + length (commands_in texts.now) ≤ COMMANDS_MAX }
    requires knows { KnowsHeads heads.old replay.old.journal.items }
    ensures met { IfOk result (λ lines. (events : List AnEvent)
        × IsReached force (commands_in texts.now) [] replay.old replay.new events
        × (lines.items ≡ joined (event_lines (length replay.old.journal.items) events))) }
    ensures knows { OnOk result (KnowsHeads heads.new replay.new.journal.items) }
    ensures of { OnOk result ((heads.new.hook ≡ heads.old.hook) × (heads.new.before ≡ heads.old.before)) }
{
    let mut lines = Vec::new(alloc);
    let mut number = 0;
    for text in texts {
        number += 1;
        if !is_command(text) {
            continue;
        }
        let event = take_line(alloc, replay, heads, &mut lines, text, number)?;
        if !goes_on(force, &event.kind) {
            return Ok(lines);
        }
    }
    Ok(lines)
}

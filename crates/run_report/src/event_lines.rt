//! The lines of a round's events.
ghost use Rattle.std.specs.Prelude.{◌≡◌, ◌+◌, ◌<◌, ◌≤◌, ◌^◌, ◌++◌, length, IfOk, OnOk, IsErrOf};
ghost use Rattle.std.specs.Prelude.{if◌then◌else◌};
ghost use Rattle.tc_base.specs.Outside.{AppendsUpTo, Rose};
ghost use Rattle.walk_texts.specs.Texts.{joined};
ghost use Rattle.run_report.specs.Counts.{is_accepted, accepted_count};
ghost use Rattle.run_report.specs.EventTexts.{edit_place, edit_line, event_line, event_lines};
ghost use Rattle.run_report.specs.Pages.{IsPaged};

use crate::done::push_done;
use crate::events::{Event, EventKind};
use crate::page::turn;
use filter_state::Done;
use std::alloc::AllocError;
use tc_base::{NoMemory, Put, Sink};
use tc_report::{push_bad_line, push_refused};
use walk_texts::{push_count, push_text};

#[tactic(auto, unfolding(crate::specs::EventTexts::edit_place))]
fn push_edit_place(out: &mut Vec<u8>, edits: u32, control: u32, line: u64) -> Result<(), AllocError>
    ensures { OnOk result (out.new.items ≡ out.old.items ++ edit_place edits control line) }
{
    push_count(out, "edit ", u64::from(edits))?;
    push_count(out, " control ", u64::from(control))?;
    push_count(out, " line ", line)?;
    push_text(out, " ")
}

fn push_edit(
    out: &mut Vec<u8>,
    edits: u32,
    control: u32,
    line: u64,
    done: &Done,
) -> Result<(), AllocError>
    ensures { OnOk result (out.new.items ≡ out.old.items ++ edit_line edits control line done.now) }
{
    push_edit_place(out, edits, control, line)?;
    push_done(out, done)?;
    push_text(out, "\n")
}

/// Puts the line of an event before which so many edits were accepted.
///
/// `NoMemory`: memory was refused.
pub fn push_event_line(out: &mut Vec<u8>, before: u32, event: &Event) -> Result<(), NoMemory>
    requires { before + 1 < 2 ^ 32 }
    ensures { OnOk result (out.new.items ≡ out.old.items ++ event_line before event.now) }
{
    let (control, line) = (event.control, event.line);
    match &event.kind {
        EventKind::Accepted(done) => Ok(push_edit(out, before + 1, control, line, done)?),
        EventKind::Refused(refusal) => push_refused(out, before, control, line, refusal),
        EventKind::Syntax { word } => push_bad_line(out, before, control, line, *word),
    }
}

// How many edits were accepted by this event.
fn accepted(event: &Event) -> u32
    ensures { result ≡ (if is_accepted event.now.kind then 1 else 0) }
{
    u32::from(matches!(event.kind, EventKind::Accepted(_)))
}

/// Writes a line for each event of a round before which so many edits were accepted, and answers how many
/// were accepted then.
pub(crate) fn write_events<O: Sink>(
    page: &mut Vec<u8>,
    out: &mut O,
    before: u32,
    events: &[Event],
) -> Result<u32, Put>
    requires { before + length events.now < 2 ^ 32 }
    ensures text { OnOk result (IsPaged (O.written out.old) (O.written out.new)
        (page.old.items ++ joined (event_lines before events.now)) page.new.items) }
    ensures edits { IfOk result (λ edits. edits ≡ before + accepted_count events.now) }
    ensures up_to { AppendsUpTo (O.written out.old) (O.written out.new)
        (page.old.items ++ joined (event_lines before events.now)) }
    ensures later { O.faults out.old ≤ O.faults out.new }
    ensures cause { IsErrOf result Put.Failed → Rose (O.faults out.old) (O.faults out.new) }
{
    let mut edits = before;
    for event in events {
        turn(page, out)?;
        push_event_line(page, edits, event)?;
        edits += accepted(event);
    }
    Ok(edits)
}

//! The lines of the filters that stand at the end.
ghost use Rattle.std.specs.Prelude.{◌≡◌, ◌++◌, flat_map, OnOk};
ghost use Rattle.walk_trace.specs.Tallies.{count_at};
ghost use Rattle.batch_trace.specs.Traced.{is_standing};
ghost use Rattle.batch_trace.specs.Meeting.{shown_standing};

use filter_origins::Brought;
use journal_names::push_decided;
use std::alloc::AllocError;
use tc_base::Hook;
use walk_trace::Tally;

// Whether no edit took the filter, which stands at that hook.
fn is_standing(hook: Hook, brought: &Brought) -> bool
    ensures { result ≡ is_standing hook brought.now }
{
    brought.hook == hook && brought.gone.is_none()
}

// Puts the line of a filter, if it stands there.
fn push_one(
    text: &mut Vec<u8>,
    room: &mut Vec<u8>,
    filter: &Brought,
    hook: Hook,
    tally: &Tally,
) -> Result<(), AllocError>
    ensures { OnOk result (text.new.items
        ≡ text.old.items ++ shown_standing hook (count_at tally.now) filter.now) }
{
    if !is_standing(hook, filter) {
        return Ok(());
    }
    push_decided(text, room, tally.count(filter.by.edit), filter)
}

/// Puts a line for each filter that stands at a hook behind a text, with the count of the edit that brought
/// it. The lines are made in the room, whatever that holds.
///
/// `AllocError`: memory was refused.
pub(crate) fn push_standing(
    text: &mut Vec<u8>,
    room: &mut Vec<u8>,
    brought: &[Brought],
    hook: Hook,
    tally: &Tally,
) -> Result<(), AllocError>
    ensures { OnOk result (text.new.items
        ≡ text.old.items ++ flat_map (shown_standing hook (count_at tally.now)) brought.now) }
{
    for filter in brought {
        push_one(text, room, filter, hook, tally)?;
    }
    Ok(())
}

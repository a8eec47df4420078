//! Looking at an edit and doing it, in one call.
//!
//! A filter that comes or is replaced is most of what a batch asks for, and what would be kept of it between
//! the two is large. So it goes a way of its own, on which nothing is kept.
ghost use Rattle.std.specs.Prelude.{◌≡◌};
ghost use Rattle.filter_state.specs.Lines.{IsLine, IsFilter};
ghost use Rattle.filter_state.specs.Steps.{step, filter_replace};
ghost use Rattle.hook_lists.specs.States.{state_of, AreKept};
ghost use Rattle.hook_lists.specs.Done.{IsDoneAtOnce};
ghost use Rattle.filter_lists.specs.Edits.{MayStep};

use crate::adding::add_at_once;
use crate::doing::carry;
use crate::preparing::plan_for;
use crate::replacing::{find_old, replace_at_once};
use filter_state::{Done, Edit, FilterLine, Refusal};
use hook_lists::Kept;

/// Does the edit, or answers why it is refused, and then changes nothing.
pub(crate) fn apply(kept: &mut Kept, edit: &Edit) -> Result<Done, Refusal>
    requires kept { AreKept kept.old }
    requires line { IsLine edit.now }
    requires room { MayStep kept.old }
    ensures { IsDoneAtOnce kept.old kept.new result (step (state_of kept.old) edit.now) }
{
    match edit {
        Edit::FilterAdd(line) => add_at_once(kept, line),
        Edit::FilterReplace(line) => replace_or_add(kept, line),
        _ => apply_planned(kept, edit),
    }
}

// A replace of a filter that isn't there is an add.
fn replace_or_add(kept: &mut Kept, line: &FilterLine) -> Result<Done, Refusal>
    requires kept { AreKept kept.old }
    requires line { IsFilter line.now }
    requires room { MayStep kept.old }
    ensures { IsDoneAtOnce kept.old kept.new result (filter_replace (state_of kept.old) line.now) }
{
    match find_old(kept, line) {
        Some(old) => replace_at_once(kept, line, old),
        None => add_at_once(kept, line),
    }
}

// Plans the edit, and carries the plan out.
fn apply_planned(kept: &mut Kept, edit: &Edit) -> Result<Done, Refusal>
    requires kept { AreKept kept.old }
    requires line { IsLine edit.now }
    requires room { MayStep kept.old }
    ensures { IsDoneAtOnce kept.old kept.new result (step (state_of kept.old) edit.now) }
{
    match plan_for(kept, edit) {
        Ok(plan) => Ok(carry(kept, plan)),
        Err(refusal) => Err(refusal),
    }
}

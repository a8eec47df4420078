//! Replacing a filter at once, for whoever asks nothing between the looking and the doing.
//!
//! The functions marked `inline(always)` take or return large values, which would otherwise be copied from
//! call to call.
ghost use Rattle.std.specs.Prelude.{◌≡◌, ◌+◌, ◌<◌, Some, Ok, IfOk, OnErr};
ghost use Rattle.filter_state.specs.States.{Row};
ghost use Rattle.filter_state.specs.Lines.{IsFilter};
ghost use Rattle.filter_state.specs.Steps.{replace_at};
ghost use Rattle.filter_index.specs.declared.filter.Filter.{Filter};
ghost use Rattle.filter_tables.specs.Plain.{PlainMask, PlainTable};
ghost use Rattle.filter_tables.specs.Rows.{row_of};
ghost use Rattle.hook_lists.specs.States.{state_of, AreKept};
ghost use Rattle.hook_lists.specs.Steps.{IsRoomier};
ghost use Rattle.hook_lists.specs.Done.{IsDone, IsDoneAtOnce};
ghost use Rattle.filter_lists.specs.OfReplacing.Planning.{IsLooked};
ghost use Rattle.filter_lists.specs.OfReplacing.Replacements.{old_row, state_after, answer_of, replacement_of};
ghost use Rattle.filter_lists.specs.OfReplacing.Replacements.{IsFound, IsReady};

use crate::replacing::doing::change_filter;
use crate::replacing::planning::{change_for, look};
use crate::replacing::replacement::{Change, Old};
use action_plan::ActionPlan;
use filter_state::{Done, FilterLine, Refusal};
use hook_lists::{Kept, carry_plan, reserve_actions, unbind};
use tc_base::{NoMemory, Numbers};

/// Replaces that filter by the line's, or answers why it is refused, and then changes nothing.
///
/// The refusals are those of `prepare_replacement`. What would be handed from there to `replace` is large,
/// and isn't made here.
pub fn replace_at_once(kept: &mut Kept, line: &FilterLine, old: Old) -> Result<Done, Refusal>
    requires kept { AreKept kept.old }
    requires line { IsFilter line.now }
    requires found { IsFound kept.old line.now (Some old) }
    requires masks { kept.old.masks_made + 1 < 4294967296 }
    ensures { (row : Row) → old_row (state_of kept.old) line.now ≡ Some row
        → IsDoneAtOnce kept.old kept.new result (replace_at (state_of kept.old) line.now row) }
{
    let mut plan = ActionPlan::new();
    look(kept, line, &old, &mut plan)?;
    Ok(exchange(kept, line, &old, &plan)?)
}

// Takes all the memory that the change wants, and makes it.
#[inline(always)]
fn exchange(
    kept: &mut Kept,
    line: &FilterLine,
    old: &Old,
    plan: &ActionPlan,
) -> Result<Done, NoMemory>
    requires kept { AreKept kept.old }
    requires looked { IsLooked kept.old line.now old.now (Ok plan.now) }
    requires masks { kept.old.masks_made + 1 < 4294967296 }
    ensures refused { OnErr result (IsRoomier kept.old kept.new) }
    ensures done { IfOk result (λ done. (row : Row) → old_row (state_of kept.old) line.now ≡ Some row
        → IsDoneAtOnce kept.old kept.new (Ok done) (replace_at (state_of kept.old) line.now row)) }
{
    reserve_actions(kept, plan)?;
    let for_filter = plan.serials(kept.alloc)?;
    let serials = plan.serials(kept.alloc)?;
    let change = change_for(kept, line, old, for_filter)?;
    Ok(settle(kept, old, change, plan, serials))
}

// Binds and makes the new actions, changes or moves the filter, and lets its old actions go. It takes no
// memory.
#[inline(always)]
fn settle(kept: &mut Kept, old: &Old, change: Change, plan: &ActionPlan, serials: Numbers) -> Done
    requires kept { AreKept kept.old }
    requires ready { (table : PlainTable) × (mask : PlainMask) × (filter : Filter)
        × IsReady kept.old (replacement_of old.now change plan.now serials) table mask filter }
    ensures { (table : PlainTable) (mask : PlainMask) (filter : Filter)
        → IsReady kept.old (replacement_of old.now change plan.now serials) table mask filter
        → IsDone kept.new result
        (state_after (state_of kept.old) (row_of old.now.hook table mask filter)
        (replacement_of old.now change plan.now serials))
        (answer_of (replacement_of old.now change plan.now serials)) }
{
    carry_plan(kept, plan);
    let gone = change_filter(kept, old, change);
    unbind(kept, gone.as_slice());
    Done::Filter {
        pref: old.pref,
        handle: old.handle,
        serials,
    }
}

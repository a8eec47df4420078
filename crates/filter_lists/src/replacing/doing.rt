//! Replacing a filter that was looked at.
//!
//! The functions marked `inline(always)` take or return large values, which would otherwise be copied from
//! call to call.
ghost use Rattle.std.specs.Prelude.{◌≡◌};
ghost use Rattle.hook_lists.specs.States.{both_of, room_on, state_of, AreKept};
ghost use Rattle.hook_lists.specs.Done.{IsDone};
ghost use Rattle.filter_index.specs.declared.filter.Filter.{Filter};
ghost use Rattle.filter_tables.specs.Plain.{PlainMask, PlainTable};
ghost use Rattle.filter_tables.specs.Rows.{row_of, tables_on, on_hook};
ghost use Rattle.filter_lists.specs.OfReplacing.Replacements.{state_after, answer_of, IsReady};
ghost use Rattle.filter_lists.specs.OfReplacing.Changing.{CanChange, WereThere, tables_changed, masks_after};
ghost use Rattle.filter_lists.specs.OfReplacing.Changing.{HasChanged};

use crate::replacing::replacement::{Change, Old, Replacement};
use filter_state::Done;
use filter_tables::FilterTables;
use hook_lists::{Kept, carry_out, unbind};
use tc_base::{Hook, Numbers};

/// Binds and makes the new actions, changes or moves the filter, and lets its old actions go. It takes no
/// memory.
pub fn replace(kept: &mut Kept, replacement: Replacement) -> Done
    requires kept { AreKept kept.old }
    requires ready { (table : PlainTable) × (mask : PlainMask) × (filter : Filter)
        × IsReady kept.old replacement table mask filter }
    ensures { (table : PlainTable) (mask : PlainMask) (filter : Filter)
        → IsReady kept.old replacement table mask filter
        → IsDone kept.new result
        (state_after (state_of kept.old) (row_of replacement.old.hook table mask filter) replacement)
        (answer_of replacement) }
{
    let Replacement {
        old,
        change,
        actions,
        serials,
    } = replacement;
    carry_out(kept, &actions);
    let gone = change_filter(kept, &old, change);
    unbind(kept, gone.as_slice());
    Done::Filter {
        pref: old.pref,
        handle: old.handle,
        serials,
    }
}

// Changes or moves the filter, and answers its old actions.
#[inline(always)]
pub(crate) fn change_filter(kept: &mut Kept, old: &Old, change: Change) -> Numbers
    requires { CanChange (room_on old.now.hook kept.old) old.now change }
    ensures gone { WereThere (tables_on old.now.hook (both_of kept.old)) old.now result }
    ensures tables { HasChanged (on_hook old.now.hook (tables_changed old.now change) (both_of kept.old))
        (masks_after change kept.old.masks_made) kept.old kept.new }
{
    kept.masks_made = made_with(&change, kept.masks_made);
    match old.hook {
        Hook::Ingress => change_in(&mut kept.ingress, old, change),
        Hook::Egress => change_in(&mut kept.egress, old, change),
    }
}

// How many masks are made once the change is.
fn made_with(change: &Change, made: u32) -> u32
    ensures { result ≡ masks_after change.now made }
{
    match change {
        Change::Stays { .. } => made,
        Change::Moves { .. } => made,
        Change::MovesOut { arrival, .. } => arrival.mask_serial,
    }
}

// Changes or moves the filter in the tables of its hook.
#[inline(always)]
fn change_in(tables: &mut FilterTables, old: &Old, change: Change) -> Numbers
    requires { CanChange tables.old old.now change }
    ensures gone { WereThere tables.old.tables old.now result }
    ensures tables { tables.new.tables ≡ tables_changed old.now change tables.old.tables }
{
    match change {
        Change::Stays { actions } => {
            tables.set_actions(old.table, old.mask, old.handle, actions)
        }
        Change::Moves { to, arrival } => {
            tables.move_within(old.table, old.mask, to, arrival.filter)
        }
        Change::MovesOut { filters, arrival } => tables.move_out(
            old.table,
            old.mask,
            arrival.mask_serial,
            arrival.mask,
            filters,
            arrival.filter,
        ),
    }
}

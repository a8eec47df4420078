//! Taking filters out.
ghost use Rattle.std.specs.Prelude.{◌≡◌, ◌<◌, ◌≤◌, length, map, find, Some};
ghost use Rattle.filter_index.specs.Listed.{has_handle, those_there};
ghost use Rattle.filter_tables.specs.Plain.{PlainMask, PlainTable};
ghost use Rattle.filter_tables.specs.Places.{item_at, place_where, without_at};
ghost use Rattle.filter_tables.specs.Changes.{has_handle_in, removed};
ghost use Rattle.filter_tables.specs.Seen.{plain_table};
ghost use Rattle.filter_tables.specs.SeenMask.{plain_mask};
ghost use Rattle.filter_tables.specs.Rows.{tables_on, on_hook};
ghost use Rattle.action_plan.specs.Bound.{AreBound};
ghost use Rattle.hook_lists.specs.States.{both_of, state_of, AreKept};
ghost use Rattle.hook_lists.specs.Done.{IsDone};
ghost use Rattle.filter_lists.specs.OfRemoving.Leaving.{filters_in, serials_in, HasTables, HaveLeft};
ghost use Rattle.filter_lists.specs.OfRemoving.Removals.{state_after, answer_of, IsReady};

use crate::removing::removal::Removal;
use filter_index::Filter;
use filter_state::Done;
use filter_tables::{FilterTable, MaskList};
use hook_lists::{Kept, unbind};
use tc_base::Hook;

/// Takes out what was planned, and lets its actions go. It takes no memory.
pub fn remove(kept: &mut Kept, removal: Removal) -> Done
    requires kept { AreKept kept.old }
    requires ready { IsReady kept.old removal }
    ensures { IsDone kept.new result (state_after (state_of kept.old) removal) (answer_of removal) }
{
    match removal {
        Removal::OneFilter {
            hook,
            table,
            mask,
            handle,
            ..
        } => {
            let filter = take_filter(kept, hook, table, mask, handle);
            let_go(kept, &filter);
            Done::FilterGone
        }
        Removal::WholeTable { hook, table, .. } => {
            let table = take_table(kept, hook, table);
            let_all_go(kept, table.masks.as_slice());
            Done::TableGone
        }
    }
}

// Takes the filter of that handle out, with its mask and its table if nothing is left in them.
fn take_filter(kept: &mut Kept, hook: Hook, table: usize, mask: usize, handle: u32) -> Filter
    requires table { table < length (tables_on hook (both_of kept.old)) }
    requires handle { (t : PlainTable) → item_at (tables_on hook (both_of kept.old)) table ≡ Some t
        → place_where (has_handle_in handle) t.masks ≡ Some mask }
    ensures taken { (t : PlainTable) → item_at (tables_on hook (both_of kept.old)) table ≡ Some t
        → (m : PlainMask) → item_at t.masks mask ≡ Some m → find (has_handle handle) m.filters ≡ Some result }
    ensures tables { HasTables (on_hook hook (removed table mask handle) (both_of kept.old)) kept.old
        kept.new }
{
    match hook {
        Hook::Ingress => kept.ingress.take(table, mask, handle),
        Hook::Egress => kept.egress.take(table, mask, handle),
    }
}

// Takes the table at that place out.
fn take_table(kept: &mut Kept, hook: Hook, table: usize) -> FilterTable
    requires { table < length (tables_on hook (both_of kept.old)) }
    ensures table { item_at (tables_on hook (both_of kept.old)) table ≡ Some (plain_table result) }
    ensures tables { HasTables (on_hook hook (without_at table) (both_of kept.old)) kept.old kept.new }
{
    match hook {
        Hook::Ingress => kept.ingress.remove(table),
        Hook::Egress => kept.egress.remove(table),
    }
}

// One filter fewer.
fn let_go(kept: &mut Kept, filter: &Filter)
    requires some { 0 < kept.old.filters }
    requires bound { AreBound filter.now.actions kept.old.actions.entries }
    ensures { HaveLeft filter.now.actions 1 kept.old kept.new }
{
    unbind(kept, filter.actions.as_slice());
    kept.filters -= 1;
}

// The filters of a mask fewer, in order.
fn let_mask_go(kept: &mut Kept, slots: &[Option<Filter>])
    requires some { length (those_there slots.now) ≤ kept.old.filters }
    requires bound { AreBound (serials_in (those_there slots.now)) kept.old.actions.entries }
    ensures { HaveLeft (serials_in (those_there slots.now))
        (length (those_there slots.now)) kept.old kept.new }
{
    for slot in slots {
        if let Some(filter) = slot {
            let_go(kept, filter);
        }
    }
}

// All filters of a table fewer, in the order of its masks.
fn let_all_go(kept: &mut Kept, masks: &[MaskList])
    requires some { length (filters_in (map plain_mask masks.now)) ≤ kept.old.filters }
    requires bound { AreBound (serials_in (filters_in (map plain_mask masks.now))) kept.old.actions.entries }
    ensures { HaveLeft (serials_in (filters_in (map plain_mask masks.now)))
        (length (filters_in (map plain_mask masks.now))) kept.old kept.new }
{
    for mask in masks {
        let_mask_go(kept, mask.filters().slots());
    }
}

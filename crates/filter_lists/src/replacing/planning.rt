//! Making an edit that replaces a filter ready.
//!
//! The functions marked `inline(always)` take or return large values, which would otherwise be copied from
//! call to call.
ghost use Rattle.std.specs.Prelude.{◌≡◌, ◌+◌, ◌<◌, [], length, Some, None, IfOk, OnOk};
ghost use Rattle.filter_state.specs.States.{Row};
ghost use Rattle.filter_state.specs.Lines.{IsFilter};
ghost use Rattle.filter_state.specs.Steps.{replace_at};
ghost use Rattle.action_plan.specs.Plans.{plan_or, serials_of};
ghost use Rattle.filter_index.specs.declared.filter.Filter.{Filter};
ghost use Rattle.filter_tables.specs.Plain.{PlainMask, PlainTable};
ghost use Rattle.filter_tables.specs.Places.{item_at};
ghost use Rattle.filter_tables.specs.Room.{masks_spare, filters_spare};
ghost use Rattle.filter_tables.specs.Rows.{tables_on};
ghost use Rattle.filter_tables.specs.SeenMask.{plain_mask};
ghost use Rattle.hook_lists.specs.States.{both_of, room_on, state_of, AreKept};
ghost use Rattle.hook_lists.specs.Steps.{refusal_of, IsRoomier, PlanFits};
ghost use Rattle.filter_lists.specs.OfReplacing.Planning.{refused_before, refused_after, resolved_to, is_same};
ghost use Rattle.filter_lists.specs.OfReplacing.Planning.{arrival_of, IsAllowed, IsWithin, IsLooked, Leaves};
ghost use Rattle.filter_lists.specs.OfReplacing.Planning.{HasChange};
ghost use Rattle.filter_lists.specs.OfReplacing.Replacements.{old_row, IsFound, IsOld, IsPlanned};

use crate::adding::{Arrival, room_for_one};
use crate::replacing::replacement::{Change, Old, Replacement};
use action_plan::ActionPlan;
use filter_index::Filter;
use filter_state::{FilterLine, Refusal};
use filter_tables::MaskList;
use hook_lists::{
    Kept, check_actions, check_hook, check_masks, check_match, check_protocol, mask_at,
    reserve_actions, resolve, table_at,
};
use tc_base::{Hook, NoMemory, Numbers};

/// Makes the replacement of that filter by the line's ready, or answers why it is refused.
///
/// `NoHook`, `ProtocolClash`, `Exists`, `NoSuchAction`, `MasksFull`, `ActionsFull`, `CountersFull`: the first
/// that applies. `NoMemory`: none of these, and memory was refused.
pub fn prepare_replacement(
    kept: &mut Kept,
    line: &FilterLine,
    old: Old,
) -> Result<Replacement, Refusal>
    requires kept { AreKept kept.old }
    requires line { IsFilter line.now }
    requires found { IsFound kept.old line.now (Some old) }
    requires masks { kept.old.masks_made + 1 < 4294967296 }
    ensures roomier { IsRoomier kept.old kept.new }
    ensures planned { (row : Row) → old_row (state_of kept.old) line.now ≡ Some row
        → IsPlanned kept.new result (replace_at (state_of kept.old) line.now row) }
{
    let mut plan = ActionPlan::new();
    look(kept, line, &old, &mut plan)?;
    Ok(make_ready(kept, line, old, &plan)?)
}

// Looks for all that can refuse the line but want of memory, and plans its actions on the way.
pub(crate) fn look(
    kept: &Kept,
    line: &FilterLine,
    old: &Old,
    plan: &mut ActionPlan,
) -> Result<(), Refusal>
    requires empty { plan.old ≡ [] }
    requires kept { AreKept kept.now }
    requires line { IsFilter line.now }
    requires found { IsFound kept.now line.now (Some old.now) }
    ensures { IsLooked kept.now line.now old.now (plan_or plan.new result) }
{
    check_before(kept, line, old)?;
    resolve(kept, &line.actions, plan)?;
    check_after(kept, line, old, plan)?;
    Ok(())
}

// `NoHook`, `ProtocolClash`, `Exists`: what is refused before the actions are resolved.
fn check_before(kept: &Kept, line: &FilterLine, old: &Old) -> Result<(), Refusal>
    requires kept { AreKept kept.now }
    requires found { IsFound kept.now line.now (Some old.now) }
    ensures { refusal_of result
        ≡ refused_before (state_of kept.now) line.now old.now.hook old.now.chain old.now.pref old.now.handle }
{
    let place = Some(old.table);
    check_hook(kept)?;
    check_protocol(kept, old.hook, old.chain, old.pref, place, line.protocol)?;
    check_match(
        kept,
        old.hook,
        old.chain,
        old.pref,
        place,
        Some(old.handle),
        &line.mask,
        &line.key,
    )
}

// `MasksFull`, `ActionsFull`, `CountersFull`: what is refused once the actions are resolved.
fn check_after(
    kept: &Kept,
    line: &FilterLine,
    old: &Old,
    actions: &ActionPlan,
) -> Result<(), Refusal>
    requires kept { AreKept kept.now }
    requires found { IsFound kept.now line.now (Some old.now) }
    ensures { refusal_of result
        ≡ refused_after (state_of kept.now) line.now old.now.hook old.now.chain old.now.pref
        (resolved_to kept.now actions.now) }
{
    let place = Some(old.table);
    check_masks(kept, old.hook, old.chain, old.pref, place, &line.mask)?;
    check_actions(kept, actions)
}

// Takes all the memory that the change will want.
fn make_ready(
    kept: &mut Kept,
    line: &FilterLine,
    old: Old,
    plan: &ActionPlan,
) -> Result<Replacement, NoMemory>
    requires kept { AreKept kept.old }
    requires allowed { (table : PlainTable) × (mask : PlainMask) × (filter : Filter)
        × IsAllowed kept.old line.now old table mask filter }
    requires within { IsWithin kept.old plan.now }
    requires masks { kept.old.masks_made + 1 < 4294967296 }
    ensures roomier { IsRoomier kept.old kept.new }
    ensures old { IfOk result (λ r. (r.old ≡ old) × (r.actions ≡ plan.now)
        × (r.serials ≡ serials_of plan.now)) }
    ensures fits { OnOk result (PlanFits kept.new plan.now) }
    ensures change { IfOk result
        (λ r. HasChange kept.old kept.new line.now old (serials_of plan.now) r.change) }
{
    reserve_actions(kept, plan)?;
    let for_filter = plan.serials(kept.alloc)?;
    let serials = plan.serials(kept.alloc)?;
    let actions = plan.keep(kept.alloc)?;
    let change = change_for(kept, line, &old, for_filter)?;
    Ok(Replacement {
        old,
        change,
        actions,
        serials,
    })
}

// Where the filter goes, with room for it there.
#[inline(always)]
pub(crate) fn change_for(
    kept: &mut Kept,
    line: &FilterLine,
    old: &Old,
    actions: Numbers,
) -> Result<Change, NoMemory>
    requires kept { AreKept kept.old }
    requires allowed { (table : PlainTable) × (mask : PlainMask) × (filter : Filter)
        × IsAllowed kept.old line.now old.now table mask filter }
    requires masks { kept.old.masks_made + 1 < 4294967296 }
    ensures roomier { IsRoomier kept.old kept.new }
    ensures actions { kept.new.actions ≡ kept.old.actions }
    ensures change { IfOk result (λ change. HasChange kept.old kept.new line.now old.now actions change) }
{
    if stays(kept, line, old) {
        return Ok(Change::Stays { actions });
    }
    match table_at(kept, old.hook, old.table)
        .masks
        .find_mask(&line.mask)
    {
        Some(to) => move_to(kept, line, old, to, actions),
        None => move_out(kept, line, old, actions),
    }
}

// Whether the filter has the line's mask and key.
fn stays(kept: &Kept, line: &FilterLine, old: &Old) -> bool
    requires { (table : PlainTable) × (mask : PlainMask) × (filter : Filter)
        × IsOld kept.now old.now table mask filter }
    ensures { (table : PlainTable) (mask : PlainMask) (filter : Filter)
        → IsOld kept.now old.now table mask filter → result ≡ is_same line.now mask filter }
{
    let own = mask_at(&table_at(kept, old.hook, old.table).masks, old.mask);
    match own.filters().with_handle(old.handle) {
        Some(filter) => has_match(own, filter, line),
        None => false,
    }
}

fn has_match(own: &MaskList, filter: &Filter, line: &FilterLine) -> bool
    ensures { result ≡ is_same line.now (plain_mask own.now) filter.now }
{
    own.mask().words == line.mask.words && filter.key.words == line.key.words
}

// Behind the filters of the mask at that place.
fn move_to(
    kept: &mut Kept,
    line: &FilterLine,
    old: &Old,
    to: usize,
    actions: Numbers,
) -> Result<Change, NoMemory>
    requires kept { AreKept kept.old }
    requires leaves { Leaves kept.old line.now old.now (Some to) }
    ensures roomier { IsRoomier kept.old kept.new }
    ensures actions { kept.new.actions ≡ kept.old.actions }
    ensures change { IfOk result (λ change. HasChange kept.old kept.new line.now old.now actions change) }
{
    reserve_filter(kept, old, to)?;
    let serial = mask_at(&table_at(kept, old.hook, old.table).masks, to).serial();
    Ok(Change::Moves {
        to,
        arrival: arrival_for(kept, line, old, serial, actions),
    })
}

// Into a new mask, with the room for its filters.
fn move_out(
    kept: &mut Kept,
    line: &FilterLine,
    old: &Old,
    actions: Numbers,
) -> Result<Change, NoMemory>
    requires kept { AreKept kept.old }
    requires leaves { Leaves kept.old line.now old.now None }
    requires masks { kept.old.masks_made + 1 < 4294967296 }
    ensures roomier { IsRoomier kept.old kept.new }
    ensures actions { kept.new.actions ≡ kept.old.actions }
    ensures change { IfOk result (λ change. HasChange kept.old kept.new line.now old.now actions change) }
{
    reserve_mask(kept, old)?;
    let filters = room_for_one(kept.alloc)?;
    Ok(Change::MovesOut {
        filters,
        arrival: arrival_for(kept, line, old, kept.masks_made + 1, actions),
    })
}

fn reserve_filter(kept: &mut Kept, old: &Old, mask: usize) -> Result<(), NoMemory>
    requires table { old.now.table < length (tables_on old.now.hook (both_of kept.old)) }
    requires mask { (t : PlainTable) → item_at (tables_on old.now.hook (both_of kept.old)) old.now.table
        ≡ Some t → mask < length t.masks }
    ensures roomier { IsRoomier kept.old kept.new }
    ensures actions { kept.new.actions ≡ kept.old.actions }
    ensures room { OnOk result (0 < filters_spare (room_on old.now.hook kept.new).spares old.now.table mask) }
{
    match old.hook {
        Hook::Ingress => kept.ingress.reserve_filter(old.table, mask),
        Hook::Egress => kept.egress.reserve_filter(old.table, mask),
    }
}

fn reserve_mask(kept: &mut Kept, old: &Old) -> Result<(), NoMemory>
    requires table { old.now.table < length (tables_on old.now.hook (both_of kept.old)) }
    ensures roomier { IsRoomier kept.old kept.new }
    ensures actions { kept.new.actions ≡ kept.old.actions }
    ensures room { OnOk result (0 < masks_spare (room_on old.now.hook kept.new).spares old.now.table) }
{
    match old.hook {
        Hook::Ingress => kept.ingress.reserve_mask(old.table),
        Hook::Egress => kept.egress.reserve_mask(old.table),
    }
}

// The line's filter under the table and handle of the old one.
fn arrival_for(
    kept: &Kept,
    line: &FilterLine,
    old: &Old,
    mask_serial: u32,
    actions: Numbers,
) -> Arrival
    requires { old.now.table < length (tables_on old.now.hook (both_of kept.now)) }
    ensures { (t : PlainTable) → item_at (tables_on old.now.hook (both_of kept.now)) old.now.table ≡ Some t
        → result ≡ arrival_of line.now old.now t mask_serial actions }
{
    let table = table_at(kept, old.hook, old.table);
    Arrival {
        hook: old.hook,
        chain: table.chain,
        pref: table.pref,
        protocol: table.protocol,
        table_serial: table.serial,
        mask_serial,
        mask: line.mask,
        filter: Filter {
            handle: old.handle,
            key: line.key,
            actions,
        },
    }
}

//! The filters are copied out of the lists.
ghost use Rattle.std.specs.Prelude.{◌≡◌, ◌++◌, map, filter, IfOk, OnOk, IfSome, None};
ghost use Rattle.std.specs.List.{flat_map};
ghost use Rattle.filter_state.specs.Tables.{in_table, filter_row};
ghost use Rattle.filter_tables.specs.Rows.{row_of};
ghost use Rattle.filter_tables.specs.Seen.{plain_table};
ghost use Rattle.filter_tables.specs.SeenMask.{plain_mask};
ghost use Rattle.hook_lists.specs.States.{AreKept, state_of};
ghost use Rattle.state_past_laws.specs.OfChanges.Among.{listed};
ghost use Rattle.state_past_laws.specs.OfChanges.Going.{rows_going};
ghost use Rattle.state_past.specs.OfGoneFilters.Marks.{mark_of, marked, marks_at, marks_in, marks_of};

use crate::gone_filters::going::GoingFilter;
use crate::gone_filters::tables::table_at;
use filter_index::Filter;
use filter_lists::{Edit, FilterTable, Lists, MaskList};
use hook_lists::mask_at;
use std::alloc::Global;
use tc_base::{Hook, NoMemory, Numbers};

// Copies a filter out, with all that it stands under.
fn mark(
    alloc: Global,
    hook: Hook,
    table: &FilterTable,
    mask: &MaskList,
    filter: &Filter,
) -> Result<GoingFilter, NoMemory>
    ensures { IfOk result (λ going. marked going
        ≡ mark_of (row_of hook (plain_table table.now) (plain_mask mask.now) filter.now)) }
{
    let actions = filter.actions.as_slice().to_vec(alloc)?;
    Ok(GoingFilter {
        hook,
        chain: table.chain,
        pref: table.pref,
        mask: mask.serial(),
        words: *mask.mask(),
        key: filter.key,
        actions: Numbers::from_vec(actions),
    })
}

// Adds the filter of a slot, where there is one.
fn add_slot(
    alloc: Global,
    going: &mut Vec<GoingFilter>,
    hook: Hook,
    table: &FilterTable,
    mask: &MaskList,
    slot: &Option<Filter>,
) -> Result<(), NoMemory>
    ensures { OnOk result (map marked going.new.items ≡ map marked going.old.items
        ++ marks_at hook (plain_table table.now) (plain_mask mask.now) slot.now) }
{
    if let Some(filter) = slot {
        let mark = mark(alloc, hook, table, mask, filter)?;
        going.push(mark)?;
    }
    Ok(())
}

// Adds the filters of a mask.
fn add_mask(
    alloc: Global,
    going: &mut Vec<GoingFilter>,
    hook: Hook,
    table: &FilterTable,
    mask: &MaskList,
) -> Result<(), NoMemory>
    ensures { OnOk result (map marked going.new.items ≡ map marked going.old.items
        ++ marks_in hook (plain_table table.now) (plain_mask mask.now)) }
{
    let slots = mask.filters().slots();
    for slot in slots {
        add_slot(alloc, going, hook, table, mask, slot)?;
    }
    Ok(())
}

// Adds the filters of a table.
fn add_table(
    alloc: Global,
    going: &mut Vec<GoingFilter>,
    hook: Hook,
    table: &FilterTable,
) -> Result<(), NoMemory>
    ensures { OnOk result (map marked going.new.items
        ≡ map marked going.old.items ++ marks_of hook (plain_table table.now)) }
{
    let masks = table.masks.as_slice();
    for mask in masks {
        add_mask(alloc, going, hook, table, mask)?;
    }
    Ok(())
}

// The filters of the table of that chain and pref.
fn going_of_table(
    alloc: Global,
    lists: &Lists,
    hook: Hook,
    chain: u32,
    pref: u32,
) -> Result<Vec<GoingFilter>, NoMemory>
    ensures { IfOk result (λ going. map marked going.items
        ≡ map mark_of (filter (in_table hook chain pref) (state_of lists.now).rows)) }
{
    let tables = lists.tables(hook);
    let mut going = Vec::new(alloc);
    let Some(place) = lists.find_table(hook, chain, pref) else {
        return Ok(going);
    };
    let table = table_at(tables, place);
    add_table(alloc, &mut going, hook, table)?;
    Ok(going)
}

// The filter with a handle in the table of that chain and pref.
fn going_of_filter(
    alloc: Global,
    lists: &Lists,
    hook: Hook,
    chain: u32,
    pref: u32,
    handle: u32,
) -> Result<Vec<GoingFilter>, NoMemory>
    ensures { IfOk result (λ going. map marked going.items
        ≡ map mark_of (listed (filter_row hook chain pref handle (state_of lists.now).rows))) }
{
    let tables = lists.tables(hook);
    let mut going = Vec::new(alloc);
    let Some(place) = lists.find_table(hook, chain, pref) else {
        return Ok(going);
    };
    let table = table_at(tables, place);
    let Some(at) = table.masks.find_handle(handle) else {
        return Ok(going);
    };
    let mask = mask_at(&table.masks, at);
    let Some(filter) = mask.filters().with_handle(handle) else {
        return Ok(going);
    };
    going.push(mark(alloc, hook, table, mask, filter)?)?;
    Ok(going)
}

/// The filters that the edit takes away or replaces, in the order of the lists.
///
/// `NoMemory`: memory was refused.
pub fn filters_going(
    alloc: Global,
    lists: &Lists,
    edit: &Edit,
) -> Result<Vec<GoingFilter>, NoMemory>
    ensures { IfOk result (λ going.
        map marked going.items ≡ map mark_of (rows_going (state_of lists.now) edit.now)) }
{
    match edit {
        Edit::FilterReplace(line) => {
            let (pref, handle) = (line.pref.unwrap_or(0), line.handle.unwrap_or(0));
            going_of_filter(alloc, lists, line.hook, line.chain, pref, handle)
        }
        Edit::FilterDel {
            hook,
            chain,
            pref,
            handle,
            ..
        } => match handle {
            Some(handle) => going_of_filter(alloc, lists, *hook, *chain, *pref, *handle),
            None => going_of_table(alloc, lists, *hook, *chain, *pref),
        },
        _ => Ok(Vec::new(alloc)),
    }
}

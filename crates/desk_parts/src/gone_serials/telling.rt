//! The serials are copied out of the lists.
ghost use Rattle.std.specs.Prelude.{◌≡◌, ◌++◌, map, filter, Some, None, IfOk, OnOk, IfSome};
ghost use Rattle.std.specs.List.{flat_map};
ghost use Rattle.filter_index.specs.Listed.{has_handle};
ghost use Rattle.filter_state.specs.States.{Row, State};
ghost use Rattle.filter_state.specs.Tables.{in_table, filter_row};
ghost use Rattle.filter_tables.specs.SeenMask.{plain_mask};
ghost use Rattle.hook_lists.specs.States.{AreKept};
ghost use Rattle.filter_lists.specs.Spells.{Spells};
ghost use Rattle.desk_parts.specs.OfLineActions.Gone.{named_by, NamesGone};
ghost use Rattle.desk_parts.specs.OfGoneSerials.Same.{serials_at, serials_in, HaveSame};

use crate::finding::table_at;
use filter_index::Filter;
use filter_lists::{Edit, Lists};
use filter_tables::MaskList;
use hook_lists::mask_at;
use std::alloc::{AllocError, Global};
use tc_base::{Hook, NoMemory};

// Adds the serials that a filter names, where there is one.
fn add_filter(gone: &mut Vec<u32>, slot: &Option<Filter>) -> Result<(), AllocError>
    ensures { OnOk result (gone.new.items ≡ gone.old.items ++ serials_at slot.now) }
{
    match slot {
        Some(filter) => gone.extend_from_slice(filter.actions.as_slice()),
        None => Ok(()),
    }
}

// Adds those of the filters of a mask.
fn add_mask(gone: &mut Vec<u32>, mask: &MaskList) -> Result<(), AllocError>
    ensures { OnOk result (gone.new.items ≡ gone.old.items ++ serials_in (plain_mask mask.now).filters) }
{
    let slots = mask.filters().slots();
    for slot in slots {
        add_filter(gone, slot)?;
    }
    Ok(())
}

// Adds those of the filters of some masks.
fn add_masks(gone: &mut Vec<u32>, masks: &[MaskList]) -> Result<(), AllocError>
    ensures { OnOk result (gone.new.items
        ≡ gone.old.items ++ flat_map (λ m. serials_in m.filters) (map plain_mask masks.now)) }
{
    for mask in masks {
        add_mask(gone, mask)?;
    }
    Ok(())
}

// The serials that the filters of a table name, one for each place.
fn serials_of_table(
    alloc: Global,
    lists: &Lists,
    hook: Hook,
    chain: u32,
    pref: u32,
) -> Result<Vec<u32>, NoMemory>
    ensures { IfOk result (λ gone. (s : State) → Spells lists.now s → HaveSame gone.items
        (flat_map (λ (row : Row). row.actions) (filter (in_table hook chain pref) s.rows))) }
{
    let tables = lists.tables(hook);
    let mut gone = Vec::new(alloc);
    let Some(place) = lists.find_table(hook, chain, pref) else {
        return Ok(gone);
    };
    let table = table_at(tables, place);
    add_masks(&mut gone, table.masks.as_slice())?;
    Ok(gone)
}

// The filter with a handle in a table.
fn find_filter(lists: &Lists, hook: Hook, chain: u32, pref: u32, handle: u32) -> Option<&Filter>
    ensures some { IfSome result (λ found. (s : State) → Spells lists.now s → (row : Row)
        × (filter_row hook chain pref handle s.rows ≡ Some row) × (found.now.actions ≡ row.actions)) }
    ensures none { result ≡ None
        → (s : State) → Spells lists.now s → filter_row hook chain pref handle s.rows ≡ None }
    ensures kept { AreKept lists.now }
{
    let tables = lists.tables(hook);
    let place = lists.find_table(hook, chain, pref)?;
    let table = table_at(tables, place);
    let at = table.masks.find_handle(handle)?;
    mask_at(&table.masks, at).filters().with_handle(handle)
}

// The serials that the filter with a handle names, where it is there.
fn serials_of_filter(
    alloc: Global,
    lists: &Lists,
    hook: Hook,
    chain: u32,
    pref: u32,
    handle: u32,
) -> Result<Vec<u32>, NoMemory>
    ensures gone { IfOk result (λ gone. (s : State) → Spells lists.now s
        → gone.items ≡ named_by (filter_row hook chain pref handle s.rows)) }
    ensures kept { AreKept lists.now }
{
    match find_filter(lists, hook, chain, pref, handle) {
        Some(found) => Ok(found.actions.as_slice().to_vec(alloc)?),
        None => Ok(Vec::new(alloc)),
    }
}

/// The serials of the actions that the filters name which the edit takes away or replaces, in the order of
/// the lists, as often as they are named.
///
/// `NoMemory`: memory was refused.
pub fn serials_going(alloc: Global, lists: &Lists, edit: &Edit) -> Result<Vec<u32>, NoMemory>
    ensures { IfOk result (λ gone. (s : State) → Spells lists.now s → NamesGone s edit.now gone.items) }
{
    match edit {
        Edit::FilterReplace(line) => {
            let (pref, handle) = (line.pref.unwrap_or(0), line.handle.unwrap_or(0));
            serials_of_filter(alloc, lists, line.hook, line.chain, pref, handle)
        }
        Edit::FilterDel {
            hook,
            chain,
            pref,
            handle,
            ..
        } => match handle {
            Some(handle) => serials_of_filter(alloc, lists, *hook, *chain, *pref, *handle),
            None => serials_of_table(alloc, lists, *hook, *chain, *pref),
        },
        _ => Ok(Vec::new(alloc)),
    }
}

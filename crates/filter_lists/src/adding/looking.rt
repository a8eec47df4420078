//! Looking at an edit that adds a filter: every refusal in its order, before anything is taken.
ghost use Rattle.filter_state.specs.declared.limits.TheConstants.{TABLES_MAX};
ghost use Rattle.std.specs.Prelude.{◌≡◌, ◌&&◌, [], not, nat_le, is_some, length};
ghost use Rattle.filter_state.specs.Lines.{IsFilter};
ghost use Rattle.filter_state.specs.Refusals.{handle_taken, tables_full, filters_full};
ghost use Rattle.filter_state.specs.Steps as steps;
ghost use Rattle.filter_tables.specs.Places.{place_where};
ghost use Rattle.filter_tables.specs.Changes.{has_handle_in};
ghost use Rattle.filter_tables.specs.Rows.{tables_on};
ghost use Rattle.action_plan.specs.Plans.{made_of, carried};
ghost use Rattle.hook_lists.specs.States.{state_of, both_of, AreKept, place_on};
ghost use Rattle.hook_lists.specs.Steps.{refusal_of};
ghost use Rattle.filter_lists.specs.OfAdding.Looks.{place_refusal, limit_refusal, found_or, LookTold};

use action_plan::ActionPlan;
use filter_state::{FILTERS_MAX, FilterLine, Refusal, TABLES_MAX};
use filter_tables::MaskLists;
use hook_lists::{
    Kept, check_actions, check_hook, check_masks, check_match, check_protocol, find_table, resolve,
    table_at, tables_of,
};
use tc_base::Hook;

// The pref of a chain's first table, if its line gives none: the kernel's first automatic preference, 0xC000.
const FIRST_PREF: u32 = 49152;

/// What was found for a line that isn't refused.
#[derive(Drop)]
pub(crate) struct Found {
    pub(crate) pref: u32,
    /// Where the table of the chain and pref stands, if it is there.
    pub(crate) place: Option<usize>,
    pub(crate) actions: ActionPlan,
}

impl Found {
    ghost use Rattle.std.specs.Prelude.{◌≡◌, []};

    /// Nothing yet. It is large, so it is filled where it stands.
    pub(crate) fn new() -> Found
        ensures { result.actions ≡ [] }
    {
        Found {
            pref: 0,
            place: None,
            actions: ActionPlan::new(),
        }
    }
}

/// Looks for all that can refuse the line but want of memory, and fills in what it finds on the way.
pub(crate) fn look(kept: &Kept, line: &FilterLine, found: &mut Found) -> Result<(), Refusal>
    requires empty { found.old.actions ≡ [] }
    requires kept { AreKept kept.now }
    requires line { IsFilter line.now }
    ensures { LookTold kept.now line.now (found_or found.new result) }
{
    check_hook(kept)?;
    let pref = pref_for(kept, line)?;
    let place = find_table(kept, line.hook, line.chain, pref);
    check_place(kept, line, pref, place)?;
    resolve(kept, &line.actions, &mut found.actions)?;
    check_limits(kept, line, pref, place, &found.actions)?;
    found.pref = pref;
    found.place = place;
    Ok(())
}

// The given pref, or else one below the lowest of the chain, or 49152 where the chain has no table.
fn pref_for(kept: &Kept, line: &FilterLine) -> Result<u32, Refusal>
    requires { AreKept kept.now }
    ensures { result ≡ steps.pref_for (state_of kept.now) line.now.hook line.now.chain line.now.pref }
{
    match line.pref {
        Some(pref) => Ok(pref),
        None => pref_below(tables_of(kept, line.hook).lowest_pref(line.chain)),
    }
}

fn pref_below(lowest: Option<u32>) -> Result<u32, Refusal>
    ensures { result ≡ steps.pref_below lowest }
{
    match lowest {
        None => Ok(FIRST_PREF),
        Some(lowest) => {
            if lowest == 1 {
                return Err(Refusal::NoPref);
            }
            Ok(lowest.saturating_sub(1))
        }
    }
}

// What the table that is there can refuse: its protocol, the handle, and a filter with the same mask and key.
fn check_place(
    kept: &Kept,
    line: &FilterLine,
    pref: u32,
    place: Option<usize>,
) -> Result<(), Refusal>
    requires kept { AreKept kept.now }
    requires place { place ≡ place_on line.now.hook line.now.chain pref kept.now }
    ensures { refusal_of result ≡ place_refusal (state_of kept.now) line.now pref }
{
    check_protocol(kept, line.hook, line.chain, pref, place, line.protocol)?;
    check_handle(kept, line, pref, place)?;
    check_match(
        kept, line.hook, line.chain, pref, place, None, &line.mask, &line.key,
    )
}

// `HandleTaken`: a handle is given, and the table has a filter of that handle.
fn check_handle(
    kept: &Kept,
    line: &FilterLine,
    pref: u32,
    place: Option<usize>,
) -> Result<(), Refusal>
    requires kept { AreKept kept.now }
    requires place { place ≡ place_on line.now.hook line.now.chain pref kept.now }
    ensures { refusal_of result
        ≡ handle_taken (state_of kept.now) line.now.hook line.now.chain pref line.now.handle }
{
    let Some(handle) = line.handle else {
        return Ok(());
    };
    let Some(table) = place else {
        return Ok(());
    };
    if has_filter(&table_at(kept, line.hook, table).masks, handle) {
        return Err(Refusal::HandleTaken);
    }
    Ok(())
}

// Whether a filter of the masks has that handle.
fn has_filter(masks: &MaskLists, handle: u32) -> bool
    ensures { result ≡ is_some (place_where (has_handle_in handle) masks.now.masks) }
{
    masks.find_handle(handle).is_some()
}

// What the limits can refuse.
fn check_limits(
    kept: &Kept,
    line: &FilterLine,
    pref: u32,
    place: Option<usize>,
    actions: &ActionPlan,
) -> Result<(), Refusal>
    requires kept { AreKept kept.now }
    requires place { place ≡ place_on line.now.hook line.now.chain pref kept.now }
    ensures { refusal_of result
        ≡ limit_refusal (state_of kept.now) line.now pref (carried (made_of kept.now.actions) actions.now) }
{
    check_tables(kept, line, pref, place)?;
    check_masks(kept, line.hook, line.chain, pref, place, &line.mask)?;
    check_filters(kept)?;
    check_actions(kept, actions)
}

// `TablesFull`: the table isn't there, and the hook has 256 others.
fn check_tables(
    kept: &Kept,
    line: &FilterLine,
    pref: u32,
    place: Option<usize>,
) -> Result<(), Refusal>
    requires kept { AreKept kept.now }
    requires place { place ≡ place_on line.now.hook line.now.chain pref kept.now }
    ensures { refusal_of result ≡ tables_full (state_of kept.now) line.now.hook line.now.chain pref }
{
    if has_no_room(kept, line.hook, place) {
        return Err(Refusal::TablesFull);
    }
    Ok(())
}

// Whether a table that isn't there would be one too many.
fn has_no_room(kept: &Kept, hook: Hook, place: Option<usize>) -> bool
    ensures { result
        ≡ (not (is_some place) && nat_le TABLES_MAX (length (tables_on hook (both_of kept.now)))) }
{
    place.is_none() && table_count(kept, hook) >= TABLES_MAX
}

// `FiltersFull`: there are 4,096 filters.
fn check_filters(kept: &Kept) -> Result<(), Refusal>
    requires { AreKept kept.now }
    ensures { refusal_of result ≡ filters_full (state_of kept.now) }
{
    if kept.filters >= FILTERS_MAX {
        return Err(Refusal::FiltersFull);
    }
    Ok(())
}

// How many tables a hook has.
fn table_count(kept: &Kept, hook: Hook) -> usize
    ensures { result ≡ length (tables_on hook (both_of kept.now)) }
{
    tables_of(kept, hook).as_slice().len()
}

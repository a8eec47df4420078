//! Looking at an edit that takes filters out.
ghost use Rattle.std.specs.Prelude.{◌≡◌, ◌<◌, length, Some};
ghost use Rattle.filter_state.specs.Steps.{filter_del};
ghost use Rattle.filter_tables.specs.Places.{item_at};
ghost use Rattle.filter_tables.specs.Seen.{plain_table};
ghost use Rattle.hook_lists.specs.States.{state_of, AreKept, place_on};
ghost use Rattle.filter_lists.specs.OfRemoving.Planning.{step_found};
ghost use Rattle.filter_lists.specs.OfRemoving.Removals.{IsPlanned};

use crate::removing::removal::Removal;
use filter_state::Refusal;
use filter_tables::FilterTable;
use hook_lists::{Kept, check_hook, check_protocol_if, find_table, table_at};
use tc_base::{Hook, Proto};

/// What the edit takes out: the filter of the handle, or without one the whole table of that chain and pref.
///
/// `NoHook`: the qdisc isn't there. `ProtocolClash`: a protocol is given, and the table has another.
/// `NoSuchTable`: no table has that chain and pref. `NoSuchFilter`: the table has no filter of that handle.
pub fn plan_removal(
    kept: &Kept,
    hook: Hook,
    protocol: Option<Proto>,
    chain: u32,
    pref: u32,
    handle: Option<u32>,
) -> Result<Removal, Refusal>
    requires { AreKept kept.now }
    ensures { IsPlanned kept.now result (filter_del (state_of kept.now) hook protocol chain pref handle) }
{
    check_hook(kept)?;
    let place = find_table(kept, hook, chain, pref);
    check_protocol_if(kept, hook, chain, pref, place, protocol)?;
    let Some(table) = place else {
        return Err(Refusal::NoSuchTable);
    };
    plan_found(kept, hook, chain, pref, table, handle)
}

// What is taken out of the table that was found, or why nothing is.
fn plan_found(
    kept: &Kept,
    hook: Hook,
    chain: u32,
    pref: u32,
    table: usize,
    handle: Option<u32>,
) -> Result<Removal, Refusal>
    requires kept { AreKept kept.now }
    requires place { place_on hook chain pref kept.now ≡ Some table }
    ensures { IsPlanned kept.now result (step_found (state_of kept.now) hook chain pref handle) }
{
    match handle {
        None => Ok(Removal::WholeTable {
            hook,
            chain,
            pref,
            table,
        }),
        Some(handle) => plan_filter(kept, hook, chain, pref, table, handle),
    }
}

// `NoSuchFilter`: the table that was found has no filter of that handle.
fn plan_filter(
    kept: &Kept,
    hook: Hook,
    chain: u32,
    pref: u32,
    table: usize,
    handle: u32,
) -> Result<Removal, Refusal>
    requires kept { AreKept kept.now }
    requires place { place_on hook chain pref kept.now ≡ Some table }
    ensures { IsPlanned kept.now result (step_found (state_of kept.now) hook chain pref (Some handle)) }
{
    match table_at(kept, hook, table).masks.find_handle(handle) {
        None => Err(Refusal::NoSuchFilter),
        Some(mask) => Ok(Removal::OneFilter {
            hook,
            chain,
            pref,
            handle,
            table,
            mask,
        }),
    }
}

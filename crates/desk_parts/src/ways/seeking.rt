//! The way is looked up.
ghost use Rattle.std.specs.Prelude.{◌≡◌, ◌≢◌, ◌≤◌, ◌<◌, ℕ, Option, Some, None, IfSome};
ghost use Rattle.store_history.specs.declared.places.TheConstants.{MASK_SLOTS};
ghost use Rattle.tc_base.specs.declared.hook.Proto.{Proto};
ghost use Rattle.filter_state.specs.declared.limits.TheConstants.{FILTERS_MAX};
ghost use Rattle.filter_state.specs.declared.edit.Edit.{Edit as AnEdit};
ghost use Rattle.filter_state.specs.declared.edit.Edit.TheVariants as edits;
ghost use Rattle.filter_state.specs.declared.refusal.Done.{Done};
ghost use Rattle.filter_state.specs.Lines.{IsLine};
ghost use Rattle.filter_state.specs.States.{Row, State};
ghost use Rattle.filter_state.specs.Tables.{mask_row, filter_row};
ghost use Rattle.hook_law.specs.Standing.{IsMaskAt};
ghost use Rattle.hook_store_law.specs.Blocks.{hook_codec};
ghost use Rattle.hook_store_law.specs.OfEdits.Premises.{now, IsAccepted, IsAddOf, IsOfFilters, named_row};
ghost use Rattle.desk_actions.specs.OfLedgers.Kept.{commits, base, IsWhole};
ghost use Rattle.desk_masks.specs.Tables.{HasTables};
ghost use Rattle.desk_parts.specs.OfFinding.Found.{IsMaskOf};
ghost use Rattle.desk_parts.specs.Desk.{IsDesk};
ghost use Rattle.desk_needs.specs.Live.{count_of};
ghost use Rattle.desk_parts.specs.OfWays.Ways.{IsMaskWith, HasBehind, IsThere, IsSeen};
ghost use Rattle.desk_parts.specs.OfWays.Ways.{IsWay, AreFew};

use crate::Parts;
use crate::finding::{FoundFilter, FoundMask, find_filter, find_mask};
use crate::ways::way::Way;
use desk_masks::HookTables;
use desk_masks::filters::later_in_bucket;
use filter_state::{Edit, FilterLine};
use flow_fields::Key;
use flow_mask::hash;
use tc_base::Hook;

// The tables of a hook.
fn tables_of(parts: &Parts, hook: Hook) -> &HookTables
    requires { IsDesk parts.now }
    ensures { HasTables hook result.now (commits parts.now.ledger) }
{
    match hook {
        Hook::Ingress => &parts.ingress,
        Hook::Egress => &parts.egress,
    }
}

// The mask with those words in a table.
fn mask_in(parts: &Parts, hook: Hook, chain: u32, pref: u32, mask: &Key<14>) -> Option<FoundMask>
    requires { IsDesk parts.now }
    ensures some { IfSome result (IsMaskOf (commits parts.now.ledger) hook chain pref mask.now.words) }
    ensures few { IfSome result (λ found. found.count ≤ FILTERS_MAX) }
    ensures none { result ≡ None
        → mask_row hook chain pref mask.now.words (now (commits parts.now.ledger)).rows ≡ None }
{
    find_mask(
        &parts.ledger,
        tables_of(parts, hook),
        hook,
        chain,
        pref,
        mask,
    )
}

// A filter is added. A line without a pref gets one that no table of the chain has.
fn way_in(parts: &Parts, line: &FilterLine) -> Way
    requires { IsDesk parts.now }
    ensures way { (y : AnEdit) → IsAddOf (now (commits parts.now.ledger)) line.now y
        → IsWay (commits parts.now.ledger) y result }
    ensures few { AreFew result }
{
    let found = match line.pref {
        Some(pref) => mask_in(parts, line.hook, line.chain, pref, &line.mask),
        None => None,
    };
    match found {
        Some(mask) => Way::IntoMask {
            slot: mask.slot,
            count: mask.count as u32,
        },
        None => Way::WithMask { hook: line.hook },
    }
}

// A filter that a line names, against the line.
#[derive(Clone, Copy)]
struct Seen {
    mask: FoundMask,
    has_mask: bool,
    has_key: bool,
}

// The filter that is there with a handle, against a line.
fn look_at(parts: &Parts, line: &FilterLine, pref: u32, handle: u32) -> Option<Seen>
    requires { IsDesk parts.now }
    ensures some { IfSome result (λ seen. IsSeen (commits parts.now.ledger) line.now pref handle seen) }
    ensures none { result ≡ None → filter_row line.now.hook line.now.chain pref handle
        (now (commits parts.now.ledger)).rows ≡ None }
{
    let tables = tables_of(parts, line.hook);
    let found = find_filter(&parts.ledger, tables, line.hook, line.chain, pref, handle)?;
    Some(Seen {
        mask: found.mask,
        has_mask: found.words.words == line.mask.words,
        has_key: found.filter.key.words == line.key.words,
    })
}

// How many later filters the bucket of a filter has, which is there. The hash is that of its key.
fn later_than(parts: &mut Parts, slot: u32, handle: u32, hash: u64) -> u32
    requires desk { IsDesk parts.old }
    requires there { (row : Row) × IsThere (commits parts.old.ledger) row handle
        × IsMaskAt hook_codec (commits parts.old.ledger) row.mask_serial slot }
    ensures behind { (row : Row) → IsThere (commits parts.old.ledger) row handle
        → IsMaskAt hook_codec (commits parts.old.ledger) row.mask_serial slot
        → HasBehind (commits parts.old.ledger) row result }
    ensures few { result ≤ FILTERS_MAX }
    ensures same { parts.new ≡ parts.old }
{
    later_in_bucket(&mut parts.masks, slot, handle, hash)
}

// A filter goes to another mask.
fn way_over(parts: &Parts, line: &FilterLine, pref: u32, mask: FoundMask) -> Way
    requires desk { IsDesk parts.now }
    requires there { (row : Row) × (named_row (now (commits parts.now.ledger)) line.now ≡ Some row)
        × (row.pref ≡ pref) × (row.mask ≢ line.now.mask.words)
        × IsMaskWith (commits parts.now.ledger) row.mask_serial mask.slot mask.count }
    ensures way { IsWay (commits parts.now.ledger) (edits.FilterReplace line.now) result }
    ensures few { AreFew result }
{
    let target = mask_in(parts, line.hook, line.chain, pref, &line.mask);
    Way::OtherMask {
        hook: line.hook,
        slot: mask.slot,
        count: mask.count as u32,
        into: target.map(|mask| mask.slot),
        others: match target {
            Some(mask) => mask.count as u32,
            None => 0,
        },
    }
}

// A filter is replaced, or added where it isn't there.
fn way_to_replace(parts: &mut Parts, line: &FilterLine) -> Way
    requires desk { IsDesk parts.old }
    requires line { IsLine (edits.FilterReplace line.now) }
    ensures way { IsWay (commits parts.old.ledger) (edits.FilterReplace line.now) result }
    ensures few { AreFew result }
    ensures same { parts.new ≡ parts.old }
{
    let (Some(pref), Some(handle)) = (line.pref, line.handle) else {
        unreachable!()
    };
    let Some(seen) = look_at(parts, line, pref, handle) else {
        return way_in(parts, line);
    };
    let mask = seen.mask;
    if !seen.has_mask {
        return way_over(parts, line, pref, mask);
    }
    if seen.has_key {
        Way::InPlace {
            slot: mask.slot,
            later: later_than(parts, mask.slot, handle, hash(&line.key)),
        }
    } else {
        Way::OtherKey {
            hook: line.hook,
            slot: mask.slot,
            count: mask.count as u32,
        }
    }
}

// A filter is deleted, which is there.
fn way_out(parts: &mut Parts, hook: Hook, chain: u32, pref: u32, handle: u32) -> Way
    requires desk { IsDesk parts.old }
    requires there { (row : Row)
        × (filter_row hook chain pref handle (now (commits parts.old.ledger)).rows ≡ Some row) }
    ensures way { (protocol : Option Proto) → IsWay (commits parts.old.ledger)
        (edits.FilterDel hook protocol chain pref (Some handle)) result }
    ensures few { AreFew result }
    ensures same { parts.new ≡ parts.old }
{
    let found = find_filter(
        &parts.ledger,
        tables_of(parts, hook),
        hook,
        chain,
        pref,
        handle,
    );
    let Some(FoundFilter { mask, filter, .. }) = found else {
        unreachable!()
    };
    let hash = hash(&filter.key);
    if mask.count == 1 {
        return Way::Closes { hook };
    }
    Way::OutOfMask {
        slot: mask.slot,
        count: mask.count as u32,
        later: later_than(parts, mask.slot, handle, hash),
    }
}

/// How an accepted edit of filters is going to be done.
pub fn way_of(parts: &mut Parts, edit: &Edit) -> Way
    requires desk { IsDesk parts.old }
    requires accepted { (t : State) × (done : Done)
        × IsAccepted (commits parts.old.ledger) (base parts.old.ledger) edit.now t done }
    requires filters { IsOfFilters edit.now }
    ensures way { IsWay (commits parts.old.ledger) edit.now result }
    ensures few { AreFew result }
    ensures same { parts.new ≡ parts.old }
{
    match edit {
        Edit::FilterAdd(line) => way_in(parts, line),
        Edit::FilterReplace(line) => way_to_replace(parts, line),
        Edit::FilterDel {
            hook,
            chain,
            pref,
            handle,
            ..
        } => match handle {
            Some(handle) => way_out(parts, *hook, *chain, *pref, *handle),
            None => Way::Closes { hook: *hook },
        },
        _ => unreachable!(),
    }
}

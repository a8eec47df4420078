//! The mask of the filter that a line names.
ghost use Rattle.std.specs.Prelude.{◌≡◌, Some};
ghost use Rattle.filter_state.specs.States.{Row};
ghost use Rattle.hook_store_law.specs.OfEdits.Premises.{now, named_row};
ghost use Rattle.desk_actions.specs.OfLedgers.Kept.{commits};
ghost use Rattle.desk_masks.specs.Tables.{HasTables};
ghost use Rattle.desk_parts.specs.Desk.{IsDesk};

use desk_masks::HookTables;
use desk_parts::Parts;
use desk_parts::finding::find_filter;
use filter_lists::FilterLine;
use flow_fields::Key;
use tc_base::Hook;

// The tables of a hook.
fn tables_of(parts: &Parts, hook: Hook) -> &HookTables
    requires { IsDesk parts.now }
    ensures { HasTables hook result.now (commits parts.now.ledger) }
{
    match hook {
        Hook::Ingress => &parts.ingress,
        Hook::Egress => &parts.egress,
    }
}

/// The words of the mask of the filter that a line names, which is there.
pub(crate) fn mask_named(parts: &Parts, line: &FilterLine) -> Key<14>
    requires desk { IsDesk parts.now }
    requires there { (row : Row) × (named_row (now (commits parts.now.ledger)) line.now ≡ Some row) }
    ensures { (row : Row) → named_row (now (commits parts.now.ledger)) line.now ≡ Some row
        → result.words ≡ row.mask }
{
    let tables = tables_of(parts, line.hook);
    let pref = line.pref.unwrap_or(0);
    let handle = line.handle.unwrap_or(0);
    match find_filter(&parts.ledger, tables, line.hook, line.chain, pref, handle) {
        Some(found) => *found.words,
        None => unreachable!(),
    }
}

//! The filter that a line names.
ghost use Rattle.std.specs.Prelude.{◌≡◌, IfSome, None};
ghost use Rattle.filter_state.specs.Tables.{filter_row};
ghost use Rattle.hook_store_law.specs.OfEdits.Premises.{now};
ghost use Rattle.desk_actions.specs.OfLedgers.Kept.{commits, IsWhole};
ghost use Rattle.desk_masks.specs.Tables.{HasTables};
ghost use Rattle.desk_parts.specs.OfFinding.Found.{IsFilterOf};

use crate::finding::masks::FoundMask;
use crate::finding::slots::slot_at;
use crate::finding::tables::table_at;
use desk_actions::ledgers::Ledger;
use desk_masks::HookTables;
use filter_lists::Filter;
use flow_fields::Key;
use hook_lists::mask_at;
use tc_base::Hook;

/// A filter that is there, with its mask and that mask's words.
#[derive(Clone, Copy)]
pub struct FoundFilter<'a> {
    pub mask: FoundMask,
    pub words: &'a Key<14>,
    pub filter: &'a Filter,
}

/// The filter of that handle in the table of that chain and pref of a hook, where it is there.
pub fn find_filter<'a>(
    ledger: &'a Ledger,
    tables: &HookTables,
    hook: Hook,
    chain: u32,
    pref: u32,
    handle: u32,
) -> Option<FoundFilter<'a>>
    requires whole { IsWhole ledger.now }
    requires tables { HasTables hook tables.now (commits ledger.now) }
    ensures some { IfSome result (IsFilterOf (commits ledger.now) hook chain pref handle) }
    ensures none { result ≡ None
        → filter_row hook chain pref handle (now (commits ledger.now)).rows ≡ None }
{
    let tables_of = ledger.lists.tables(hook);
    let place = ledger.lists.find_table(hook, chain, pref)?;
    let table = table_at(tables_of, place);
    let at = table.masks.find_handle(handle)?;
    let found = mask_at(&table.masks, at);
    let filter = found.filters().with_handle(handle)?;
    Some(FoundFilter {
        mask: FoundMask {
            serial: found.serial(),
            slot: slot_at(ledger, hook, tables, place, at),
            count: found.filters().len(),
        },
        words: found.mask(),
        filter,
    })
}

//! The mask of a line.
ghost use Rattle.std.specs.Prelude.{◌≡◌, IfSome, None};
ghost use Rattle.filter_state.specs.Tables.{mask_row};
ghost use Rattle.hook_store_law.specs.OfEdits.Premises.{now};
ghost use Rattle.desk_actions.specs.OfLedgers.Kept.{commits, IsWhole};
ghost use Rattle.desk_masks.specs.Tables.{HasTables};
ghost use Rattle.desk_parts.specs.OfFinding.Found.{IsMaskOf};

use crate::finding::slots::slot_at;
use crate::finding::tables::table_at;
use desk_actions::ledgers::Ledger;
use desk_masks::HookTables;
use flow_fields::Key;
use hook_lists::mask_at;
use tc_base::Hook;

/// A mask that stands: its serial, its slot, and how many filters it has.
#[derive(Clone, Copy, Debug)]
pub struct FoundMask {
    pub serial: u32,
    pub slot: u32,
    pub count: usize,
}

/// The mask with those words in the table of that chain and pref of a hook, where it stands.
pub fn find_mask(
    ledger: &Ledger,
    tables: &HookTables,
    hook: Hook,
    chain: u32,
    pref: u32,
    mask: &Key<14>,
) -> Option<FoundMask>
    requires whole { IsWhole ledger.now }
    requires tables { HasTables hook tables.now (commits ledger.now) }
    ensures some { IfSome result (IsMaskOf (commits ledger.now) hook chain pref mask.now.words) }
    ensures none { result ≡ None
        → mask_row hook chain pref mask.now.words (now (commits ledger.now)).rows ≡ None }
{
    let tables_of = ledger.lists.tables(hook);
    let place = ledger.lists.find_table(hook, chain, pref)?;
    let table = table_at(tables_of, place);
    let at = table.masks.find_mask(mask)?;
    let found = mask_at(&table.masks, at);
    Some(FoundMask {
        serial: found.serial(),
        slot: slot_at(ledger, hook, tables, place, at),
        count: found.filters().len(),
    })
}

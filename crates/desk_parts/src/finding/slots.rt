//! The slot of a mask at a place.
ghost use Rattle.std.specs.Prelude.{◌≡◌, ◌<◌, length, slice_get, Some};
ghost use Rattle.filter_tables.specs.Plain.{PlainMask, PlainTable};
ghost use Rattle.filter_tables.specs.Places.{item_at};
ghost use Rattle.filter_tables.specs.Rows.{tables_on};
ghost use Rattle.hook_lists.specs.States.{both_of, AreKept};
ghost use Rattle.hook_store_law.specs.Blocks.{hook_codec};
ghost use Rattle.hook_law.specs.Standing.{IsMaskAt};
ghost use Rattle.desk_actions.specs.OfLedgers.Kept.{commits, IsWhole};
ghost use Rattle.desk_masks.specs.Tables.{HasTables};

use block_codec::{MaskSlots, StoredTable};
use desk_actions::ledgers::Ledger;
use desk_masks::HookTables;
use tc_base::Hook;
use visit_room::MaskName;

// The table at a place.
fn stored_at(tables: &[StoredTable], table: usize) -> &StoredTable
    requires { table < length tables.now }
    ensures { slice_get tables.now table ≡ Some result.now }
{
    &tables[table]
}

// The mask at a place.
fn name_at(masks: &MaskSlots, mask: usize) -> MaskName
    requires { mask < length masks.now }
    ensures { slice_get masks.now mask ≡ Some result }
{
    masks.items()[mask]
}

/// The slot of the mask that stands at a place of the table at a place of the lists.
pub(crate) fn slot_at(
    _ledger: &Ledger,
    _hook: Hook,
    tables: &HookTables,
    table: usize,
    mask: usize,
) -> u32
    requires whole { IsWhole _ledger.now }
    requires kept { AreKept _ledger.now.lists }
    requires tables { HasTables _hook tables.now (commits _ledger.now) }
    requires there { (t : PlainTable) × (m : PlainMask)
        × (item_at (tables_on _hook (both_of _ledger.now.lists)) table ≡ Some t)
        × (item_at t.masks mask ≡ Some m) }
    ensures { (t : PlainTable) (m : PlainMask)
        → item_at (tables_on _hook (both_of _ledger.now.lists)) table ≡ Some t
        → item_at t.masks mask ≡ Some m
        → IsMaskAt hook_codec (commits _ledger.now) m.serial result }
{
    let stored = stored_at(tables.tables.as_slice(), table);
    name_at(&stored.masks, mask).slot
}

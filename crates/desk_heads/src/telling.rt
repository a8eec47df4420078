//! The tables of a hook as they are stored after an edit.
ghost use Rattle.std.specs.Prelude.{◌≡◌, ◌<◌, ◌≤◌, ◌^◌, ℕ, [], length, map, slice_get, Some, All};
ghost use Rattle.visit_room.specs.declared.names.MaskName.{MaskName};
ghost use Rattle.visit_room.specs.declared.limits.TheConstants.{HEAD_MASKS};
ghost use Rattle.block_codec.specs.declared.table.StoredTable.{StoredTable};
ghost use Rattle.block_codec.specs.declared.places.TheConstants.{TABLES};
ghost use Rattle.filter_tables.specs.Seen.{plain_table};
ghost use Rattle.filter_tables.specs.SeenMask.{plain_mask};
ghost use Rattle.filter_tables.specs.Rows.{tables_on};
ghost use Rattle.hook_lists.specs.States.{both_of, AreKept};
ghost use Rattle.head_laws.specs.Heads.{head_of, serials_of};
ghost use Rattle.hook_store_law.specs.Stated.{table_stated};
ghost use Rattle.desk_masks.specs.OfHeadChains.Chains.{stated_of};
ghost use Rattle.desk_heads.specs.OfHeadCommits.Listed.{HasSerial};
ghost use Rattle.desk_heads.specs.Slots.{HasSlotIn, AreInSlots, FitsNumbers};

use crate::slots::slot_for;
use block_codec::{MaskSlots, StoredTable};
use filter_lists::Lists;
use filter_tables::{FilterTable, MaskList};
use miniq_pair::StoredTables;
use tc_base::Hook;
use visit_room::MaskName;

// The masks of a table with their slots, in order.
fn slots_of(masks: &[MaskList], old: &[StoredTable], built: &[MaskName], near: usize) -> MaskSlots
    requires few { length masks.now ≤ HEAD_MASKS }
    requires near { near ≤ TABLES }
    requires known { (place serial : ℕ)
        → slice_get (serials_of (map plain_mask masks.now)) place ≡ Some serial
        → (slot : ℕ) × HasSlotIn old.now built.now serial slot }
    ensures serials { map (λ (name : MaskName). name.serial) result ≡ serials_of (map plain_mask masks.now) }
    ensures slots { AreInSlots old.now built.now result }
    ensures numbers { All (λ name. name.serial < 2 ^ 32) result }
{
    let mut slots = MaskSlots::new();
    for mask in masks {
        let serial = mask.serial();
        let slot = slot_for(old, built, near, serial);
        slots.push(MaskName { serial, slot });
    }
    slots
}

// The number. A caller that has it behind a reference learns that it has 32 bits.
fn number_of(number: u32) -> u32
    ensures same { result ≡ number }
    ensures fits { result < 2 ^ 32 }
{
    number
}

// A table as it is stored, with the slots of its masks.
fn stored_table(
    table: &FilterTable,
    old: &[StoredTable],
    built: &[MaskName],
    near: usize,
) -> StoredTable
    requires few { length table.now.masks.masks ≤ HEAD_MASKS }
    requires near { near ≤ TABLES }
    requires known { (place serial : ℕ) → slice_get (serials_of table.now.masks.masks) place ≡ Some serial
        → (slot : ℕ) × HasSlotIn old.now built.now serial slot }
    ensures stated { stated_of result ≡ table_stated (head_of (plain_table table.now)) }
    ensures slots { AreInSlots old.now built.now result.masks }
    ensures numbers { FitsNumbers result }
{
    StoredTable {
        serial: number_of(table.serial),
        chain: table.chain,
        pref: table.pref,
        protocol: table.protocol,
        masks: slots_of(table.masks.as_slice(), old, built, near),
    }
}

/// Puts the tables of a hook into an empty list, as they are stored. A mask that was built for the edit has
/// the slot where it was built, and another one that of the old tables.
pub(crate) fn tell_tables(
    into: &mut StoredTables,
    lists: &Lists,
    hook: Hook,
    old: &[StoredTable],
    built: &[MaskName],
)
    requires empty { into.old ≡ [] }
    requires known { AreKept lists.now → (mask : ℕ)
        → HasSerial (map table_stated (map head_of (tables_on hook (both_of lists.now)))) mask
        → (slot : ℕ) × HasSlotIn old.now built.now mask slot }
    ensures stated { map stated_of into.new
        ≡ map table_stated (map head_of (tables_on hook (both_of lists.now))) }
    ensures slots { All (λ table. AreInSlots old.now built.now table.masks) into.new }
    ensures numbers { All FitsNumbers into.new }
    ensures kept { AreKept lists.now }
{
    let tables = lists.tables(hook);
    for (place, table) in tables.iter().enumerate() {
        into.push(stored_table(table, old, built, place));
    }
}

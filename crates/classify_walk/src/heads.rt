//! The tables of a hook, told to a walk.
ghost use Rattle.std.specs.Prelude.{◌≡◌, ◌<◌, ◌≤◌, [], true, length, map, Some};
ghost use Rattle.filter_state.specs.declared.limits.TheConstants.{MASKS_MAX, TABLES_MAX};
ghost use Rattle.hook_lists.specs.States.{both_of, AreKept};
ghost use Rattle.filter_tables.specs.Rows.{tables_on};
ghost use Rattle.filter_tables.specs.Seen.{plain_table};
ghost use Rattle.filter_tables.specs.SeenMask.{plain_mask};
ghost use Rattle.walk_steps.specs.Told.{head_told, heads_told, mask_serials};
ghost use Rattle.visit_room.specs.Heads.{last_masks};
ghost use Rattle.head_laws.specs.Heads.{head_of, serials_of};
ghost use Rattle.classify_walk.specs.Heads.{with_masks_behind};

use filter_lists::{FilterTable, Lists, MaskList};
use tc_base::Hook;
use visit_room::{HeadRoom, MaskName, TableHead};

// Where a mask stands, in one number: its hook, its place in its table, and the table's place in its hook.
fn slot_of(hook: Hook, table: usize, mask: usize) -> u32
    requires table { table < TABLES_MAX }
    requires mask { mask < MASKS_MAX }
{
    let side = match hook {
        Hook::Ingress => 0,
        Hook::Egress => 1,
    };
    (table as u32) << 5 | (mask as u32) << 1 | side
}

/// Tells the tables of a hook, in place of those that were told.
///
/// Walks over lists that stay as they are get the same tables each time. So those of the last walk are looked
/// at first: that costs half as much as telling them anew.
pub fn tell_heads(lists: &Lists, hook: Hook, into: &mut HeadRoom)
    ensures told { heads_told into.new.tables ≡ map head_of (tables_on hook (both_of lists.now)) }
    ensures kept { AreKept lists.now }
{
    into.recall();
    if !are_told(lists.tables(hook), into.heads()) {
        into.clear();
        tell_anew(lists, hook, into);
    }
}

// Whether the heads are those of these tables.
fn are_told(tables: &[FilterTable], heads: &[TableHead]) -> bool
    ensures { result ≡ true → heads_told heads.now ≡ map head_of (map plain_table tables.now) }
{
    if tables.len() != heads.len() {
        return false;
    }
    for (place, table) in tables.iter().enumerate() {
        if !is_told(table, &heads[place]) {
            return false;
        }
    }
    true
}

// Whether the head is the table's.
fn is_told(table: &FilterTable, head: &TableHead) -> bool
    ensures { result ≡ true → head_told head.now ≡ head_of (plain_table table.now) }
{
    if head.serial != table.serial || head.chain != table.chain || head.pref != table.pref {
        return false;
    }
    head.protocol == table.protocol && masks_are_told(table.masks.as_slice(), head.masks.as_slice())
}

// Whether the names are those of these masks.
fn masks_are_told(masks: &[MaskList], names: &[MaskName]) -> bool
    ensures { result ≡ true → mask_serials names.now ≡ serials_of (map plain_mask masks.now) }
{
    if masks.len() != names.len() {
        return false;
    }
    for (place, mask) in masks.iter().enumerate() {
        if names[place].serial != mask.serial() {
            return false;
        }
    }
    true
}

// Tells the tables of a hook.
fn tell_anew(lists: &Lists, hook: Hook, into: &mut HeadRoom)
    requires empty { into.old.tables ≡ [] }
    ensures told { heads_told into.new.tables ≡ map head_of (tables_on hook (both_of lists.now)) }
    ensures kept { AreKept lists.now }
{
    let tables = lists.tables(hook);
    for (place, table) in tables.iter().enumerate() {
        into.push(table.serial, table.chain, table.pref, table.protocol);
        tell_masks(table.masks.as_slice(), hook, place, into);
    }
}

// Tells the masks of the table that was told last.
fn tell_masks(masks: &[MaskList], hook: Hook, table: usize, into: &mut HeadRoom)
    requires table { table < TABLES_MAX }
    requires few { length masks.now ≤ MASKS_MAX }
    requires bare { last_masks into.old.tables ≡ Some [] }
    ensures { heads_told into.new.tables
        ≡ with_masks_behind (serials_of (map plain_mask masks.now)) (heads_told into.old.tables) }
{
    for (place, mask) in masks.iter().enumerate() {
        into.push_mask(MaskName {
            serial: mask.serial(),
            slot: slot_of(hook, table, place),
        });
    }
}

//! The slots of masks in tables.
ghost use Rattle.std.specs.Prelude.{◌≡◌, ◌<◌, ◌≤◌, ◌⊎◌, ℕ, IfSome, IfNone, length};
ghost use Rattle.visit_room.specs.declared.names.MaskName.{MaskName};
ghost use Rattle.block_codec.specs.declared.places.TheConstants.{TABLES};
ghost use Rattle.desk_masks.specs.OfHeadChains.Chains.{IsNamedIn};
ghost use Rattle.desk_heads.specs.Slots.{HasSlotIn};
ghost use Rattle.desk_heads.specs.OfHeadCommits.Built.{IsBuilt};

use block_codec::StoredTable;
use visit_room::MaskName;

// The slot of the mask with that serial among the names.
fn find_slot(names: &[MaskName], serial: u32) -> Option<u32>
    ensures found { IfSome result (λ slot. IsBuilt names.now serial slot) }
    ensures missing { IfNone result ((slot : ℕ) → IsBuilt names.now serial slot → ⊥) }
{
    for name in names {
        if name.serial == serial {
            return Some(name.slot);
        }
    }
    None
}

// The slot of the mask in the table at a place, if it is there.
fn slot_at(tables: &[StoredTable], place: usize, serial: u32) -> Option<u32>
    ensures { IfSome result (λ slot. IsNamedIn tables.now serial slot) }
{
    let table = tables.get(place)?;
    find_slot(table.masks.items(), serial)
}

// The slot of the mask, by a search of all tables.
fn search_slot(tables: &[StoredTable], serial: u32) -> u32
    requires { (slot : ℕ) × IsNamedIn tables.now serial slot }
    ensures { IsNamedIn tables.now serial result }
{
    for place in 0..tables.len() {
        if let Some(slot) = find_slot(tables[place].masks.items(), serial) {
            return slot;
        }
    }
    unreachable!()
}

// The slot of the mask in tables where its table stands at a place, or beside it, but for rare edits.
fn slot_near(tables: &[StoredTable], near: usize, serial: u32) -> u32
    requires there { (slot : ℕ) × IsNamedIn tables.now serial slot }
    requires near { near ≤ TABLES }
    ensures { IsNamedIn tables.now serial result }
{
    for place in near.saturating_sub(1)..near + 2 {
        if let Some(slot) = slot_at(tables, place, serial) {
            return slot;
        }
    }
    search_slot(tables, serial)
}

/// The slot of a mask: where it was built for the edit, or else the one of the old tables, of which its own
/// stands near that place.
pub(crate) fn slot_for(old: &[StoredTable], built: &[MaskName], near: usize, serial: u32) -> u32
    requires known { (slot : ℕ) × HasSlotIn old.now built.now serial slot }
    requires near { near ≤ TABLES }
    ensures { HasSlotIn old.now built.now serial result }
{
    match find_slot(built, serial) {
        Some(slot) => slot,
        None => slot_near(old, near, serial),
    }
}

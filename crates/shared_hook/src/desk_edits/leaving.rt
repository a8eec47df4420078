//! Masks that went leave.
ghost use Rattle.std.specs.Prelude.{◌≡◌, ◌<◌, ◌≤◌, ◌^◌, [], ◌∷◌, length};
ghost use Rattle.block_codec.specs.declared.places.TheConstants.{TABLES};
ghost use Rattle.desk_parts.specs.Desk.{AreSized};
ghost use Rattle.shared_hook.specs.OfDeskEdits.Parting.{has_name, is_named, names_in, gone_of, HaveLeft, IsParting};
ghost use Rattle.shared_hook.specs.OfDeskEdits.Parting.{MayPart, MayAllPart};

use block_codec::StoredTable;
use desk_heads::forget_mask;
use desk_pools::Pools;
use mask_writer::MaskWriter;
use visit_room::MaskName;

// One of the names has the serial.
fn has_name(names: &[MaskName], serial: u32) -> bool
    ensures { result ≡ has_name serial names.now }
{
    names.iter().any(|name| name.serial == serial)
}

// One of the tables has a mask with the serial. Where there is one it mostly stands near that place.
fn is_named(tables: &[StoredTable], near: usize, serial: u32) -> bool
    requires { near < 2 ^ 32 }
    ensures { result ≡ is_named tables.now serial }
{
    for place in near.saturating_sub(1)..near + 1 {
        if place < tables.len() && has_name(tables[place].masks.items(), serial) {
            return true;
        }
    }
    tables
        .iter()
        .any(|table| has_name(table.masks.items(), serial))
}

/// The mask at a slot, which is gone, leaves the writer, and then its slot, its rows and its blocks leave.
pub fn part_with(masks: &mut MaskWriter, pools: &mut Pools, slot: u32)
    requires may { MayPart masks.old pools.old slot }
    requires sized { AreSized pools.old }
    ensures parting { (at : MayPart masks.old pools.old slot)
        → IsParting masks.new pools.new at.shape at.cells at.h at.b at.count at.tables at.rest }
    ensures left { (at : MayPart masks.old pools.old slot)
        → HaveLeft at.count pools.old pools.new (at.name.serial ∷ []) }
    ensures sized { AreSized pools.new }
{
    forget_mask(masks, slot);
    pools.leave_mask(slot);
    pools.leave_rows(masks.left_rows());
    pools.leave_blocks(masks.left_blocks());
}

// The masks with these names leave that the tables don't have.
fn part_with_some(
    masks: &mut MaskWriter,
    pools: &mut Pools,
    names: &[MaskName],
    tables: &[StoredTable],
    near: usize,
)
    requires may { MayAllPart masks.old pools.old tables.now names.now }
    requires sized { AreSized pools.old }
    requires near { near < 2 ^ 32 }
    ensures parting { (at : MayAllPart masks.old pools.old tables.now names.now)
        → IsParting masks.new pools.new at.shape at.cells at.h at.b at.count tables.now at.rest }
    ensures left { (at : MayAllPart masks.old pools.old tables.now names.now)
        → HaveLeft at.count pools.old pools.new (gone_of tables.now names.now) }
    ensures sized { AreSized pools.new }
{
    for name in names {
        if !is_named(tables, near, name.serial) {
            part_with(masks, pools, name.slot);
        }
    }
}

/// The masks of the old tables of a hook that the new ones don't have leave the writer, which holds them
/// still, and what they have leaves the pools.
pub(crate) fn part_with_gone(
    masks: &mut MaskWriter,
    pools: &mut Pools,
    old: &[StoredTable],
    tables: &[StoredTable],
)
    requires may { MayAllPart masks.old pools.old tables.now (names_in old.now) }
    requires sized { AreSized pools.old }
    requires few { length old.now ≤ TABLES }
    ensures parting { (at : MayAllPart masks.old pools.old tables.now (names_in old.now))
        → IsParting masks.new pools.new at.shape at.cells at.h at.b at.count tables.now at.rest }
    ensures left { (at : MayAllPart masks.old pools.old tables.now (names_in old.now))
        → HaveLeft at.count pools.old pools.new (gone_of tables.now (names_in old.now)) }
    ensures sized { AreSized pools.new }
{
    for place in 0..old.len() {
        part_with_some(masks, pools, old[place].masks.items(), tables, place);
    }
}

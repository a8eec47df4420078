//! Filters that are put into masks.
ghost use Rattle.store_history.specs.declared.places.TheConstants.{MASK_SLOTS, POOL_BLOCKS};
ghost use Rattle.block_codec.specs.Shapes.{HasPoolAndRoots};
ghost use Rattle.std.specs.Prelude.{◌≡◌, ◌≢◌, ◌<◌, ◌≤◌, ◌++◌, ◌∷◌, ℕ, List, [], length, slice_index};
ghost use Rattle.store_history.specs.History.{root_of};
ghost use Rattle.pin_store.specs.Layout.{block_words};
ghost use Rattle.pin_store.specs.Sheets.{base_of, IsSameButCells};
ghost use Rattle.pin_store.specs.Calls.{seen_by, sheet_of, IsSeatOf, IsUnnamed};
ghost use Rattle.block_codec.specs.Filters.{IsStorableFilter};
ghost use Rattle.block_codec.specs.declared.filter.StoredFilter.{StoredFilter};
ghost use Rattle.mask_table.specs.declared.mirrors.mirror.KeptMask.{KeptMask};
ghost use Rattle.mask_table.specs.OfMirrors.Kept.{Stands, IsKept};
ghost use Rattle.mask_table.specs.OfMirrors.Lists.{age_of, HasFilters};
ghost use Rattle.mask_table.specs.OfMirrors.Changing.{root_for, insert_at};

use crate::blocks::Blocks;
use block_codec::StoredFilter;
use mask_bucket_edits::rename;
use mask_table::mirrors::{Mirror, NumberRoom, place_in, put_in_front};
use pin_store::{Store, Writer};
use store_history::{EditName, Law};
use tc_base::Point;

// The age of the first filter that an edit brings.
fn first_age(edit: Point) -> u64
    ensures { result ≡ age_of edit 0 }
{
    u64::from(edit) << 32
}

/// Puts a filter into the mask that is kept for a slot: fills the given block, and makes the one commit that
/// names it in front of the chain of its bucket. The law must hold of all commits with this one.
pub(crate) fn insert_filter<L: Law, E: EditName<L::Entry>>(
    room: &mut NumberRoom,
    mirror: &mut Mirror,
    writer: &mut Writer<L>,
    store: &Store<L>,
    slot: u32,
    filter: &StoredFilter,
    given: &Blocks,
    edit: Point,
)
    requires store { IsSeatOf store.now writer.old.place }
    requires shape { HasPoolAndRoots store.now.shape.words store.now.shape.blocks store.now.shape.roots }
    requires slot { slot < MASK_SLOTS }
    requires stands { (kept : KeptMask) × Stands mirror.old slot kept }
    requires storable { IsStorableFilter filter.now }
    requires given { (length given.now.blocks ≡ 1) × (slice_index given.now.blocks 0 < POOL_BLOCKS) }
    requires free { IsUnnamed (base_of (sheet_of writer.old.place)) (seen_by writer.old.place)
        (slice_index given.now.blocks 0) }
    requires kept { IsKept mirror.old store.now.shape (sheet_of writer.old.place).cells
        (root_of (seen_by writer.old.place)) }
    requires lawful { (kept : KeptMask) → Stands mirror.old slot kept → L.keeps
        (seen_by writer.old.place ++ insert_at (seen_by writer.old.place) (root_for kept.mask filter.now)
        (slice_index given.now.blocks 0) filter.now edit E.edit ∷ [])
        (base_of (sheet_of writer.old.place)) }
    ensures store { IsSeatOf store.now writer.new.place }
    ensures seen { (kept : KeptMask) → Stands mirror.old slot kept → seen_by writer.new.place
        ≡ seen_by writer.old.place ++ insert_at (seen_by writer.old.place) (root_for kept.mask filter.now)
        (slice_index given.now.blocks 0) filter.now edit E.edit ∷ [] }
    ensures sheet { IsSameButCells (sheet_of writer.old.place) (sheet_of writer.new.place) }
    ensures others { (other : ℕ) → other ≢ slice_index given.now.blocks 0 → other < store.now.shape.blocks
        → block_words store.now.shape (sheet_of writer.new.place).cells other
        ≡ block_words store.now.shape (sheet_of writer.old.place).cells other }
    ensures kept { IsKept mirror.new store.now.shape (sheet_of writer.new.place).cells
        (root_of (seen_by writer.new.place)) }
    ensures masks { mirror.new.slots.items ≡ mirror.old.slots.items }
    ensures list { (last : ℕ) (fs : List StoredFilter) → HasFilters mirror.old slot last fs → last < edit
        → HasFilters mirror.new slot edit (fs ++ filter.now ∷ []) }
    ensures lists { (other last : ℕ) (fs : List StoredFilter) → other ≢ slot
        → HasFilters mirror.old other last fs
        → HasFilters mirror.new other last fs }
{
    let block = given.blocks.as_slice()[0];
    let place = place_in(mirror, slot, &filter.key);
    let next = mirror.first[place as usize];
    put_in_front(mirror, writer, store, block, filter, first_age(edit), next);
    rename::<L, E>(room, mirror, writer, store, place, block + 1, edit);
}

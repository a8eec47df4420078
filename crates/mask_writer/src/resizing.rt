//! Masks that get another number of buckets.
ghost use Rattle.store_history.specs.declared.places.TheConstants.{MASK_SLOTS};
ghost use Rattle.block_codec.specs.Shapes.{HasPool, HasPoolAndRoots};
ghost use Rattle.std.specs.Prelude.{◌≡◌, ◌≢◌, ◌<◌, ◌≤◌, ◌+◌, ◌*◌, ◌++◌, ◌∷◌, ℕ, List, length, take, drop};
ghost use Rattle.std.specs.Prelude.{slice_index, slice_set, Some, IsTrue};
ghost use Rattle.store_history.specs.History.{root_of};
ghost use Rattle.pin_store.specs.Layout.{block_words};
ghost use Rattle.pin_store.specs.Sheets.{base_of, IsSameButCells};
ghost use Rattle.pin_store.specs.Calls.{seen_by, sheet_of, IsSeatOf};
ghost use Rattle.flow_mask.specs.Sizes.{is_size};
ghost use Rattle.block_codec.specs.declared.filter.StoredFilter.{StoredFilter};
ghost use Rattle.block_codec.specs.declared.mask.StoredMask.{StoredMask};
ghost use Rattle.block_codec.specs.Masks.{IsStorableMask};
ghost use Rattle.mask_table.specs.Buckets.{IsAmong};
ghost use Rattle.mask_table.specs.declared.mirrors.mirror.KeptMask.{KeptMask};
ghost use Rattle.mask_table.specs.OfMirrors.Kept.{Stands, IsKept};
ghost use Rattle.mask_table.specs.OfMirrors.Given.{AreGiven, AreFreeRows};
ghost use Rattle.mask_table.specs.OfMirrors.Lists.{HasFilters};
ghost use Rattle.mask_table.specs.OfMirrors.Linked.{placed, resized, raise_commits};
ghost use Rattle.mask_table.specs.OfMirrors.Forgetting.{bucket_blocks};
ghost use Rattle.mask_build.specs.Laid.{laid_in, IsLaid};

use crate::blocks::Blocks;
use block_codec::StoredMask;
use mask_build::{clear_buckets, lay_copies, raise, rows_of};
use mask_order::in_order;
use mask_table::mirrors::{Mirror, NumberRoom, gather_mask};
use pin_store::{Store, Writer};
use store_history::{EditName, Law};
use tc_base::Point;

// The mask at a slot with another number of buckets, in these rows.
fn resized_mask(mirror: &Mirror, slot: u32, size: u32, rows: &[u32]) -> StoredMask
    requires slot { slot < MASK_SLOTS }
    requires stands { (kept : KeptMask) × Stands mirror.now slot kept }
    requires few { length rows.now ≤ 64 }
    ensures { (kept : KeptMask) → Stands mirror.now slot kept → result ≡ resized kept.mask size rows.now }
{
    match &mirror.slots[slot as usize] {
        Some(kept) => StoredMask {
            serial: kept.mask.serial,
            size,
            mask: kept.mask.mask,
            rows: rows_of(rows),
        },
        None => unreachable!(),
    }
}

// All blocks but the first.
fn behind_first(blocks: &[u32]) -> &[u32]
    requires { 1 ≤ length blocks.now }
    ensures { result.now ≡ drop 1 blocks.now }
{
    &blocks[1..]
}

// Lays the filters of the mask at a slot once more, in order, into given blocks, for a mask whose rows are
// free, and answers how many they are. The blocks and rows that the mask at the slot has are told as those
// that leave.
fn relay<L: Law>(
    room: &mut NumberRoom,
    left_blocks: &mut NumberRoom,
    left_rows: &mut NumberRoom,
    mirror: &mut Mirror,
    writer: &mut Writer<L>,
    store: &Store<L>,
    slot: u32,
    mask: &StoredMask,
    blocks: &[u32],
) -> usize
    requires store { IsSeatOf store.now writer.old.place }
    requires shape { HasPool store.now.shape.words store.now.shape.blocks }
    requires slot { slot < MASK_SLOTS }
    requires mask { IsStorableMask mask.now }
    requires rows { AreFreeRows mirror.old mask.now.rows }
    requires there { (kept : KeptMask) × (last : ℕ) × (fs : List StoredFilter) × Stands mirror.old slot kept
        × HasFilters mirror.old slot last fs }
    requires many { (last : ℕ) (fs : List StoredFilter) → HasFilters mirror.old slot last fs
        → length blocks.now ≡ length fs + 1 }
    requires given { AreGiven (base_of (sheet_of writer.old.place)) (seen_by writer.old.place) blocks.now }
    requires kept { IsKept mirror.old store.now.shape (sheet_of writer.old.place).cells
        (root_of (seen_by writer.old.place)) }
    ensures store { IsSeatOf store.now writer.new.place }
    ensures seen { seen_by writer.new.place ≡ seen_by writer.old.place }
    ensures sheet { IsSameButCells (sheet_of writer.old.place) (sheet_of writer.new.place) }
    ensures others { (other : ℕ) → (IsAmong other blocks.now → ⊥) → other < store.now.shape.blocks
        → block_words store.now.shape (sheet_of writer.new.place).cells other
        ≡ block_words store.now.shape (sheet_of writer.old.place).cells other }
    ensures masks { mirror.new.slots.items ≡ mirror.old.slots.items }
    ensures count { (last : ℕ) (fs : List StoredFilter) → HasFilters mirror.old slot last fs
        → result ≡ length fs }
    ensures laid { (last : ℕ) (fs : List StoredFilter) (has : HasFilters mirror.old slot last fs)
        → IsLaid mirror.new store.now.shape (sheet_of writer.new.place).cells mask.now
        (laid_in blocks.now has.dated) }
    ensures kept { IsKept mirror.new store.now.shape (sheet_of writer.new.place).cells
        (root_of (seen_by writer.new.place)) }
    ensures lists { (other last : ℕ) (fs : List StoredFilter) → HasFilters mirror.old other last fs
        → HasFilters mirror.new other last fs }
    ensures left { (kept : KeptMask) → Stands mirror.old slot kept → (left_blocks.new
        ≡ kept.block ∷ bucket_blocks (root_of (seen_by writer.old.place)) kept.mask kept.mask.size)
        × (left_rows.new ≡ kept.mask.rows) }
{
    left_blocks.clear();
    left_rows.clear();
    gather_mask(left_blocks, left_rows, mirror, slot);
    let filled = behind_first(left_blocks.as_slice());
    in_order(room, mirror, slot, filled);
    clear_buckets(mirror, mask);
    let from = room.as_slice();
    lay_copies(mirror, writer, store, mask, from, blocks);
    from.len()
}

/// Gives the mask that is kept for a slot another number of buckets, in the given rows: fills the first given
/// blocks with its filters, in order, and the one behind them with the new record, and makes the commits that
/// name them. The law must hold of all commits with each first part of these.
pub(crate) fn resize_mask<L: Law, E: EditName<L::Entry>>(
    room: &mut NumberRoom,
    left_blocks: &mut NumberRoom,
    left_rows: &mut NumberRoom,
    mirror: &mut Mirror,
    writer: &mut Writer<L>,
    store: &Store<L>,
    slot: u32,
    size: u32,
    given: &Blocks,
    stamp: Point,
)
    requires store { IsSeatOf store.now writer.old.place }
    requires shape { HasPoolAndRoots store.now.shape.words store.now.shape.blocks store.now.shape.roots }
    requires slot { slot < MASK_SLOTS }
    requires size { IsTrue (is_size size) × (size ≡ 16 * length given.now.rows) }
    requires rows { AreFreeRows mirror.old given.now.rows }
    requires there { (kept : KeptMask) × (last : ℕ) × (fs : List StoredFilter) × Stands mirror.old slot kept
        × HasFilters mirror.old slot last fs }
    requires many { (last : ℕ) (fs : List StoredFilter) → HasFilters mirror.old slot last fs
        → length given.now.blocks ≡ length fs + 1 }
    requires given { AreGiven (base_of (sheet_of writer.old.place))
        (seen_by writer.old.place) given.now.blocks }
    requires kept { IsKept mirror.old store.now.shape (sheet_of writer.old.place).cells
        (root_of (seen_by writer.old.place)) }
    requires lawful { (kept : KeptMask) (last : ℕ) (fs : List StoredFilter) (n : ℕ)
        → Stands mirror.old slot kept
        → HasFilters mirror.old slot last fs
        → L.keeps (seen_by writer.old.place
        ++ take n (raise_commits slot (resized kept.mask size given.now.rows)
        (slice_index given.now.blocks (length fs)) (placed given.now.blocks fs) stamp))
        (base_of (sheet_of writer.old.place)) }
    ensures store { IsSeatOf store.now writer.new.place }
    ensures seen { (kept : KeptMask) (last : ℕ) (fs : List StoredFilter) → Stands mirror.old slot kept
        → HasFilters mirror.old slot last fs → seen_by writer.new.place ≡ seen_by writer.old.place
        ++ raise_commits slot (resized kept.mask size given.now.rows)
        (slice_index given.now.blocks (length fs)) (placed given.now.blocks fs) stamp }
    ensures sheet { IsSameButCells (sheet_of writer.old.place) (sheet_of writer.new.place) }
    ensures others { (other : ℕ) → (IsAmong other given.now.blocks → ⊥) → other < store.now.shape.blocks
        → block_words store.now.shape (sheet_of writer.new.place).cells other
        ≡ block_words store.now.shape (sheet_of writer.old.place).cells other }
    ensures kept { IsKept mirror.new store.now.shape (sheet_of writer.new.place).cells
        (root_of (seen_by writer.new.place)) }
    ensures masks { (kept : KeptMask) (last : ℕ) (fs : List StoredFilter) → Stands mirror.old slot kept
        → HasFilters mirror.old slot last fs → mirror.new.slots.items ≡ slice_set mirror.old.slots.items slot
        (Some (record {
          block = slice_index given.now.blocks (length fs);
          mask = resized kept.mask size given.now.rows;
        })) }
    ensures list { (last : ℕ) (fs : List StoredFilter) → HasFilters mirror.old slot last fs
        → HasFilters mirror.new slot last fs }
    ensures lists { (other last : ℕ) (fs : List StoredFilter) → other ≢ slot
        → HasFilters mirror.old other last fs
        → HasFilters mirror.new other last fs }
    ensures left { (kept : KeptMask) → Stands mirror.old slot kept → (left_blocks.new
        ≡ kept.block ∷ bucket_blocks (root_of (seen_by writer.old.place)) kept.mask kept.mask.size)
        × (left_rows.new ≡ kept.mask.rows) }
{
    let mask = resized_mask(mirror, slot, size, given.rows.as_slice());
    let blocks = given.blocks.as_slice();
    let count = relay(
        room,
        left_blocks,
        left_rows,
        mirror,
        writer,
        store,
        slot,
        &mask,
        blocks,
    );
    raise::<L, E>(
        room,
        mirror,
        writer,
        store,
        slot,
        mask,
        blocks[count],
        stamp,
    );
}

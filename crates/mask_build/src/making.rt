//! A mask made from nothing.
ghost use Rattle.store_history.specs.declared.places.TheConstants.{MASK_SLOTS};
ghost use Rattle.std.specs.Prelude.{◌≡◌, ◌≢◌, ℕ, ◌+◌, ◌<◌, ◌≤◌, ◌++◌, List, length, take, slice_index};
ghost use Rattle.std.specs.Prelude.{slice_set, Some, All};
ghost use Rattle.store_history.specs.History.{root_of};
ghost use Rattle.pin_store.specs.Layout.{block_words};
ghost use Rattle.pin_store.specs.Sheets.{base_of, IsSameButCells};
ghost use Rattle.pin_store.specs.Calls.{seen_by, sheet_of, IsSeatOf};
ghost use Rattle.block_codec.specs.declared.filter.StoredFilter.{StoredFilter};
ghost use Rattle.block_codec.specs.Shapes.{HasPoolAndRoots};
ghost use Rattle.block_codec.specs.Filters.{IsStorableFilter};
ghost use Rattle.block_codec.specs.Masks.{IsStorableMask};
ghost use Rattle.mask_table.specs.Buckets.{IsAmong};
ghost use Rattle.mask_table.specs.OfMirrors.Kept.{IsKept};
ghost use Rattle.mask_table.specs.OfMirrors.Given.{AreGiven, AreFreeRows};
ghost use Rattle.mask_table.specs.OfMirrors.Lists.{HasFilters};
ghost use Rattle.mask_table.specs.OfMirrors.Linked.{placed, raise_commits};

use crate::clearing::clear_buckets;
use crate::copying::copy_of_mask;
use crate::laying::lay_all;
use crate::raising::raise;
use block_codec::{StoredFilter, StoredMask};
use mask_table::mirrors::{Mirror, NumberRoom};
use pin_store::{Store, Writer};
use store_history::{EditName, Law};
use tc_base::Point;

/// Makes a mask with some filters at a slot: fills the first given blocks with the filters, in order, and the
/// one behind them with the mask's record, and makes the commits that name them, as `raise` does.
///
/// A mask that stood at the slot before stands no longer. No mask that stands has one of the new one's rows.
/// The law must hold of all commits with each first part of these.
pub fn make_mask<L: Law, E: EditName<L::Entry>>(
    room: &mut NumberRoom,
    mirror: &mut Mirror,
    writer: &mut Writer<L>,
    store: &Store<L>,
    slot: u32,
    mask: &StoredMask,
    filters: &[StoredFilter],
    blocks: &[u32],
    edit: Point,
)
    requires store { IsSeatOf store.now writer.old.place }
    requires shape { HasPoolAndRoots store.now.shape.words store.now.shape.blocks store.now.shape.roots }
    requires slot { slot < MASK_SLOTS }
    requires mask { IsStorableMask mask.now }
    requires rows { AreFreeRows mirror.old mask.now.rows }
    requires storable { All IsStorableFilter filters.now }
    requires many { length blocks.now ≡ length filters.now + 1 }
    requires given { AreGiven (base_of (sheet_of writer.old.place)) (seen_by writer.old.place) blocks.now }
    requires kept { IsKept mirror.old store.now.shape (sheet_of writer.old.place).cells
        (root_of (seen_by writer.old.place)) }
    requires lawful { (n : ℕ) → L.keeps
        (seen_by writer.old.place
        ++ take n
        (raise_commits slot mask.now (slice_index blocks.now (length filters.now))
        (placed blocks.now filters.now) edit))
        (base_of (sheet_of writer.old.place)) }
    ensures store { IsSeatOf store.now writer.new.place }
    ensures seen { seen_by writer.new.place
        ≡ seen_by writer.old.place
        ++ raise_commits slot mask.now (slice_index blocks.now (length filters.now))
        (placed blocks.now filters.now) edit }
    ensures sheet { IsSameButCells (sheet_of writer.old.place) (sheet_of writer.new.place) }
    ensures others { (other : ℕ) → (IsAmong other blocks.now → ⊥) → other < store.now.shape.blocks
        → block_words store.now.shape (sheet_of writer.new.place).cells other
        ≡ block_words store.now.shape (sheet_of writer.old.place).cells other }
    ensures kept { IsKept mirror.new store.now.shape (sheet_of writer.new.place).cells
        (root_of (seen_by writer.new.place)) }
    ensures masks { mirror.new.slots.items
        ≡ slice_set mirror.old.slots.items slot
        (Some (record { block = slice_index blocks.now (length filters.now); mask = mask.now })) }
    ensures list { HasFilters mirror.new slot edit filters.now }
    ensures lists { (other last : ℕ) (fs : List StoredFilter) → other ≢ slot
        → HasFilters mirror.old other last fs → HasFilters mirror.new other last fs }
{
    clear_buckets(mirror, mask);
    lay_all(mirror, writer, store, mask, blocks, filters, edit);
    let block = blocks[filters.len()];
    let copy = copy_of_mask(mask);
    raise::<L, E>(room, mirror, writer, store, slot, copy, block, edit);
}

//! A mask that comes to stand.
ghost use Rattle.store_history.specs.declared.places.TheConstants.{MASK_SLOTS};
ghost use Rattle.std.specs.Prelude.{◌≡◌, ◌≢◌, ℕ, ◌+◌, ◌<◌, ◌≤◌, ◌++◌, List, take, slice_set, Some};
ghost use Rattle.store_history.specs.History.{root_of};
ghost use Rattle.pin_store.specs.Layout.{block_words};
ghost use Rattle.pin_store.specs.Sheets.{base_of, IsSameButCells};
ghost use Rattle.pin_store.specs.Calls.{seen_by, sheet_of, IsSeatOf};
ghost use Rattle.block_codec.specs.declared.filter.StoredFilter.{StoredFilter};
ghost use Rattle.block_codec.specs.Shapes.{HasPoolAndRoots};
ghost use Rattle.block_codec.specs.Masks.{IsStorableMask};
ghost use Rattle.mask_table.specs.OfMirrors.Kept.{IsKept};
ghost use Rattle.mask_table.specs.OfMirrors.Given.{AreFreeRows};
ghost use Rattle.mask_table.specs.OfMirrors.Lists.{age_of, Rises, HasFilters};
ghost use Rattle.mask_table.specs.OfMirrors.Linked.{raise_commits};
ghost use Rattle.mask_build.specs.Laid.{Laid, places, dates, filters_of, IsLaid, IsReady};

use crate::naming::{name_buckets, name_mask};
use block_codec::{StoredMask, write_mask};
use mask_table::mirrors::{KeptMask, Mirror, NumberRoom};
use pin_store::{Store, Writer};
use store_history::{EditName, Law};
use tc_base::Point;

/// Makes a mask stand at a slot whose filters were laid: fills a block with its record, and makes the commits
/// that name it all, the roots of its buckets first, and then the slot's. They carry no number.
///
/// A mask that stood at the slot before stands no longer. No mask that stands has one of the new one's rows.
/// The law must hold of all commits with each first part of these.
pub fn raise<L: Law, E: EditName<L::Entry>>(
    room: &mut NumberRoom,
    mirror: &mut Mirror,
    writer: &mut Writer<L>,
    store: &Store<L>,
    slot: u32,
    mask: StoredMask,
    block: u32,
    stamp: Point,
)
    requires store { IsSeatOf store.now writer.old.place }
    requires shape { HasPoolAndRoots store.now.shape.words store.now.shape.blocks store.now.shape.roots }
    requires slot { slot < MASK_SLOTS }
    requires mask { IsStorableMask mask }
    requires rows { AreFreeRows mirror.old mask.rows }
    requires kept { IsKept mirror.old store.now.shape (sheet_of writer.old.place).cells
        (root_of (seen_by writer.old.place)) }
    requires lawful { (xs : List Laid)
        × IsReady mirror.old store.now.shape (sheet_of writer.old.place).cells mask
        (base_of (sheet_of writer.old.place)) (seen_by writer.old.place) block xs
        × ((n : ℕ)
        → L.keeps (seen_by writer.old.place ++ take n (raise_commits slot mask block (places xs) stamp))
        (base_of (sheet_of writer.old.place))) }
    ensures store { IsSeatOf store.now writer.new.place }
    ensures seen { (xs : List Laid)
        → IsReady mirror.old store.now.shape (sheet_of writer.old.place).cells mask
        (base_of (sheet_of writer.old.place)) (seen_by writer.old.place) block xs
        → seen_by writer.new.place ≡ seen_by writer.old.place
        ++ raise_commits slot mask block (places xs) stamp }
    ensures sheet { IsSameButCells (sheet_of writer.old.place) (sheet_of writer.new.place) }
    ensures others { (other : ℕ) → other ≢ block → other < store.now.shape.blocks
        → block_words store.now.shape (sheet_of writer.new.place).cells other
        ≡ block_words store.now.shape (sheet_of writer.old.place).cells other }
    ensures kept { IsKept mirror.new store.now.shape (sheet_of writer.new.place).cells
        (root_of (seen_by writer.new.place)) }
    ensures masks { mirror.new.slots.items
        ≡ slice_set mirror.old.slots.items slot (Some (record { block = block; mask = mask })) }
    ensures list { (last : ℕ) (xs : List Laid)
        → IsLaid mirror.old store.now.shape (sheet_of writer.old.place).cells mask xs
        → Rises 0 (age_of (last + 1) 0) (dates xs)
        → HasFilters mirror.new slot last (filters_of xs) }
    ensures lists { (other last : ℕ) (fs : List StoredFilter) → other ≢ slot
        → HasFilters mirror.old other last fs → HasFilters mirror.new other last fs }
{
    let mut words = [0; 40];
    write_mask(&mask, None, &mut words);
    writer.fill(store, block, &words);
    name_buckets::<L, E>(room, mirror, writer, store, &mask, stamp);
    name_mask::<L, E>(writer, store, slot, block, stamp);
    mirror.place(slot, Some(KeptMask { block, mask }));
}

//! Filters laid into blocks for a mask that no root names yet.
ghost use Rattle.store_history.specs.declared.places.TheConstants.{POOL_BLOCKS};
ghost use Rattle.std.specs.Prelude.{◌≡◌, ◌≢◌, ℕ, ◌<◌, ◌≤◌, ◌+◌, ◌*◌, ◌++◌, ◌∷◌, [], List, length, All};
ghost use Rattle.store_history.specs.History.{root_of};
ghost use Rattle.pin_store.specs.Layout.{block_words};
ghost use Rattle.pin_store.specs.Sheets.{base_of, IsSameButCells};
ghost use Rattle.pin_store.specs.Calls.{seen_by, sheet_of, IsSeatOf, IsUnnamed};
ghost use Rattle.block_codec.specs.declared.filter.StoredFilter.{StoredFilter};
ghost use Rattle.block_codec.specs.Shapes.{HasPool};
ghost use Rattle.block_codec.specs.Filters.{IsStorableFilter};
ghost use Rattle.block_codec.specs.Masks.{IsStorableMask};
ghost use Rattle.mask_table.specs.Buckets.{IsAmong};
ghost use Rattle.mask_table.specs.OfMirrors.Kept.{IsKept};
ghost use Rattle.mask_table.specs.OfMirrors.Given.{AreGiven, AreFreeRows};
ghost use Rattle.mask_table.specs.OfMirrors.Lists.{age_of, kept_in, HasFilters};
ghost use Rattle.mask_build.specs.Laid.{Laid, laid_blocks, laid_in, dated_by, IsLaid};

use block_codec::{StoredFilter, StoredMask};
use mask_table::mirrors::{Mirror, place_for, put_in_front};
use pin_store::{Store, Writer};
use store_history::Law;
use tc_base::Point;

/// Lays one more filter for a mask that no root names yet: fills a block, which no root names, and keeps it
/// in front of the chain of the filter's bucket. No commit is made, and nothing changes for masks that stand.
pub fn lay<L: Law>(
    mirror: &mut Mirror,
    writer: &mut Writer<L>,
    store: &Store<L>,
    mask: &StoredMask,
    block: u32,
    filter: &StoredFilter,
    age: u64,
)
    requires store { IsSeatOf store.now writer.old.place }
    requires shape { HasPool store.now.shape.words store.now.shape.blocks }
    requires mask { IsStorableMask mask.now }
    requires rows { AreFreeRows mirror.old mask.now.rows }
    requires block { block < POOL_BLOCKS }
    requires storable { IsStorableFilter filter.now }
    requires free { IsUnnamed (base_of (sheet_of writer.old.place)) (seen_by writer.old.place) block }
    requires kept { IsKept mirror.old store.now.shape (sheet_of writer.old.place).cells
        (root_of (seen_by writer.old.place)) }
    ensures store { IsSeatOf store.now writer.new.place }
    ensures seen { seen_by writer.new.place ≡ seen_by writer.old.place }
    ensures sheet { IsSameButCells (sheet_of writer.old.place) (sheet_of writer.new.place) }
    ensures others { (other : ℕ) → other ≢ block → other < store.now.shape.blocks
        → block_words store.now.shape (sheet_of writer.new.place).cells other
        ≡ block_words store.now.shape (sheet_of writer.old.place).cells other }
    ensures masks { mirror.new.slots.items ≡ mirror.old.slots.items }
    ensures dated { (c : ℕ) → c ≢ block → kept_in mirror.new c ≡ kept_in mirror.old c }
    ensures laid { (xs : List Laid) → (IsAmong block (laid_blocks xs) → ⊥)
        → IsLaid mirror.old store.now.shape (sheet_of writer.old.place).cells mask.now xs
        → IsLaid mirror.new store.now.shape (sheet_of writer.new.place).cells mask.now
        (xs ++ record { block = block; filter = filter.now; age = age } ∷ []) }
    ensures kept { IsKept mirror.new store.now.shape (sheet_of writer.new.place).cells
        (root_of (seen_by writer.new.place)) }
    ensures lists { (slot last : ℕ) (fs : List StoredFilter) → HasFilters mirror.old slot last fs
        → HasFilters mirror.new slot last fs }
{
    let place = place_for(mask, &filter.key);
    let number = mirror.first[place as usize];
    put_in_front(mirror, writer, store, block, filter, age, number);
    mirror.begin(place, block + 1);
}

// The age of the filter at a place among those that an edit brings.
fn age_at(edit: Point, place: usize) -> u64
    requires { place < 4294967296 }
    ensures { result ≡ age_of edit place }
{
    u64::from(edit) * (1 << 32) + place as u64
}

/// Lays the filters that an edit brings, in order, into given blocks, for a mask whose buckets have no filter
/// yet.
pub fn lay_all<L: Law>(
    mirror: &mut Mirror,
    writer: &mut Writer<L>,
    store: &Store<L>,
    mask: &StoredMask,
    blocks: &[u32],
    filters: &[StoredFilter],
    edit: Point,
)
    requires store { IsSeatOf store.now writer.old.place }
    requires shape { HasPool store.now.shape.words store.now.shape.blocks }
    requires mask { IsStorableMask mask.now }
    requires rows { AreFreeRows mirror.old mask.now.rows }
    requires storable { All IsStorableFilter filters.now }
    requires many { length filters.now ≤ length blocks.now }
    requires given { AreGiven (base_of (sheet_of writer.old.place)) (seen_by writer.old.place) blocks.now }
    requires kept { IsKept mirror.old store.now.shape (sheet_of writer.old.place).cells
        (root_of (seen_by writer.old.place)) }
    requires empty { IsLaid mirror.old store.now.shape (sheet_of writer.old.place).cells mask.now [] }
    ensures store { IsSeatOf store.now writer.new.place }
    ensures seen { seen_by writer.new.place ≡ seen_by writer.old.place }
    ensures sheet { IsSameButCells (sheet_of writer.old.place) (sheet_of writer.new.place) }
    ensures others { (other : ℕ) → (IsAmong other blocks.now → ⊥) → other < store.now.shape.blocks
        → block_words store.now.shape (sheet_of writer.new.place).cells other
        ≡ block_words store.now.shape (sheet_of writer.old.place).cells other }
    ensures masks { mirror.new.slots.items ≡ mirror.old.slots.items }
    ensures laid { IsLaid mirror.new store.now.shape (sheet_of writer.new.place).cells mask.now
        (laid_in blocks.now (dated_by edit 0 filters.now)) }
    ensures kept { IsKept mirror.new store.now.shape (sheet_of writer.new.place).cells
        (root_of (seen_by writer.new.place)) }
    ensures lists { (slot last : ℕ) (fs : List StoredFilter) → HasFilters mirror.old slot last fs
        → HasFilters mirror.new slot last fs }
{
    for place in 0..filters.len() {
        let age = age_at(edit, place);
        lay(
            mirror,
            writer,
            store,
            mask,
            blocks[place],
            &filters[place],
            age,
        );
    }
}

//! Filters of a mask that stands, laid once more.
ghost use Rattle.std.specs.Prelude.{◌≡◌, ℕ, ◌<◌, ◌≤◌, [], List, length, map, slice_get, Some};
ghost use Rattle.store_history.specs.History.{root_of};
ghost use Rattle.pin_store.specs.Layout.{block_words};
ghost use Rattle.pin_store.specs.Sheets.{base_of, IsSameButCells};
ghost use Rattle.pin_store.specs.Calls.{seen_by, sheet_of, IsSeatOf};
ghost use Rattle.block_codec.specs.declared.filter.StoredFilter.{StoredFilter};
ghost use Rattle.block_codec.specs.Shapes.{HasPool};
ghost use Rattle.block_codec.specs.Masks.{IsStorableMask};
ghost use Rattle.mask_table.specs.Buckets.{IsAmong};
ghost use Rattle.mask_table.specs.OfMirrors.Kept.{HasFilter, IsKept};
ghost use Rattle.mask_table.specs.OfMirrors.Given.{AreGiven, AreFreeRows};
ghost use Rattle.mask_table.specs.OfMirrors.Lists.{Dated, kept_in, kept_as, HasFilters};
ghost use Rattle.mask_build.specs.Laid.{laid_in, IsLaid};

use crate::laying::lay;
use block_codec::StoredMask;
use mask_table::mirrors::{Mirror, kept_filter};
use pin_store::{Store, Writer};
use store_history::Law;

/// Lays the filters of some blocks once more, in order and with their ages, into given blocks, for a mask
/// whose buckets have no filter yet. The old blocks stay as they are.
pub fn lay_copies<L: Law>(
    mirror: &mut Mirror,
    writer: &mut Writer<L>,
    store: &Store<L>,
    mask: &StoredMask,
    from: &[u32],
    blocks: &[u32],
)
    requires store { IsSeatOf store.now writer.old.place }
    requires shape { HasPool store.now.shape.words store.now.shape.blocks }
    requires mask { IsStorableMask mask.now }
    requires rows { AreFreeRows mirror.old mask.now.rows }
    requires from { (place b : ℕ) → slice_get from.now place ≡ Some b → HasFilter mirror.old.filters.items b }
    requires apart { (b : ℕ) → IsAmong b from.now → IsAmong b blocks.now → ⊥ }
    requires many { length from.now ≤ length blocks.now }
    requires given { AreGiven (base_of (sheet_of writer.old.place)) (seen_by writer.old.place) blocks.now }
    requires kept { IsKept mirror.old store.now.shape (sheet_of writer.old.place).cells
        (root_of (seen_by writer.old.place)) }
    requires empty { IsLaid mirror.old store.now.shape (sheet_of writer.old.place).cells mask.now [] }
    ensures store { IsSeatOf store.now writer.new.place }
    ensures seen { seen_by writer.new.place ≡ seen_by writer.old.place }
    ensures sheet { IsSameButCells (sheet_of writer.old.place) (sheet_of writer.new.place) }
    ensures others { (other : ℕ) → (IsAmong other blocks.now → ⊥) → other < store.now.shape.blocks
        → block_words store.now.shape (sheet_of writer.new.place).cells other
        ≡ block_words store.now.shape (sheet_of writer.old.place).cells other }
    ensures masks { mirror.new.slots.items ≡ mirror.old.slots.items }
    ensures laid { (dated : List Dated) → map (kept_in mirror.old) from.now ≡ map kept_as dated
        → IsLaid mirror.new store.now.shape (sheet_of writer.new.place).cells mask.now
        (laid_in blocks.now dated) }
    ensures kept { IsKept mirror.new store.now.shape (sheet_of writer.new.place).cells
        (root_of (seen_by writer.new.place)) }
    ensures lists { (slot last : ℕ) (fs : List StoredFilter) → HasFilters mirror.old slot last fs
        → HasFilters mirror.new slot last fs }
{
    for place in 0..from.len() {
        let old = from[place];
        let filter = kept_filter(mirror, old);
        let age = mirror.ages[old as usize];
        lay(mirror, writer, store, mask, blocks[place], &filter, age);
    }
}

//! A filter put in front of a chain that is kept.
ghost use Rattle.store_history.specs.declared.places.TheConstants.{POOL_BLOCKS};
ghost use Rattle.std.specs.Prelude.{◌≡◌, ◌≢◌, ℕ, ◌+◌, ◌<◌, ◌≤◌, ◌∷◌, List, slice_get, Some};
ghost use Rattle.store_history.specs.History.{root_of};
ghost use Rattle.pin_store.specs.Layout.{block_words, block_in};
ghost use Rattle.pin_store.specs.Sheets.{base_of, IsSameButCells};
ghost use Rattle.pin_store.specs.Calls.{seen_by, sheet_of, IsSeatOf, IsUnnamed};
ghost use Rattle.block_codec.specs.declared.filter.StoredFilter.{StoredFilter};
ghost use Rattle.block_codec.specs.Shapes.{HasPool};
ghost use Rattle.block_codec.specs.Filters.{IsStorableFilter, IsFilterBlock};
ghost use Rattle.mask_table.specs.Buckets.{bucket_for};
ghost use Rattle.mask_table.specs.OfMirrors.Kept.{HoldsChain, IsKept};
ghost use Rattle.mask_table.specs.OfMirrors.Lists.{kept_in, HasFilters};
ghost use Rattle.mask_table.specs.OfMirrors.Changes.{IsFilled};

use crate::mirrors::copying::copy_of;
use crate::mirrors::gathering::block_in;
use crate::mirrors::mirror::Mirror;
use block_codec::{StoredFilter, write_filter};
use pin_store::{Store, Writer};
use store_history::Law;

/// Fills a block, which no root names, with a filter linked to a chain that begins with a number, and keeps
/// that, and the filter's age. No root is changed, so what is kept stays what the roots name.
pub fn put_in_front<L: Law>(
    mirror: &mut Mirror,
    writer: &mut Writer<L>,
    store: &Store<L>,
    block: u32,
    filter: &StoredFilter,
    age: u64,
    number: u32,
)
    requires store { IsSeatOf store.now writer.old.place }
    requires shape { HasPool store.now.shape.words store.now.shape.blocks }
    requires block { block < POOL_BLOCKS }
    requires storable { IsStorableFilter filter.now }
    requires free { IsUnnamed (base_of (sheet_of writer.old.place)) (seen_by writer.old.place) block }
    requires kept { IsKept mirror.old store.now.shape (sheet_of writer.old.place).cells
        (root_of (seen_by writer.old.place)) }
    ensures store { IsSeatOf store.now writer.new.place }
    ensures seen { seen_by writer.new.place ≡ seen_by writer.old.place }
    ensures sheet { IsSameButCells (sheet_of writer.old.place) (sheet_of writer.new.place) }
    ensures filled { IsFilled mirror.old mirror.new store.now.shape (sheet_of writer.old.place).cells
        (sheet_of writer.new.place).cells block }
    ensures dated { kept_in mirror.new block ≡ (age, Some filter.now) }
    ensures lists { (slot last : ℕ) (fs : List StoredFilter) → HasFilters mirror.old slot last fs
        → HasFilters mirror.new slot last fs }
    ensures words { IsFilterBlock (block_words store.now.shape (sheet_of writer.new.place).cells block)
        (filter.now, block_in number) }
    ensures kept { IsKept mirror.new store.now.shape (sheet_of writer.new.place).cells
        (root_of (seen_by writer.new.place)) }
    ensures chain { (size : ℕ) (blocks : List ℕ) → ((at c : ℕ) → slice_get blocks at ≡ Some c → c ≢ block)
        → HoldsChain mirror.old store.now.shape (sheet_of writer.old.place).cells size
        (bucket_for size filter.now.key.words) number blocks
        → HoldsChain mirror.new store.now.shape (sheet_of writer.new.place).cells size
        (bucket_for size filter.now.key.words) (block + 1) (block ∷ blocks) }
{
    let mut words = [0; 40];
    write_filter(filter, block_in(number), &mut words);
    writer.fill(store, block, &words);
    mirror.keep(block, copy_of(filter), age, number);
}

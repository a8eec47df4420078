//! The blocks of a mask, put in order by age.
ghost use Rattle.store_history.specs.declared.places.TheConstants.{POOL_BLOCKS};
ghost use Rattle.std.specs.Prelude.{◌≡◌, ℕ, ◌<◌, List, map, All};
ghost use Rattle.std.specs.List.Sorted.{IsPermutation};
ghost use Rattle.store_history.specs.declared.history.Named.{Named};
ghost use Rattle.pin_store.specs.declared.shape.Shape.{Shape};
ghost use Rattle.block_codec.specs.declared.filter.StoredFilter.{StoredFilter};
ghost use Rattle.mask_table.specs.declared.mirrors.mirror.KeptMask.{KeptMask};
ghost use Rattle.mask_table.specs.OfMirrors.Kept.{Stands, IsKept};
ghost use Rattle.mask_table.specs.OfMirrors.Lists.{kept_as, kept_in, HasFilters};
ghost use Rattle.mask_table.specs.OfMirrors.Forgetting.{bucket_blocks};

use mask_table::mirrors::{Mirror, NumberRoom};

/// Puts the blocks of all buckets of the mask at a slot into the room, in the order of the mask's filters.
pub fn in_order(room: &mut NumberRoom, mirror: &Mirror, slot: u32, blocks: &[u32])
    requires kept { (kept : KeptMask) × (shape : Shape) × (cells : List ℕ) × (roots : ℕ → Named)
        × Stands mirror.now slot kept × IsKept mirror.now shape cells roots
        × (blocks.now ≡ bucket_blocks roots kept.mask kept.mask.size) }
    ensures order { (last : ℕ) (fs : List StoredFilter) (has : HasFilters mirror.now slot last fs)
        → map (kept_in mirror.now) room.new ≡ map kept_as has.dated }
    ensures permutation { IsPermutation blocks.now room.new }
    ensures pool { All (λ b. b < POOL_BLOCKS) room.new }
{
    room.clear();
    room.push_all(blocks);
    room.sort_by_age(&mirror.ages);
}

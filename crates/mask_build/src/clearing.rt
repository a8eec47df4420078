//! Buckets that have no filter yet.
ghost use Rattle.std.specs.Prelude.{◌≡◌, ℕ, List, []};
ghost use Rattle.store_history.specs.declared.history.Named.{Named};
ghost use Rattle.pin_store.specs.declared.shape.Shape.{Shape};
ghost use Rattle.block_codec.specs.declared.filter.StoredFilter.{StoredFilter};
ghost use Rattle.block_codec.specs.Masks.{IsStorableMask};
ghost use Rattle.mask_table.specs.OfMirrors.Kept.{IsKept};
ghost use Rattle.mask_table.specs.OfMirrors.Given.{AreFreeRows};
ghost use Rattle.mask_table.specs.OfMirrors.Lists.{HasFilters};
ghost use Rattle.mask_build.specs.Laid.{IsLaid};

use block_codec::StoredMask;
use mask_table::mirrors::{Mirror, place_of};

/// Keeps that no bucket of a mask has a filter. No mask that stands has one of its rows, so nothing changes
/// for those.
pub fn clear_buckets(mirror: &mut Mirror, mask: &StoredMask)
    requires mask { IsStorableMask mask.now }
    requires rows { AreFreeRows mirror.old mask.now.rows }
    requires kept { (shape : Shape) × (cells : List ℕ) × (roots : ℕ → Named)
        × IsKept mirror.old shape cells roots }
    ensures masks { mirror.new.slots.items ≡ mirror.old.slots.items }
    ensures dates { (mirror.new.filters.items ≡ mirror.old.filters.items)
        × (mirror.new.ages.items ≡ mirror.old.ages.items) }
    ensures laid { (shape : Shape) (cells : List ℕ) → IsLaid mirror.new shape cells mask.now [] }
    ensures kept { (shape : Shape) (cells : List ℕ) (roots : ℕ → Named) → IsKept mirror.old shape cells roots
        → IsKept mirror.new shape cells roots }
    ensures lists { (slot last : ℕ) (fs : List StoredFilter) → HasFilters mirror.old slot last fs
        → HasFilters mirror.new slot last fs }
{
    for bucket in 0..mask.size {
        mirror.begin(place_of(mask, bucket), 0);
    }
}

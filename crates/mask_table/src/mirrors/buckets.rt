//! The places of buckets.
ghost use Rattle.store_history.specs.declared.places.TheConstants.{BUCKETS, MASK_SLOTS};
ghost use Rattle.std.specs.Prelude.{◌≡◌, ◌<◌};
ghost use Rattle.block_codec.specs.Masks.{IsStorableMask};
ghost use Rattle.mask_table.specs.Buckets.{bucket_for};
ghost use Rattle.mask_table.specs.declared.mirrors.mirror.KeptMask.{KeptMask};
ghost use Rattle.mask_table.specs.OfMirrors.Kept.{bucket_at, Stands};

use crate::mirrors::mirror::Mirror;
use block_codec::StoredMask;
use flow_fields::Key;
use flow_mask::hash;
use store_history::places::ROW_BUCKETS;

/// Where a bucket of a mask stands among those of all rows.
pub fn place_of(mask: &StoredMask, bucket: u32) -> u32
    requires storable { IsStorableMask mask.now }
    requires bucket { bucket < mask.now.size }
    ensures place { result ≡ bucket_at mask.now bucket }
    ensures small { result < BUCKETS }
{
    let row = mask.rows.items()[(bucket / ROW_BUCKETS) as usize];
    ROW_BUCKETS * row + bucket % ROW_BUCKETS
}

/// Where the bucket of a key stands.
pub fn place_for(mask: &StoredMask, key: &Key<14>) -> u32
    requires { IsStorableMask mask.now }
    ensures place { result ≡ bucket_at mask.now (bucket_for mask.now.size key.now.words) }
    ensures small { result < BUCKETS }
{
    place_of(mask, (hash(key) % u64::from(mask.size)) as u32)
}

/// Where the bucket of a key stands that belongs to the mask at a slot.
pub fn place_in(mirror: &Mirror, slot: u32, key: &Key<14>) -> u32
    requires slot { slot < MASK_SLOTS }
    requires stands { (kept : KeptMask) × Stands mirror.now slot kept }
    requires storable { (kept : KeptMask) → Stands mirror.now slot kept → IsStorableMask kept.mask }
    ensures place { (kept : KeptMask) → Stands mirror.now slot kept
        → result ≡ bucket_at kept.mask (bucket_for kept.mask.size key.now.words) }
    ensures small { result < BUCKETS }
{
    match &mirror.slots[slot as usize] {
        Some(kept) => place_for(&kept.mask, key),
        None => unreachable!(),
    }
}

//! Where the filter with a handle stands.
ghost use Rattle.store_history.specs.declared.places.TheConstants.{BUCKETS, BUCKET_ROOTS, MASK_SLOTS};
ghost use Rattle.store_history.specs.declared.places.TheConstants.{POOL_BLOCKS};
ghost use Rattle.std.specs.Prelude.{◌≡◌, ◌+◌, ◌<◌, ◌≤◌, ◌↔◌, ℕ, List, length, slice_get, slice_index, Some};
ghost use Rattle.std.specs.Prelude.{None, IfSome, IsTrue, All};
ghost use Rattle.store_history.specs.declared.history.Named.{Named};
ghost use Rattle.pin_store.specs.declared.shape.Shape.{Shape};
ghost use Rattle.block_codec.specs.declared.filter.StoredFilter.{StoredFilter};
ghost use Rattle.mask_table.specs.declared.mirrors.mirror.KeptMask.{KeptMask};
ghost use Rattle.mask_table.specs.OfMirrors.Kept.{Stands, Spells, IsKept};
ghost use Rattle.mask_table.specs.OfMirrors.Changing.{FilterAt};
ghost use Rattle.mask_bucket_edits.specs.Finding.{HasHandle, IsInBucket, IsFound};

use mask_table::mirrors::{KeptMask, Mirror, NumberRoom, gather, place_of};

/// Where a filter of a mask stands: the place of its bucket among those of all rows, and how many filters of
/// the bucket are in front of it.
#[derive(Clone, Copy, Debug)]
pub struct Found {
    pub place: u32,
    pub front: usize,
}

// A filter with the handle is kept in the block.
fn has_handle(mirror: &Mirror, block: u32, handle: u32) -> bool
    requires { block < POOL_BLOCKS }
    ensures { IsTrue result ↔ HasHandle mirror.now.filters.items handle block }
{
    match &mirror.filters[block as usize] {
        Some(filter) => filter.handle == handle,
        None => false,
    }
}

// How many of the blocks stand in front of one with such a filter, or None where there is none.
pub(crate) fn count_before(mirror: &Mirror, blocks: &[u32], handle: u32) -> Option<usize>
    requires { All (λ b. b < POOL_BLOCKS) blocks.now }
    ensures found { IfSome result (λ count. (b : ℕ) × (slice_get blocks.now count ≡ Some b)
        × HasHandle mirror.now.filters.items handle b) }
    ensures none { result ≡ None → (place b : ℕ) → slice_get blocks.now place ≡ Some b
        → HasHandle mirror.now.filters.items handle b → ⊥ }
{
    for count in 0..blocks.len() {
        if has_handle(mirror, blocks[count], handle) {
            return Some(count);
        }
    }
    None
}

// Puts the chain of the bucket at a place into the room, and answers how many of its filters stand in front
// of one with the handle, if there is one.
fn look(room: &mut NumberRoom, mirror: &Mirror, place: u32, handle: u32) -> Option<usize>
    requires small { place < BUCKETS }
    requires spelled { (blocks : List ℕ)
        × Spells mirror.now.next.items (slice_index mirror.now.first.items place) blocks }
    ensures room { (blocks : List ℕ)
        → Spells mirror.now.next.items (slice_index mirror.now.first.items place) blocks → room.new ≡ blocks }
    ensures found { IfSome result (λ count. (b : ℕ) × (slice_get room.new count ≡ Some b)
        × HasHandle mirror.now.filters.items handle b) }
    ensures none { result ≡ None → (place b : ℕ) → slice_get room.new place ≡ Some b
        → HasHandle mirror.now.filters.items handle b → ⊥ }
{
    room.clear();
    gather(room, &mirror.next, mirror.first[place as usize]);
    count_before(mirror, room.as_slice(), handle)
}

// Looks for the handle in one bucket of a mask that stands.
fn find_at(
    room: &mut NumberRoom,
    mirror: &Mirror,
    kept: &KeptMask,
    bucket: u32,
    handle: u32,
) -> Option<Found>
    requires stands { (slot : ℕ) × (shape : Shape) × (cells : List ℕ) × (roots : ℕ → Named)
        × Stands mirror.now slot kept.now × IsKept mirror.now shape cells roots }
    requires bucket { bucket < kept.now.mask.size }
    ensures small { IfSome result (λ found. found.place < BUCKETS) }
    ensures found { IfSome result (λ found. (slot : ℕ) (shape : Shape) (cells : List ℕ) (roots : ℕ → Named)
        → Stands mirror.now slot kept.now → IsKept mirror.now shape cells roots
        → IsFound roots kept.now.mask handle found.place found.front room.new) }
    ensures none { result ≡ None → IsInBucket mirror.now kept.now handle bucket → ⊥ }
{
    let place = place_of(&kept.mask, bucket);
    let front = look(room, mirror, place, handle)?;
    Some(Found { place, front })
}

// Looks for the handle in a mask that stands: in the bucket of a hash, and then in all buckets.
fn find_among(
    room: &mut NumberRoom,
    mirror: &Mirror,
    kept: &KeptMask,
    handle: u32,
    hash: u64,
) -> Found
    requires there { (slot : ℕ) × (shape : Shape) × (cells : List ℕ) × (roots : ℕ → Named) × (root : ℕ)
        × (front : List StoredFilter) × (filter : StoredFilter)
        × Stands mirror.now slot kept.now × IsKept mirror.now shape cells roots
        × FilterAt roots kept.now.mask handle root front filter }
    ensures small { result.place < BUCKETS }
    ensures found { (slot : ℕ) (shape : Shape) (cells : List ℕ) (roots : ℕ → Named)
        → Stands mirror.now slot kept.now → IsKept mirror.now shape cells roots
        → IsFound roots kept.now.mask handle result.place result.front room.new }
{
    let own = (hash % u64::from(kept.mask.size)) as u32;
    if let Some(found) = find_at(room, mirror, kept, own, handle) {
        return found;
    }
    for bucket in 0..kept.mask.size {
        if let Some(found) = find_at(room, mirror, kept, bucket, handle) {
            return found;
        }
    }
    unreachable!()
}

/// Finds a filter with a handle in the mask at a slot, which has one, and puts the chain of its bucket into
/// the room. The bucket of the hash is looked into first: with the hash of the filter's key that is all, and
/// with any other the search goes on over the whole mask.
pub fn find(room: &mut NumberRoom, mirror: &Mirror, slot: u32, handle: u32, hash: u64) -> Found
    requires slot { slot < MASK_SLOTS }
    requires there { (kept : KeptMask) × (shape : Shape) × (cells : List ℕ) × (roots : ℕ → Named) × (root : ℕ)
        × (front : List StoredFilter) × (filter : StoredFilter)
        × Stands mirror.now slot kept × IsKept mirror.now shape cells roots
        × FilterAt roots kept.mask handle root front filter }
    ensures small { result.place < BUCKETS }
    ensures found { (kept : KeptMask) (shape : Shape) (cells : List ℕ) (roots : ℕ → Named)
        → Stands mirror.now slot kept → IsKept mirror.now shape cells roots
        → IsFound roots kept.mask handle result.place result.front room.new }
{
    match &mirror.slots[slot as usize] {
        Some(kept) => find_among(room, mirror, kept, handle, hash),
        None => unreachable!(),
    }
}

/// How many filters stand in front of one with a handle in the bucket at a place, which has one. The bucket's
/// chain is put into the room.
pub fn find_in(room: &mut NumberRoom, mirror: &Mirror, place: u32, handle: u32) -> usize
    requires small { place < BUCKETS }
    requires there { (slot : ℕ) × (kept : KeptMask) × (shape : Shape) × (cells : List ℕ) × (roots : ℕ → Named)
        × (front : List StoredFilter) × (filter : StoredFilter)
        × Stands mirror.now slot kept × IsKept mirror.now shape cells roots
        × FilterAt roots kept.mask handle (BUCKET_ROOTS + place) front filter }
    ensures found { (slot : ℕ) (kept : KeptMask) (shape : Shape) (cells : List ℕ) (roots : ℕ → Named)
        (front : List StoredFilter) (filter : StoredFilter)
        → Stands mirror.now slot kept → IsKept mirror.now shape cells roots
        → FilterAt roots kept.mask handle (BUCKET_ROOTS + place) front filter
        → IsFound roots kept.mask handle place result room.new }
{
    match look(room, mirror, place, handle) {
        Some(front) => front,
        None => unreachable!(),
    }
}

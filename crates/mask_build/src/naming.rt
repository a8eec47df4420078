//! The roots of a mask that come to name what was laid for it.
ghost use Rattle.store_history.specs.declared.places.TheConstants.{MASK_SLOTS, POOL_BLOCKS};
ghost use Rattle.std.specs.Prelude.{◌≡◌, ℕ, ◌<◌, ◌≤◌, ◌++◌, ◌∷◌, [], List, None};
ghost use Rattle.pin_store.specs.Layout.{block_words};
ghost use Rattle.pin_store.specs.Sheets.{base_of};
ghost use Rattle.pin_store.specs.Calls.{seen_by, sheet_of, IsSeatOf};
ghost use Rattle.block_codec.specs.declared.mask.StoredMask.{StoredMask};
ghost use Rattle.block_codec.specs.Shapes.{HasPoolAndRoots};
ghost use Rattle.block_codec.specs.Masks.{IsStorableMask, IsMaskBlock};
ghost use Rattle.mask_table.specs.OfMirrors.Linked.{bucket_commits, mask_commit};
ghost use Rattle.mask_build.specs.Laid.{Laid, places, IsLaid};

use block_codec::StoredMask;
use mask_table::mirrors::{Mirror, NumberRoom, name_chain, place_of};
use pin_store::{Store, Writer};
use store_history::places::{BUCKET_ROOTS, MASK_ROOTS};
use store_history::{EditName, Law};
use tc_base::Point;

// Makes the commits by which the roots of a mask's buckets name the chains that are kept for them, one after
// the other.
pub(crate) fn name_buckets<L: Law, E: EditName<L::Entry>>(
    room: &mut NumberRoom,
    mirror: &Mirror,
    writer: &mut Writer<L>,
    store: &Store<L>,
    mask: &StoredMask,
    stamp: Point,
)
    requires store { IsSeatOf store.now writer.old.place }
    requires shape { HasPoolAndRoots store.now.shape.words store.now.shape.blocks store.now.shape.roots }
    requires mask { IsStorableMask mask.now }
    requires lawful { (xs : List Laid)
        × IsLaid mirror.now store.now.shape (sheet_of writer.old.place).cells mask.now xs
        × ((count : ℕ) → count ≤ mask.now.size
        → L.keeps (seen_by writer.old.place ++ bucket_commits mask.now (places xs) stamp count)
        (base_of (sheet_of writer.old.place))) }
    ensures store { IsSeatOf store.now writer.new.place }
    ensures seen { (xs : List Laid)
        → IsLaid mirror.now store.now.shape (sheet_of writer.old.place).cells mask.now xs
        → seen_by writer.new.place ≡ seen_by writer.old.place
        ++ bucket_commits mask.now (places xs) stamp mask.now.size }
    ensures sheet { sheet_of writer.new.place ≡ sheet_of writer.old.place }
{
    for bucket in 0..mask.size {
        let place = place_of(mask, bucket);
        let number = mirror.first[place as usize];
        let root = BUCKET_ROOTS + place;
        name_chain::<L, E>(room, mirror, writer, store, root, number, stamp, None);
    }
}

// Makes the commit by which the root at a slot names the record of a mask in a block.
pub(crate) fn name_mask<L: Law, E: EditName<L::Entry>>(
    writer: &mut Writer<L>,
    store: &Store<L>,
    slot: u32,
    block: u32,
    stamp: Point,
)
    requires store { IsSeatOf store.now writer.old.place }
    requires shape { HasPoolAndRoots store.now.shape.words store.now.shape.blocks store.now.shape.roots }
    requires slot { slot < MASK_SLOTS }
    requires block { block < POOL_BLOCKS }
    requires lawful { (mask : StoredMask)
        × IsMaskBlock (block_words store.now.shape (sheet_of writer.old.place).cells block) (mask, None)
        × L.keeps (seen_by writer.old.place ++ mask_commit slot mask block stamp ∷ [])
        (base_of (sheet_of writer.old.place)) }
    ensures store { IsSeatOf store.now writer.new.place }
    ensures seen { (mask : StoredMask)
        → IsMaskBlock (block_words store.now.shape (sheet_of writer.old.place).cells block) (mask, None)
        → seen_by writer.new.place ≡ seen_by writer.old.place ++ mask_commit slot mask block stamp ∷ [] }
    ensures sheet { sheet_of writer.new.place ≡ sheet_of writer.old.place }
{
    writer.commit::<E>(store, MASK_ROOTS + slot, &[block], stamp, None);
}

//! A bucket's root that comes to name another chain.
ghost use Rattle.store_history.specs.declared.places.TheConstants.{BUCKETS, BUCKET_ROOTS};
ghost use Rattle.std.specs.Prelude.{◌≡◌, ℕ, ◌+◌, ◌<◌, ◌≤◌, ◌++◌, ◌∷◌, [], List, Some};
ghost use Rattle.store_history.specs.History.{root_of};
ghost use Rattle.pin_store.specs.Layout.{commit_of};
ghost use Rattle.pin_store.specs.Sheets.{base_of};
ghost use Rattle.pin_store.specs.Calls.{seen_by, sheet_of, IsSeatOf};
ghost use Rattle.block_codec.specs.Shapes.{HasPoolAndRoots};
ghost use Rattle.mask_table.specs.OfMirrors.Kept.{Spells, HoldsChain, BucketAt, IsKept, AreOwn};
ghost use Rattle.mask_table.specs.OfMirrors.Changes.{IsRenamed};

use mask_table::mirrors::{Mirror, NumberRoom, name_chain};
use pin_store::{Store, Writer};
use store_history::places::BUCKET_ROOTS;
use store_history::{EditName, Law};
use tc_base::Point;

/// Makes the one commit by which the root of the bucket at a place names the chain that begins with a number,
/// and keeps that. The commit carries the edit that `E` names, under its number.
pub fn rename<L: Law, E: EditName<L::Entry>>(
    room: &mut NumberRoom,
    mirror: &mut Mirror,
    writer: &mut Writer<L>,
    store: &Store<L>,
    place: u32,
    number: u32,
    edit: Point,
)
    requires store { IsSeatOf store.now writer.old.place }
    requires shape { HasPoolAndRoots store.now.shape.words store.now.shape.blocks store.now.shape.roots }
    requires place { place < BUCKETS }
    requires kept { IsKept mirror.old store.now.shape (sheet_of writer.old.place).cells
        (root_of (seen_by writer.old.place)) }
    requires chain { (own : BucketAt mirror.old (BUCKET_ROOTS + place)) × (blocks : List ℕ)
        × HoldsChain mirror.old store.now.shape (sheet_of writer.old.place).cells own.kept.mask.size
        own.bucket number blocks
        × AreOwn mirror.old (root_of (seen_by writer.old.place)) (BUCKET_ROOTS + place) blocks }
    requires lawful { (blocks : List ℕ) → Spells mirror.old.next.items number blocks → L.keeps
        (seen_by writer.old.place
        ++ commit_of store.now.shape (sheet_of writer.old.place).cells (BUCKET_ROOTS + place) blocks edit
        (Some edit) E.edit ∷ [])
        (base_of (sheet_of writer.old.place)) }
    ensures store { IsSeatOf store.now writer.new.place }
    ensures seen { (blocks : List ℕ) → Spells mirror.old.next.items number blocks → seen_by writer.new.place
        ≡ seen_by writer.old.place
        ++ commit_of store.now.shape (sheet_of writer.old.place).cells (BUCKET_ROOTS + place) blocks edit
        (Some edit) E.edit ∷ [] }
    ensures sheet { sheet_of writer.new.place ≡ sheet_of writer.old.place }
    ensures renamed { IsRenamed mirror.old mirror.new place number }
    ensures kept { IsKept mirror.new store.now.shape (sheet_of writer.new.place).cells
        (root_of (seen_by writer.new.place)) }
{
    name_chain::<L, E>(
        room,
        mirror,
        writer,
        store,
        BUCKET_ROOTS + place,
        number,
        edit,
        Some(edit),
    );
    mirror.begin(place, number);
}

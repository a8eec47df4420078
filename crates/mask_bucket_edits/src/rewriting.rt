//! What stands in front of a place of a bucket's chain, written anew.
ghost use Rattle.store_history.specs.declared.places.TheConstants.{BUCKETS, BUCKET_ROOTS};
ghost use Rattle.std.specs.Prelude.{◌≡◌, ◌≢◌, ℕ, ◌+◌, ◌<◌, ◌≤◌, ◌++◌, ◌∷◌, [], List, length, take, Some};
ghost use Rattle.store_history.specs.History.{root_of};
ghost use Rattle.store_history.specs.Reads.{read_all};
ghost use Rattle.pin_store.specs.Layout.{block_words};
ghost use Rattle.pin_store.specs.Sheets.{base_of, IsSameButCells};
ghost use Rattle.pin_store.specs.Calls.{seen_by, sheet_of, IsSeatOf};
ghost use Rattle.block_codec.specs.declared.filter.StoredFilter.{StoredFilter};
ghost use Rattle.block_codec.specs.Shapes.{HasPoolAndRoots};
ghost use Rattle.block_codec.specs.Filters.{IsStorableFilter};
ghost use Rattle.block_codec.specs.OfReadings.Read.{filter_in};
ghost use Rattle.mask_table.specs.Buckets.{IsAmong};
ghost use Rattle.mask_table.specs.declared.mirrors.mirror.KeptMask.{KeptMask};
ghost use Rattle.mask_table.specs.OfMirrors.Kept.{Stands, IsKept};
ghost use Rattle.mask_table.specs.OfMirrors.Lists.{HasFilters};
ghost use Rattle.mask_table.specs.OfMirrors.Given.{AreGiven};
ghost use Rattle.mask_table.specs.OfMirrors.Changing.{root_for, rewrite_at, HasNone};
ghost use Rattle.mask_bucket_edits.specs.Finding.{IsFound};
ghost use Rattle.mask_bucket_edits.specs.Putting.{listed};

use crate::copying::put_edited;
use crate::finding::Found;
use crate::renaming::rename;
use block_codec::StoredFilter;
use mask_table::mirrors::{Mirror, NumberRoom};
use pin_store::{Store, Writer};
use store_history::{EditName, Law};
use tc_base::Point;

/// Takes out the filter that was found in a bucket's chain, whose blocks are given too, and puts the one of
/// `with`, if there is one, in its place: fills the given blocks with the filters in front of it and with
/// that one, and makes the one commit that names these in front of what was behind the filter. The commit
/// carries the edit that `E` names, under its number.
pub fn rewrite<L: Law, E: EditName<L::Entry>>(
    room: &mut NumberRoom,
    mirror: &mut Mirror,
    writer: &mut Writer<L>,
    store: &Store<L>,
    found: Found,
    blocks: &[u32],
    with: Option<&StoredFilter>,
    given: &[u32],
    edit: Point,
)
    requires store { IsSeatOf store.now writer.old.place }
    requires shape { HasPoolAndRoots store.now.shape.words store.now.shape.blocks store.now.shape.roots }
    requires small { found.place < BUCKETS }
    requires found { (slot handle : ℕ) × (kept : KeptMask) × Stands mirror.old slot kept
        × IsFound (root_of (seen_by writer.old.place)) kept.mask handle found.place found.front blocks.now
        × ((filter : StoredFilter) → IsAmong filter (listed with)
        → BUCKET_ROOTS + found.place ≡ root_for kept.mask filter) }
    requires storable { (filter : StoredFilter) → IsAmong filter (listed with) → IsStorableFilter filter }
    requires many { length given.now ≡ found.front + length (listed with) }
    requires given { AreGiven (base_of (sheet_of writer.old.place)) (seen_by writer.old.place) given.now }
    requires kept { IsKept mirror.old store.now.shape (sheet_of writer.old.place).cells
        (root_of (seen_by writer.old.place)) }
    requires lawful { (front : List StoredFilter)
        → read_all filter_in
        (take found.front (root_of (seen_by writer.old.place) (BUCKET_ROOTS + found.place)).chain)
        ≡ Some front
        → L.keeps (seen_by writer.old.place
        ++ rewrite_at (seen_by writer.old.place) (BUCKET_ROOTS + found.place) given.now
        (front ++ listed with) found.front edit E.edit ∷ [])
        (base_of (sheet_of writer.old.place)) }
    ensures store { IsSeatOf store.now writer.new.place }
    ensures seen { (front : List StoredFilter)
        → read_all filter_in
        (take found.front (root_of (seen_by writer.old.place) (BUCKET_ROOTS + found.place)).chain)
        ≡ Some front
        → seen_by writer.new.place ≡ seen_by writer.old.place
        ++ rewrite_at (seen_by writer.old.place) (BUCKET_ROOTS + found.place) given.now
        (front ++ listed with.entry) found.front edit E.edit ∷ [] }
    ensures sheet { IsSameButCells (sheet_of writer.old.place) (sheet_of writer.new.place) }
    ensures others { (other : ℕ) → (IsAmong other given.now → ⊥) → other < store.now.shape.blocks
        → block_words store.now.shape (sheet_of writer.new.place).cells other
        ≡ block_words store.now.shape (sheet_of writer.old.place).cells other }
    ensures kept { IsKept mirror.new store.now.shape (sheet_of writer.new.place).cells
        (root_of (seen_by writer.new.place)) }
    ensures masks { mirror.new.slots.items ≡ mirror.old.slots.items }
    ensures list { (slot handle last : ℕ) (kept : KeptMask) (earlier : List StoredFilter) (old : StoredFilter)
        (later : List StoredFilter) → Stands mirror.old slot kept
        → IsFound (root_of (seen_by writer.old.place)) kept.mask handle found.place found.front blocks.now
        → HasFilters mirror.old slot last (earlier ++ old ∷ later) → old.handle ≡ handle
        → ((filter : StoredFilter) → IsAmong filter (listed with.entry) → filter.key.words ≡ old.key.words)
        → HasNone handle (earlier ++ later)
        → HasFilters mirror.new slot last (earlier ++ (listed with.entry ++ later)) }
    ensures lists { (slot handle : ℕ) (kept : KeptMask) → Stands mirror.old slot kept
        → IsFound (root_of (seen_by writer.old.place)) kept.mask handle found.place found.front blocks.now
        → (other last : ℕ) (fs : List StoredFilter) → other ≢ slot → HasFilters mirror.old other last fs
        → HasFilters mirror.new other last fs }
{
    let old = blocks[found.front] as usize;
    let age = mirror.ages[old];
    let behind = mirror.next[old];
    let front = &blocks[..found.front];
    let number = put_edited(mirror, writer, store, front, with, age, given, behind);
    rename::<L, E>(room, mirror, writer, store, found.place, number, edit);
}

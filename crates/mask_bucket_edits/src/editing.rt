//! Filters that are taken out of masks, and others that take their places.
ghost use Rattle.store_history.specs.declared.places.TheConstants.{MASK_SLOTS};
ghost use Rattle.std.specs.Prelude.{◌≡◌, ◌≢◌, ℕ, ◌+◌, ◌<◌, ◌≤◌, ◌++◌, ◌∷◌, [], List, length, map, take};
ghost use Rattle.store_history.specs.declared.history.Link.{Link};
ghost use Rattle.store_history.specs.History.{root_of};
ghost use Rattle.pin_store.specs.Layout.{block_words};
ghost use Rattle.pin_store.specs.Sheets.{base_of, IsSameButCells};
ghost use Rattle.pin_store.specs.Calls.{seen_by, sheet_of, IsSeatOf};
ghost use Rattle.block_codec.specs.declared.filter.StoredFilter.{StoredFilter};
ghost use Rattle.block_codec.specs.Shapes.{HasPoolAndRoots};
ghost use Rattle.block_codec.specs.Filters.{IsStorableFilter};
ghost use Rattle.mask_table.specs.Buckets.{IsAmong};
ghost use Rattle.mask_table.specs.declared.mirrors.mirror.KeptMask.{KeptMask};
ghost use Rattle.mask_table.specs.OfMirrors.Kept.{Stands, IsKept};
ghost use Rattle.mask_table.specs.OfMirrors.Lists.{HasFilters};
ghost use Rattle.mask_table.specs.OfMirrors.Given.{AreGiven};
ghost use Rattle.mask_table.specs.OfMirrors.Changing.{FilterAt, root_for, remove_at, replace_at, HasNone};

use crate::finding::{Found, find, find_in};
use crate::rewriting::rewrite;
use block_codec::StoredFilter;
use mask_table::mirrors::{Mirror, NumberRoom, place_in};
use pin_store::{Store, Writer};
use store_history::{EditName, Law};
use tc_base::{Numbers, Point};

/// Takes the filter with a handle out of the mask at a slot: fills the given blocks with the later filters of
/// its bucket, which stand in front of it, and makes the one commit that names these in front of what was
/// behind it. The commit carries the edit that `E` names, under its number. The blocks of the old chain up to
/// the filter's own are left in a room.
///
/// The mask has such a filter, and as many blocks are given as its bucket has later ones. The law must hold
/// of all commits with this one. The filter is looked for in the bucket of the hash first, as by `find`.
pub fn take_out<L: Law, E: EditName<L::Entry>>(
    room: &mut NumberRoom,
    left: &mut NumberRoom,
    mirror: &mut Mirror,
    writer: &mut Writer<L>,
    store: &Store<L>,
    slot: u32,
    handle: u32,
    hash: u64,
    given: &Numbers,
    edit: Point,
)
    requires store { IsSeatOf store.now writer.old.place }
    requires shape { HasPoolAndRoots store.now.shape.words store.now.shape.blocks store.now.shape.roots }
    requires slot { slot < MASK_SLOTS }
    requires there { (kept : KeptMask) × (root : ℕ) × (front : List StoredFilter) × (filter : StoredFilter)
        × Stands mirror.old slot kept
        × FilterAt (root_of (seen_by writer.old.place)) kept.mask handle root front filter }
    requires many { (kept : KeptMask) (root : ℕ) (front : List StoredFilter) (filter : StoredFilter)
        → Stands mirror.old slot kept
        → FilterAt (root_of (seen_by writer.old.place)) kept.mask handle root front filter
        → length given.now ≡ length front }
    requires given { AreGiven (base_of (sheet_of writer.old.place)) (seen_by writer.old.place) given.now }
    requires kept { IsKept mirror.old store.now.shape (sheet_of writer.old.place).cells
        (root_of (seen_by writer.old.place)) }
    requires lawful { (kept : KeptMask) (root : ℕ) (front : List StoredFilter) (filter : StoredFilter)
        → Stands mirror.old slot kept
        → FilterAt (root_of (seen_by writer.old.place)) kept.mask handle root front filter
        → L.keeps (seen_by writer.old.place
        ++ remove_at (seen_by writer.old.place) root given.now front edit E.edit ∷ [])
        (base_of (sheet_of writer.old.place)) }
    ensures store { IsSeatOf store.now writer.new.place }
    ensures done { (kept : KeptMask) → Stands mirror.old slot kept → (root : ℕ) × (front : List StoredFilter)
        × (filter : StoredFilter)
        × FilterAt (root_of (seen_by writer.old.place)) kept.mask handle root front filter
        × (seen_by writer.new.place ≡ seen_by writer.old.place
        ++ remove_at (seen_by writer.old.place) root given.now front edit E.edit ∷ [])
        × (left.new
        ≡ map (λ (l : Link). l.block)
        (take (length front + 1) (root_of (seen_by writer.old.place) root).chain)) }
    ensures sheet { IsSameButCells (sheet_of writer.old.place) (sheet_of writer.new.place) }
    ensures others { (other : ℕ) → (IsAmong other given.now → ⊥) → other < store.now.shape.blocks
        → block_words store.now.shape (sheet_of writer.new.place).cells other
        ≡ block_words store.now.shape (sheet_of writer.old.place).cells other }
    ensures kept { IsKept mirror.new store.now.shape (sheet_of writer.new.place).cells
        (root_of (seen_by writer.new.place)) }
    ensures masks { mirror.new.slots.items ≡ mirror.old.slots.items }
    // the mask goes on without the filter, where no other has its handle
    ensures list { (last : ℕ) (earlier : List StoredFilter) (filter : StoredFilter)
        (later : List StoredFilter)
        → HasFilters mirror.old slot last (earlier ++ filter ∷ later) → filter.handle ≡ handle
        → HasNone handle (earlier ++ later)
        → HasFilters mirror.new slot last (earlier ++ later) }
    ensures lists { (other last : ℕ) (fs : List StoredFilter) → other ≢ slot
        → HasFilters mirror.old other last fs → HasFilters mirror.new other last fs }
{
    let found = find(left, mirror, slot, handle, hash);
    rewrite::<L, E>(
        room,
        mirror,
        writer,
        store,
        found,
        left.as_slice(),
        None,
        given.as_slice(),
        edit,
    );
    left.truncate(found.front + 1);
}

/// Puts a filter in the place of the one with its handle and key in the mask at a slot: fills the given
/// blocks with the later filters of its bucket and with the new one, and makes the one commit that names
/// these in front of what was behind the old one. The commit carries the edit that `E` names, under its
/// number. The blocks of the old chain up to the old filter's are left in a room.
///
/// The mask has such a filter, and one more block is given than its bucket has later ones. The law must hold
/// of all commits with this one.
pub fn exchange<L: Law, E: EditName<L::Entry>>(
    room: &mut NumberRoom,
    left: &mut NumberRoom,
    mirror: &mut Mirror,
    writer: &mut Writer<L>,
    store: &Store<L>,
    slot: u32,
    filter: &StoredFilter,
    given: &Numbers,
    edit: Point,
)
    requires store { IsSeatOf store.now writer.old.place }
    requires shape { HasPoolAndRoots store.now.shape.words store.now.shape.blocks store.now.shape.roots }
    requires slot { slot < MASK_SLOTS }
    requires storable { IsStorableFilter filter.now }
    requires there { (kept : KeptMask) × (front : List StoredFilter) × (old : StoredFilter)
        × Stands mirror.old slot kept
        × FilterAt (root_of (seen_by writer.old.place)) kept.mask filter.now.handle
        (root_for kept.mask filter.now) front old }
    requires many { (kept : KeptMask) (front : List StoredFilter) (old : StoredFilter)
        → Stands mirror.old slot kept
        → FilterAt (root_of (seen_by writer.old.place)) kept.mask filter.now.handle
        (root_for kept.mask filter.now) front old → length given.now ≡ length front + 1 }
    requires given { AreGiven (base_of (sheet_of writer.old.place)) (seen_by writer.old.place) given.now }
    requires kept { IsKept mirror.old store.now.shape (sheet_of writer.old.place).cells
        (root_of (seen_by writer.old.place)) }
    requires lawful { (kept : KeptMask) (front : List StoredFilter) (old : StoredFilter)
        → Stands mirror.old slot kept
        → FilterAt (root_of (seen_by writer.old.place)) kept.mask filter.now.handle
        (root_for kept.mask filter.now) front old
        → L.keeps (seen_by writer.old.place
        ++ replace_at (seen_by writer.old.place) (root_for kept.mask filter.now) given.now front filter.now
        edit E.edit ∷ []) (base_of (sheet_of writer.old.place)) }
    ensures store { IsSeatOf store.now writer.new.place }
    ensures done { (kept : KeptMask) → Stands mirror.old slot kept → (front : List StoredFilter)
        × (old : StoredFilter)
        × FilterAt (root_of (seen_by writer.old.place)) kept.mask filter.now.handle
        (root_for kept.mask filter.now) front old
        × (seen_by writer.new.place ≡ seen_by writer.old.place
        ++ replace_at (seen_by writer.old.place) (root_for kept.mask filter.now) given.now front filter.now
        edit E.edit ∷ [])
        × (left.new
        ≡ map (λ (l : Link). l.block)
        (take (length front + 1)
        (root_of (seen_by writer.old.place) (root_for kept.mask filter.now)).chain)) }
    ensures sheet { IsSameButCells (sheet_of writer.old.place) (sheet_of writer.new.place) }
    ensures others { (other : ℕ) → (IsAmong other given.now → ⊥) → other < store.now.shape.blocks
        → block_words store.now.shape (sheet_of writer.new.place).cells other
        ≡ block_words store.now.shape (sheet_of writer.old.place).cells other }
    ensures kept { IsKept mirror.new store.now.shape (sheet_of writer.new.place).cells
        (root_of (seen_by writer.new.place)) }
    ensures masks { mirror.new.slots.items ≡ mirror.old.slots.items }
    // the filter stands where the old one stood, where no other has its handle
    ensures list { (last : ℕ) (earlier : List StoredFilter) (old : StoredFilter) (later : List StoredFilter)
        → HasFilters mirror.old slot last (earlier ++ old ∷ later) → old.handle ≡ filter.now.handle
        → old.key.words ≡ filter.now.key.words
        → HasNone filter.now.handle (earlier ++ later)
        → HasFilters mirror.new slot last (earlier ++ filter.now ∷ later) }
    ensures lists { (other last : ℕ) (fs : List StoredFilter) → other ≢ slot
        → HasFilters mirror.old other last fs → HasFilters mirror.new other last fs }
{
    let place = place_in(mirror, slot, &filter.key);
    let front = find_in(left, mirror, place, filter.handle);
    let found = Found { place, front };
    rewrite::<L, E>(
        room,
        mirror,
        writer,
        store,
        found,
        left.as_slice(),
        Some(filter),
        given.as_slice(),
        edit,
    );
    left.truncate(front + 1);
}

//! Filters copied from the blocks of a chain into others.
ghost use Rattle.store_history.specs.declared.places.TheConstants.{POOL_BLOCKS};
ghost use Rattle.std.specs.Prelude.{◌≡◌, ℕ, ◌+◌, ◌<◌, ◌≤◌, ◌∷◌, ◌++◌, [], List, length, map, slice_get, Some};
ghost use Rattle.store_history.specs.History.{root_of};
ghost use Rattle.pin_store.specs.Sheets.{base_of, IsSameButCells};
ghost use Rattle.pin_store.specs.Calls.{seen_by, sheet_of, IsSeatOf, IsUnnamed};
ghost use Rattle.block_codec.specs.declared.filter.StoredFilter.{StoredFilter};
ghost use Rattle.block_codec.specs.Shapes.{HasPool};
ghost use Rattle.block_codec.specs.Filters.{IsStorableFilter};
ghost use Rattle.mask_table.specs.OfMirrors.Kept.{HasFilter, IsKept};
ghost use Rattle.mask_table.specs.OfMirrors.Lists.{kept_in, HasFilters};
ghost use Rattle.mask_table.specs.OfMirrors.Given.{AreGiven};
ghost use Rattle.mask_table.specs.Buckets.{IsAmong};
ghost use Rattle.mask_bucket_edits.specs.Putting.{listed, aged, AreApart, ArePut};

use block_codec::StoredFilter;
use mask_table::mirrors::{Mirror, kept_filter, put_in_front};
use pin_store::{Store, Writer};
use store_history::Law;

// Puts a copy of the filter in a block, with its age, into another block, in front of the chain that begins
// with a number.
fn put_copy<L: Law>(
    mirror: &mut Mirror,
    writer: &mut Writer<L>,
    store: &Store<L>,
    from: u32,
    block: u32,
    number: u32,
)
    requires store { IsSeatOf store.now writer.old.place }
    requires shape { HasPool store.now.shape.words store.now.shape.blocks }
    requires block { block < POOL_BLOCKS }
    requires from { HasFilter mirror.old.filters.items from }
    requires free { IsUnnamed (base_of (sheet_of writer.old.place)) (seen_by writer.old.place) block }
    requires kept { IsKept mirror.old store.now.shape (sheet_of writer.old.place).cells
        (root_of (seen_by writer.old.place)) }
    ensures store { IsSeatOf store.now writer.new.place }
    ensures seen { seen_by writer.new.place ≡ seen_by writer.old.place }
    ensures sheet { IsSameButCells (sheet_of writer.old.place) (sheet_of writer.new.place) }
    ensures put { ArePut mirror.old mirror.new store.now.shape (sheet_of writer.old.place).cells
        (sheet_of writer.new.place).cells (block ∷ []) (kept_in mirror.old from ∷ []) number (block + 1) }
    ensures lists { (slot last : ℕ) (fs : List StoredFilter) → HasFilters mirror.old slot last fs
        → HasFilters mirror.new slot last fs }
    ensures kept { IsKept mirror.new store.now.shape (sheet_of writer.new.place).cells
        (root_of (seen_by writer.new.place)) }
{
    let filter = kept_filter(mirror, from);
    let age = mirror.ages[from as usize];
    put_in_front(mirror, writer, store, block, &filter, age, number);
}

/// Puts copies of the filters of some blocks, with their ages, into as many given blocks, in front of the
/// chain that begins with a number, and answers the number with which the longer chain begins. No root is
/// changed, so what is kept stays what the roots name.
pub fn put_copies<L: Law>(
    mirror: &mut Mirror,
    writer: &mut Writer<L>,
    store: &Store<L>,
    from: &[u32],
    given: &[u32],
    number: u32,
) -> u32
    requires store { IsSeatOf store.now writer.old.place }
    requires shape { HasPool store.now.shape.words store.now.shape.blocks }
    requires long { length given.now ≡ length from.now }
    requires from { (place b : ℕ) → slice_get from.now place ≡ Some b → HasFilter mirror.old.filters.items b }
    requires given { AreGiven (base_of (sheet_of writer.old.place)) (seen_by writer.old.place) given.now }
    requires apart { AreApart from.now given.now }
    requires kept { IsKept mirror.old store.now.shape (sheet_of writer.old.place).cells
        (root_of (seen_by writer.old.place)) }
    ensures store { IsSeatOf store.now writer.new.place }
    ensures seen { seen_by writer.new.place ≡ seen_by writer.old.place }
    ensures sheet { IsSameButCells (sheet_of writer.old.place) (sheet_of writer.new.place) }
    ensures put { ArePut mirror.old mirror.new store.now.shape (sheet_of writer.old.place).cells
        (sheet_of writer.new.place).cells given.now (map (kept_in mirror.old) from.now) number result }
    ensures lists { (slot last : ℕ) (fs : List StoredFilter) → HasFilters mirror.old slot last fs
        → HasFilters mirror.new slot last fs }
    ensures kept { IsKept mirror.new store.now.shape (sheet_of writer.new.place).cells
        (root_of (seen_by writer.new.place)) }
{
    let mut start = number;
    let mut left = from.len();
    while left > 0 {
        left -= 1;
        put_copy(mirror, writer, store, from[left], given[left], start);
        start = given[left] + 1;
    }
    start
}

// Puts a filter with an age, and copies of those of some blocks in front of it, into one more given block
// than these, in front of the chain that begins with a number, and answers the number with which the longer
// chain begins.
fn put_changed<L: Law>(
    mirror: &mut Mirror,
    writer: &mut Writer<L>,
    store: &Store<L>,
    from: &[u32],
    filter: &StoredFilter,
    age: u64,
    given: &[u32],
    number: u32,
) -> u32
    requires store { IsSeatOf store.now writer.old.place }
    requires shape { HasPool store.now.shape.words store.now.shape.blocks }
    requires long { length given.now ≡ length from.now + 1 }
    requires from { (place b : ℕ) → slice_get from.now place ≡ Some b → HasFilter mirror.old.filters.items b }
    requires storable { IsStorableFilter filter.now }
    requires given { AreGiven (base_of (sheet_of writer.old.place)) (seen_by writer.old.place) given.now }
    requires apart { AreApart from.now given.now }
    requires kept { IsKept mirror.old store.now.shape (sheet_of writer.old.place).cells
        (root_of (seen_by writer.old.place)) }
    ensures store { IsSeatOf store.now writer.new.place }
    ensures seen { seen_by writer.new.place ≡ seen_by writer.old.place }
    ensures sheet { IsSameButCells (sheet_of writer.old.place) (sheet_of writer.new.place) }
    ensures put { ArePut mirror.old mirror.new store.now.shape (sheet_of writer.old.place).cells
        (sheet_of writer.new.place).cells given.now
        (map (kept_in mirror.old) from.now ++ (age, Some filter.now) ∷ []) number result }
    ensures lists { (slot last : ℕ) (fs : List StoredFilter) → HasFilters mirror.old slot last fs
        → HasFilters mirror.new slot last fs }
    ensures kept { IsKept mirror.new store.now.shape (sheet_of writer.new.place).cells
        (root_of (seen_by writer.new.place)) }
{
    let last = from.len();
    let block = given[last];
    put_in_front(mirror, writer, store, block, filter, age, number);
    put_copies(mirror, writer, store, from, &given[..last], block + 1)
}

/// Puts the one filter, if there is one, with an age, and copies of those of some blocks in front of it, into
/// as many given blocks, in front of the chain that begins with a number, and answers the number with which
/// the longer chain begins.
pub fn put_edited<L: Law>(
    mirror: &mut Mirror,
    writer: &mut Writer<L>,
    store: &Store<L>,
    from: &[u32],
    with: Option<&StoredFilter>,
    age: u64,
    given: &[u32],
    number: u32,
) -> u32
    requires store { IsSeatOf store.now writer.old.place }
    requires shape { HasPool store.now.shape.words store.now.shape.blocks }
    requires long { length given.now ≡ length from.now + length (listed with) }
    requires from { (place b : ℕ) → slice_get from.now place ≡ Some b → HasFilter mirror.old.filters.items b }
    requires storable { (filter : StoredFilter) → IsAmong filter (listed with) → IsStorableFilter filter }
    requires given { AreGiven (base_of (sheet_of writer.old.place)) (seen_by writer.old.place) given.now }
    requires apart { AreApart from.now given.now }
    requires kept { IsKept mirror.old store.now.shape (sheet_of writer.old.place).cells
        (root_of (seen_by writer.old.place)) }
    ensures store { IsSeatOf store.now writer.new.place }
    ensures seen { seen_by writer.new.place ≡ seen_by writer.old.place }
    ensures sheet { IsSameButCells (sheet_of writer.old.place) (sheet_of writer.new.place) }
    ensures put { ArePut mirror.old mirror.new store.now.shape (sheet_of writer.old.place).cells
        (sheet_of writer.new.place).cells given.now
        (map (kept_in mirror.old) from.now ++ aged age (listed with.entry)) number result }
    ensures lists { (slot last : ℕ) (fs : List StoredFilter) → HasFilters mirror.old slot last fs
        → HasFilters mirror.new slot last fs }
    ensures kept { IsKept mirror.new store.now.shape (sheet_of writer.new.place).cells
        (root_of (seen_by writer.new.place)) }
{
    match with {
        None => put_copies(mirror, writer, store, from, given, number),
        Some(filter) => put_changed(mirror, writer, store, from, filter, age, given, number),
    }
}

//! Filters that are taken out of masks, and others that take their places.

use crate::blocks::Blocks;
use crate::mask_writer::MaskWriter;
use crate::told::{Exchanged, Without};
use block_codec::StoredFilter;
use mask_bucket_edits::{exchange, find, take_out};
use pin_store::{Store, Writer};
use std::slice;
use store_history::{EditName, Law};
use tc_base::Point;

impl MaskWriter {
    ghost use Rattle.store_history.specs.declared.places.TheConstants.{MASK_SLOTS};
    ghost use Rattle.block_codec.specs.Shapes.{HasPoolAndRoots};
    ghost use Rattle.std.specs.Prelude.{◌≡◌, ◌≢◌, ℕ, ◌+◌, ◌<◌, ◌≤◌, ◌++◌, ◌∷◌, [], List, length, map, take};
    ghost use Rattle.store_history.specs.declared.history.Link.{Link};
    ghost use Rattle.store_history.specs.declared.history.Named.{Named};
    ghost use Rattle.store_history.specs.History.{root_of};
    ghost use Rattle.pin_store.specs.declared.shape.Shape.{Shape};
    ghost use Rattle.pin_store.specs.Layout.{block_words};
    ghost use Rattle.pin_store.specs.Sheets.{base_of, IsSameButCells};
    ghost use Rattle.pin_store.specs.Calls.{seen_by, sheet_of, IsSeatOf};
    ghost use Rattle.block_codec.specs.declared.filter.StoredFilter.{StoredFilter};
    ghost use Rattle.block_codec.specs.Filters.{IsStorableFilter};
    ghost use Rattle.mask_table.specs.Buckets.{IsAmong};
    ghost use Rattle.mask_table.specs.declared.mirrors.mirror.KeptMask.{KeptMask};
    ghost use Rattle.mask_table.specs.OfMirrors.Given.{AreGiven};
    ghost use Rattle.mask_table.specs.OfMirrors.Changing.{FilterAt, root_for, remove_at, replace_at, HasNone};
    ghost use Rattle.mask_writer.specs.Telling.{without, exchanged};
    ghost use Rattle.mask_writer.specs.Standing.{masks_of, order_at, StandsAt, Holds, OthersStay, AreNamed};

    /// How many filters stand in front of the one with a handle in its bucket of the mask at a slot, which
    /// has such a filter: so many blocks are to be given to the removal of that filter. Nothing else is
    /// changed, and no commit is made.
    ///
    /// The filter is looked for in the bucket of the hash first, and so it is when it is removed next. The
    /// hash of its key spares a search of the whole mask; any other costs that search alone.
    pub fn later_than(&mut self, slot: u32, handle: u32, hash: u64) -> u32
        requires slot { slot < MASK_SLOTS }
        requires there { (kept : KeptMask) × (shape : Shape) × (cells : List ℕ) × (roots : ℕ → Named)
            × (root : ℕ) × (front : List StoredFilter) × (filter : StoredFilter)
            × StandsAt self.old slot kept × AreNamed self.old shape cells roots
            × FilterAt roots kept.mask handle root front filter }
        ensures count { (kept : KeptMask) (shape : Shape) (cells : List ℕ) (roots : ℕ → Named)
            → StandsAt self.old slot kept → AreNamed self.old shape cells roots
            → (root : ℕ) × (front : List StoredFilter) × (filter : StoredFilter)
            × FilterAt roots kept.mask handle root front filter × (result ≡ length front) }
        ensures same { self.new ≡ self.old }
    {
        self.hash = hash;
        let found = find(&mut self.chain, &self.mirror, slot, handle, hash);
        found.front as u32
    }

    /// Takes the filter with a handle out of the mask at a slot: fills the given blocks with the later
    /// filters of its bucket, which stand in front of it, and makes the one commit that names these in front
    /// of what was behind it. The commit carries the edit that `E` names, under its number.
    ///
    /// The mask has such a filter, and as many blocks are given as its bucket has later ones. The law must
    /// hold of all commits with this one.
    pub fn remove<L: Law, E: EditName<L::Entry>>(
        &mut self,
        writer: &mut Writer<L>,
        store: &Store<L>,
        slot: u32,
        handle: u32,
        given: &Blocks,
        edit: Point,
    )
        requires store { IsSeatOf store.now writer.old.place }
        requires shape { HasPoolAndRoots store.now.shape.words store.now.shape.blocks store.now.shape.roots }
        requires slot { slot < MASK_SLOTS }
        requires there { (kept : KeptMask) × (root : ℕ) × (front : List StoredFilter)
            × (filter : StoredFilter)
            × StandsAt self.old slot kept
            × FilterAt (root_of (seen_by writer.old.place)) kept.mask handle root front filter }
        requires many { (kept : KeptMask) (root : ℕ) (front : List StoredFilter) (filter : StoredFilter)
            → StandsAt self.old slot kept
            → FilterAt (root_of (seen_by writer.old.place)) kept.mask handle root front filter
            → length given.now.blocks ≡ length front }
        requires given { AreGiven (base_of (sheet_of writer.old.place))
            (seen_by writer.old.place) given.now.blocks }
        requires kept { AreNamed self.old store.now.shape (sheet_of writer.old.place).cells
            (root_of (seen_by writer.old.place)) }
        requires lawful { (kept : KeptMask) (root : ℕ) (front : List StoredFilter) (filter : StoredFilter)
            → StandsAt self.old slot kept
            → FilterAt (root_of (seen_by writer.old.place)) kept.mask handle root front filter
            → L.keeps (seen_by writer.old.place
            ++ remove_at (seen_by writer.old.place) root given.now.blocks front edit E.edit ∷ [])
            (base_of (sheet_of writer.old.place)) }
        ensures store { IsSeatOf store.now writer.new.place }
        ensures done { (kept : KeptMask) → StandsAt self.old slot kept → (root : ℕ)
            × (front : List StoredFilter) × (filter : StoredFilter)
            × FilterAt (root_of (seen_by writer.old.place)) kept.mask handle root front filter
            × (seen_by writer.new.place ≡ seen_by writer.old.place
            ++ remove_at (seen_by writer.old.place) root given.now.blocks front edit E.edit ∷ [])
            × (self.new.left_blocks ≡ map (λ (l : Link). l.block)
            (take (length front + 1) (root_of (seen_by writer.old.place) root).chain)) }
        ensures sheet { IsSameButCells (sheet_of writer.old.place) (sheet_of writer.new.place) }
        ensures others { (other : ℕ) → (IsAmong other given.now.blocks → ⊥) → other < store.now.shape.blocks
            → block_words store.now.shape (sheet_of writer.new.place).cells other
            ≡ block_words store.now.shape (sheet_of writer.old.place).cells other }
        ensures kept { AreNamed self.new store.now.shape (sheet_of writer.new.place).cells
            (root_of (seen_by writer.new.place)) }
        ensures masks { masks_of self.new ≡ masks_of self.old }
        ensures order { order_at self.new slot ≡ without (order_at self.old slot) [] handle }
        // the mask goes on without the filter, where no other has its handle
        ensures list { (last : ℕ) (earlier : List StoredFilter) (filter : StoredFilter)
            (later : List StoredFilter)
            → Holds self.old slot last (earlier ++ filter ∷ later) → filter.handle ≡ handle
            → HasNone handle (earlier ++ later)
            → Holds self.new slot last (earlier ++ later) }
        ensures untouched { OthersStay self.old self.new slot }
        ensures lists { (other last : ℕ) (fs : List StoredFilter) → other ≢ slot
            → Holds self.old other last fs
            → Holds self.new other last fs }
        ensures left_rows { self.new.left_rows ≡ [] }
    {
        take_out::<L, E>(
            &mut self.chain,
            &mut self.left_blocks,
            &mut self.mirror,
            writer,
            store,
            slot,
            handle,
            self.hash,
            &given.blocks,
            edit,
        );
        self.left_rows.clear();
        self.told = self.told.with_none::<Without>(slot, handle);
    }

    /// Puts a filter in the place of the one with its handle and key in the mask at a slot: fills the given
    /// blocks with the later filters of its bucket and with the new one, and makes the one commit that names
    /// these in front of what was behind the old one. The commit carries the edit that `E` names, under its
    /// number.
    ///
    /// The mask has such a filter, and one more block is given than its bucket has later ones. The law must
    /// hold of all commits with this one.
    pub fn replace<L: Law, E: EditName<L::Entry>>(
        &mut self,
        writer: &mut Writer<L>,
        store: &Store<L>,
        slot: u32,
        filter: &StoredFilter,
        given: &Blocks,
        edit: Point,
    )
        requires store { IsSeatOf store.now writer.old.place }
        requires shape { HasPoolAndRoots store.now.shape.words store.now.shape.blocks store.now.shape.roots }
        requires slot { slot < MASK_SLOTS }
        requires storable { IsStorableFilter filter.now }
        requires there { (kept : KeptMask) × (front : List StoredFilter) × (old : StoredFilter)
            × StandsAt self.old slot kept
            × FilterAt (root_of (seen_by writer.old.place)) kept.mask filter.now.handle
            (root_for kept.mask filter.now) front old }
        requires many { (kept : KeptMask) (front : List StoredFilter) (old : StoredFilter)
            → StandsAt self.old slot kept
            → FilterAt (root_of (seen_by writer.old.place)) kept.mask filter.now.handle
            (root_for kept.mask filter.now) front old → length given.now.blocks ≡ length front + 1 }
        requires given { AreGiven (base_of (sheet_of writer.old.place))
            (seen_by writer.old.place) given.now.blocks }
        requires kept { AreNamed self.old store.now.shape (sheet_of writer.old.place).cells
            (root_of (seen_by writer.old.place)) }
        requires lawful { (kept : KeptMask) (front : List StoredFilter) (old : StoredFilter)
            → StandsAt self.old slot kept
            → FilterAt (root_of (seen_by writer.old.place)) kept.mask filter.now.handle
            (root_for kept.mask filter.now) front old
            → L.keeps (seen_by writer.old.place
            ++ replace_at (seen_by writer.old.place)
            (root_for kept.mask filter.now) given.now.blocks front filter.now edit E.edit ∷ [])
            (base_of (sheet_of writer.old.place)) }
        ensures store { IsSeatOf store.now writer.new.place }
        ensures done { (kept : KeptMask) → StandsAt self.old slot kept → (front : List StoredFilter)
            × (old : StoredFilter)
            × FilterAt (root_of (seen_by writer.old.place)) kept.mask filter.now.handle
            (root_for kept.mask filter.now) front old
            × (seen_by writer.new.place ≡ seen_by writer.old.place
            ++ replace_at (seen_by writer.old.place)
            (root_for kept.mask filter.now) given.now.blocks front filter.now edit E.edit ∷ [])
            × (self.new.left_blocks ≡ map (λ (l : Link). l.block) (take (length front + 1)
            (root_of (seen_by writer.old.place) (root_for kept.mask filter.now)).chain)) }
        ensures sheet { IsSameButCells (sheet_of writer.old.place) (sheet_of writer.new.place) }
        ensures others { (other : ℕ) → (IsAmong other given.now.blocks → ⊥) → other < store.now.shape.blocks
            → block_words store.now.shape (sheet_of writer.new.place).cells other
            ≡ block_words store.now.shape (sheet_of writer.old.place).cells other }
        ensures kept { AreNamed self.new store.now.shape (sheet_of writer.new.place).cells
            (root_of (seen_by writer.new.place)) }
        ensures masks { masks_of self.new ≡ masks_of self.old }
        ensures order { order_at self.new slot ≡ exchanged (order_at self.old slot) (filter.now ∷ []) edit }
        // the filter stands where the old one stood, where no other has its handle
        ensures list { (last : ℕ) (earlier : List StoredFilter) (old : StoredFilter)
            (later : List StoredFilter)
            → Holds self.old slot last (earlier ++ old ∷ later) → old.handle ≡ filter.now.handle
            → old.key.words ≡ filter.now.key.words
            → HasNone filter.now.handle (earlier ++ later)
            → Holds self.new slot last (earlier ++ filter.now ∷ later) }
        ensures untouched { OthersStay self.old self.new slot }
        ensures lists { (other last : ℕ) (fs : List StoredFilter) → other ≢ slot
            → Holds self.old other last fs
            → Holds self.new other last fs }
        ensures left_rows { self.new.left_rows ≡ [] }
    {
        exchange::<L, E>(
            &mut self.chain,
            &mut self.left_blocks,
            &mut self.mirror,
            writer,
            store,
            slot,
            filter,
            &given.blocks,
            edit,
        );
        self.left_rows.clear();
        let one = slice::from_ref(filter);
        self.told = self.told.with::<Exchanged>(slot, one, edit);
    }
}

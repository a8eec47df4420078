//! Masks that come to stand.
ghost use Rattle.store_history.specs.declared.places.TheConstants.{MASK_SLOTS};
ghost use Rattle.block_codec.specs.Shapes.{HasPoolAndRoots};
ghost use Rattle.std.specs.Prelude.{◌≡◌, ◌≢◌, ℕ, ◌+◌, ◌<◌, ◌≤◌, ◌++◌, ◌∷◌, List, [], length, take};
ghost use Rattle.std.specs.Prelude.{slice_index, slice_set, Some, All};
ghost use Rattle.store_history.specs.History.{root_of};
ghost use Rattle.pin_store.specs.Layout.{block_words};
ghost use Rattle.pin_store.specs.Sheets.{base_of, IsSameButCells};
ghost use Rattle.pin_store.specs.Calls.{seen_by, sheet_of, IsSeatOf};
ghost use Rattle.block_codec.specs.declared.filter.StoredFilter.{StoredFilter};
ghost use Rattle.block_codec.specs.Filters.{IsStorableFilter};
ghost use Rattle.block_codec.specs.Masks.{IsStorableMask};
ghost use Rattle.mask_table.specs.Buckets.{IsAmong};
ghost use Rattle.mask_table.specs.OfMirrors.Given.{AreGiven};
ghost use Rattle.mask_table.specs.OfMirrors.Linked.{placed, raise_commits};
ghost use Rattle.mask_writer.specs.Telling.{begun};
ghost use Rattle.mask_writer.specs.Standing.{masks_of, order_at, IsEmptyAt, Holds};
ghost use Rattle.mask_writer.specs.Standing.{OthersStay, AreNamed, AreFree};

use crate::blocks::Blocks;
use crate::mask_writer::MaskWriter;
use crate::told::Begun;
use block_codec::{StoredFilter, StoredMask};
use mask_build::make_mask;
use mask_table::mirrors::StoredFilters;
use pin_store::{Store, Writer};
use std::slice;
use store_history::{EditName, Law};
use tc_base::Point;

impl MaskWriter {
    /// Makes a mask with one filter at a slot: fills the first given block with the filter and the second
    /// with the mask's record, and makes the commits that name them: to the root of each bucket, the empty
    /// ones too, and then to the slot's. They carry no number, and `edit` is their stamp.
    ///
    /// No mask stands at the slot, and none has one of the mask's rows. The law must hold of all commits with
    /// each first part of these.
    pub fn create<L: Law, E: EditName<L::Entry>>(
        &mut self,
        writer: &mut Writer<L>,
        store: &Store<L>,
        slot: u32,
        mask: &StoredMask,
        filter: &StoredFilter,
        given: &Blocks,
        edit: Point,
    )
        requires store { IsSeatOf store.now writer.old.place }
        requires shape { HasPoolAndRoots store.now.shape.words store.now.shape.blocks store.now.shape.roots }
        requires slot { slot < MASK_SLOTS }
        requires empty { IsEmptyAt self.old slot }
        requires mask { IsStorableMask mask.now }
        requires rows { AreFree self.old mask.now.rows }
        requires storable { IsStorableFilter filter.now }
        requires many { length given.now.blocks ≡ 2 }
        requires given { AreGiven (base_of (sheet_of writer.old.place))
            (seen_by writer.old.place) given.now.blocks }
        requires kept { AreNamed self.old store.now.shape (sheet_of writer.old.place).cells
            (root_of (seen_by writer.old.place)) }
        requires lawful { (n : ℕ) → L.keeps (seen_by writer.old.place
            ++ take n (raise_commits slot mask.now (slice_index given.now.blocks 1)
            (placed given.now.blocks (filter.now ∷ [])) edit))
            (base_of (sheet_of writer.old.place)) }
        ensures store { IsSeatOf store.now writer.new.place }
        ensures seen { seen_by writer.new.place ≡ seen_by writer.old.place
            ++ raise_commits slot mask.now (slice_index given.now.blocks 1)
            (placed given.now.blocks (filter.now ∷ [])) edit }
        ensures sheet { IsSameButCells (sheet_of writer.old.place) (sheet_of writer.new.place) }
        ensures others { (other : ℕ) → (IsAmong other given.now.blocks → ⊥) → other < store.now.shape.blocks
            → block_words store.now.shape (sheet_of writer.new.place).cells other
            ≡ block_words store.now.shape (sheet_of writer.old.place).cells other }
        ensures kept { AreNamed self.new store.now.shape (sheet_of writer.new.place).cells
            (root_of (seen_by writer.new.place)) }
        ensures masks { masks_of self.new ≡ slice_set (masks_of self.old) slot
            (Some (record { block = slice_index given.now.blocks 1; mask = mask.now })) }
        ensures order { order_at self.new slot ≡ begun (order_at self.old slot) (filter.now ∷ []) edit }
        ensures list { Holds self.new slot edit (filter.now ∷ []) }
        ensures untouched { OthersStay self.old self.new slot }
        ensures lists { (other last : ℕ) (fs : List StoredFilter) → other ≢ slot
            → Holds self.old other last fs
            → Holds self.new other last fs }
        ensures left { (self.new.left_blocks ≡ []) × (self.new.left_rows ≡ []) }
    {
        let one = slice::from_ref(filter);
        make_mask::<L, E>(
            &mut self.chain,
            &mut self.mirror,
            writer,
            store,
            slot,
            mask,
            one,
            given.blocks.as_slice(),
            edit,
        );
        self.left_blocks.clear();
        self.left_rows.clear();
        self.told = self.told.with::<Begun>(slot, one, edit);
    }

    /// Makes a mask with some filters at a slot, one or more, as `create` does with one: the first given
    /// blocks are for the filters, in order, and the one behind them for the mask's record.
    pub fn build<L: Law, E: EditName<L::Entry>>(
        &mut self,
        writer: &mut Writer<L>,
        store: &Store<L>,
        slot: u32,
        mask: &StoredMask,
        filters: &StoredFilters,
        given: &Blocks,
        edit: Point,
    )
        requires store { IsSeatOf store.now writer.old.place }
        requires shape { HasPoolAndRoots store.now.shape.words store.now.shape.blocks store.now.shape.roots }
        requires slot { slot < MASK_SLOTS }
        requires empty { IsEmptyAt self.old slot }
        requires mask { IsStorableMask mask.now }
        requires rows { AreFree self.old mask.now.rows }
        requires storable { All IsStorableFilter filters.now }
        requires many { length given.now.blocks ≡ length filters.now + 1 }
        requires given { AreGiven (base_of (sheet_of writer.old.place))
            (seen_by writer.old.place) given.now.blocks }
        requires kept { AreNamed self.old store.now.shape (sheet_of writer.old.place).cells
            (root_of (seen_by writer.old.place)) }
        requires lawful { (n : ℕ) → L.keeps (seen_by writer.old.place
            ++ take n (raise_commits slot mask.now (slice_index given.now.blocks (length filters.now))
            (placed given.now.blocks filters.now) edit))
            (base_of (sheet_of writer.old.place)) }
        ensures store { IsSeatOf store.now writer.new.place }
        ensures seen { seen_by writer.new.place ≡ seen_by writer.old.place
            ++ raise_commits slot mask.now (slice_index given.now.blocks (length filters.now))
            (placed given.now.blocks filters.now) edit }
        ensures sheet { IsSameButCells (sheet_of writer.old.place) (sheet_of writer.new.place) }
        ensures others { (other : ℕ) → (IsAmong other given.now.blocks → ⊥) → other < store.now.shape.blocks
            → block_words store.now.shape (sheet_of writer.new.place).cells other
            ≡ block_words store.now.shape (sheet_of writer.old.place).cells other }
        ensures kept { AreNamed self.new store.now.shape (sheet_of writer.new.place).cells
            (root_of (seen_by writer.new.place)) }
        ensures masks { masks_of self.new ≡ slice_set (masks_of self.old) slot
            (Some (record { block = slice_index given.now.blocks (length filters.now); mask = mask.now })) }
        ensures order { order_at self.new slot ≡ begun (order_at self.old slot) filters.now edit }
        ensures list { Holds self.new slot edit filters.now }
        ensures untouched { OthersStay self.old self.new slot }
        ensures lists { (other last : ℕ) (fs : List StoredFilter) → other ≢ slot
            → Holds self.old other last fs
            → Holds self.new other last fs }
        ensures left { (self.new.left_blocks ≡ []) × (self.new.left_rows ≡ []) }
    {
        let all = filters.as_slice();
        make_mask::<L, E>(
            &mut self.chain,
            &mut self.mirror,
            writer,
            store,
            slot,
            mask,
            all,
            given.blocks.as_slice(),
            edit,
        );
        self.left_blocks.clear();
        self.left_rows.clear();
        self.told = self.told.with::<Begun>(slot, all, edit);
    }
}

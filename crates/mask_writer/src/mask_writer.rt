//! The writer of all masks of a store.
ghost use Rattle.std.specs.Prelude.{◌≡◌, ◌≤◌, ℕ, None, IfOk};
ghost use Rattle.mask_table.specs.declared.mirrors.mirror.KeptMask.{KeptMask};

use crate::adding::insert_filter;
use crate::blocks::Blocks;
use crate::told::{Ended, Joined, Told};
use block_codec::StoredFilter;
use mask_table::mirrors::{Mirror, NumberRoom, gather_mask};
use pin_store::{Shape, Store, Writer};
use std::alloc::Global;
use std::marker::Model;
use std::slice;
use store_history::{EditName, Law};
use tc_base::{NoMemory, Point};

/// Changes the masks of a store, and keeps what it committed of them. One serves all masks of a store.
///
/// Clauses see it as the masks that stand, by slot, and what left last.
#[derive(Drop)]
pub struct MaskWriter {
    pub(crate) mirror: Mirror,
    pub(crate) chain: NumberRoom,
    pub(crate) left_blocks: NumberRoom,
    pub(crate) left_rows: NumberRoom,
    /// That of the key that was asked for last: a removal looks for its filter there first.
    pub(crate) hash: u64,
    pub(crate) told: Told,
}

impl Model for MaskWriter {
    ghost use Rattle.mask_writer.specs.Masks.{Masks};
    ghost use Rattle.mask_writer.specs.Shown.{all_standing, IsTold};

    ghost Value = { Masks };

    ghost view = { λ w. record {
      at = all_standing w.mirror w.mirror.slots.items w.told.orders;
      left_blocks = w.left_blocks;
      left_rows = w.left_rows;
    } };

    ghost invariant = { λ w. IsTold w.mirror w.told.orders };
}

impl MaskWriter {
    ghost use Rattle.store_history.specs.declared.places.TheConstants.{MASK_SLOTS, POOL_BLOCKS};
    ghost use Rattle.block_codec.specs.Shapes.{HasPoolAndRoots};
    ghost use Rattle.std.specs.Prelude.{◌≢◌, ◌<◌, ◌+◌, ◌++◌, ◌∷◌, List, [], length, slice_index, slice_set};
    ghost use Rattle.store_history.specs.declared.history.Named.{Named};
    ghost use Rattle.store_history.specs.History.{root_of};
    ghost use Rattle.pin_store.specs.declared.shape.Shape.{Shape};
    ghost use Rattle.pin_store.specs.Layout.{block_words};
    ghost use Rattle.pin_store.specs.Sheets.{base_of, IsSameButCells};
    ghost use Rattle.pin_store.specs.Calls.{seen_by, sheet_of, IsSeatOf, IsUnnamed};
    ghost use Rattle.block_codec.specs.Filters.{IsStorableFilter};
    ghost use Rattle.block_codec.specs.declared.filter.StoredFilter.{StoredFilter};
    ghost use Rattle.mask_table.specs.OfMirrors.Changing.{root_for, insert_at};
    ghost use Rattle.mask_table.specs.OfMirrors.Forgetting.{bucket_blocks};
    ghost use Rattle.mask_writer.specs.Telling.{joined};
    ghost use Rattle.mask_writer.specs.Standing.{masks_of, order_at, StandsAt, IsEmptyAt, Holds};
    ghost use Rattle.mask_writer.specs.Standing.{OthersStay, AreNamed};

    /// Takes the room for the masks of a store of this shape. No mask stands. No other call takes memory.
    pub fn with_room(alloc: Global, _shape: Shape) -> Result<MaskWriter, NoMemory>
        requires { HasPoolAndRoots _shape.words _shape.blocks _shape.roots }
        ensures empty { IfOk result (λ made. (slot : ℕ) → IsEmptyAt made slot) }
        ensures kept { IfOk result (λ made. (shape : Shape) (cells : List ℕ) (roots : ℕ → Named)
            → AreNamed made shape cells roots) }
        ensures left { IfOk result (λ made. (made.left_blocks ≡ []) × (made.left_rows ≡ [])) }
    {
        let mirror = Mirror::with_room(alloc)?;
        let told = Told::nothing(&mirror);
        Ok(MaskWriter {
            mirror,
            chain: NumberRoom::with_room(alloc)?,
            left_blocks: NumberRoom::with_room(alloc)?,
            left_rows: NumberRoom::with_room(alloc)?,
            hash: 0,
            told,
        })
    }

    /// Puts a filter into the mask at a slot: fills the given block, and makes the one commit that names it
    /// in front of the chain of its bucket. The commit carries the edit that `E` names, under its number.
    ///
    /// The mask has no filter with that handle or key. The law must hold of all commits with this one.
    pub fn insert<L: Law, E: EditName<L::Entry>>(
        &mut self,
        writer: &mut Writer<L>,
        store: &Store<L>,
        slot: u32,
        filter: &StoredFilter,
        given: &Blocks,
        edit: Point,
    )
        requires store { IsSeatOf store.now writer.old.place }
        requires shape { HasPoolAndRoots store.now.shape.words store.now.shape.blocks store.now.shape.roots }
        requires slot { slot < MASK_SLOTS }
        requires stands { (kept : KeptMask) × StandsAt self.old slot kept }
        requires storable { IsStorableFilter filter.now }
        requires given { (length given.now.blocks ≡ 1) × (slice_index given.now.blocks 0 < POOL_BLOCKS) }
        requires free { IsUnnamed (base_of (sheet_of writer.old.place)) (seen_by writer.old.place)
            (slice_index given.now.blocks 0) }
        requires kept { AreNamed self.old store.now.shape (sheet_of writer.old.place).cells
            (root_of (seen_by writer.old.place)) }
        requires lawful { (kept : KeptMask) → StandsAt self.old slot kept → L.keeps
            (seen_by writer.old.place ++ insert_at (seen_by writer.old.place) (root_for kept.mask filter.now)
            (slice_index given.now.blocks 0) filter.now edit E.edit ∷ [])
            (base_of (sheet_of writer.old.place)) }
        ensures store { IsSeatOf store.now writer.new.place }
        ensures seen { (kept : KeptMask) → StandsAt self.old slot kept → seen_by writer.new.place
            ≡ seen_by writer.old.place ++ insert_at (seen_by writer.old.place) (root_for kept.mask filter.now)
            (slice_index given.now.blocks 0) filter.now edit E.edit ∷ [] }
        ensures sheet { IsSameButCells (sheet_of writer.old.place) (sheet_of writer.new.place) }
        ensures others { (other : ℕ) → other ≢ slice_index given.now.blocks 0 → other < store.now.shape.blocks
            → block_words store.now.shape (sheet_of writer.new.place).cells other
            ≡ block_words store.now.shape (sheet_of writer.old.place).cells other }
        ensures kept { AreNamed self.new store.now.shape (sheet_of writer.new.place).cells
            (root_of (seen_by writer.new.place)) }
        ensures masks { masks_of self.new ≡ masks_of self.old }
        ensures order { order_at self.new slot ≡ joined (order_at self.old slot) (filter.now ∷ []) edit }
        // the mask has one filter more, the last, where no edit of this number or a later one brought one of
        // them
        ensures list { (last : ℕ) (fs : List StoredFilter) → Holds self.old slot last fs → last < edit
            → Holds self.new slot edit (fs ++ filter.now ∷ []) }
        ensures untouched { OthersStay self.old self.new slot }
        ensures lists { (other last : ℕ) (fs : List StoredFilter) → other ≢ slot
            → Holds self.old other last fs
            → Holds self.new other last fs }
        ensures left { (self.new.left_blocks ≡ []) × (self.new.left_rows ≡ []) }
    {
        insert_filter::<L, E>(
            &mut self.chain,
            &mut self.mirror,
            writer,
            store,
            slot,
            filter,
            given,
            edit,
        );
        self.left_blocks.clear();
        self.left_rows.clear();
        let one = slice::from_ref(filter);
        self.told = self.told.with::<Joined>(slot, one, edit);
    }

    /// Takes the mask at a slot out of the writer. It makes no commit: the caller sees to it that no head
    /// names the slot any more.
    pub fn forget(&mut self, slot: u32)
        requires slot { slot < MASK_SLOTS }
        requires stands { (kept : KeptMask) × StandsAt self.old slot kept }
        requires kept { (shape : Shape) × (cells : List ℕ) × (roots : ℕ → Named)
            × AreNamed self.old shape cells roots }
        ensures gone { masks_of self.new ≡ slice_set (masks_of self.old) slot None }
        ensures kept { (shape : Shape) (cells : List ℕ) (roots : ℕ → Named)
            → AreNamed self.old shape cells roots
            → AreNamed self.new shape cells roots }
        ensures untouched { OthersStay self.old self.new slot }
        ensures lists { (other last : ℕ) (fs : List StoredFilter) → other ≢ slot
            → Holds self.old other last fs
            → Holds self.new other last fs }
        ensures blocks { (kept : KeptMask) (shape : Shape) (cells : List ℕ) (roots : ℕ → Named)
            → StandsAt self.old slot kept → AreNamed self.old shape cells roots
            → self.new.left_blocks ≡ kept.block ∷ bucket_blocks roots kept.mask kept.mask.size }
        ensures rows { (kept : KeptMask) → StandsAt self.old slot kept → self.new.left_rows ≡ kept.mask.rows }
    {
        self.left_blocks.clear();
        self.left_rows.clear();
        gather_mask(
            &mut self.left_blocks,
            &mut self.left_rows,
            &self.mirror,
            slot,
        );
        self.mirror.place(slot, None);
        self.told = self.told.with_none::<Ended>(slot, 0);
    }

    /// The blocks that the last changing call took out of the masks.
    pub fn left_blocks(&self) -> &[u32]
        ensures { result.now ≡ self.now.left_blocks }
    {
        self.left_blocks.as_slice()
    }

    /// The rows that the last changing call took out of the masks.
    pub fn left_rows(&self) -> &[u32]
        ensures { result.now ≡ self.now.left_rows }
    {
        self.left_rows.as_slice()
    }
}

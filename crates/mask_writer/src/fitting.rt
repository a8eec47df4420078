//! The call that gives a mask another number of buckets.

use crate::blocks::Blocks;
use crate::mask_writer::MaskWriter;
use crate::resizing::resize_mask;
use pin_store::{Store, Writer};
use store_history::{EditName, Law};
use tc_base::Point;

impl MaskWriter {
    ghost use Rattle.store_history.specs.declared.places.TheConstants.{MASK_SLOTS};
    ghost use Rattle.block_codec.specs.Shapes.{HasPoolAndRoots};
    ghost use Rattle.std.specs.Prelude.{◌≡◌, ◌≢◌, ◌<◌, ◌≤◌, ◌+◌, ◌*◌, ◌++◌, ◌∷◌, ℕ, List, length, take};
    ghost use Rattle.std.specs.Prelude.{slice_index, slice_set, Some, IsTrue};
    ghost use Rattle.store_history.specs.History.{root_of};
    ghost use Rattle.pin_store.specs.Layout.{block_words};
    ghost use Rattle.pin_store.specs.Sheets.{base_of, IsSameButCells};
    ghost use Rattle.pin_store.specs.Calls.{seen_by, sheet_of, IsSeatOf};
    ghost use Rattle.flow_mask.specs.Sizes.{is_size};
    ghost use Rattle.block_codec.specs.declared.filter.StoredFilter.{StoredFilter};
    ghost use Rattle.mask_table.specs.Buckets.{IsAmong};
    ghost use Rattle.mask_table.specs.declared.mirrors.mirror.KeptMask.{KeptMask};
    ghost use Rattle.mask_table.specs.OfMirrors.Given.{AreGiven};
    ghost use Rattle.mask_table.specs.OfMirrors.Linked.{placed, resized, raise_commits};
    ghost use Rattle.mask_table.specs.OfMirrors.Forgetting.{bucket_blocks};
    ghost use Rattle.mask_writer.specs.Standing.{masks_of, order_at, StandsAt, Holds};
    ghost use Rattle.mask_writer.specs.Standing.{OthersStay, AreNamed, AreFree};

    /// Gives the mask at a slot another number of buckets, in the given rows: fills the first given blocks
    /// with its filters, in order, and the one behind them with the new record, and makes the commits that
    /// name them: to the root of each bucket, the empty ones too, and then to the slot's. They carry no
    /// number. The old blocks and rows have left then.
    ///
    /// A mask stands at the slot, its filters are kept in order, and no mask has one of the given rows. The
    /// law must hold of all commits with each first part of these.
    pub fn resize<L: Law, E: EditName<L::Entry>>(
        &mut self,
        writer: &mut Writer<L>,
        store: &Store<L>,
        slot: u32,
        size: u32,
        given: &Blocks,
        stamp: Point,
    )
        requires store { IsSeatOf store.now writer.old.place }
        requires shape { HasPoolAndRoots store.now.shape.words store.now.shape.blocks store.now.shape.roots }
        requires slot { slot < MASK_SLOTS }
        requires size { IsTrue (is_size size) × (size ≡ 16 * length given.now.rows) }
        requires rows { AreFree self.old given.now.rows }
        requires there { (kept : KeptMask) × (last : ℕ) × (fs : List StoredFilter)
            × StandsAt self.old slot kept
            × Holds self.old slot last fs }
        requires many { (last : ℕ) (fs : List StoredFilter) → Holds self.old slot last fs
            → length given.now.blocks ≡ length fs + 1 }
        requires given { AreGiven (base_of (sheet_of writer.old.place)) (seen_by writer.old.place)
            given.now.blocks }
        requires kept { AreNamed self.old store.now.shape (sheet_of writer.old.place).cells
            (root_of (seen_by writer.old.place)) }
        requires lawful { (kept : KeptMask) (last : ℕ) (fs : List StoredFilter) (n : ℕ)
            → StandsAt self.old slot kept → Holds self.old slot last fs
            → L.keeps (seen_by writer.old.place ++ take n (raise_commits slot
            (resized kept.mask size given.now.rows) (slice_index given.now.blocks (length fs))
            (placed given.now.blocks fs) stamp))
            (base_of (sheet_of writer.old.place)) }
        ensures store { IsSeatOf store.now writer.new.place }
        ensures seen { (kept : KeptMask) (last : ℕ) (fs : List StoredFilter) → StandsAt self.old slot kept
            → Holds self.old slot last fs → seen_by writer.new.place ≡ seen_by writer.old.place
            ++ raise_commits slot (resized kept.mask size given.now.rows)
            (slice_index given.now.blocks (length fs)) (placed given.now.blocks fs) stamp }
        ensures sheet { IsSameButCells (sheet_of writer.old.place) (sheet_of writer.new.place) }
        ensures others { (other : ℕ) → (IsAmong other given.now.blocks → ⊥) → other < store.now.shape.blocks
            → block_words store.now.shape (sheet_of writer.new.place).cells other
            ≡ block_words store.now.shape (sheet_of writer.old.place).cells other }
        ensures kept { AreNamed self.new store.now.shape (sheet_of writer.new.place).cells
            (root_of (seen_by writer.new.place)) }
        ensures masks { (kept : KeptMask) (last : ℕ) (fs : List StoredFilter) → StandsAt self.old slot kept
            → Holds self.old slot last fs → masks_of self.new ≡ slice_set (masks_of self.old) slot
            (Some (record {
              block = slice_index given.now.blocks (length fs);
              mask = resized kept.mask size given.now.rows;
            })) }
        ensures order { order_at self.new slot ≡ order_at self.old slot }
        ensures list { (last : ℕ) (fs : List StoredFilter) → Holds self.old slot last fs
            → Holds self.new slot last fs }
        ensures untouched { OthersStay self.old self.new slot }
        ensures lists { (other last : ℕ) (fs : List StoredFilter) → other ≢ slot
            → Holds self.old other last fs
            → Holds self.new other last fs }
        ensures left { (kept : KeptMask) → StandsAt self.old slot kept → (self.new.left_blocks
            ≡ kept.block ∷ bucket_blocks (root_of (seen_by writer.old.place)) kept.mask kept.mask.size)
            × (self.new.left_rows ≡ kept.mask.rows) }
    {
        resize_mask::<L, E>(
            &mut self.chain,
            &mut self.left_blocks,
            &mut self.left_rows,
            &mut self.mirror,
            writer,
            store,
            slot,
            size,
            given,
            stamp,
        );
    }
}

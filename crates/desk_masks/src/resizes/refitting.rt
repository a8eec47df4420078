//! A mask is laid anew.
ghost use Rattle.std.specs.Prelude.{◌≡◌, ◌<◌, ◌+◌, ◌∷◌, ◌++◌, ℕ, length};
ghost use Rattle.store_history.specs.History.{root_of, edits_of};
ghost use Rattle.pin_store.specs.Layout.{block_words};
ghost use Rattle.pin_store.specs.Sheets.{base_of, IsSameButCells};
ghost use Rattle.pin_store.specs.Calls.{seen_by, sheet_of, IsSeatOf};
ghost use Rattle.store_history.specs.declared.places.TheConstants.{POOL_BLOCKS, ROWS, ROW_BUCKETS};
ghost use Rattle.store_history.specs.declared.places.TheConstants.{BUCKET_ROOTS};
ghost use Rattle.block_codec.specs.Shapes.{HasPoolAndRoots};
ghost use Rattle.mask_table.specs.Buckets.{IsAmong};
ghost use Rattle.mask_table.specs.declared.mirrors.mirror.KeptMask.{KeptMask};
ghost use Rattle.mask_table.specs.OfMirrors.Forgetting.{bucket_blocks};
ghost use Rattle.mask_writer.specs.Standing.{StandsAt};
ghost use Rattle.root_pool_laws.specs.Blocks.{IsLeft};
ghost use Rattle.hook_law.specs.Standing.{IsIn};
ghost use Rattle.hook_law.specs.Keeping.{IsAtRest};
ghost use Rattle.hook_store_law.specs.Stated.{hook_meaning};
ghost use Rattle.hook_store_law.specs.Blocks.{hook_codec};
ghost use Rattle.hook_store_law.specs.Kept.{IsKeptAt};
ghost use Rattle.desk_masks.specs.Masks.{HasMasks};
ghost use Rattle.desk_pools.specs.declared.pools.Pools.{Pools};
ghost use Rattle.desk_pools.specs.Pools.{ArePools, IsLeftAt, gone_roots};
ghost use Rattle.desk_pools.specs.Steps.{MayLeave};
ghost use Rattle.desk_masks.specs.OfResizes.Refit.{count_now, MayRefit, GoesOn, AreOutOf};

use desk_pools::Pools;
use filter_state::Edit;
use hook_store_law::{HookLaw, HookStore};
use mask_writer::{Blocks, MaskWriter};
use pin_store::Writer;
use store_history::EditName;
use tc_base::Point;

/// Lays the mask at a slot anew, with so many buckets, into the given rows and blocks. `point` is the number
/// of edits so far, and the commits have it as their stamp.
pub fn refit<E: EditName<Edit>>(
    masks: &mut MaskWriter,
    writer: &mut Writer<HookLaw>,
    store: &HookStore,
    slot: u32,
    size: u32,
    given: &Blocks,
    point: Point,
)
    requires store { IsSeatOf store.now writer.old.place }
    requires shape { HasPoolAndRoots store.now.shape.words store.now.shape.blocks store.now.shape.roots }
    requires may { MayRefit masks.old store.now.shape (sheet_of writer.old.place).cells
        (seen_by writer.old.place) (base_of (sheet_of writer.old.place)) point slot size given.now.blocks
        given.now.rows }
    ensures store { IsSeatOf store.now writer.new.place }
    ensures goes_on { GoesOn (seen_by writer.old.place) (seen_by writer.new.place) slot given.now.rows }
    ensures kept { IsKeptAt (seen_by writer.new.place) (base_of (sheet_of writer.new.place)) point }
    ensures rest { IsAtRest hook_meaning hook_codec (seen_by writer.new.place) }
    ensures journal { edits_of (seen_by writer.new.place) ≡ edits_of (seen_by writer.old.place) }
    ensures masks { HasMasks masks.new store.now.shape (sheet_of writer.new.place).cells
        (seen_by writer.new.place) }
    ensures left { (kept : KeptMask) → StandsAt masks.old slot kept → (masks.new.left_blocks
        ≡ kept.block ∷ bucket_blocks (root_of (seen_by writer.old.place)) kept.mask kept.mask.size)
        × (masks.new.left_rows ≡ kept.mask.rows) }
    ensures count { (kept : KeptMask) → StandsAt masks.old slot kept → length masks.new.left_blocks
        ≡ count_now (seen_by writer.old.place) kept.mask.serial + 1 }
    ensures pools { (pools : Pools)
        → ArePools pools (seen_by writer.old.place) (base_of (sheet_of writer.old.place))
        → AreOutOf pools given.now.blocks given.now.rows
        → ArePools pools (seen_by writer.new.place) (base_of (sheet_of writer.new.place)) }
    ensures rows_leave { (pools : Pools)
        → ArePools pools (seen_by writer.old.place) (base_of (sheet_of writer.old.place))
        → AreOutOf pools given.now.blocks given.now.rows
        → MayLeave ROWS (IsLeftAt (seen_by writer.new.place) BUCKET_ROOTS ROW_BUCKETS) pools.rows
        masks.new.left_rows }
    ensures blocks_leave { (pools gone : Pools)
        → ArePools pools (seen_by writer.old.place) (base_of (sheet_of writer.old.place))
        → AreOutOf pools given.now.blocks given.now.rows
        → ((row : ℕ) → IsIn row masks.new.left_rows → IsIn row gone.rows.left)
        → MayLeave POOL_BLOCKS (IsLeft (gone_roots gone) (seen_by writer.new.place)) pools.blocks
        masks.new.left_blocks }
    ensures sheet { IsSameButCells (sheet_of writer.old.place) (sheet_of writer.new.place) }
    ensures others { (other : ℕ) → (IsAmong other given.now.blocks → ⊥) → other < store.now.shape.blocks
        → block_words store.now.shape (sheet_of writer.new.place).cells other
        ≡ block_words store.now.shape (sheet_of writer.old.place).cells other }
{
    masks.resize::<HookLaw, E>(writer, store, slot, size, given, point);
}

/// Lays the mask at a slot anew, as `refit` does, and lets the rows and blocks that it had leave.
pub fn fit<E: EditName<Edit>>(
    masks: &mut MaskWriter,
    writer: &mut Writer<HookLaw>,
    store: &HookStore,
    pools: &mut Pools,
    slot: u32,
    size: u32,
    given: &Blocks,
    point: Point,
)
    requires store { IsSeatOf store.now writer.old.place }
    requires shape { HasPoolAndRoots store.now.shape.words store.now.shape.blocks store.now.shape.roots }
    requires may { MayRefit masks.old store.now.shape (sheet_of writer.old.place).cells
        (seen_by writer.old.place) (base_of (sheet_of writer.old.place)) point slot size given.now.blocks
        given.now.rows }
    requires pools { ArePools pools.old (seen_by writer.old.place) (base_of (sheet_of writer.old.place)) }
    requires out { AreOutOf pools.old given.now.blocks given.now.rows }
    requires sizes { (pools.old.blocks.size ≡ POOL_BLOCKS) × (pools.old.rows.size ≡ ROWS) }
    ensures store { IsSeatOf store.now writer.new.place }
    ensures goes_on { GoesOn (seen_by writer.old.place) (seen_by writer.new.place) slot given.now.rows }
    ensures kept { IsKeptAt (seen_by writer.new.place) (base_of (sheet_of writer.new.place)) point }
    ensures rest { IsAtRest hook_meaning hook_codec (seen_by writer.new.place) }
    ensures journal { edits_of (seen_by writer.new.place) ≡ edits_of (seen_by writer.old.place) }
    ensures masks { HasMasks masks.new store.now.shape (sheet_of writer.new.place).cells
        (seen_by writer.new.place) }
    ensures pools { ArePools pools.new (seen_by writer.new.place) (base_of (sheet_of writer.new.place)) }
    ensures left { (kept : KeptMask) → StandsAt masks.old slot kept → (masks.new.left_blocks
        ≡ kept.block ∷ bucket_blocks (root_of (seen_by writer.old.place)) kept.mask kept.mask.size)
        × (masks.new.left_rows ≡ kept.mask.rows) }
    ensures count { (kept : KeptMask) → StandsAt masks.old slot kept → length masks.new.left_blocks
        ≡ count_now (seen_by writer.old.place) kept.mask.serial + 1 }
    ensures rows { (pools.new.rows.free ≡ pools.old.rows.free)
        × (pools.new.rows.left ≡ pools.old.rows.left ++ masks.new.left_rows) }
    ensures blocks { (pools.new.blocks.free ≡ pools.old.blocks.free)
        × (pools.new.blocks.left ≡ pools.old.blocks.left ++ masks.new.left_blocks) }
    ensures sizes { (pools.new.blocks.size ≡ POOL_BLOCKS) × (pools.new.rows.size ≡ ROWS) }
    ensures others { pools.new
        ≡ record pools.old { blocks = pools.new.blocks; rows = pools.new.rows } }
    ensures sheet { IsSameButCells (sheet_of writer.old.place) (sheet_of writer.new.place) }
    ensures words { (other : ℕ) → (IsAmong other given.now.blocks → ⊥) → other < store.now.shape.blocks
        → block_words store.now.shape (sheet_of writer.new.place).cells other
        ≡ block_words store.now.shape (sheet_of writer.old.place).cells other }
{
    refit::<E>(masks, writer, store, slot, size, given, point);
    pools.leave_rows(masks.left_rows());
    pools.leave_blocks(masks.left_blocks());
}

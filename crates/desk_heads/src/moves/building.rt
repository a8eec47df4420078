//! A mask is built for an edit.
ghost use Rattle.std.specs.Prelude.{◌≡◌, ◌≢◌, ◌<◌, ◌≤◌, ◌+◌, ◌^◌, ◌++◌, ◌∷◌, ℕ, List, [], length, All};
ghost use Rattle.std.specs.Prelude.{slice_index, slice_set, Some};
ghost use Rattle.tc_base.specs.declared.hook.Hook.{Hook};
ghost use Rattle.visit_room.specs.declared.names.MaskName.{MaskName};
ghost use Rattle.store_history.specs.History.{edits_of};
ghost use Rattle.pin_store.specs.Sheets.{base_of, IsSameButCells};
ghost use Rattle.pin_store.specs.Calls.{seen_by, sheet_of, IsSeatOf, IsUnnamed};
ghost use Rattle.block_codec.specs.Shapes.{HasPoolAndRoots};
ghost use Rattle.mask_table.specs.Buckets.{mask_root, bucket_root};
ghost use Rattle.mask_table.specs.OfMirrors.Given.{AreGiven};
ghost use Rattle.mask_table.specs.OfMirrors.Linked.{placed, raise_commits};
ghost use Rattle.mask_writer.specs.Standing.{masks_of};
ghost use Rattle.hook_law.specs.Meaning.{point_of};
ghost use Rattle.hook_law.specs.Standing.{IsIn};
ghost use Rattle.hook_law.specs.Keeping.{IsAtRest};
ghost use Rattle.hook_store_law.specs.Stated.{hook_meaning};
ghost use Rattle.hook_store_law.specs.Blocks.{hook_codec};
ghost use Rattle.hook_store_law.specs.Kept.{KeepsHook};
ghost use Rattle.desk_heads.specs.OfHeadCommits.Raised.{stored_next, IsReady, IsSpareRoot, CanRaise};
ghost use Rattle.desk_pools.specs.declared.pools.Pools.{Pools};
ghost use Rattle.desk_pools.specs.Pools.{ArePools};
ghost use Rattle.desk_pools.specs.Steps.{IsInPool};
ghost use Rattle.desk_masks.specs.declared.hook_tables.HookTables.{HookTables};
ghost use Rattle.desk_masks.specs.Tables.{HasTables};
ghost use Rattle.desk_heads.specs.Handed.{AreActionsHanded};
ghost use Rattle.desk_heads.specs.OfMoves.Builds.{HoldsBuilt};

use block_codec::StoredMask;
use filter_lists::Edit;
use hook_store_law::{HookLaw, HookStore};
use mask_table::mirrors::StoredFilters;
use mask_writer::{Blocks, MaskWriter};
use pin_store::Writer;
use store_history::EditName;
use tc_base::Point;

/// Puts a mask whole into the given blocks, its rows and the slot, as the edit leaves it, before the head's
/// commit. A mask that stands is built so at another slot. Masks that were built before stay prepared.
pub fn build_mask<E: EditName<Edit>>(
    masks: &mut MaskWriter,
    writer: &mut Writer<HookLaw>,
    store: &HookStore,
    slot: u32,
    mask: &StoredMask,
    filters: &StoredFilters,
    given: &Blocks,
    point: Point,
)
    requires store { IsSeatOf store.now writer.old.place }
    requires shape { HasPoolAndRoots store.now.shape.words store.now.shape.blocks store.now.shape.roots }
    requires point { (point ≡ point_of (seen_by writer.old.place)) × (point + 1 < 2 ^ 32) }
    requires lawful { KeepsHook (seen_by writer.old.place) (base_of (sheet_of writer.old.place)) }
    requires ready { IsReady (seen_by writer.old.place) (base_of (sheet_of writer.old.place)) E.edit }
    requires can { CanRaise (seen_by writer.old.place) (base_of (sheet_of writer.old.place)) E.edit slot
        mask.now given.now.blocks }
    requires filters { stored_next (seen_by writer.old.place) E.edit mask.now.serial ≡ filters.now }
    requires given { (length given.now.blocks ≡ length filters.now + 1)
        × AreGiven (base_of (sheet_of writer.old.place)) (seen_by writer.old.place) given.now.blocks }
    requires holds { (built : List MaskName) × HoldsBuilt masks.old store.now.shape
        (sheet_of writer.old.place).cells (seen_by writer.old.place) (base_of (sheet_of writer.old.place))
        E.edit built }
    ensures store { IsSeatOf store.now writer.new.place }
    ensures sheet { IsSameButCells (sheet_of writer.old.place) (sheet_of writer.new.place) }
    ensures seen { seen_by writer.new.place ≡ seen_by writer.old.place
        ++ raise_commits slot mask.now (slice_index given.now.blocks (length filters.now))
        (placed given.now.blocks filters.now) (point + 1) }
    ensures journal { edits_of (seen_by writer.new.place) ≡ edits_of (seen_by writer.old.place) }
    ensures lawful { KeepsHook (seen_by writer.new.place) (base_of (sheet_of writer.new.place)) }
    ensures ready { IsReady (seen_by writer.new.place) (base_of (sheet_of writer.new.place)) E.edit }
    ensures rests { IsAtRest hook_meaning hook_codec (seen_by writer.old.place)
        → IsAtRest hook_meaning hook_codec (seen_by writer.new.place) }
    ensures masks { masks_of masks.new ≡ slice_set (masks_of masks.old) slot
        (Some (record { block = slice_index given.now.blocks (length filters.now); mask = mask.now })) }
    ensures holds { (built : List MaskName)
        → HoldsBuilt masks.old store.now.shape (sheet_of writer.old.place).cells (seen_by writer.old.place)
        (base_of (sheet_of writer.old.place)) E.edit built
        → HoldsBuilt masks.new store.now.shape (sheet_of writer.new.place).cells (seen_by writer.new.place)
        (base_of (sheet_of writer.new.place)) E.edit
        (built ++ record { serial = mask.now.serial; slot = slot } ∷ []) }
    // what the next mask asks of its slot, its rows and its filters
    ensures spare { (root : ℕ)
        → IsSpareRoot (seen_by writer.old.place) (base_of (sheet_of writer.old.place)) root
        → root ≢ mask_root slot
        → ((bucket : ℕ) → bucket < mask.now.size → root ≢ bucket_root mask.now bucket)
        → IsSpareRoot (seen_by writer.new.place) (base_of (sheet_of writer.new.place)) root }
    ensures stored { (other : ℕ) → stored_next (seen_by writer.new.place) E.edit other
        ≡ stored_next (seen_by writer.old.place) E.edit other }
    ensures tables { (hook : Hook) (kept : HookTables) → HasTables hook kept (seen_by writer.old.place)
        → HasTables hook kept (seen_by writer.new.place) }
    ensures unnamed { (block : ℕ) → (IsIn block given.now.blocks → ⊥)
        → IsUnnamed (base_of (sheet_of writer.old.place)) (seen_by writer.old.place) block
        → IsUnnamed (base_of (sheet_of writer.new.place)) (seen_by writer.new.place) block }
    ensures pools { (pools : Pools)
        → ArePools pools (seen_by writer.old.place) (base_of (sheet_of writer.old.place))
        → ((block : ℕ) → IsIn block given.now.blocks → IsInPool block pools.blocks → ⊥)
        → ArePools pools (seen_by writer.new.place) (base_of (sheet_of writer.new.place)) }
    ensures actions { (pools : Pools)
        → AreActionsHanded pools (seen_by writer.old.place) (base_of (sheet_of writer.old.place)) E.edit
        → AreActionsHanded pools (seen_by writer.new.place) (base_of (sheet_of writer.new.place)) E.edit }
{
    masks.build::<HookLaw, E>(writer, store, slot, mask, filters, given, point + 1);
}

//! A mask that is gone leaves the writer.
ghost use Rattle.std.specs.Prelude.{◌≡◌, ◌≢◌, ◌<◌, ◌≤◌, ℕ, List, ◌∷◌, length, slice_set, None};
ghost use Rattle.store_history.specs.declared.history.Commit.{Commit};
ghost use Rattle.store_history.specs.History.{root_of};
ghost use Rattle.pin_store.specs.declared.shape.Shape.{Shape};
ghost use Rattle.filter_state.specs.declared.edit.Edit.{Edit};
ghost use Rattle.store_history.specs.declared.places.TheConstants.{MASK_SLOTS};
ghost use Rattle.mask_table.specs.declared.mirrors.mirror.KeptMask.{KeptMask};
ghost use Rattle.mask_table.specs.OfMirrors.Forgetting.{bucket_blocks};
ghost use Rattle.mask_writer.specs.Masks.{Masks};
ghost use Rattle.mask_writer.specs.Standing.{masks_of, StandsAt};
ghost use Rattle.hook_law.specs.Standing.{IsIn, IsMaskAt};
ghost use Rattle.hook_store_law.specs.Blocks.{hook_codec};
ghost use Rattle.desk_pools.specs.declared.pools.Pools.{Pools};
ghost use Rattle.desk_pools.specs.Pools.{ArePools};
ghost use Rattle.desk_pools.specs.Steps.{IsInPool};
ghost use Rattle.desk_masks.specs.Masks.{HasMasks};
ghost use Rattle.desk_heads.specs.Closes.{HoldsMasks, IsGone};
ghost use Rattle.desk_heads.specs.Leaving.{MayAllLeave};

use mask_writer::MaskWriter;

/// Takes the mask at a slot out of the writer, which is gone: no head names it any more. The slot, the rows
/// that `left_rows` has and the blocks that `left_blocks` has may leave then, the blocks last.
pub fn forget_mask(masks: &mut MaskWriter, slot: u32)
    requires slot { slot < MASK_SLOTS }
    requires stands { (kept : KeptMask) × StandsAt masks.old slot kept }
    requires holds { (shape : Shape) × (cells : List ℕ) × (h : List (Commit Edit))
        × HoldsMasks masks.old shape cells h }
    ensures gone { masks_of masks.new ≡ slice_set (masks_of masks.old) slot None }
    ensures holds { (shape : Shape) (cells : List ℕ) (h : List (Commit Edit))
        → HoldsMasks masks.old shape cells h → IsGone masks.old h slot → HoldsMasks masks.new shape cells h }
    ensures rows { (kept : KeptMask) → StandsAt masks.old slot kept
        → masks.new.left_rows ≡ kept.mask.rows }
    ensures blocks { (kept : KeptMask) (shape : Shape) (cells : List ℕ) (h : List (Commit Edit))
        → StandsAt masks.old slot kept → HoldsMasks masks.old shape cells h
        → masks.new.left_blocks ≡ kept.block ∷ bucket_blocks (root_of h) kept.mask kept.mask.size }
    // other masks that are gone are so still
    ensures others { (h : List (Commit Edit)) (other : ℕ) → other ≢ slot → IsGone masks.old h other
        → IsGone masks.new h other }
    ensures left { (shape : Shape) (cells : List ℕ) (h : List (Commit Edit)) (b : ℕ) (pools : Pools)
        → HoldsMasks masks.old shape cells h → IsGone masks.old h slot → b ≤ length h → ArePools pools h b
        → (IsInPool slot pools.masks → ⊥)
        → ((row : ℕ) → IsIn row masks.new.left_rows → IsInPool row pools.rows → ⊥)
        → MayAllLeave pools h slot masks.new.left_rows masks.new.left_blocks }
{
    masks.forget(slot);
}

/// The slot and the rows of a mask that stands are in no pool; masks at different slots have no row in
/// common; and once the writer holds no mask that is gone, it holds those that stand.
pub fn held_masks()
    ensures apart { (masks : Masks) (shape : Shape) (cells : List ℕ) (h : List (Commit Edit)) (b : ℕ)
        (pools : Pools) (slot : ℕ) (kept : KeptMask)
        → HasMasks masks shape cells h → b ≤ length h → ArePools pools h b → StandsAt masks slot kept
        → (IsInPool slot pools.masks → ⊥)
        × ((row : ℕ) → IsIn row kept.mask.rows → IsInPool row pools.rows → ⊥) }
    ensures rows { (masks : Masks) (shape : Shape) (cells : List ℕ) (h : List (Commit Edit))
        (slot other row : ℕ) (kept more : KeptMask)
        → HoldsMasks masks shape cells h → StandsAt masks slot kept → StandsAt masks other more
        → IsIn row kept.mask.rows → IsIn row more.mask.rows → slot ≡ other }
    ensures whole { (masks : Masks) (shape : Shape) (cells : List ℕ) (h : List (Commit Edit))
        → HoldsMasks masks shape cells h
        → ((slot : ℕ) (kept : KeptMask) → StandsAt masks slot kept
        → IsMaskAt hook_codec h kept.mask.serial slot)
        → HasMasks masks shape cells h }
{}

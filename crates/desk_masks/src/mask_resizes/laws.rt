//! A mask that gets another number of buckets.
ghost use Rattle.std.specs.Prelude.{◌≤◌, ℕ, List, ◌++◌, length, take};
ghost use Rattle.store_history.specs.declared.history.Commit.{Commit};
ghost use Rattle.filter_state.specs.declared.edit.Edit.{Edit};
ghost use Rattle.block_codec.specs.declared.mask.StoredMask.{StoredMask};
ghost use Rattle.mask_table.specs.OfMirrors.Linked.{placed, raise_commits};
ghost use Rattle.hook_law.specs.Meaning.{point_of};
ghost use Rattle.hook_law.specs.Keeping.{Keeps};
ghost use Rattle.hook_store_law.specs.Stated.{hook_meaning};
ghost use Rattle.hook_store_law.specs.Blocks.{hook_codec};
ghost use Rattle.desk_masks.specs.OfMaskResizes.Resized.{stored_now, CanResize};

/// The commits that give a standing mask another number of buckets keep the law, and so does each first part
/// of them.
pub fn resizes_are_lawful()
    ensures { (h : List (Commit Edit)) (b slot : ℕ) (mask : StoredMask) (given : List ℕ) (block : ℕ)
        → b ≤ length h → Keeps hook_meaning hook_codec h b → CanResize h b slot mask given → (n : ℕ)
        → Keeps hook_meaning hook_codec (h ++ take n (raise_commits slot mask block
        (placed given (stored_now h mask.serial)) (point_of h))) b }
{}

//! Masks that an edit makes, and the tables that it gives.
ghost use Rattle.std.specs.Prelude.{◌≡◌, ◌≢◌, ◌≤◌, ◌<◌, ◌+◌, ◌⊎◌, ℕ, List, [], ◌∷◌, ◌++◌, length, map, take};
ghost use Rattle.std.specs.Prelude.{slice_get, Some};
ghost use Rattle.tc_base.specs.declared.hook.Hook.{Hook};
ghost use Rattle.visit_room.specs.declared.names.MaskName.{MaskName};
ghost use Rattle.store_history.specs.declared.history.Commit.{Commit};
ghost use Rattle.filter_state.specs.declared.edit.Edit.{Edit};
ghost use Rattle.block_codec.specs.declared.mask.StoredMask.{StoredMask};
ghost use Rattle.block_codec.specs.declared.table.StoredTable.{StoredTable};
ghost use Rattle.mask_table.specs.OfMirrors.Linked.{placed, raise_commits};
ghost use Rattle.miniq_pair.specs.Pairs.{swap_commit};
ghost use Rattle.hook_law.specs.Places.{mask_root, bucket_root, row_of, place_of};
ghost use Rattle.hook_law.specs.Meaning.{point_of};
ghost use Rattle.hook_law.specs.Standing.{Role, IsMaskAt, Stands};
ghost use Rattle.hook_law.specs.Keeping.{Keeps, IsAtRest};
ghost use Rattle.hook_law.specs.Unnumbered.{HaveOwnRoots, SparesAll};
ghost use Rattle.hook_law.specs.Heads.{IsPrepared};
ghost use Rattle.hook_law.specs.Coming.{IsMade, IsOfPrepared};
ghost use Rattle.hook_store_law.specs.Stated.{hook_meaning};
ghost use Rattle.hook_store_law.specs.Blocks.{hook_codec};
ghost use Rattle.hook_store_law.specs.Kept.{KeepsHook};
ghost use Rattle.desk_masks.specs.OfMaskResizes.Resized.{stored_now};
ghost use Rattle.desk_heads.specs.OfHeadCommits.Raised.{stored_next, IsReady, CanRaise};
ghost use Rattle.desk_heads.specs.OfHeadCommits.Built.{IsBuilt, IsConcerned, IsGiven};

/// The commits of a whole mask that an edit makes, before the one that carries it: each first part of them
/// keeps the law, they are spare commits to roots of their own, and the mask is prepared afterwards.
pub fn raised_masks()
    ensures lawful { (h : List (Commit Edit)) (b : ℕ) (y : Edit) (slot : ℕ) (mask : StoredMask)
        (given : List ℕ) (block : ℕ)
        → KeepsHook h b → IsReady h b y → CanRaise h b y slot mask given → (n : ℕ)
        → KeepsHook (h ++ take n (raise_commits slot mask block
        (placed given (stored_next h y mask.serial)) (point_of h + 1))) b }
    ensures spares { (h : List (Commit Edit)) (b : ℕ) (y : Edit) (slot : ℕ) (mask : StoredMask)
        (given : List ℕ) (block : ℕ)
        → KeepsHook h b → IsReady h b y → CanRaise h b y slot mask given
        → SparesAll hook_meaning hook_codec b h (raise_commits slot mask block
        (placed given (stored_next h y mask.serial)) (point_of h + 1)) }
    ensures own { (h : List (Commit Edit)) (b : ℕ) (y : Edit) (slot : ℕ) (mask : StoredMask)
        (given : List ℕ) (block : ℕ)
        → KeepsHook h b → IsReady h b y → CanRaise h b y slot mask given
        → HaveOwnRoots {E = Edit} (raise_commits slot mask block
        (placed given (stored_next h y mask.serial)) (point_of h + 1)) }
    ensures prepares { (h : List (Commit Edit)) (b : ℕ) (y : Edit) (slot : ℕ) (mask : StoredMask)
        (given : List ℕ) (block : ℕ)
        → KeepsHook h b → IsReady h b y → CanRaise h b y slot mask given
        → IsPrepared hook_meaning hook_codec b (h ++ raise_commits slot mask block
        (placed given (stored_next h y mask.serial)) (point_of h + 1)) y mask.serial slot }
    ensures ready { (h : List (Commit Edit)) (b : ℕ) (y : Edit) (slot : ℕ) (mask : StoredMask)
        (given : List ℕ) (block : ℕ)
        → KeepsHook h b → IsReady h b y → CanRaise h b y slot mask given
        → IsReady (h ++ raise_commits slot mask block
        (placed given (stored_next h y mask.serial)) (point_of h + 1)) b y }
{}

/// A mask that was prepared stays so under spare commits to other roots, as those of another mask.
pub fn prepared_masks()
    ensures { (h more : List (Commit Edit)) (b : ℕ) (y : Edit) (mask slot : ℕ) → b ≤ length h
        → Keeps hook_meaning hook_codec h b → SparesAll hook_meaning hook_codec b h more
        → (it : IsPrepared hook_meaning hook_codec b h y mask slot)
        → ((j : ℕ) (c : Commit Edit) → slice_get more j ≡ Some c → c.root ≢ mask_root slot)
        → ((j : ℕ) (c : Commit Edit) (k row : ℕ) → slice_get more j ≡ Some c → k < it.record_read.size
        → slice_get it.record_read.rows (row_of k) ≡ Some row → c.root ≢ bucket_root row (place_of k))
        → IsPrepared hook_meaning hook_codec b (h ++ more) y mask slot }
{}

/// The commit that gives a hook the tables of the edit and carries it. It keeps the law, and all masks are at
/// rest. Each mask that a head names then had that slot and isn't concerned, or was built; those that aren't
/// concerned go on; and the filters of each are those that the edit leaves it.
pub fn given_tables()
    ensures lawful { (h : List (Commit Edit)) (b : ℕ) (y : Edit) (hook : Hook) (built : List MaskName)
        (place : ℕ) (tables : List StoredTable)
        → KeepsHook h b → IsReady h b y → place ≤ 1 → IsGiven h b y hook built tables
        → KeepsHook (h ++ swap_commit hook place tables (point_of h + 1) y ∷ []) b }
    ensures rests { (h : List (Commit Edit)) (b : ℕ) (y : Edit) (hook : Hook) (built : List MaskName)
        (place : ℕ) (tables : List StoredTable)
        → KeepsHook h b → IsReady h b y → place ≤ 1 → IsGiven h b y hook built tables
        → IsAtRest hook_meaning hook_codec (h ++ swap_commit hook place tables (point_of h + 1) y ∷ []) }
    ensures comes { (h : List (Commit Edit)) (b : ℕ) (y : Edit) (hook : Hook) (built : List MaskName)
        (place : ℕ) (tables : List StoredTable)
        → KeepsHook h b → IsReady h b y → place ≤ 1 → IsGiven h b y hook built tables
        → (r : ℕ) (x : Role)
        → Stands hook_meaning hook_codec (h ++ swap_commit hook place tables (point_of h + 1) y ∷ []) r x
        → Stands hook_meaning hook_codec h r x
        ⊎ (IsOfPrepared hook_meaning hook_codec b h (swap_commit hook place tables (point_of h + 1) y) y r x
        ⊎ IsMade hook_meaning hook_codec b h y r x) }
    ensures named { (h : List (Commit Edit)) (b : ℕ) (y : Edit) (hook : Hook) (built : List MaskName)
        (place : ℕ) (tables : List StoredTable)
        → KeepsHook h b → IsReady h b y → place ≤ 1 → IsGiven h b y hook built tables
        → (mask slot : ℕ)
        → IsMaskAt hook_codec (h ++ swap_commit hook place tables (point_of h + 1) y ∷ []) mask slot
        → (IsMaskAt hook_codec h mask slot × (IsConcerned h y built mask → ⊥)) ⊎ IsBuilt built mask slot }
    ensures stays { (h : List (Commit Edit)) (b : ℕ) (y : Edit) (hook : Hook) (built : List MaskName)
        (place : ℕ) (tables : List StoredTable)
        → KeepsHook h b → IsReady h b y → place ≤ 1 → IsGiven h b y hook built tables
        → (mask slot : ℕ) → IsMaskAt hook_codec h mask slot → (IsConcerned h y built mask → ⊥)
        → IsMaskAt hook_codec (h ++ swap_commit hook place tables (point_of h + 1) y ∷ []) mask slot }
    ensures filters { (h : List (Commit Edit)) (b : ℕ) (y : Edit) (hook : Hook) (built : List MaskName)
        (place : ℕ) (tables : List StoredTable)
        → KeepsHook h b → IsReady h b y → place ≤ 1 → IsGiven h b y hook built tables
        → (mask : ℕ)
        → stored_now (h ++ swap_commit hook place tables (point_of h + 1) y ∷ []) mask
        ≡ stored_next h y mask }
{}

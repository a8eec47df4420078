//! Edits of one filter keep the law.
ghost use Rattle.std.specs.Prelude.{◌≡◌, ℕ, ◌+◌, ◌∷◌, ◌++◌, List, [], length};
ghost use Rattle.store_history.specs.declared.history.Commit.{Commit};
ghost use Rattle.store_history.specs.History.{root_of};
ghost use Rattle.pin_store.specs.declared.shape.Shape.{Shape};
ghost use Rattle.filter_state.specs.declared.edit.Edit.{Edit};
ghost use Rattle.block_codec.specs.declared.filter.StoredFilter.{StoredFilter};
ghost use Rattle.mask_table.specs.declared.mirrors.mirror.KeptMask.{KeptMask};
ghost use Rattle.mask_table.specs.OfMirrors.Given.{AreGiven};
ghost use Rattle.mask_table.specs.OfMirrors.Changing.{FilterAt, root_for, insert_at, remove_at, replace_at};
ghost use Rattle.mask_writer.specs.Masks.{Masks};
ghost use Rattle.mask_writer.specs.Standing.{StandsAt};
ghost use Rattle.hook_law.specs.Meaning.{point_of};
ghost use Rattle.hook_store_law.specs.Kept.{KeepsHook};
ghost use Rattle.desk_masks.specs.Masks.{HasMasks};
ghost use Rattle.desk_masks.specs.OfFilterCommits.Edits.{AddsFilter, ExchangesFilter, RemovesFilter};

/// A filter is added to a mask that is kept at a slot: its commit keeps the law.
pub fn additions_are_lawful()
    ensures { (h : List (Commit Edit)) (b : ℕ) (y : Edit) (slot block : ℕ) (filter : StoredFilter)
        (masks : Masks) (shape : Shape) (cells : List ℕ) (kept : KeptMask)
        → AddsFilter h b y slot filter → KeepsHook h b
        → HasMasks masks shape cells h → StandsAt masks slot kept
        → KeepsHook (h ++ insert_at h (root_for kept.mask filter) block filter (point_of h + 1) y ∷ []) b }
{}

/// A filter is taken out: the filters in front of it go into given blocks, one each.
pub fn removals_are_lawful()
    ensures { (h : List (Commit Edit)) (b : ℕ) (y : Edit) (slot handle root : ℕ) (front : List StoredFilter)
        (old : StoredFilter) (given : List ℕ) (masks : Masks) (shape : Shape) (cells : List ℕ)
        (kept : KeptMask)
        → RemovesFilter h b y slot handle → KeepsHook h b
        → HasMasks masks shape cells h → StandsAt masks slot kept
        → FilterAt (root_of h) kept.mask handle root front old
        → AreGiven b h given → length given ≡ length front
        → KeepsHook (h ++ remove_at h root given front (point_of h + 1) y ∷ []) b }
{}

/// A filter takes another's place: the filters in front of that one go into given blocks, and then it.
pub fn exchanges_are_lawful()
    ensures { (h : List (Commit Edit)) (b : ℕ) (y : Edit) (slot root : ℕ) (front : List StoredFilter)
        (old filter : StoredFilter) (given : List ℕ) (masks : Masks) (shape : Shape) (cells : List ℕ)
        (kept : KeptMask)
        → ExchangesFilter h b y slot filter → KeepsHook h b
        → HasMasks masks shape cells h → StandsAt masks slot kept
        → FilterAt (root_of h) kept.mask filter.handle root front old
        → AreGiven b h given → length given ≡ length front + 1
        → KeepsHook (h ++ replace_at h root given front filter (point_of h + 1) y ∷ []) b }
{}

//! Edits of filters.
ghost use Rattle.std.specs.Prelude.{◌≡◌, ℕ, ◌+◌, ◌-◌, List, [], ◌∷◌, ◌++◌, Option};
ghost use Rattle.tc_base.specs.declared.hook.Hook.{Hook};
ghost use Rattle.store_history.specs.declared.history.Commit.{Commit};
ghost use Rattle.store_history.specs.History.{edits_of};
ghost use Rattle.filter_state.specs.declared.edit.Edit.{Edit};
ghost use Rattle.filter_state.specs.declared.refusal.Done.{Done};
ghost use Rattle.filter_state.specs.States.{State};
ghost use Rattle.hook_store_law.specs.OfEdits.Premises.{now, IsAccepted};
ghost use Rattle.desk_needs.specs.Live.{count_of};
ghost use Rattle.desk_needs.specs.OfEditNeeds.Told.{blocks_anew, rows_anew, laid, laid_rows, laid_masks};
ghost use Rattle.desk_pools.specs.declared.pools.Pools.{Pools};
ghost use Rattle.desk_pools.specs.Steps.{turned};
ghost use Rattle.desk_actions.specs.Effects.{IsCounted};
ghost use Rattle.desk_actions.specs.Places.{Placed};
ghost use Rattle.desk_parts.specs.OfLineActions.Dropped.{AreDropped};
ghost use Rattle.desk_parts.specs.OfLineActions.Gone.{NamesGone};
ghost use Rattle.desk_parts.specs.declared.ways.way.Way.TheVariants as ways;
ghost use Rattle.desk_parts.specs.OfWays.Ways.{IntoMask, WithMask, InPlace, OtherKey, OtherMask, OutOfMask, Closes};
ghost use Rattle.shared_hook.specs.OfDeskEdits.Spent.{made_by, needed, LeftWithActions};
ghost use Rattle.shared_hook.specs.OfDeskEdits.Goes.{AreGone};
ghost use Rattle.shared_hook.specs.OfDeskEdits.Parting.{HaveLeft};
ghost use Rattle.shared_hook.specs.OfBalance.Counts.{AreCounted};

/// Behind `put_into_mask` and `put_with_mask` the pools add up, as before.
pub fn counted_after_adds()
    ensures into_mask { (old new : Pools) (h : List (Commit Edit)) (b : ℕ) (y : Edit) (t : State)
        (done : Done) (slot count : ℕ) → AreCounted old (now h) → IsAccepted h b y t done
        → IntoMask h y slot count
        → IsCounted old.blocks new.blocks (needed h y (ways.IntoMask slot count)).blocks
        (blocks_anew count (count + 1))
        → IsCounted old.rows new.rows (needed h y (ways.IntoMask slot count)).rows
        (rows_anew (count + 1) count)
        → IsCounted old.actions new.actions (made_by h y) 0
        → new ≡ record old { blocks = new.blocks; rows = new.rows; actions = new.actions }
        → AreCounted new t }
    ensures with_mask { (old new : Pools) (h : List (Commit Edit)) (b : ℕ) (y : Edit) (t : State)
        (done : Done) (hook : Hook) → AreCounted old (now h) → IsAccepted h b y t done → WithMask h y hook
        → IsCounted old.blocks new.blocks (needed h y (ways.WithMask hook)).blocks 0
        → IsCounted old.rows new.rows 1 0 → IsCounted old.masks new.masks 1 0
        → IsCounted old.actions new.actions (made_by h y) 0 → AreCounted new t }
{}

/// Behind `exchange_in_place` the pools add up, as before, and behind a filter's move to another key or mask,
/// where the masks concerned are laid anew and what they had leaves. `k` is all commits, those of the edit
/// among them, and `serials` the actions that were told.
pub fn counted_after_replaces()
    ensures in_place { (old new : Pools) (h k : List (Commit Edit)) (b : ℕ) (y : Edit) (t : State)
        (done : Done) (serials : List ℕ) (slot later : ℕ) → AreCounted old (now h) → IsAccepted h b y t done
        → InPlace h y slot later → NamesGone (now h) y serials → edits_of k ≡ edits_of h ++ y ∷ []
        → LeftWithActions old new k serials (needed h y (ways.InPlace slot later)) (later + 1)
        → new ≡ record old { blocks = new.blocks; actions = new.actions } → AreCounted new t }
    ensures other_key { (old new : Pools) (h k : List (Commit Edit)) (b : ℕ) (y : Edit) (t : State)
        (done : Done) (serials : List ℕ) (hook : Hook) (slot count : ℕ) → AreCounted old (now h)
        → IsAccepted h b y t done → OtherKey h y hook slot count → NamesGone (now h) y serials
        → edits_of k ≡ edits_of h ++ y ∷ []
        → LeftWithActions old new k serials (needed h y (ways.OtherKey hook slot count)) (laid count)
        → IsCounted old.rows new.rows (needed h y (ways.OtherKey hook slot count)).rows (laid_rows count)
        → IsCounted old.masks new.masks (needed h y (ways.OtherKey hook slot count)).masks (laid_masks count)
        → AreCounted new t }
    ensures other_mask { (old new : Pools) (h k : List (Commit Edit)) (b : ℕ) (y : Edit) (t : State)
        (done : Done) (serials : List ℕ) (hook : Hook) (slot count : ℕ) (into : Option ℕ) (others : ℕ)
        → AreCounted old (now h) → IsAccepted h b y t done → OtherMask h y hook slot count into others
        → NamesGone (now h) y serials → edits_of k ≡ edits_of h ++ y ∷ []
        → LeftWithActions old new k serials (needed h y (ways.OtherMask hook slot count into others))
        (laid count + laid others)
        → IsCounted old.rows new.rows (needed h y (ways.OtherMask hook slot count into others)).rows
        (laid_rows count + laid_rows others)
        → IsCounted old.masks new.masks (needed h y (ways.OtherMask hook slot count into others)).masks
        (laid_masks count + laid_masks others) → AreCounted new t }
{}

/// Behind `take_out_of_mask` and `take_masks` the pools add up, as before. `k` is all commits, those of the
/// edit among them, `base` is what they begin at, and `serials` the actions that were told.
pub fn counted_after_removals()
    ensures out_of_mask { (old new : Pools) (h k : List (Commit Edit)) (b : ℕ) (y : Edit) (t : State)
        (done : Done) (serials : List ℕ) (slot count later : ℕ) → AreCounted old (now h)
        → IsAccepted h b y t done → OutOfMask h y slot count later → NamesGone (now h) y serials
        → edits_of k ≡ edits_of h ++ y ∷ []
        → LeftWithActions old new k serials (needed h y (ways.OutOfMask slot count later))
        (later + 1 + blocks_anew count (count - 1))
        → IsCounted old.rows new.rows (needed h y (ways.OutOfMask slot count later)).rows
        (rows_anew (count - 1) count)
        → new ≡ record old { blocks = new.blocks; rows = new.rows; actions = new.actions }
        → AreCounted new t }
    ensures masks { (old between new : Pools) (placed left : Placed) (h k : List (Commit Edit)) (b base : ℕ)
        (y : Edit) (t : State) (done : Done) (serials masks : List ℕ) (hook : Hook) → AreCounted old (now h)
        → IsAccepted h b y t done → Closes h y hook → NamesGone (now h) y serials
        → edits_of k ≡ edits_of h ++ y ∷ [] → AreGone (now h) t masks
        → HaveLeft (count_of (now h)) (turned hook old) between masks
        → AreDropped between new placed left k base serials → AreCounted new t }
{}

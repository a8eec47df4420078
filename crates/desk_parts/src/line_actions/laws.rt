//! What becomes of places with other commits.
ghost use Rattle.std.specs.Prelude.{◌≡◌, ◌+◌, ◌≤◌, ◌++◌, ℕ, eqb, List, Some, Ok, slice_get, length};
ghost use Rattle.std.specs.List.{IsDistinct};
ghost use Rattle.store_history.specs.declared.history.Commit.{Commit};
ghost use Rattle.filter_state.specs.declared.edit.Edit.{Edit};
ghost use Rattle.filter_state.specs.declared.refusal.Done.{Done};
ghost use Rattle.filter_state.specs.States.{State};
ghost use Rattle.filter_state.specs.Sound.{Sound};
ghost use Rattle.filter_state.specs.Steps.{step};
ghost use Rattle.hook_law.specs.Meaning.{IsLive};
ghost use Rattle.hook_law.specs.Standing.{IsIn};
ghost use Rattle.hook_law.specs.Keeping.{Keeps};
ghost use Rattle.hook_store_law.specs.Stated.{hook_meaning};
ghost use Rattle.hook_store_law.specs.Blocks.{hook_codec};
ghost use Rattle.hook_store_law.specs.OfEdits.Premises.{now, next, IsAccepted, IsOfFilters};
ghost use Rattle.desk_pools.specs.declared.pools.Pools.{Pools};
ghost use Rattle.desk_pools.specs.Pools.{ArePools};
ghost use Rattle.desk_pools.specs.Steps.{IsInPool};
ghost use Rattle.desk_actions.specs.Places.{Placed, slot_of, AreHere, AreHereFor};
ghost use Rattle.desk_parts.specs.OfLineActions.Gone.{serials_gone};
ghost use Rattle.desk_parts.specs.OfLineActions.Put.{IsPlaced, HaveNoSlots};

/// Actions keep their places with commits to other roots than those of slots of actions.
pub fn places_go_on()
    ensures here { (placed : Placed) (h more : List (Commit Edit)) (s : State) → HaveNoSlots more
        → AreHereFor placed h s → AreHereFor placed (h ++ more) s }
    ensures placed { (placed : Placed) (h more : List (Commit Edit)) (action : ℕ) → HaveNoSlots more
        → IsPlaced placed h action → IsPlaced placed (h ++ more) action }
{}

/// Each live action has its place, with a slot that is in no pool.
pub fn live_places()
    ensures { (pools : Pools) (placed : Placed) (h : List (Commit Edit)) (b action : ℕ) → b ≤ length h
        → Keeps hook_meaning hook_codec h b → ArePools pools h b → AreHere placed h
        → IsLive hook_meaning (now h) action
        → IsPlaced placed h action × (IsInPool (slot_of placed action) pools.actions → ⊥) }
{}

/// The serials that an edit of filters may let go are those of live actions, and each action that goes with
/// it is one of these.
pub fn actions_that_go()
    ensures live { (s : State) (y : Edit) (action : ℕ) → Sound s → IsIn action (serials_gone s y)
        → IsLive hook_meaning s action }
    ensures named { (s t : State) (y : Edit) (done : Done) (action : ℕ) → Sound s → IsOfFilters y
        → step s y ≡ Ok (t, done)
        → IsLive hook_meaning s action → (IsLive hook_meaning t action → ⊥)
        → IsIn action (serials_gone s y) }
{}

/// So many actions as are told to go are fewer after an edit of filters, and so many more as it made: those
/// told are different, and they are the ones that were live and aren't.
pub fn actions_in_balance()
    ensures { (h : List (Commit Edit)) (b : ℕ) (y : Edit) (done : Done) (gone : List ℕ)
        → IsAccepted h b y (next h y) done → IsOfFilters y → IsDistinct eqb gone
        → ((action : ℕ) → IsIn action gone → IsLive hook_meaning (now h) action
        × (IsLive hook_meaning (next h y) action → ⊥))
        → ((action : ℕ) → IsLive hook_meaning (now h) action
        → (IsLive hook_meaning (next h y) action → ⊥) → IsIn action gone)
        → length (now h).actions + (next h y).actions_made
        ≡ length (next h y).actions + length gone + (now h).actions_made }
{}

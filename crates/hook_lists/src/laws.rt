//! What holds of all that is kept.
ghost use Rattle.std.specs.Prelude.{◌≡◌, ℕ, Bool, List, filter};
ghost use Rattle.std.specs.List.{flat_map};
ghost use Rattle.filter_state.specs.States.{Row};
ghost use Rattle.action_plan.specs.declared.planned.PlannedAction.{PlannedAction};
ghost use Rattle.action_plan.specs.Bound.{AreBound};
ghost use Rattle.action_plan.specs.Plans.{made_of, carried};
ghost use Rattle.filter_tables.specs.Rows.{all_rows};
ghost use Rattle.act_registry.specs.Kept as registries;
ghost use Rattle.act_kinds.specs.declared.params.Params.{Params};
ghost use Rattle.hook_lists.specs.declared.kept.Kept.{Kept};
ghost use Rattle.hook_lists.specs.States.{both_of, state_of, AreKept};
ghost use Rattle.hook_lists.specs.Steps.{IsRoomier};

/// More room changes no state, and what was whole stays whole.
pub fn room_changes_nothing()
    ensures state { (old new : Kept) → IsRoomier old new → state_of new ≡ state_of old }
    ensures kept { (old new : Kept) → IsRoomier old new → AreKept old → AreKept new }
{}

/// The places of some filters can be let go one after the other, also when a plan has been carried out
/// before.
pub fn places_are_bound()
    ensures now { (kept : Kept) (gone : Row → Bool) → AreKept kept
        → AreBound (flat_map (λ (row : Row). row.actions) (filter gone (all_rows (both_of kept))))
        kept.actions.entries }
    ensures later { (serials : List ℕ) (old : Kept) (new : registries.Kept Params) (plan : List PlannedAction)
        → AreKept old → AreBound serials old.actions.entries →
        made_of new ≡ carried (made_of old.actions) plan → AreBound serials new.entries }
{}

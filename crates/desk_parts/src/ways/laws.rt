//! What is needed by ways is what is needed of the state and the edit.
ghost use Rattle.std.specs.Prelude.{◌≡◌, ℕ, Ok, List};
ghost use Rattle.store_history.specs.declared.history.Commit.{Commit};
ghost use Rattle.filter_state.specs.declared.edit.Edit.{Edit};
ghost use Rattle.filter_state.specs.declared.refusal.Done.{Done};
ghost use Rattle.filter_state.specs.States.{State};
ghost use Rattle.hook_store_law.specs.OfEdits.Premises.{now, IsAccepted};
ghost use Rattle.desk_needs.specs.Needs.{made, needs_of};
ghost use Rattle.desk_parts.specs.declared.ways.way.Way.{Way};
ghost use Rattle.desk_parts.specs.OfWays.Ways.{IsWay, needs_by};

/// What an accepted edit needs that is done in its way.
pub fn ways_need()
    ensures { (h : List (Commit Edit)) (b : ℕ) (y : Edit) (t : State) (done : Done) (way : Way)
        → IsAccepted h b y t done → IsWay h y way → needs_of (now h) y ≡ needs_by (made (now h) t) way }
{}

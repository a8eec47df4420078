//! What becomes of actions with the edit's own commits.
ghost use Rattle.std.specs.Prelude.{◌≡◌, ℕ, List, length};
ghost use Rattle.store_history.specs.declared.history.Commit.{Commit};
ghost use Rattle.filter_state.specs.declared.edit.Edit.{Edit};
ghost use Rattle.filter_state.specs.declared.refusal.Done.{Done};
ghost use Rattle.filter_state.specs.States.{State};
ghost use Rattle.hook_store_law.specs.OfEdits.Premises.{now};
ghost use Rattle.desk_actions.specs.OfLedgers.Kept.{commits, base};
ghost use Rattle.desk_actions.specs.Places.{Placed, AreHereFor};
ghost use Rattle.desk_parts.specs.OfLineActions.Dropped.{MayGo};
ghost use Rattle.desk_parts.specs.OfLineActions.Gone.{serials_gone};
ghost use Rattle.desk_parts.specs.OfLineActions.Put.{IsPlaced};
ghost use Rattle.desk_parts.specs.declared.parts.Parts.{Parts};
ghost use Rattle.desk_parts.specs.Desk.{IsDesk};
ghost use Rattle.shared_hook.specs.OfDeskEdits.Ahead.{IsAhead, GoesOnAside, GoesOnStill};

/// Actions keep their places with the commits of an edit of filters.
pub fn places_stay()
    ensures placed { (placed : Placed) (h k : List (Commit Edit)) (action : ℕ) → GoesOnAside h k
        → IsPlaced placed h action → IsPlaced placed k action }
    ensures here { (placed : Placed) (h k : List (Commit Edit)) (s : State) → GoesOnAside h k
        → AreHereFor placed h s → AreHereFor placed k s }
{}

/// Behind the commits of an edit, with the places and the slots in pools as they were when the lists were
/// ahead, those actions may go that the filters named which it took away or replaced. They were live before.
pub fn gone_may_go()
    ensures { (before ahead after : Parts) (y : Edit) (done : Done) → IsDesk before → IsAhead ahead y done
        → GoesOnStill (commits before.ledger) (commits ahead.ledger)
        → GoesOnAside (commits ahead.ledger) (commits after.ledger) → IsDesk after
        → base after.ledger ≡ base before.ledger → after.actions ≡ ahead.actions
        → after.pools.actions ≡ ahead.pools.actions
        → MayGo after.ledger.lists after.pools after.actions (commits after.ledger) (base after.ledger)
        (length (commits before.ledger)) (serials_gone (now (commits before.ledger)) y) }
{}

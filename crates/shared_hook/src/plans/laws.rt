//! What a plan rests on goes on while a desk is tidied.
ghost use Rattle.std.specs.Prelude.{◌≡◌};
ghost use Rattle.store_history.specs.History.{edits_of};
ghost use Rattle.filter_state.specs.declared.edit.Edit.{Edit};
ghost use Rattle.desk_actions.specs.OfLedgers.Kept.{commits};
ghost use Rattle.desk_parts.specs.declared.parts.Parts.{Parts};
ghost use Rattle.desk_parts.specs.Desk.{IsDesk};
ghost use Rattle.shared_hook.specs.declared.plans.plan.Plan.{Plan};
ghost use Rattle.shared_hook.specs.OfPlans.Plans.{IsPlan};

/// A plan stays one where no edit comes and the writer holds the masks that it held.
pub fn plans_go_on()
    ensures { (old new : Parts) (y : Edit) (plan : Plan) → IsDesk old → IsDesk new
        → edits_of (commits new.ledger) ≡ edits_of (commits old.ledger) → new.masks ≡ old.masks
        → IsPlan (commits old.ledger) y plan → IsPlan (commits new.ledger) y plan }
{}

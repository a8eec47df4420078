//! An edit is begun: made ready, planned, and all its memory taken.
ghost use Rattle.std.specs.Prelude.{◌≡◌, Err, IfOk};
ghost use Rattle.filter_state.specs.declared.refusal.Refusal.{Refusal as ARefusal};
ghost use Rattle.filter_state.specs.Lines.{IsLine};
ghost use Rattle.filter_state.specs.Steps.{step};
ghost use Rattle.filter_lists.specs.Edits.{Stays, MayStep};
ghost use Rattle.hook_store_law.specs.OfEdits.Premises.{now};
ghost use Rattle.desk_actions.specs.OfLedgers.Kept.{commits};
ghost use Rattle.desk_parts.specs.Desk.{IsDesk};
ghost use Rattle.shared_hook.specs.Applied.{IsCause};
ghost use Rattle.shared_hook.specs.Begun.{IsBegun};

use crate::plans::Plan;
use desk_needs::Needs;
use desk_parts::Parts;
use filter_lists::Prepared;
use filter_state::{Edit, Refusal};
use std::alloc::Global;

/// An edit that the lists accept, ready to be done, with what it needs of each pool.
#[derive(Drop)]
pub(crate) struct Begun {
    pub prepared: Prepared,
    pub plan: Plan,
    pub needs: Needs,
}

/// Makes an edit ready and plans it, or tells why it is refused. All the memory of an edit is taken here, and
/// nothing but the lists' room changes.
pub(crate) fn begin(alloc: Global, parts: &mut Parts, edit: &Edit) -> Result<Begun, Refusal>
    requires desk { IsDesk parts.old }
    requires line { IsLine edit.now }
    requires may { MayStep parts.old.ledger.lists }
    ensures desk { IsDesk parts.new }
    ensures stays { Stays parts.old.ledger.lists parts.new.ledger.lists }
    ensures rest { parts.new
        ≡ record parts.old { ledger = record parts.old.ledger { lists = parts.new.ledger.lists } } }
    ensures begun { IfOk result (IsBegun parts.new edit.now) }
    ensures refused { (refusal : ARefusal) → result ≡ Err refusal
        → IsCause refusal (step (now (commits parts.old.ledger)) edit.now) }
{
    let prepared = parts.ledger.lists.prepare(edit)?;
    let plan = match Plan::of(alloc, parts, edit) {
        Ok(plan) => plan,
        Err(refused) => {
            drop(prepared);
            return Err(Refusal::from(refused));
        }
    };
    let needs = plan.needs(prepared.made());
    Ok(Begun {
        prepared,
        plan,
        needs,
    })
}

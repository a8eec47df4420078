//! The qdisc comes or goes.
ghost use Rattle.std.specs.Prelude.{◌≡◌, ◌<◌, ◌+◌, ◌^◌, ◌∷◌, ◌++◌, [], Ok};
ghost use Rattle.store_history.specs.History.{edits_of};
ghost use Rattle.pin_store.specs.Calls.{sheet_of, IsSeatOf};
ghost use Rattle.filter_state.specs.Lines.{IsLine};
ghost use Rattle.filter_state.specs.Steps.{step};
ghost use Rattle.hook_store_law.specs.OfEdits.Premises.{now, next};
ghost use Rattle.desk_actions.specs.OfLedgers.Kept.{commits};
ghost use Rattle.desk_parts.specs.Desk.{IsDesk};
ghost use Rattle.desk_parts.specs.OfPlainEdits.Kinds.{IsOfQdisc};

use crate::Parts;
use filter_lists::{Done, Edit, Prepared};
use hook_store_law::HookStore;
use store_history::EditName;

/// Does an edit of the qdisc that was made ready, and makes its commit, which no walk can see: it goes to the
/// marker root and carries the edit that `E` names, with the next number. Of the desk the lists, the commits
/// and the number of edits alone are others.
pub fn mark_edit<E: EditName<Edit>>(
    parts: &mut Parts,
    store: &HookStore,
    prepared: Prepared,
) -> Done
    requires store { IsSeatOf store.now parts.old.ledger.writer.place }
    requires desk { IsDesk parts.old }
    requires ready { parts.old.ledger.lists ≡ prepared.lists }
    requires edit { (prepared.edit ≡ E.edit) × IsLine E.edit × IsOfQdisc E.edit }
    requires few { parts.old.ledger.point + 1 < 2 ^ 32 }
    ensures store { IsSeatOf store.now parts.new.ledger.writer.place }
    ensures desk { IsDesk parts.new }
    ensures point { parts.new.ledger.point ≡ parts.old.ledger.point + 1 }
    ensures journal { edits_of (commits parts.new.ledger)
        ≡ edits_of (commits parts.old.ledger) ++ E.edit ∷ [] }
    ensures sheet { sheet_of parts.new.ledger.writer.place ≡ sheet_of parts.old.ledger.writer.place }
    ensures rest { parts.new ≡ record parts.old { ledger = parts.new.ledger } }
    ensures done { step (now (commits parts.old.ledger)) E.edit
        ≡ Ok (next (commits parts.old.ledger) E.edit, result) }
{
    parts.ledger.mark::<E>(store, prepared)
}

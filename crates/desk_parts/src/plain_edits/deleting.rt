//! A live action is deleted.
ghost use Rattle.std.specs.Prelude.{◌≡◌, ◌<◌, ◌+◌, ◌^◌, ◌∷◌, ◌++◌, [], true, Ok};
ghost use Rattle.store_history.specs.History.{edits_of};
ghost use Rattle.pin_store.specs.Calls.{sheet_of, IsSeatOf};
ghost use Rattle.filter_state.specs.declared.edit.Edit.TheVariants as edits;
ghost use Rattle.filter_state.specs.Actions.{is_live};
ghost use Rattle.filter_state.specs.Lines.{IsLine};
ghost use Rattle.filter_state.specs.Steps.{step};
ghost use Rattle.hook_store_law.specs.OfEdits.Premises.{now, next};
ghost use Rattle.desk_actions.specs.OfLedgers.Kept.{commits};
ghost use Rattle.desk_actions.specs.Effects.{IsCounted};
ghost use Rattle.desk_parts.specs.Desk.{IsDesk};

use crate::Parts;
use act_kinds::Kind;
use desk_actions::delete;
use filter_lists::{Done, Edit, Prepared};
use hook_store_law::HookStore;
use store_history::EditName;

/// Does an edit that was made ready and that deletes the live action of that kind and index, and makes its
/// commit, which no walk can see: no filter names the action. Its slot and its block leave.
pub fn delete_action<E: EditName<Edit>>(
    parts: &mut Parts,
    store: &HookStore,
    kind: Kind,
    index: u32,
    prepared: Prepared,
) -> Done
    requires store { IsSeatOf store.now parts.old.ledger.writer.place }
    requires desk { IsDesk parts.old }
    requires ready { parts.old.ledger.lists ≡ prepared.lists }
    requires edit { (prepared.edit ≡ E.edit) × IsLine E.edit × (E.edit ≡ edits.ActionDel kind index) }
    requires live { is_live kind index (now (commits parts.old.ledger)).actions ≡ true }
    requires few { parts.old.ledger.point + 1 < 2 ^ 32 }
    ensures store { IsSeatOf store.now parts.new.ledger.writer.place }
    ensures desk { IsDesk parts.new }
    ensures point { parts.new.ledger.point ≡ parts.old.ledger.point + 1 }
    ensures journal { edits_of (commits parts.new.ledger)
        ≡ edits_of (commits parts.old.ledger) ++ E.edit ∷ [] }
    ensures sheet { sheet_of parts.new.ledger.writer.place ≡ sheet_of parts.old.ledger.writer.place }
    ensures blocks { IsCounted parts.old.pools.blocks parts.new.pools.blocks 0 1 }
    ensures actions { IsCounted parts.old.pools.actions parts.new.pools.actions 0 1 }
    ensures free { parts.new.pools ≡ record parts.old.pools {
      blocks = parts.new.pools.blocks;
      actions = parts.new.pools.actions;
    } }
    ensures rest { parts.new ≡ record parts.old {
      ledger = parts.new.ledger;
      pools = parts.new.pools;
    } }
    ensures done { step (now (commits parts.old.ledger)) E.edit
        ≡ Ok (next (commits parts.old.ledger) E.edit, result) }
{
    delete::<E>(
        &mut parts.ledger,
        store,
        &mut parts.pools,
        &parts.actions,
        kind,
        index,
        prepared,
    )
}

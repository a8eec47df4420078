//! A live action is deleted.
ghost use Rattle.std.specs.Prelude.{◌≡◌, ◌<◌, ◌≤◌, ◌+◌, ◌^◌, ◌∷◌, ◌++◌, [], length, true, Ok};
ghost use Rattle.store_history.specs.declared.places.TheConstants.{ROOTS};
ghost use Rattle.store_history.specs.History.{edits_of};
ghost use Rattle.pin_store.specs.Calls.{sheet_of, IsSeatOf};
ghost use Rattle.filter_state.specs.declared.edit.Edit.TheVariants as edits;
ghost use Rattle.filter_state.specs.Actions.{is_live};
ghost use Rattle.filter_state.specs.Lines.{IsLine};
ghost use Rattle.filter_state.specs.Steps.{step};
ghost use Rattle.hook_store_law.specs.OfEdits.Premises.{now, next};
ghost use Rattle.desk_pools.specs.Pools.{ArePools};
ghost use Rattle.desk_actions.specs.OfLedgers.Ledger.{mark_at};
ghost use Rattle.desk_actions.specs.OfLedgers.Kept.{commits, base, IsWhole};
ghost use Rattle.desk_actions.specs.Places.{AreHere};
ghost use Rattle.desk_actions.specs.Effects.{IsCounted};

use crate::ledgers::Ledger;
use crate::naming::serial_of;
use crate::places::ActionPlaces;
use act_kinds::Kind;
use desk_pools::Pools;
use filter_lists::{Done, Edit, Prepared};
use hook_store_law::HookStore;
use store_history::EditName;

/// Does an edit that was made ready and that deletes the live action of that kind and index, and makes its
/// commit, which no walk can see: no filter names the action. Its slot and its block leave.
pub fn delete<E: EditName<Edit>>(
    ledger: &mut Ledger,
    store: &HookStore,
    pools: &mut Pools,
    places: &ActionPlaces,
    kind: Kind,
    index: u32,
    prepared: Prepared,
) -> Done
    requires store { IsSeatOf store.now ledger.old.writer.place }
    requires shape { ROOTS ≤ store.now.shape.roots }
    requires whole { IsWhole ledger.old }
    requires ready { ledger.old.lists ≡ prepared.lists }
    requires edit { (prepared.edit ≡ E.edit) × IsLine E.edit × (E.edit ≡ edits.ActionDel kind index) }
    requires live { is_live kind index (now (commits ledger.old)).actions ≡ true }
    requires pools { ArePools pools.old (commits ledger.old) (base ledger.old) }
    requires blocks { length pools.old.blocks.free + length pools.old.blocks.left < pools.old.blocks.size }
    requires actions { length pools.old.actions.free + length pools.old.actions.left
        < pools.old.actions.size }
    requires places { AreHere places.now (commits ledger.old) }
    requires few { ledger.old.point + 1 < 2 ^ 32 }
    ensures store { IsSeatOf store.now ledger.new.writer.place }
    ensures whole { IsWhole ledger.new }
    ensures point { ledger.new.point ≡ ledger.old.point + 1 }
    ensures pools { ArePools pools.new (commits ledger.new) (base ledger.new) }
    ensures places { AreHere places.now (commits ledger.new) }
    ensures seen { commits ledger.new ≡ commits ledger.old ++ mark_at ledger.new.point E.edit ∷ [] }
    ensures journal { edits_of (commits ledger.new) ≡ edits_of (commits ledger.old) ++ E.edit ∷ [] }
    ensures sheet { sheet_of ledger.new.writer.place ≡ sheet_of ledger.old.writer.place }
    ensures left_blocks { IsCounted pools.old.blocks pools.new.blocks 0 1 }
    ensures left_slots { IsCounted pools.old.actions pools.new.actions 0 1 }
    ensures rest { pools.new
        ≡ record pools.old { blocks = pools.new.blocks; actions = pools.new.actions } }
    ensures done { step (now (commits ledger.old)) E.edit
        ≡ Ok (next (commits ledger.old) E.edit, result) }
{
    let serial = serial_of(&ledger.lists, kind, index);
    let done = ledger.mark::<E>(store, prepared);
    let slot = places.slot(serial);
    pools.leave_action(slot);
    pools.leave_block(places.block(slot));
    done
}

//! An action is made.
ghost use Rattle.std.specs.Prelude.{◌≡◌, ◌<◌, ◌≤◌, ◌+◌, ◌^◌, ◌∷◌, ◌++◌, [], ℕ, length, Some, Ok};
ghost use Rattle.act_kinds.specs.declared.params.Params.{Params};
ghost use Rattle.store_history.specs.declared.places.TheConstants.{ROOTS};
ghost use Rattle.block_codec.specs.declared.places.TheConstants.{BLOCK_WORDS, BLOCKS};
ghost use Rattle.store_history.specs.History.{edits_of};
ghost use Rattle.pin_store.specs.Sheets.{IsSameButCells};
ghost use Rattle.pin_store.specs.Calls.{sheet_of, IsSeatOf};
ghost use Rattle.filter_state.specs.declared.refusal.Done.TheVariants as dones;
ghost use Rattle.filter_state.specs.Lines.{IsLine};
ghost use Rattle.filter_state.specs.Steps.{step};
ghost use Rattle.hook_store_law.specs.OfEdits.Premises.{now, next};
ghost use Rattle.desk_pools.specs.Pools.{ArePools};
ghost use Rattle.desk_actions.specs.OfLedgers.Kept.{commits, base, IsWhole};
ghost use Rattle.desk_actions.specs.Places.{AreHere};
ghost use Rattle.desk_actions.specs.Effects.{AddsToSlot, IsCounted, KeepsBlocks};
ghost use Rattle.desk_actions.specs.Kinds.{IsMaking};

use crate::ledgers::Ledger;
use crate::places::ActionPlaces;
use crate::roots::put_action;
use block_codec::StoredAction;
use desk_pools::Pools;
use filter_lists::{ActionLine, Done, Edit, Prepared};
use hook_store_law::{HookLaw, HookStore};
use store_history::EditName;

// The record of the action that was made, of the line's parameters.
fn made(done: &Done, line: &ActionLine) -> StoredAction
    requires { (index : ℕ) × (serial : ℕ) × (params : Params)
        × (done.now ≡ dones.ActionMade index serial) × (line.now.params ≡ Some params) }
    ensures done { done.now ≡ dones.ActionMade result.index result.serial }
    ensures params { line.now.params ≡ Some result.params }
{
    match (done, line.params) {
        (Done::ActionMade { index, serial }, Some(params)) => StoredAction {
            serial: *serial,
            index: *index,
            params,
        },
        _ => unreachable!(),
    }
}

/// Does an edit that was made ready and that makes an action, and makes its commit: the action's record goes
/// into a block, and the root of a slot comes to name it. The commit carries the edit that `E` names, which
/// is the one that was made ready, with the next number.
pub fn make<E: EditName<Edit>>(
    ledger: &mut Ledger,
    store: &HookStore,
    pools: &mut Pools,
    places: &mut ActionPlaces,
    line: &ActionLine,
    prepared: Prepared,
) -> Done
    requires store { IsSeatOf store.now ledger.old.writer.place }
    requires shape { (store.now.shape.words ≡ BLOCK_WORDS) × (BLOCKS ≤ store.now.shape.blocks)
        × (ROOTS ≤ store.now.shape.roots) }
    requires whole { IsWhole ledger.old }
    requires ready { ledger.old.lists ≡ prepared.lists }
    requires edit { (prepared.edit ≡ E.edit) × IsLine E.edit }
    requires making { IsMaking (now (commits ledger.old)) line.now E.edit }
    requires pools { ArePools pools.old (commits ledger.old) (base ledger.old) }
    requires enough { (0 < length pools.old.blocks.free) × (0 < length pools.old.actions.free) }
    requires places { AreHere places.old (commits ledger.old) }
    requires few { ledger.old.point + 1 < 2 ^ 32 }
    ensures store { IsSeatOf store.now ledger.new.writer.place }
    ensures whole { IsWhole ledger.new }
    ensures point { ledger.new.point ≡ ledger.old.point + 1 }
    ensures pools { ArePools pools.new (commits ledger.new) (base ledger.new) }
    ensures places { AreHere places.new (commits ledger.new) }
    ensures seen { AddsToSlot (commits ledger.old) (commits ledger.new) ledger.new.point E.edit }
    ensures journal { edits_of (commits ledger.new) ≡ edits_of (commits ledger.old) ++ E.edit ∷ [] }
    ensures sheet { IsSameButCells (sheet_of ledger.old.writer.place) (sheet_of ledger.new.writer.place) }
    ensures others { KeepsBlocks store.now.shape (commits ledger.old) (sheet_of ledger.old.writer.place)
        (sheet_of ledger.new.writer.place) }
    ensures blocks { IsCounted pools.old.blocks pools.new.blocks 1 0 }
    ensures actions { IsCounted pools.old.actions pools.new.actions 1 0 }
    ensures rest { pools.new
        ≡ record pools.old { blocks = pools.new.blocks; actions = pools.new.actions } }
    ensures done { step (now (commits ledger.old)) E.edit
        ≡ Ok (next (commits ledger.old) E.edit, result) }
{
    let done = ledger.lists.finish(prepared);
    let action = made(&done, line);
    let slot = pools.take_action();
    let at = pools.take_block();
    ledger.point += 1;
    put_action::<HookLaw, E>(
        &mut ledger.writer,
        store,
        slot,
        at,
        &action,
        ledger.point,
        Some(ledger.point),
    );
    places.put(action.serial, slot, at);
    done
}

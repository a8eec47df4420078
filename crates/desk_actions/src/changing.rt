//! A live action is given other parameters.
ghost use Rattle.std.specs.Prelude.{◌≡◌, ◌<◌, ◌≤◌, ◌+◌, ◌^◌, ◌∷◌, ◌++◌, [], length, Some, Ok};
ghost use Rattle.act_kinds.specs.declared.params.Params.{Params};
ghost use Rattle.store_history.specs.declared.places.TheConstants.{ROOTS};
ghost use Rattle.block_codec.specs.declared.places.TheConstants.{BLOCK_WORDS, BLOCKS};
ghost use Rattle.store_history.specs.History.{edits_of};
ghost use Rattle.pin_store.specs.Sheets.{IsSameButCells};
ghost use Rattle.pin_store.specs.Calls.{sheet_of, IsSeatOf};
ghost use Rattle.filter_state.specs.Lines.{IsLine};
ghost use Rattle.filter_state.specs.Steps.{step};
ghost use Rattle.hook_store_law.specs.OfEdits.Premises.{now, next};
ghost use Rattle.desk_pools.specs.Pools.{ArePools};
ghost use Rattle.desk_actions.specs.OfLedgers.Kept.{commits, base, IsWhole};
ghost use Rattle.desk_actions.specs.Places.{AreHere};
ghost use Rattle.desk_actions.specs.Effects.{AddsToSlot, IsCounted, KeepsBlocks};
ghost use Rattle.desk_actions.specs.Kinds.{IsChanging};

use crate::ledgers::Ledger;
use crate::naming::serial_of;
use crate::places::ActionPlaces;
use crate::roots::put_action;
use block_codec::StoredAction;
use desk_pools::Pools;
use filter_lists::{ActionLine, Done, Edit, Prepared};
use hook_store_law::{HookLaw, HookStore};
use store_history::EditName;

// The record of a live action with the line's parameters.
fn changed(serial: u32, index: u32, line: &ActionLine) -> StoredAction
    requires { (params : Params) × (line.now.params ≡ Some params) }
    ensures name { (result.serial ≡ serial) × (result.index ≡ index) }
    ensures params { line.now.params ≡ Some result.params }
{
    match line.params {
        Some(params) => StoredAction {
            serial,
            index,
            params,
        },
        None => unreachable!(),
    }
}

/// Does an edit that was made ready and that changes a live action, and makes its commit: the action's record
/// goes into another block, and the root of its slot comes to name that one. The old block leaves.
pub fn change<E: EditName<Edit>>(
    ledger: &mut Ledger,
    store: &HookStore,
    pools: &mut Pools,
    places: &mut ActionPlaces,
    line: &ActionLine,
    prepared: Prepared,
) -> Done
    requires store { IsSeatOf store.now ledger.old.writer.place }
    requires shape { (store.now.shape.words ≡ BLOCK_WORDS) × (BLOCKS ≤ store.now.shape.blocks)
        × (ROOTS ≤ store.now.shape.roots) }
    requires whole { IsWhole ledger.old }
    requires ready { ledger.old.lists ≡ prepared.lists }
    requires edit { (prepared.edit ≡ E.edit) × IsLine E.edit }
    requires changing { IsChanging (now (commits ledger.old)) line.now E.edit }
    requires pools { ArePools pools.old (commits ledger.old) (base ledger.old) }
    requires enough { 0 < length pools.old.blocks.free }
    requires places { AreHere places.old (commits ledger.old) }
    requires few { ledger.old.point + 1 < 2 ^ 32 }
    ensures store { IsSeatOf store.now ledger.new.writer.place }
    ensures whole { IsWhole ledger.new }
    ensures point { ledger.new.point ≡ ledger.old.point + 1 }
    ensures pools { ArePools pools.new (commits ledger.new) (base ledger.new) }
    ensures places { AreHere places.new (commits ledger.new) }
    ensures seen { AddsToSlot (commits ledger.old) (commits ledger.new) ledger.new.point E.edit }
    ensures journal { edits_of (commits ledger.new) ≡ edits_of (commits ledger.old) ++ E.edit ∷ [] }
    ensures sheet { IsSameButCells (sheet_of ledger.old.writer.place) (sheet_of ledger.new.writer.place) }
    ensures others { KeepsBlocks store.now.shape (commits ledger.old) (sheet_of ledger.old.writer.place)
        (sheet_of ledger.new.writer.place) }
    ensures blocks { IsCounted pools.old.blocks pools.new.blocks 1 1 }
    ensures rest { pools.new ≡ record pools.old { blocks = pools.new.blocks } }
    ensures done { step (now (commits ledger.old)) E.edit
        ≡ Ok (next (commits ledger.old) E.edit, result) }
{
    let index = line.index.unwrap_or(0);
    let serial = serial_of(&ledger.lists, line.kind, index);
    let done = ledger.lists.finish(prepared);
    let action = changed(serial, index, line);
    let slot = places.slot(serial);
    let before = places.block(slot);
    let at = pools.take_block();
    ledger.point += 1;
    put_action::<HookLaw, E>(
        &mut ledger.writer,
        store,
        slot,
        at,
        &action,
        ledger.point,
        Some(ledger.point),
    );
    places.put(serial, slot, at);
    pools.leave_block(before);
    done
}

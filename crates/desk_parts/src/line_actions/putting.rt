//! The actions that a filter's line makes.
ghost use Rattle.std.specs.Prelude.{◌≡◌, ◌<◌, ◌≤◌, ◌+◌, ◌^◌, ℕ, length, Some, Ok};
ghost use Rattle.store_history.specs.declared.places.TheConstants.{ROOTS};
ghost use Rattle.block_codec.specs.declared.places.TheConstants.{BLOCK_WORDS, BLOCKS};
ghost use Rattle.pin_store.specs.Sheets.{base_of, IsSameButCells};
ghost use Rattle.pin_store.specs.Calls.{seen_by, sheet_of, IsSeatOf};
ghost use Rattle.filter_state.specs.Lines.{IsLine};
ghost use Rattle.filter_state.specs.Steps.{step};
ghost use Rattle.filter_state.specs.declared.refusal.Done.{Done};
ghost use Rattle.hook_lists.specs.States.{state_of};
ghost use Rattle.filter_lists.specs.Spells.{Spells};
ghost use Rattle.hook_law.specs.Meaning.{IsLive};
ghost use Rattle.hook_law.specs.Keeping.{IsAtRest};
ghost use Rattle.hook_store_law.specs.Stated.{hook_meaning, action_at};
ghost use Rattle.hook_store_law.specs.Blocks.{hook_codec};
ghost use Rattle.hook_store_law.specs.Kept.{IsKeptAt};
ghost use Rattle.hook_store_law.specs.OfEdits.Premises.{now, next};
ghost use Rattle.desk_pools.specs.Pools.{ArePools};
ghost use Rattle.desk_pools.specs.Steps.{IsInPool};
ghost use Rattle.desk_actions.specs.Places.{AreHere, AreHereFor, slot_of};
ghost use Rattle.desk_actions.specs.Effects.{IsCounted, KeepsBlocks};
ghost use Rattle.desk_parts.specs.OfLineActions.Put.{IsOfLine, ArePut, IsPlaced};

use block_codec::StoredAction;
use desk_actions::ActionPlaces;
use desk_actions::roots::put_action;
use desk_pools::Pools;
use filter_lists::{Edit, Lists};
use hook_store_law::{HookLaw, HookStore};
use pin_store::Writer;
use store_history::EditName;
use tc_base::Point;

// The record of the action with this serial, which is live.
fn record_of(lists: &Lists, serial: u32) -> StoredAction
    requires { IsLive hook_meaning (state_of lists.now) serial }
    ensures serial { result.serial ≡ serial }
    ensures terms { action_at (state_of lists.now) serial
        ≡ Some (record { index = result.index; params = result.params }) }
{
    match lists.actions().of_serial(serial) {
        Some(entry) => StoredAction {
            serial: entry.serial,
            index: entry.index,
            params: entry.params,
        },
        None => unreachable!(),
    }
}

/// Puts each action that the edit of a filter's line has made into the store, before the edit's own commit:
/// for each serial that was given since `made` a slot and a block are taken, the block gets the action's
/// record, and the slot's root names it, with the stamp that the edit will have. No walk comes to such a slot
/// until a filter names it.
///
/// The lists are those that the edit has led to, `E` names the edit, and `point` is the number of edits so
/// far.
pub fn put_new_actions<E: EditName<Edit>>(
    lists: &Lists,
    writer: &mut Writer<HookLaw>,
    store: &HookStore,
    pools: &mut Pools,
    places: &mut ActionPlaces,
    made: u32,
    point: Point,
)
    requires store { IsSeatOf store.now writer.old.place }
    requires shape { (store.now.shape.words ≡ BLOCK_WORDS) × (BLOCKS ≤ store.now.shape.blocks)
        × (ROOTS ≤ store.now.shape.roots) }
    requires kept { IsKeptAt (seen_by writer.old.place) (base_of (sheet_of writer.old.place)) point }
    requires rest { IsAtRest hook_meaning hook_codec (seen_by writer.old.place) }
    requires edit { IsLine E.edit × IsOfLine E.edit }
    requires accepted { (done : Done)
        × (step (now (seen_by writer.old.place)) E.edit
        ≡ Ok (next (seen_by writer.old.place) E.edit, done)) }
    requires spells { Spells lists.now (next (seen_by writer.old.place) E.edit) }
    requires made { made ≡ (now (seen_by writer.old.place)).actions_made }
    requires pools { ArePools pools.old (seen_by writer.old.place) (base_of (sheet_of writer.old.place)) }
    requires enough { (lists.now.actions.made ≤ made + length pools.old.blocks.free)
        × (lists.now.actions.made ≤ made + length pools.old.actions.free) }
    requires places { AreHere places.old (seen_by writer.old.place) }
    requires few { point + 1 < 2 ^ 32 }
    ensures store { IsSeatOf store.now writer.new.place }
    ensures put { ArePut (seen_by writer.old.place) (seen_by writer.new.place)
        (base_of (sheet_of writer.old.place)) point E.edit }
    ensures count { length (seen_by writer.new.place) + made
        ≡ length (seen_by writer.old.place) + lists.now.actions.made }
    ensures places { AreHereFor places.new (seen_by writer.new.place)
        (next (seen_by writer.old.place) E.edit) }
    ensures earlier { (action : ℕ) → IsLive hook_meaning (now (seen_by writer.old.place)) action
        → IsPlaced places.new (seen_by writer.new.place) action
        × (IsInPool (slot_of places.new action) pools.new.actions → ⊥) }
    ensures apart { (action : ℕ) → IsLive hook_meaning (next (seen_by writer.old.place) E.edit) action
        → IsInPool (slot_of places.new action) pools.new.actions → ⊥ }
    ensures pools { ArePools pools.new (seen_by writer.new.place) (base_of (sheet_of writer.new.place)) }
    ensures blocks { (taken : ℕ) → taken + made ≡ lists.now.actions.made
        → IsCounted pools.old.blocks pools.new.blocks taken 0 }
    ensures actions { (taken : ℕ) → taken + made ≡ lists.now.actions.made
        → IsCounted pools.old.actions pools.new.actions taken 0 }
    ensures others { pools.new
        ≡ record pools.old { blocks = pools.new.blocks; actions = pools.new.actions } }
    ensures sheet { IsSameButCells (sheet_of writer.old.place) (sheet_of writer.new.place) }
    ensures words { KeepsBlocks store.now.shape (seen_by writer.old.place) (sheet_of writer.old.place)
        (sheet_of writer.new.place) }
{
    for earlier in made..lists.actions().made() {
        let action = record_of(lists, earlier + 1);
        let slot = pools.take_action();
        let at = pools.take_block();
        put_action::<HookLaw, E>(writer, store, slot, at, &action, point + 1, None);
        places.put(action.serial, slot, at);
    }
}

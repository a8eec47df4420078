//! The actions that go with an edit.
ghost use Rattle.std.specs.Prelude.{◌≡◌, ◌↔◌, ◌≤◌, ℕ, List, None, IsTrue, length};
ghost use Rattle.store_history.specs.declared.history.Commit.{Commit};
ghost use Rattle.act_registry.specs.declared.limits.TheConstants.{MADE_MAX};
ghost use Rattle.store_history.specs.declared.places.TheConstants.{POOL_BLOCKS, ACTION_SLOTS};
ghost use Rattle.filter_state.specs.declared.edit.Edit.{Edit};
ghost use Rattle.hook_lists.specs.States.{state_of};
ghost use Rattle.filter_lists.specs.Spells.{Spells};
ghost use Rattle.hook_law.specs.Keeping.{Keeps};
ghost use Rattle.hook_store_law.specs.Stated.{hook_meaning, action_at};
ghost use Rattle.hook_store_law.specs.Blocks.{hook_codec};
ghost use Rattle.hook_store_law.specs.OfEdits.Premises.{now};
ghost use Rattle.desk_pools.specs.Pools.{ArePools};
ghost use Rattle.desk_actions.specs.Places.{AreHere};
ghost use Rattle.desk_parts.specs.OfLineActions.Dropped.{MayGo, AreDropped};

use desk_actions::ActionPlaces;
use desk_pools::Pools;
use filter_lists::Lists;
use store_history::places::POOL_BLOCKS;

// No action with this serial is live.
fn is_dead(lists: &Lists, serial: u32) -> bool
    ensures { IsTrue result ↔ (action_at (state_of lists.now) serial ≡ None) }
{
    match lists.actions().of_serial(serial) {
        Some(_) => false,
        None => true,
    }
}

/// Lets the actions go of some serials that are live no more: their slots and blocks leave, each once. A
/// serial may be named more than once.
///
/// The lists are those of the state that the commits have come to. The actions were live before the edit,
/// and have their places still.
pub fn drop_dead_actions(
    lists: &Lists,
    pools: &mut Pools,
    places: &mut ActionPlaces,
    serials: &[u32],
)
    requires dead { (h : List (Commit Edit)) × (b : ℕ) × (after : ℕ)
        × MayGo lists.now pools.old places.old h b after serials.now }
    requires sizes { (pools.old.blocks.size ≡ POOL_BLOCKS) × (pools.old.actions.size ≡ ACTION_SLOTS) }
    ensures dropped { (h : List (Commit Edit)) (b after : ℕ)
        → MayGo lists.now pools.old places.old h b after serials.now
        → AreDropped pools.old pools.new places.old places.new h b serials.now }
    ensures sizes { (pools.new.blocks.size ≡ POOL_BLOCKS) × (pools.new.actions.size ≡ ACTION_SLOTS) }
{
    for serial in serials {
        let slot = places.slot(*serial);
        let block = places.block(slot);
        if block < POOL_BLOCKS && is_dead(lists, *serial) {
            pools.leave_action(slot);
            pools.leave_block(block);
            places.clear(slot);
        }
    }
}

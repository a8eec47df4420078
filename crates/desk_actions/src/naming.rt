//! Which live action an edit names.
ghost use Rattle.std.specs.Prelude.{◌≡◌, Some, true};
ghost use Rattle.filter_state.specs.States.{Action};
ghost use Rattle.filter_state.specs.Actions.{is_live, is_named};
ghost use Rattle.filter_state.specs.Tables.{first_where};
ghost use Rattle.action_plan.specs.Entries.{actions_of};

use act_kinds::Kind;
use filter_lists::Lists;

/// The serial of the live action of that kind and index.
pub(crate) fn serial_of(lists: &Lists, kind: Kind, index: u32) -> u32
    requires { is_live kind index (actions_of lists.now.actions.entries) ≡ true }
    ensures { (action : Action)
        × (first_where (is_named kind index) (actions_of lists.now.actions.entries) ≡ Some action)
        × (action.serial ≡ result) }
{
    match lists.actions().find(kind.number(), index) {
        Some(entry) => entry.serial,
        None => unreachable!(),
    }
}

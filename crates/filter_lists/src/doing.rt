//! Doing what was planned.
ghost use Rattle.std.specs.Prelude.{Ok};
ghost use Rattle.hook_lists.specs.States.{AreKept};
ghost use Rattle.hook_lists.specs.Done.{IsDone};
ghost use Rattle.filter_state.specs.States.{State};
ghost use Rattle.filter_state.specs.declared.refusal.Done.{Done};
ghost use Rattle.filter_lists.specs.Plans.{Leads};

use crate::adding::add;
use crate::plan::Plan;
use crate::removing::remove;
use crate::replacing::replace;
use crate::shared::{change_action, del_action, make_action};
use filter_state::Done;
use hook_lists::Kept;

/// Does what was planned. It takes no memory.
pub(crate) fn carry(kept: &mut Kept, plan: Plan) -> Done
    requires kept { AreKept kept.old }
    requires leads { (next : State) × (said : Done) × Leads kept.old plan (Ok (next, said)) }
    ensures { (next : State) (said : Done) → Leads kept.old plan (Ok (next, said))
        → IsDone kept.new result next said }
{
    match plan {
        Plan::HookAdd => {
            kept.hooked = true;
            Done::Hooked
        }
        Plan::HookDel => {
            kept.hooked = false;
            Done::Unhooked
        }
        Plan::Add(addition) => add(kept, addition),
        Plan::Replace(replacement) => replace(kept, replacement),
        Plan::Remove(removal) => remove(kept, removal),
        Plan::MakeAction { index, params } => make_action(kept, params, index),
        Plan::ChangeAction { index, params } => change_action(kept, params, index),
        Plan::DelAction { kind, index } => del_action(kept, kind, index),
    }
}

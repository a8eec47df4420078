//! Edits of actions apart from filters: looked at, and done.
ghost use Rattle.std.specs.Prelude.{◌≡◌, Ok};
ghost use Rattle.act_kinds.specs.Params.{kind_of};
ghost use Rattle.filter_state.specs.declared.edit.Edit.TheVariants as edits;
ghost use Rattle.filter_state.specs.declared.refusal.Done.{Done};
ghost use Rattle.filter_state.specs.States.{State};
ghost use Rattle.filter_state.specs.Lines.{IsLine};
ghost use Rattle.filter_state.specs.Actions.{is_live, index_or_free};
ghost use Rattle.filter_state.specs.Refusals.{action_exists};
ghost use Rattle.filter_state.specs.Steps.{step, unless, action_made};
ghost use Rattle.hook_lists.specs.States.{state_of, AreKept};
ghost use Rattle.hook_lists.specs.Steps.{IsRoomier};
ghost use Rattle.hook_lists.specs.Done.{IsDone};
ghost use Rattle.filter_lists.specs.declared.plan.Plan.TheVariants as plans;
ghost use Rattle.filter_lists.specs.Faults.{refusal_for};
ghost use Rattle.filter_lists.specs.Plans.{Leads, IsPlanned};

use crate::plan::Plan;
use act_kinds::{Kind, Params};
use act_registry::RegistryFault;
use filter_state::{ActionLine, Done, Refusal};
use hook_lists::Kept;

/// A new action, with the given index, or the lowest from 1 that its kind doesn't use.
///
/// `ActionExists`: an action of its kind has the given index. `ActionsFull`: 1,024 actions are live.
/// `CountersFull`: 16,384 were made in this run. `NoMemory`: none of these, and memory was refused.
pub(crate) fn plan_action_add(kept: &mut Kept, action: &ActionLine) -> Result<Plan, Refusal>
    requires { IsLine (edits.ActionAdd action.now) }
    ensures roomier { IsRoomier kept.old kept.new }
    ensures planned { IsPlanned kept.new result (step (state_of kept.old) (edits.ActionAdd action.now)) }
{
    let Some(params) = action.params else {
        unreachable!();
    };
    plan_make(kept, params, action.index)
}

/// Other parameters for the action of that kind and index, or a new action where it isn't there.
///
/// The refusals are those of a new action.
pub(crate) fn plan_action_change(kept: &mut Kept, action: &ActionLine) -> Result<Plan, Refusal>
    requires { IsLine (edits.ActionChange action.now) }
    ensures roomier { IsRoomier kept.old kept.new }
    ensures planned { IsPlanned kept.new result (step (state_of kept.old) (edits.ActionChange action.now)) }
{
    let (Some(params), Some(index)) = (action.params, action.index) else {
        unreachable!();
    };
    if is_there(kept, params.kind(), index) {
        return Ok(Plan::ChangeAction { index, params });
    }
    plan_make(kept, params, Some(index))
}

/// The action of that kind and index is to go.
///
/// `NoSuchAction`: there is none. `ActionBound`: so many places of filters name it.
pub(crate) fn plan_action_del(kept: &Kept, kind: Kind, index: u32) -> Result<Plan, Refusal>
    ensures { IsPlanned kept.now result (step (state_of kept.now) (edits.ActionDel kind index)) }
{
    match kept.actions.find(kind.number(), index) {
        None => Err(Refusal::NoSuchAction { kind, index }),
        Some(entry) => {
            if entry.binds > 0 {
                return Err(Refusal::ActionBound { binds: entry.binds });
            }
            Ok(Plan::DelAction { kind, index })
        }
    }
}

/// Makes the action that was planned.
pub(crate) fn make_action(kept: &mut Kept, params: Params, index: Option<u32>) -> Done
    requires kept { AreKept kept.old }
    requires leads { (next : State) × (said : Done)
        × Leads kept.old (plans.MakeAction index params) (Ok (next, said)) }
    ensures { (next : State) (said : Done) → Leads kept.old (plans.MakeAction index params) (Ok (next, said))
        → IsDone kept.new result next said }
{
    match kept.actions.make(params, index, false) {
        Ok((serial, index)) => Done::ActionMade { index, serial },
        Err(_) => unreachable!(),
    }
}

/// Gives the action that is there its new parameters.
pub(crate) fn change_action(kept: &mut Kept, params: Params, index: u32) -> Done
    requires kept { AreKept kept.old }
    requires leads { (next : State) × (said : Done)
        × Leads kept.old (plans.ChangeAction index params) (Ok (next, said)) }
    ensures { (next : State) (said : Done)
        → Leads kept.old (plans.ChangeAction index params) (Ok (next, said))
        → IsDone kept.new result next said }
{
    match kept.actions.change(index, params) {
        Ok(()) => Done::ActionChanged,
        Err(_) => unreachable!(),
    }
}

/// Deletes the action that no filter names.
pub(crate) fn del_action(kept: &mut Kept, kind: Kind, index: u32) -> Done
    requires kept { AreKept kept.old }
    requires leads { (next : State) × (said : Done)
        × Leads kept.old (plans.DelAction kind index) (Ok (next, said)) }
    ensures { (next : State) (said : Done) → Leads kept.old (plans.DelAction kind index) (Ok (next, said))
        → IsDone kept.new result next said }
{
    match kept.actions.delete(kind.number(), index) {
        Ok(()) => Done::ActionGone,
        Err(_) => unreachable!(),
    }
}

fn is_there(kept: &Kept, kind: Kind, index: u32) -> bool
    ensures { result ≡ is_live kind index (state_of kept.now).actions }
{
    matches!(kept.actions.find(kind.number(), index), Some(_))
}

// No refusal of a new action names an index.
fn plan_make(kept: &mut Kept, params: Params, index: Option<u32>) -> Result<Plan, Refusal>
    ensures roomier { IsRoomier kept.old kept.new }
    ensures planned { IsPlanned kept.new result
        (unless (action_exists (state_of kept.old) (kind_of params) index)
        (action_made (state_of kept.old) params
        (index_or_free index (kind_of params) (state_of kept.old).actions))) }
{
    match kept.actions.check_make(params.kind().number(), index) {
        Ok(()) => {}
        Err(fault) => return Err(refusal_for(fault, params.kind(), 0)),
    }
    kept.actions.reserve(1)?;
    Ok(Plan::MakeAction { index, params })
}

// The refusal of an edit that names that kind and index, where the registry refused.
fn refusal_for(fault: RegistryFault, kind: Kind, index: u32) -> Refusal
    ensures { result ≡ refusal_for kind index fault }
{
    match fault {
        RegistryFault::NoSuchAction => Refusal::NoSuchAction { kind, index },
        RegistryFault::ActionExists => Refusal::ActionExists,
        RegistryFault::ActionBound { binds } => Refusal::ActionBound { binds },
        RegistryFault::ActionsFull => Refusal::ActionsFull,
        RegistryFault::CountersFull => Refusal::CountersFull,
        RegistryFault::NoMemory(memory) => Refusal::NoMemory(memory),
    }
}

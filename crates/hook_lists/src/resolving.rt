//! The actions of a line, against what is kept.
ghost use Rattle.filter_state.specs.declared.limits.TheConstants.{LINE_ACTIONS_MAX};
ghost use Rattle.std.specs.Prelude.{◌≡◌, ◌≤◌, length, [], OnOk, IfOk};
ghost use Rattle.filter_state.specs.Lines.{AreFilterActions};
ghost use Rattle.filter_state.specs.Actions.{all_unbound};
ghost use Rattle.filter_state.specs.Refusals.{or_else, actions_full, counters_full};
ghost use Rattle.filter_state.specs.Steps.{resolved_for};
ghost use Rattle.action_plan.specs.Entries.{actions_of};
ghost use Rattle.action_plan.specs.Bound.{AreBound};
ghost use Rattle.action_plan.specs.Plans.{made_of, carried, AreFit, made_by, PlanTold, plan_or};
ghost use Rattle.hook_lists.specs.States.{state_of, AreKept};
ghost use Rattle.hook_lists.specs.Steps.{refusal_of, IsRoomier, PlanFits, SameTables};

use crate::kept::Kept;
use act_registry::{ACTIONS_MAX, MADE_MAX};
use action_plan::{ActionPlan, PlannedActions, unbind_all};
use filter_state::{ActionLines, Refusal};
use tc_base::NoMemory;

/// Plans the actions of a line.
///
/// `NoSuchAction`: the first that is named alone and isn't there. The plan then means nothing.
pub fn resolve(kept: &Kept, lines: &ActionLines, plan: &mut ActionPlan) -> Result<(), Refusal>
    requires empty { plan.old ≡ [] }
    requires lines { AreFilterActions lines.now }
    requires few { length lines.now ≤ LINE_ACTIONS_MAX }
    ensures { PlanTold (made_of kept.now.actions) (resolved_for (state_of kept.now) lines.now)
        (plan_or plan.new result) }
{
    plan.fill(&kept.actions, lines.as_slice())
}

/// `ActionsFull`: more than 1,024 actions would be live. `CountersFull`: more than 16,384 would have been
/// made in this run.
pub fn check_actions(kept: &Kept, plan: &ActionPlan) -> Result<(), Refusal>
    ensures { refusal_of result
        ≡ or_else (actions_full (carried (made_of kept.now.actions) plan.now))
        (counters_full (carried (made_of kept.now.actions) plan.now)) }
{
    let more = plan.made();
    if kept.actions.entries().len() + more as usize > ACTIONS_MAX {
        return Err(Refusal::ActionsFull);
    }
    if kept.actions.made() + more > MADE_MAX {
        return Err(Refusal::CountersFull);
    }
    Ok(())
}

/// Makes room for the actions that a plan makes, so that it can be carried out.
pub fn reserve_actions(kept: &mut Kept, plan: &ActionPlan) -> Result<(), NoMemory>
    requires fit { AreFit (made_of kept.old.actions) plan.now }
    requires full { or_else (actions_full (carried (made_of kept.old.actions) plan.now))
        (counters_full (carried (made_of kept.old.actions) plan.now)) ≡ None }
    ensures roomier { IsRoomier kept.old kept.new }
    ensures ingress { kept.new.ingress ≡ kept.old.ingress }
    ensures egress { kept.new.egress ≡ kept.old.egress }
    ensures fits { OnOk result (PlanFits kept.new plan.now) }
{
    kept.actions.reserve(plan.made())
}

/// Binds and makes what was planned. It takes no memory.
pub fn carry_out(kept: &mut Kept, plan: &PlannedActions)
    requires kept { AreKept kept.old }
    requires fits { PlanFits kept.old plan.now }
    ensures tables { SameTables kept.old kept.new }
    ensures actions { made_of kept.new.actions ≡ carried (made_of kept.old.actions) plan.now }
{
    // A plan is short, so that no count of references passes what a number holds.
    let _ = plan.len();
    plan.carry_out(&mut kept.actions);
}

/// The same, with a plan that wasn't kept before.
pub fn carry_plan(kept: &mut Kept, plan: &ActionPlan)
    requires kept { AreKept kept.old }
    requires fits { PlanFits kept.old plan.now }
    ensures tables { SameTables kept.old kept.new }
    ensures actions { made_of kept.new.actions ≡ carried (made_of kept.old.actions) plan.now }
{
    // A plan is short, so that no count of references passes what a number holds.
    let _ = plan.made();
    plan.carry_out(&mut kept.actions);
}

/// Lets the actions of these serials go, one place for each.
pub fn unbind(kept: &mut Kept, serials: &[u32])
    requires { AreBound serials.now kept.old.actions.entries }
    ensures tables { SameTables kept.old kept.new }
    ensures actions { actions_of kept.new.actions.entries
        ≡ all_unbound serials.now (actions_of kept.old.actions.entries) }
    ensures made { kept.new.actions.made ≡ kept.old.actions.made }
{
    unbind_all(&mut kept.actions, serials);
}

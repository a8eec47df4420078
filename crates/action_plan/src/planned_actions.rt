//! A plan that is kept until it is carried out.
ghost use Rattle.filter_state.specs.declared.limits.TheConstants.{LINE_ACTIONS_MAX};
ghost use Rattle.act_registry.specs.declared.limits.TheConstants.{ACTIONS_MAX, MADE_MAX};
ghost use Rattle.std.specs.Prelude.{◌≡◌, ◌≤◌, ◌<◌, ◌+◌, length, IfOk};
ghost use Rattle.filter_state.specs.States.{Action};
ghost use Rattle.filter_state.specs.Sound.{Each};
ghost use Rattle.action_plan.specs.Entries.{actions_of};
ghost use Rattle.action_plan.specs.Plans.{made_of, carried, AreFit, made_by};

use crate::carrying::carry_out;
use crate::counting::count_made;
use crate::planned::PlannedAction;
use act_kinds::Params;
use act_registry::Registry;
use std::alloc::Global;
use std::marker::Model;
use tc_base::NoMemory;

/// What is to be done for the actions of a line, in order: `LINE_ACTIONS_MAX` at most.
#[derive(Drop)]
pub struct PlannedActions {
    parts: Vec<PlannedAction>,
}

impl Model for PlannedActions {
    ghost use Rattle.filter_state.specs.declared.limits.TheConstants.{LINE_ACTIONS_MAX};
    ghost use Rattle.std.specs.Prelude.{◌≤◌, List, length};
    ghost use Rattle.action_plan.specs.declared.planned.PlannedAction.{PlannedAction};

    ghost Value = { List PlannedAction };

    ghost view = { λ p. p.parts.items };

    ghost invariant = { λ p. length p.parts.items ≤ LINE_ACTIONS_MAX };
}

impl PlannedActions {
    pub(crate) fn of_parts(
        alloc: Global,
        parts: &[PlannedAction],
    ) -> Result<PlannedActions, NoMemory>
        requires { length parts.now ≤ LINE_ACTIONS_MAX }
        ensures { IfOk result (λ plan. plan ≡ parts.now) }
    {
        Ok(PlannedActions {
            parts: Vec::from_slice(alloc, parts)?,
        })
    }

    /// How many actions the line has.
    pub fn len(&self) -> usize
        ensures length { result ≡ length self.now }
        ensures short { length self.now ≤ LINE_ACTIONS_MAX }
    {
        self.parts.len()
    }

    /// How many actions are to be made.
    pub fn made(&self) -> u32
        ensures made { result ≡ made_by self.now }
        ensures few { result ≤ LINE_ACTIONS_MAX }
    {
        count_made(&self.parts)
    }

    /// Does what was planned. It takes no memory.
    pub fn carry_out(&self, registry: &mut Registry<Params>)
        requires fit { AreFit (made_of registry.old) self.now }
        requires room { made_by self.now ≤ registry.old.spare }
        requires few { length registry.old.entries + made_by self.now ≤ ACTIONS_MAX }
        requires in_run { registry.old.made + made_by self.now ≤ MADE_MAX }
        requires references { Each (λ (action : Action). action.references + length self.now < 4294967295)
            (actions_of registry.old.entries) }
        ensures actions { actions_of registry.new.entries
            ≡ (carried (made_of registry.old) self.now).actions }
        ensures made { registry.new.made ≡ (carried (made_of registry.old) self.now).made }
    {
        carry_out(&self.parts, registry);
    }
}

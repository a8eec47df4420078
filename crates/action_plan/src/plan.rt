//! A plan for the actions of a line.
ghost use Rattle.filter_state.specs.declared.limits.TheConstants.{LINE_ACTIONS_MAX};
ghost use Rattle.act_registry.specs.declared.limits.TheConstants.{ACTIONS_MAX, MADE_MAX};
ghost use Rattle.std.specs.Prelude.{◌≡◌, ◌≤◌, ◌<◌, ◌+◌, ◌∷◌, ◌++◌, [], length, IfOk, OnOk, OnErr};
ghost use Rattle.act_kinds.specs.Params.{kind_of};
ghost use Rattle.filter_state.specs.States.{Action};
ghost use Rattle.filter_state.specs.Sound.{Each};
ghost use Rattle.filter_state.specs.Lines.{AreFilterActions, IsFilterAction};
ghost use Rattle.filter_state.specs.Actions.{is_live, first_free, index_or_free, serial_of, resolved};
ghost use Rattle.action_plan.specs.Entries.{actions_of};
ghost use Rattle.action_plan.specs.Plans.{made_of, carried, carried_one, AreFit, FitsAs, made_by, serials_of};
ghost use Rattle.action_plan.specs.Plans.{planned_by, made_or_refused, PlanTold, plan_or, AddTold};
ghost use Rattle.action_plan.specs.Plans.{serial_to_make, is_to_make};

use crate::carrying::carry_out;
use crate::names::{free_index, next_serial, serial_of};
use crate::planned::PlannedAction;
use crate::planned_actions::PlannedActions;
use crate::serials::serials_of;
use act_kinds::{Kind, Params};
use act_registry::Registry;
use arrayvec::ArrayVec;
use filter_state::{ActionLine, LINE_ACTIONS_MAX, Refusal};
use std::alloc::Global;
use std::marker::Model;
use tc_base::{NoMemory, Numbers};

/// What is to be done for the actions of a line, in order, while it is planned. It is large, so it is filled
/// where it stands.
#[derive(Drop)]
pub struct ActionPlan {
    parts: ArrayVec<PlannedAction, LINE_ACTIONS_MAX>,
    made: u32,
}

impl Model for ActionPlan {
    ghost use Rattle.filter_state.specs.declared.limits.TheConstants.{LINE_ACTIONS_MAX};
    ghost use Rattle.std.specs.Prelude.{◌≡◌, ◌≤◌, List, length};
    ghost use Rattle.action_plan.specs.declared.planned.PlannedAction.{PlannedAction};
    ghost use Rattle.action_plan.specs.Plans.{made_by};

    ghost Value = { List PlannedAction };

    ghost view = { λ p. p.parts.items };

    ghost invariant = { λ p. (p.made ≡ made_by p.parts.items) × (length p.parts.items ≤ LINE_ACTIONS_MAX) };
}

impl ActionPlan {
    /// No plan yet. It takes no memory, now or later.
    pub fn new() -> ActionPlan
        ensures { result ≡ [] }
    {
        ActionPlan {
            parts: ArrayVec::new(),
            made: 0,
        }
    }

    /// Plans the actions of a filter's line. An action that is live, or that an action before it is to make,
    /// is to be bound, and any other is to be made, with its index or the lowest that its kind doesn't use.
    ///
    /// `NoSuchAction`: the first that is named alone and isn't there. The plan then means nothing.
    pub fn fill(&mut self, registry: &Registry<Params>, lines: &[ActionLine]) -> Result<(), Refusal>
        requires empty { self.old ≡ [] }
        requires lines { AreFilterActions lines.now }
        requires few { length lines.now ≤ LINE_ACTIONS_MAX }
        ensures { PlanTold (made_of registry.now)
            (resolved (record { so_far = made_of registry.now; serials = [] }) lines.now)
            (plan_or self.new result) }
    {
        for line in lines {
            match self.add(registry, line) {
                Ok(()) => {}
                Err(refusal) => return Err(refusal),
            }
        }
        Ok(())
    }

    /// The plan, to be kept until it is carried out.
    pub fn keep(&self, alloc: Global) -> Result<PlannedActions, NoMemory>
        ensures { IfOk result (λ plan. plan ≡ self.now) }
    {
        PlannedActions::of_parts(alloc, &self.parts)
    }

    /// Does what was planned, without the plan being kept before. It takes no memory.
    pub fn carry_out(&self, registry: &mut Registry<Params>)
        requires fit { AreFit (made_of registry.old) self.now }
        requires room { made_by self.now ≤ registry.old.spare }
        requires few { length registry.old.entries + made_by self.now ≤ ACTIONS_MAX }
        requires in_run { registry.old.made + made_by self.now ≤ MADE_MAX }
        requires references { Each (λ (action : Action). action.references + length self.now < 4294967295)
            (actions_of registry.old.entries) }
        ensures actions { actions_of registry.new.entries
            ≡ (carried (made_of registry.old) self.now).actions }
        ensures made { registry.new.made ≡ (carried (made_of registry.old) self.now).made }
    {
        carry_out(&self.parts, registry);
    }

    /// How many actions the plan makes, of the `LINE_ACTIONS_MAX` at most that it has.
    pub fn made(&self) -> u32
        ensures made { result ≡ made_by self.now }
        ensures short { length self.now ≤ LINE_ACTIONS_MAX }
    {
        self.made
    }

    /// The serials of the actions, in order.
    pub fn serials(&self, alloc: Global) -> Result<Numbers, NoMemory>
        ensures { IfOk result (λ serials. serials ≡ serials_of self.now) }
    {
        serials_of(alloc, &self.parts)
    }

    // Plans one action more.
    fn add(&mut self, registry: &Registry<Params>, line: &ActionLine) -> Result<(), Refusal>
        requires line { IsFilterAction line.now }
        requires few { length self.old < LINE_ACTIONS_MAX }
        requires fit { AreFit (made_of registry.now) self.old }
        ensures told { AddTold (planned_by (carried (made_of registry.now) self.old) line.now) self.old
            self.new result }
        ensures fit { OnOk result (AreFit (made_of registry.now) self.new) }
    {
        let part = self.next(registry, line)?;
        self.push(part);
        Ok(())
    }

    // What is to be done for one action more.
    fn next(&self, registry: &Registry<Params>, line: &ActionLine) -> Result<PlannedAction, Refusal>
        requires few { length self.now < LINE_ACTIONS_MAX }
        requires fit { AreFit (made_of registry.now) self.now }
        ensures { result ≡ planned_by (carried (made_of registry.now) self.now) line.now }
    {
        let kind = line.kind;
        let index = match line.index {
            Some(index) => index,
            None => free_index(registry, &self.parts, self.made, kind),
        };
        match serial_of(registry, &self.parts, kind, index) {
            Some(serial) => Ok(PlannedAction {
                kind,
                index,
                serial,
                params: None,
            }),
            None => self.make(registry, kind, index, line.params),
        }
    }

    // An action that isn't there is to be made, where the line writes it in full.
    fn make(
        &self,
        registry: &Registry<Params>,
        kind: Kind,
        index: u32,
        params: Option<Params>,
    ) -> Result<PlannedAction, Refusal>
        requires few { length self.now < LINE_ACTIONS_MAX }
        ensures { result ≡ made_or_refused (carried (made_of registry.now) self.now) kind index params }
    {
        let Some(params) = params else {
            return Err(Refusal::NoSuchAction { kind, index });
        };
        Ok(PlannedAction {
            kind,
            index,
            serial: next_serial(registry, self.made),
            params: Some(params),
        })
    }

    fn push(&mut self, part: PlannedAction)
        requires few { length self.old < LINE_ACTIONS_MAX }
        ensures { self.new ≡ self.old ++ (part ∷ []) }
    {
        self.parts.push(part);
        if part.params.is_some() {
            self.made += 1;
        }
    }
}

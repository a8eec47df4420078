//! Doing what was planned.
ghost use Rattle.filter_state.specs.declared.limits.TheConstants.{LINE_ACTIONS_MAX};
ghost use Rattle.act_registry.specs.declared.limits.TheConstants.{ACTIONS_MAX, MADE_MAX};
ghost use Rattle.std.specs.Prelude.{◌≡◌, ◌≤◌, ◌<◌, ◌+◌, length, None, IsSome};
ghost use Rattle.act_kinds.specs.Params.{kind_of};
ghost use Rattle.filter_state.specs.Actions.{is_named, change_where, more_bound, made_more, serial_of};
ghost use Rattle.filter_state.specs.States.{Action};
ghost use Rattle.filter_state.specs.Sound.{Each};
ghost use Rattle.action_plan.specs.Entries.{actions_of};
ghost use Rattle.action_plan.specs.Plans.{made_of, carried, carried_one, AreFit, FitsAs, made_by, makes};

use crate::planned::PlannedAction;
use act_kinds::{Kind, Params};
use act_registry::Registry;

/// Does the parts of a plan in order, `LINE_ACTIONS_MAX` at most.
pub(crate) fn carry_out(parts: &[PlannedAction], registry: &mut Registry<Params>)
    requires short { length parts.now ≤ LINE_ACTIONS_MAX }
    requires fit { AreFit (made_of registry.old) parts.now }
    requires room { made_by parts.now ≤ registry.old.spare }
    requires few { length registry.old.entries + made_by parts.now ≤ ACTIONS_MAX }
    requires in_run { registry.old.made + made_by parts.now ≤ MADE_MAX }
    requires references { Each (λ (action : Action). action.references + length parts.now < 4294967295)
        (actions_of registry.old.entries) }
    ensures actions { actions_of registry.new.entries ≡ (carried (made_of registry.old) parts.now).actions }
    ensures made { registry.new.made ≡ (carried (made_of registry.old) parts.now).made }
{
    for part in parts {
        carry_out_one(part, registry);
    }
}

fn carry_out_one(part: &PlannedAction, registry: &mut Registry<Params>)
    requires fits { FitsAs (made_of registry.old) part.now part.now.params }
    requires room { makes part.now ≤ registry.old.spare }
    requires few { length registry.old.entries + makes part.now ≤ ACTIONS_MAX }
    requires in_run { registry.old.made + makes part.now ≤ MADE_MAX }
    requires references { Each (λ (action : Action). action.references < 4294967295)
        (actions_of registry.old.entries) }
    ensures actions { actions_of registry.new.entries
        ≡ (carried_one (made_of registry.old) part.now).actions }
    ensures made { registry.new.made ≡ (carried_one (made_of registry.old) part.now).made }
    ensures spare { registry.old.spare ≤ registry.new.spare + makes part.now }
{
    match part.params {
        Some(params) => make(registry, params, part.index),
        None => bind(registry, part.kind, part.index),
    }
}

fn make(registry: &mut Registry<Params>, params: Params, index: u32)
    requires new { serial_of (kind_of params) index (actions_of registry.old.entries) ≡ None }
    requires room { 0 < registry.old.spare }
    requires few { length registry.old.entries < ACTIONS_MAX }
    requires in_run { registry.old.made < MADE_MAX }
    ensures actions { actions_of registry.new.entries
        ≡ (made_more (made_of registry.old) params index 1).actions }
    ensures made { registry.new.made ≡ registry.old.made + 1 }
    ensures spare { registry.new.spare + 1 ≡ registry.old.spare }
{
    match registry.make(params, Some(index), true) {
        Ok(_) => {}
        Err(_) => unreachable!(),
    }
}

fn bind(registry: &mut Registry<Params>, kind: Kind, index: u32)
    requires there { IsSome (serial_of kind index (actions_of registry.old.entries)) }
    requires references { Each (λ (action : Action). action.references < 4294967295)
        (actions_of registry.old.entries) }
    ensures actions { actions_of registry.new.entries
        ≡ change_where (is_named kind index) more_bound (actions_of registry.old.entries) }
    ensures made { registry.new.made ≡ registry.old.made }
    ensures spare { registry.new.spare ≡ registry.old.spare }
{
    match registry.bind(kind.number(), index) {
        Ok(_) => {}
        Err(_) => unreachable!(),
    }
}

//! What a plan finds by kind and index: in the registry, or among what it is to make itself.
ghost use Rattle.filter_state.specs.declared.limits.TheConstants.{LINE_ACTIONS_MAX};
ghost use Rattle.std.specs.Prelude.{◌≡◌, ◌≤◌, ◌<◌, ◌+◌, length};
ghost use Rattle.filter_state.specs.Actions.{free_index, serial_of};
ghost use Rattle.action_plan.specs.Plans.{made_of, carried, AreFit, made_by, serial_to_make};

use crate::planned::PlannedAction;
use act_kinds::{Kind, Params};
use act_registry::Registry;

/// The serial of the action of that kind and index.
pub(crate) fn serial_of(
    registry: &Registry<Params>,
    parts: &[PlannedAction],
    kind: Kind,
    index: u32,
) -> Option<u32>
    requires { AreFit (made_of registry.now) parts.now }
    ensures { result ≡ serial_of kind index (carried (made_of registry.now) parts.now).actions }
{
    match registry.find(kind.number(), index) {
        Some(entry) => Some(entry.serial),
        None => serial_to_make(parts, kind, index),
    }
}

/// The lowest index from 1 that the kind doesn't use.
pub(crate) fn free_index(
    registry: &Registry<Params>,
    parts: &[PlannedAction],
    made: u32,
    kind: Kind,
) -> u32
    requires made { made ≡ made_by parts.now }
    requires few { length parts.now < LINE_ACTIONS_MAX }
    requires fit { AreFit (made_of registry.now) parts.now }
    ensures { result ≡ free_index kind (carried (made_of registry.now) parts.now).actions }
{
    let mut index = registry.free_index(kind.number());
    let mut left = registry.entries().len() + made as usize + 1 - index as usize;
    while left > 0 && serial_of(registry, parts, kind, index).is_some() {
        index += 1;
        left -= 1;
    }
    index
}

/// The serial of the next action that is made.
pub(crate) fn next_serial(registry: &Registry<Params>, made: u32) -> u32
    requires few { made ≤ LINE_ACTIONS_MAX }
    ensures { result ≡ registry.now.made + made + 1 }
{
    let _ = registry.entries();
    registry.made() + made + 1
}

// The serial of the action of that kind and index that is to be made.
fn serial_to_make(parts: &[PlannedAction], kind: Kind, index: u32) -> Option<u32>
    ensures { result ≡ serial_to_make kind index parts.now }
{
    match parts {
        [] => None,
        [part, rest @ ..] => {
            if part.params.is_some() && part.kind == kind && part.index == index {
                return Some(part.serial);
            }
            serial_to_make(rest, kind, index)
        }
    }
}

//! How much a plan makes.
ghost use Rattle.filter_state.specs.declared.limits.TheConstants.{LINE_ACTIONS_MAX};
ghost use Rattle.std.specs.Prelude.{◌≡◌, ◌≤◌, length};
ghost use Rattle.action_plan.specs.Plans.{made_by};

use crate::planned::PlannedAction;

/// How many parts of a plan are to be made, and not bound.
pub(crate) fn count_made(parts: &[PlannedAction]) -> u32
    requires short { length parts.now ≤ LINE_ACTIONS_MAX }
    ensures made { result ≡ made_by parts.now }
    ensures few { result ≤ LINE_ACTIONS_MAX }
{
    let mut made = 0;
    for part in parts {
        if part.params.is_some() {
            made += 1;
        }
    }
    made
}

//! The serials of a plan.
ghost use Rattle.std.specs.Prelude.{◌≡◌, IfOk};
ghost use Rattle.action_plan.specs.Plans.{serials_of};

use crate::planned::PlannedAction;
use std::alloc::Global;
use tc_base::{NoMemory, Numbers};

/// The serials of the parts of a plan, in order.
pub(crate) fn serials_of(alloc: Global, parts: &[PlannedAction]) -> Result<Numbers, NoMemory>
    ensures { IfOk result (λ serials. serials ≡ serials_of parts.now) }
{
    let mut serials = Vec::with_capacity(alloc, parts.len())?;
    for part in parts {
        serials.push(part.serial)?;
    }
    Ok(Numbers::from_vec(serials))
}

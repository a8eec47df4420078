//! The actions of a filter, told to a walk.
ghost use Rattle.visit_room.specs.declared.limits.TheConstants.{HIT_ACTIONS};
ghost use Rattle.std.specs.Prelude.{◌≡◌, ◌≤◌, [], length};
ghost use Rattle.walk_steps.specs.Told.{action_serials};

use visit_room::{ActionName, Hit};

/// Tells the actions of these serials. They stand in no slots of a store.
pub(crate) fn tell_actions(serials: &[u32], into: &mut Hit)
    requires empty { into.old ≡ [] }
    requires few { length serials.now ≤ HIT_ACTIONS }
    ensures { action_serials into.new ≡ serials.now }
{
    for serial in serials {
        into.push(ActionName {
            serial: *serial,
            slot: 0,
        });
    }
}

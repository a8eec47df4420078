//! Letting actions go.
ghost use Rattle.std.specs.Prelude.{◌≡◌, ◌≤◌};
ghost use Rattle.filter_state.specs.Actions.{all_unbound};
ghost use Rattle.action_plan.specs.Entries.{actions_of};
ghost use Rattle.action_plan.specs.Bound.{AreBound};

use act_kinds::Params;
use act_registry::Registry;

/// Lets the actions of these serials go, one place for each. An action that no one holds then is gone.
pub fn unbind_all(registry: &mut Registry<Params>, serials: &[u32])
    requires { AreBound serials.now registry.old.entries }
    ensures actions { actions_of registry.new.entries
        ≡ all_unbound serials.now (actions_of registry.old.entries) }
    ensures made { registry.new.made ≡ registry.old.made }
    ensures spare { registry.old.spare ≤ registry.new.spare }
{
    for serial in serials {
        registry.unbind(*serial);
    }
}

//! Whether two actions do the same.
ghost use Rattle.std.specs.Prelude.{◌≡◌};
ghost use Rattle.std.specs.Bool.{Decides};

use act_kinds::{Control, Params, VlanOp};

/// Whether these are the same parameters.
pub(crate) fn are_same_params(one: Params, other: Params) -> bool
    ensures { Decides result (one ≡ other) }
{
    match (one, other) {
        (Params::Gact(one), Params::Gact(other)) => is_same_control(one, other),
        (Params::Vlan(one, control), Params::Vlan(other, last)) => {
            is_same_op(one, other) && is_same_control(control, last)
        }
        (
            Params::Skbedit {
                priority,
                mark,
                queue,
                control,
            },
            Params::Skbedit {
                priority: other_priority,
                mark: other_mark,
                queue: other_queue,
                control: last,
            },
        ) => {
            is_same_number(priority, other_priority)
                && is_same_number(mark, other_mark)
                && queue == other_queue
                && is_same_control(control, last)
        }
        _ => false,
    }
}

fn is_same_control(one: Control, other: Control) -> bool
    ensures { Decides result (one ≡ other) }
{
    one == other
}

fn is_same_op(one: VlanOp, other: VlanOp) -> bool
    ensures { Decides result (one ≡ other) }
{
    one == other
}

fn is_same_number(one: Option<u32>, other: Option<u32>) -> bool
    ensures { Decides result (one ≡ other) }
{
    one == other
}

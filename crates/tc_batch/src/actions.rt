//! Actions of a line.
ghost use Rattle.std.specs.Prelude.{◌≡◌};
ghost use Rattle.tc_batch.specs.Actions.{full_action, named_action};

use act_kinds::{Kind, Params};
use filter_state::ActionLine;

pub(crate) fn full_action(params: Params, index: Option<u32>) -> ActionLine
    ensures { result ≡ full_action params index }
{
    ActionLine {
        kind: params.kind(),
        index,
        params: Some(params),
    }
}

pub(crate) fn named_action(kind: Kind, index: u32) -> ActionLine
    ensures { result ≡ named_action kind index }
{
    ActionLine {
        kind,
        index: Some(index),
        params: None,
    }
}

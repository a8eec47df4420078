//! What is to be done for an edit that was looked at and not refused.

use crate::adding::Addition;
use crate::removing::Removal;
use crate::replacing::Replacement;
use act_kinds::{Kind, Params};

/// What is to be done for an edit.
#[derive(Drop)]
pub(crate) enum Plan {
    HookAdd,
    HookDel,
    Add(Addition),
    Replace(Replacement),
    Remove(Removal),
    /// An action apart from filters, for which there is room.
    MakeAction { index: Option<u32>, params: Params },
    /// Other parameters of the action of that index, which is there.
    ChangeAction { index: u32, params: Params },
    /// The action is there, and no filter names it.
    DelAction { kind: Kind, index: u32 },
}

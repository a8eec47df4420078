//! One action of a plan.

use act_kinds::{Kind, Params};

/// What is to be done for one action of a line.
#[derive(Clone, Copy)]
pub struct PlannedAction {
    pub kind: Kind,
    pub index: u32,
    /// The serial that the action has, or is to get.
    pub serial: u32,
    /// The parameters of an action that is to be made, and `None` for one that is there and is to be bound.
    pub params: Option<Params>,
}

impl Default for PlannedAction {
    /// A gact 0 with serial 0: what stands in a list's empty places.
    fn default() -> Self {
        PlannedAction {
            kind: Kind::Gact,
            index: 0,
            serial: 0,
            params: None,
        }
    }
}

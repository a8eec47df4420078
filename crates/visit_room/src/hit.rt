//! The actions of a filter that was found.

use crate::limits::HIT_ACTIONS;
use crate::names::ActionName;
use arrayvec::ArrayVec;
use std::marker::Model;

/// The actions of a filter, in order: `HIT_ACTIONS` at most.
#[derive(Drop)]
pub struct Hit {
    actions: ArrayVec<ActionName, HIT_ACTIONS>,
}

impl Model for Hit {
    ghost use Rattle.visit_room.specs.declared.limits.TheConstants.{HIT_ACTIONS};
    ghost use Rattle.std.specs.Prelude.{◌≤◌, List, length};
    ghost use Rattle.visit_room.specs.declared.names.ActionName.{ActionName};

    ghost Value = { List ActionName };

    ghost view = { λ h. h.actions.items };

    ghost invariant = { λ h. length h.actions.items ≤ HIT_ACTIONS };
}

impl Hit {
    ghost use Rattle.visit_room.specs.declared.limits.TheConstants.{HIT_ACTIONS};
    ghost use Rattle.std.specs.Prelude.{◌≡◌, ◌<◌, ◌≤◌, ◌++◌, ◌∷◌, [], length};

    /// No actions.
    pub fn new() -> Hit
        ensures { result ≡ [] }
    {
        Hit {
            actions: ArrayVec::new(),
        }
    }

    /// Lets all actions go.
    pub fn clear(&mut self)
        ensures { self.new ≡ [] }
    {
        self.actions.clear();
    }

    /// Puts an action behind those that are there, fewer than `HIT_ACTIONS`.
    pub fn push(&mut self, action: ActionName)
        requires { length self.old < HIT_ACTIONS }
        ensures { self.new ≡ self.old ++ (action ∷ []) }
    {
        self.actions.push(action);
    }

    /// The actions, in order.
    pub fn actions(&self) -> &[ActionName]
        ensures same { result.now ≡ self.now }
        ensures few { length self.now ≤ HIT_ACTIONS }
    {
        self.actions.as_slice()
    }
}

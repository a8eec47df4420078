//! The actions of a line.
ghost use Rattle.std.specs.Prelude.{◌≡◌, List, [], ◌∷◌, ◌++◌, OnOk};

use act_kinds::{Kind, Params};
use std::alloc::{AllocError, Global};
use std::marker::Model;

/// An action as a line writes it: in full, with its parameters, or by its kind and index alone.
#[derive(Clone, Copy, Debug, PartialEq, Eq)]
pub struct ActionLine {
    pub kind: Kind,
    pub index: Option<u32>,
    pub params: Option<Params>,
}

/// Actions, in order.
#[derive(Drop, Debug)]
pub struct ActionLines {
    items: Vec<ActionLine>,
}

impl Model for ActionLines {
    ghost use Rattle.std.specs.Prelude.{List};
    ghost use Rattle.filter_state.specs.declared.action_line.ActionLine.{ActionLine};

    ghost Value = { List ActionLine };

    ghost view = { λ a. a.items.items };
}

impl ActionLines {
    /// No actions.
    pub fn new(alloc: Global) -> Self
        ensures { result ≡ [] }
    {
        ActionLines {
            items: Vec::new(alloc),
        }
    }

    /// Puts an action behind the others.
    pub fn push(&mut self, action: ActionLine) -> Result<(), AllocError>
        ensures { OnOk result (self.new ≡ self.old ++ (action ∷ [])) }
    {
        self.items.push(action)?;
        Ok(())
    }

    /// The actions as a slice.
    pub fn as_slice(&self) -> &[ActionLine]
        ensures { result.now ≡ self.now }
    {
        &self.items
    }
}

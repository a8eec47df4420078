//! An edit that was looked at and is ready.

use crate::lists::Lists;
use crate::plan::Plan;
use filter_state::Edit;
use std::marker::Model;
use std::snapshot::Snapshot;

/// What is to be done for an edit that wasn't refused, with all the memory that it wants. It may be dropped,
/// and then nothing has changed.
#[derive(Drop)]
pub struct Prepared {
    pub(crate) plan: Plan,
    // The lists as they were left, and the edit. Neither has a byte: they are for contracts alone.
    pub(crate) lists: Snapshot<Lists>,
    pub(crate) edit: Snapshot<Edit>,
}

impl Model for Prepared {
    ghost use Rattle.filter_state.specs.Lines.{IsLine};
    ghost use Rattle.filter_state.specs.Steps.{step};
    ghost use Rattle.hook_lists.specs.States.{state_of, AreKept};
    ghost use Rattle.filter_lists.specs.Ready.{Ready};
    ghost use Rattle.filter_lists.specs.Plans.{Leads};

    ghost Value = { Ready };

    ghost view = { λ p. record { lists = p.lists.value; edit = p.edit.value } };

    ghost invariant = { λ p. IsLine p.edit.value
        × Leads p.lists.value p.plan (step (state_of p.lists.value) p.edit.value) × AreKept p.lists.value };
}

impl Prepared {
    ghost use Rattle.std.specs.Prelude.{◌≡◌, ◌+◌, Ok};
    ghost use Rattle.filter_state.specs.declared.refusal.Done.{Done};
    ghost use Rattle.filter_state.specs.States.{State};
    ghost use Rattle.filter_state.specs.Steps.{step};
    ghost use Rattle.filter_lists.specs.Spells.{Spells};

    /// How many actions the edit is going to make.
    pub fn made(&self) -> u32
        ensures { (s t : State) (done : Done) → Spells self.now.lists s → step s self.now.edit ≡ Ok (t, done)
            → t.actions_made ≡ s.actions_made + result }
    {
        match &self.plan {
            Plan::Add(addition) => addition.actions.made(),
            Plan::Replace(replacement) => replacement.actions.made(),
            Plan::MakeAction { .. } => 1,
            Plan::HookAdd
            | Plan::HookDel
            | Plan::Remove(_)
            | Plan::ChangeAction { .. }
            | Plan::DelAction { .. } => 0,
        }
    }
}

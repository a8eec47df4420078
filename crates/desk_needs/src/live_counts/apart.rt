//! What edits apart from filters change and leave.
ghost use Rattle.std.specs.Prelude.{◌≡◌, ◌⊎◌, ℕ, true, false, Ok};
ghost use Rattle.std.specs.Option.{unwrap_or};
ghost use Rattle.act_kinds.specs.declared.params.Kind.{Kind};
ghost use Rattle.filter_state.specs.declared.action_line.ActionLine.{ActionLine};
ghost use Rattle.filter_state.specs.declared.edit.Edit.{Edit};
ghost use Rattle.filter_state.specs.declared.edit.Edit.TheVariants as edits;
ghost use Rattle.filter_state.specs.declared.refusal.Done.{Done};
ghost use Rattle.filter_state.specs.States.{State};
ghost use Rattle.filter_state.specs.Sound.{Sound};
ghost use Rattle.filter_state.specs.Actions.{is_live};
ghost use Rattle.filter_state.specs.Steps.{step};
ghost use Rattle.hook_store_law.specs.OfEdits.Premises.{IsOfFilters};
ghost use Rattle.desk_needs.specs.OfLiveCounts.Counts.{StayAsMany, ActionsStay, ActionComes, ActionGoes};

/// Edits of the qdisc, and of actions apart from filters, leave all filters, and with them masks and rows of
/// buckets.
pub fn filters_apart()
    ensures kept { (s t : State) (y : Edit) (done : Done) → (IsOfFilters y → ⊥) → step s y ≡ Ok (t, done)
        → t.rows ≡ s.rows }
    ensures counts { (s t : State) (y : Edit) (done : Done) → (IsOfFilters y → ⊥) → step s y ≡ Ok (t, done)
        → StayAsMany s t }
{}

/// The qdisc comes and goes with no action. One that is added comes, and one that is changed too where it
/// isn't live; where it is, all stay. One that is deleted goes.
pub fn actions_apart_from_filters()
    ensures qdisc { (s t : State) (done : Done) → (step s edits.HookAdd ≡ Ok (t, done))
        ⊎ (step s edits.HookDel ≡ Ok (t, done)) → ActionsStay s t }
    ensures added { (s t : State) (line : ActionLine) (done : Done)
        → step s (edits.ActionAdd line) ≡ Ok (t, done) → ActionComes s t }
    ensures made_by_change { (s t : State) (line : ActionLine) (done : Done)
        → step s (edits.ActionChange line) ≡ Ok (t, done)
        → is_live line.kind (unwrap_or line.index 0) s.actions ≡ false → ActionComes s t }
    ensures changed { (s t : State) (line : ActionLine) (done : Done)
        → step s (edits.ActionChange line) ≡ Ok (t, done)
        → is_live line.kind (unwrap_or line.index 0) s.actions ≡ true → ActionsStay s t }
    ensures deleted { (s t : State) (kind : Kind) (index : ℕ) (done : Done) → Sound s
        → step s (edits.ActionDel kind index) ≡ Ok (t, done) → ActionGoes s t }
{}

//! Which rows and actions go on.
ghost use Rattle.std.specs.Prelude.{◌≡◌, ◌<◌, ◌≤◌, ℕ, Option, None, Ok};
ghost use Rattle.filter_state.specs.declared.edit.Edit.{Edit};
ghost use Rattle.filter_state.specs.declared.refusal.Done.{Done};
ghost use Rattle.filter_state.specs.States.{Row, State};
ghost use Rattle.filter_state.specs.Sound.{Sound};
ghost use Rattle.filter_state.specs.Steps.{step};
ghost use Rattle.edit_effects.specs.OfEffects.Parts.{params_at};
ghost use Rattle.state_past_laws.specs.OfChanges.Among.{Has};
ghost use Rattle.state_past_laws.specs.OfChanges.Going.{rows_going, line_in, GoesOn, Comes};
ghost use Rattle.state_past_laws.specs.OfChanges.Serials.{serials_going};

/// With an accepted edit the rows that it takes away or replaces go, the one that its line puts comes, and
/// all others stay.
pub fn rows_go_on()
    ensures { (s t : State) (edit : Edit) (done : Done) → Sound s → step s edit ≡ Ok (t, done)
        → (come : Option Row) × GoesOn s.rows t.rows (rows_going s edit) come
        × Comes (line_in edit) done come }
{}

/// An action that was given before an accepted edit is as it was, unless a row that goes has named it, or the
/// edit itself. One that wasn't given yet isn't live.
pub fn actions_go_on()
    ensures others { (s t : State) (edit : Edit) (done : Done) → Sound s → step s edit ≡ Ok (t, done)
        → (serial : ℕ) → serial ≤ s.actions_made → (Has serial (serials_going s edit) → ⊥)
        → params_at t serial ≡ params_at s serial }
    ensures never { (s : State) (serial : ℕ) → Sound s → s.actions_made < serial
        → params_at s serial ≡ None }
{}

//! What holds of this meaning, and of every list of commits that keeps the law.
ghost use Rattle.std.specs.Prelude.{◌≡◌, ◌≤◌, ℕ, List, [], length, option_map};
ghost use Rattle.store_history.specs.declared.history.Commit.{Commit};
ghost use Rattle.filter_state.specs.declared.edit.Edit.{Edit};
ghost use Rattle.filter_state.specs.States.{State};
ghost use Rattle.filter_state.specs.Journals.{state_at};
ghost use Rattle.filter_state.specs.Sound.{Sound};
ghost use Rattle.edit_effects.specs.OfEffects.Parts.{params_at};
ghost use Rattle.hook_law.specs.Meaning as law;
ghost use Rattle.hook_law.specs.Keeping.{Keeps};
ghost use Rattle.hook_meaning.specs.Stated.{ActionTerms, action_at, hook_meaning};
ghost use Rattle.hook_meaning.specs.Blocks.{hook_codec};
ghost use Rattle.hook_meaning.specs.Told.{state_after_edits};

/// The law holds of no commits, so that a store can be made with it.
pub fn opens_at_nothing()
    ensures empty { law.StartsEmpty hook_meaning }
    ensures keeps { Keeps hook_meaning hook_codec [] 0 }
{}

/// The law's state at a point is the plain state after so many edits, and after those that commits carry it
/// is sound.
pub fn states_stay_sound()
    ensures plain { (edits : List Edit) (k : ℕ) → law.state_at hook_meaning edits k ≡ state_at k edits }
    ensures sound { (h : List (Commit Edit)) (b k : ℕ) → Keeps hook_meaning hook_codec h b → b ≤ length h
        → Sound (state_after_edits h k) }
{}

/// What the law reads of an action has the parameters that the state has.
pub fn actions_have_their_parameters()
    ensures { (s : State) (serial : ℕ)
        → option_map (λ (terms : ActionTerms). terms.params) (action_at s serial) ≡ params_at s serial }
{}

//! A batch has one outcome, and tells all that it made.
ghost use Rattle.std.specs.Prelude.{◌≡◌, ◌≤◌, ℕ, List, map};
ghost use Rattle.std.specs.List.{All, range_with_len};
ghost use Rattle.filter_state.specs.States.{State, no_state};
ghost use Rattle.batch_run.specs.declared.made_action.MadeAction.{MadeAction};
ghost use Rattle.batch_run.specs.Commands.{Command};
ghost use Rattle.batch_run.specs.Runs.{Ran, IsRun};

/// Commands have one outcome on each state: at least one, and not two.
pub fn one_outcome()
    ensures some { (s : State) (accepted : ℕ) (commands : List Command) → (ran : Ran)
        × IsRun s accepted commands ran }
    ensures one { (s : State) (accepted : ℕ) (commands : List Command) (a b : Ran)
        → IsRun s accepted commands a → IsRun s accepted commands b → a ≡ b }
{}

/// All that a run from nothing makes is told, each action once and in order: the serials are those from 1 to
/// how many were made.
pub fn made_in_order()
    ensures { (accepted : ℕ) (commands : List Command) (ran : Ran) → IsRun no_state accepted commands ran →
        map (λ (action : MadeAction). action.serial) ran.made ≡ range_with_len 1 ran.state.actions_made }
{}

/// So the serial of each is from 1 to how many were made.
pub fn made_in_range()
    ensures { (accepted : ℕ) (commands : List Command) (ran : Ran) → IsRun no_state accepted commands ran →
        All (λ (action : MadeAction). (1 ≤ action.serial)
        × (action.serial ≤ ran.state.actions_made)) ran.made }
{}

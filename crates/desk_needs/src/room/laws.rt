//! Bounds of what is in use and needed.
ghost use Rattle.std.specs.Prelude.{◌≡◌, ◌≤◌, ◌+◌, Ok};
ghost use Rattle.filter_state.specs.declared.edit.Edit.{Edit};
ghost use Rattle.filter_state.specs.declared.limits.TheConstants.{LINE_ACTIONS_MAX};
ghost use Rattle.filter_state.specs.declared.refusal.Done.{Done};
ghost use Rattle.filter_state.specs.States.{State};
ghost use Rattle.filter_state.specs.Sound.{Sound};
ghost use Rattle.filter_state.specs.Lines.{IsLine};
ghost use Rattle.filter_state.specs.Steps.{step};
ghost use Rattle.desk_needs.specs.declared.pool.Pool.{Pool};
ghost use Rattle.desk_needs.specs.Live.{live_of, size_of_pool};
ghost use Rattle.desk_needs.specs.Needs.{made, needed_of};

/// An edit makes no more actions than a line may have.
pub fn lines_make_few()
    ensures { (s t : State) (y : Edit) (done : Done) → IsLine y → step s y ≡ Ok (t, done)
        → made s t ≤ LINE_ACTIONS_MAX }
{}

/// What is in use and what an accepted edit needs are no more than there is of each pool.
pub fn pools_suffice()
    ensures { (s t : State) (y : Edit) (done : Done) (pool : Pool) → Sound s → IsLine y
        → step s y ≡ Ok (t, done) → live_of s pool + needed_of s y pool ≤ size_of_pool pool }
{}

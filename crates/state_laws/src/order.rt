//! The order between filters of different masks changes nothing.
//!
//! A plain state lists its filters in the order in which they were accepted. Whoever keeps them in lists of
//! tables and masks knows that order within a mask alone. `order_is_free` says that this is enough: a state
//! with its rows in another such order is as sound, and each edit is refused for the same reason, or accepted
//! with the same answer, and leads to states that again differ in that order alone.

ghost use Rattle.filter_state.specs.States.{State};
ghost use Rattle.filter_state.specs.Sound.{Sound};
ghost use Rattle.filter_state.specs.Steps.{step};
ghost use Rattle.filter_state.specs.Order.{SameState, SameStepped};
ghost use Rattle.filter_state.specs.declared.edit.Edit.{Edit};

/// States that differ in the order between rows of different masks alone are sound together, and an edit does
/// the same to both.
pub fn order_is_free()
    ensures sound { (s t : State) → SameState s t → Sound s → Sound t }
    ensures step { (s t : State) (edit : Edit) → SameState s t → Sound s
        → SameStepped (step s edit) (step t edit) }
{}

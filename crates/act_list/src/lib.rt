//! One run of a list of actions, apart from the actions: which of them is next after each control, and how
//! the list ends.
//!
//! Whoever runs a list asks `at` for the position of the next action, runs that action, and gives its control
//! to `next`. So a run knows neither the actions nor where they are kept, and an action may change while the
//! run is under way: what counts is the control that it gave when it ran. `ending_of` runs a whole list whose
//! actions always give the same control, and its contract is the rule for lists as one recursion.
//!
//! A run begins at position 0. After pipe comes the next position; at the last one, pipe ends the list. A
//! jump goes to a position counted from 0 of the list, and not from where it stands. It ends the list with
//! accept where that position is 0 or isn't in the list, and so does each jump after `JUMPS_MAX` were
//! followed. Any other control ends the list as it says. What the controls mean is in tc-actions(8), and
//! jumps are counted as in `tcf_action_exec` of the kernel (net/sched/act_api.c). So no list runs for ever.
//!
//! `specs/Run.antt` says where a run stands after a control, and `specs/Endings.antt` how a list ends, by
//! recursion over what is left of it.
//!
//! Nothing here takes memory. A run is four small values, copied freely, and one thread at a time moves it,
//! by `&mut`.
//!
//! Not promised: anything of the actions themselves, and that a caller runs the action at the position that
//! it is told.
#![tactic(auto)]

mod ending;
mod limits;
mod run;

pub use ending::ending_of;
pub use limits::{JUMPS_MAX, LIST_MAX};
pub use run::{Ending, ListRun, Next};

//! A batch file applied: its lines in order, up to the first that is refused.
//!
//! Reading a line is `tc_batch`'s, and applying an edit `filter_lists`'; here the two meet. What a batch
//! comes to is a relation on its commands (`specs/Runs.antt`): each gives an edit that the state accepts, or
//! else the batch stops there, for the line's first bad word or for the state's refusal. `one_outcome` says
//! that there is one such outcome, so what a run leaves is a function of the file's bytes. The lists then
//! spell its state.
//!
//! Besides the state a run leaves the names of all actions that it made, also of those that are gone by its
//! end. After each accepted edit they are read off the last entries of the registry, those whose serials are
//! above the count before the edit. An edit makes no action that is gone again after it, so `made_in_order`
//! holds: the serials of a whole run are those from 1 to how many it made.
//!
//! A batch of more than 262,144 commands isn't run: that bounds the numbers that its edits use up.
//! `line_past_limit` tells beforehand at which line a file passes them; blank lines and comments don't count.
//!
//! One thread calls this, and it keeps nothing between calls. It takes memory for a list of the lines, for
//! each line's edit, for what the lists keep, and for the names.
//!
//! Not promised: that memory suffices.
#![tactic(auto)]

mod laws;
mod limit;
mod made_action;
mod run;
mod stop;

pub use laws::{made_in_order, made_in_range, one_outcome};
pub use limit::{COMMANDS_MAX, line_past_limit};
pub use made_action::{MadeAction, log_made};
pub use run::{BatchRun, run_batch};
pub use stop::Stop;

// Passed on: who stands above needs no other crate for it.
pub use filter_lists::Lists;

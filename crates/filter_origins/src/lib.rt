//! Which line brought a filter or an action that answers.
//!
//! Whoever tells what a packet met wants to say by which line of which batch the filter that matched came
//! into being, and so of the action that ran. A filter is found by its mask and key, as a walk finds it, and
//! was brought by the last edit that put one there: an add, or a replace, be it by the very same line. An
//! action was brought by the edit that made it, or by the last that changed it while it was live; a filter
//! that only names it doesn't count.
//!
//! `Origins::of` goes over a journal once, with lists of its own, and puts of each edit what it brought
//! (`slot_pasts`), with the point from which that holds. So a question is one hash and one halving, whatever
//! the length of the journal. Beside that it lists all filters that were brought, and the edit that took each
//! away: a filter that goes is found in that list by the same index. That whatever answers has a line is said
//! by `look_up_has_line` and `action_has_line`.
//!
//! # Who may call what
//!
//! Plain data, which any thread may read. Only `Origins::of` takes memory, and where it is refused there is
//! nothing but the error.
//!
//! Not promised: anything of how long a question takes where keys were chosen to collide, since the index has
//! no seed.
#![tactic(auto)]

mod actions;
mod brought;
mod filters;
mod following;
mod laws;
mod origins;

pub use brought::Brought;
pub use edit_lines::{Line, LinePlace, Origin};
pub use laws::{action_has_line, look_up_has_line};
pub use origins::Origins;

// Passed on: who stands above needs no other crate for it.
pub use state_past::StatePast;

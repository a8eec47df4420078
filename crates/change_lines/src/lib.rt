//! A change, applied line by line behind a batch.
//!
//! A batch is applied up to its first refused line, and then a change, which goes on behind a refused line
//! where it is forced. What comes of it is the one outcome that `change_fate_laws` speaks of (`Changed`):
//! `apply_change` leads to it, and keeps what whoever foresees needs: the journal of both with where each edit
//! was read and what stood at each of its points (`Replay`), the tables of the hook at the points of the change
//! (`HookHeads`), and the lines that are told of both files, as text. The events themselves aren't kept.
//!
//! Who answers for the states of a change is passed on from `change_points`, and what is said of changes from
//! the crates below (`specs/Passed.antt`).
//!
//! One thread calls this, and it keeps nothing between calls. Not promised: that memory suffices.
#![tactic(auto)]

mod applied;
mod changing;
mod meeting;
mod opening;

pub use applied::{AppliedChange, apply_change};
pub use change_points::ChangeAnswers;

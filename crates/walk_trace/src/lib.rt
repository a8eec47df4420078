//! The walk of a packet, told visit by visit.
//!
//! `tell_walk` walks a packet over the answers of points, as `walk_at` does, and puts the lines of each visit
//! behind a page's text. Its text is a definition's: the lines (`trace_lines`) of the steps that the walk has
//! over those answers. All visits may be answered at one point, as of a batch that was applied before, or
//! each at its own, as of a run's report.
//!
//! The edits whose filters decided are put behind a list, and a `Tally` counts how often each is in such lists.
//!
//! The steps are those of the walk: `steps_are_visits` says so of a walk over the states of points, and
//! `one_state_traced` that over one state they end with the plain walk.
//!
//! Whoever tells packet after packet keeps one `Walk`, one `Page`, one list and one `Tally`: once they have
//! grown, no memory is taken. Plain data, one thread at a time.
#![tactic(auto)]

mod laws;
mod points;
mod tally;
mod telling;

pub use laws::{one_state_traced, steps_are_visits};
pub use points::Points;
pub use tally::Tally;
pub use telling::tell_walk;

//! A journal that grows line by line, and what its edits lead to.
//!
//! Whoever judges a report, or foresees what a change does, applies command lines one after the other and
//! remembers them: each accepted edit with where it was read, the lists that the edits lead to, what stood at
//! each point of the journal (`state_past`), and the names of the actions that were made. A `Replay` keeps all
//! of it, so that each of these is always that of the journal (`IsKept`). `Replay::meet` reads a line, applies
//! its edit, and tells what came of it.
//!
//! Which line comes next is the caller's: a report names the control, and a change has but one.
//!
//! Plain data, one thread at a time. All memory is taken by `Replay::meet`, for the edit and for what is
//! remembered of it. Behind `NoMemory` nothing is promised of a `Replay`.
//!
//! Who meets lines also speaks of their events, so these are passed on, and what is said of them too
//! (`specs/Passed.antt`).
//!
//! Not promised: that memory suffices.
#![tactic(auto)]

mod replay;

pub use replay::Replay;
pub use round_terms::{Event, EventKind, goes_on};
pub use run_report::push_event_line;

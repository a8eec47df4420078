//! How far a round of a job has come, while its controls apply their batches.
//!
//! # Why in these terms
//!
//! `lawful_runs` judges a round that is over: its events are an interleaving of its batches' commands. A
//! round that is under way needs more, since each step has to know what may come next. So this crate says
//! which commands a control has met and which are left (`HasCome`), and what holds of events, journal and
//! places at any time (`IsUnderway`). The laws say that one event more keeps it, that there are fewer events
//! than commands while a control has a command left, and that a round whose controls have none left has its
//! events in order, as a lawful run asks. What an ear heard meanwhile is said beside it (`HasHeard`).
//!
//! Nothing here knows of a desk, a lock or a thread: all of it is about plain lists, so that whatever drives
//! a round, and in whatever order, is judged by the same terms.
//!
//! # Places
//!
//! A control keeps where its next line begins, and how many lines stand before that (`Place`). `next_command`
//! finds the next command from there, so a batch is never cut into a list of lines. `batch_of` finds a
//! control's batch among the files of a job, and `next_line` the next line of a control.
//!
//! # What is passed on
//!
//! Whoever drives a round speaks of events, jobs and names of actions as well. So these types, and what is
//! said of them, are passed on from the crates that have them.
//!
//! # Who may call what
//!
//! The functions keep nothing, take no memory and don't wait; any thread may call them.
//!
//! Not promised: that a round ends.
#![tactic(auto)]

mod batches;
mod commands;
mod laws;
mod new_names;
mod next_lines;
mod place;
mod telling;

pub use batch_run::MadeAction;
pub use batches::{RoundBatch, batch_of, first_file};
pub use commands::{FoundCommand, next_command};
pub use lawful_runs::LoadedJob;
pub use laws::{
    batches_are_given, one_event_more, rounds_begin, rounds_end, there_is_room, who_is_through,
};
pub use new_names::push_new_names;
pub use next_lines::{NextLine, next_line};
pub use place::Place;
pub use run_report::{Event, EventKind, Events};
pub use telling::{goes_on, tell};

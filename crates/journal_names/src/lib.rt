//! What is known of the states of accepted edits, for whoever tells of walks over them.
//!
//! `JournalNames` is who knows it (`Naming` of `trace_lines`): the words of masks by the past of the states,
//! the lines that brought filters and actions by their origins, and the index of an action by the names of
//! all that were made. A reader of a trace also wants to know how often each filter decided: `push_decided`
//! puts the line that tells it.
//!
//! Plain data lent by `&`, which any thread may read. Only the line takes memory.
#![tactic(auto)]

mod decided;
mod names;

pub use decided::push_decided;
pub use names::JournalNames;

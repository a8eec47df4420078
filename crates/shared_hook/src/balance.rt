//! The pools of a desk add up.
//!
//! What of a pool is neither free nor has left is in use, and what is in use follows from the plain state
//! alone (`live_of` of `desk_needs`). So what is free, what left and what is in use are all that a pool has
//! (`AreCounted`). No call that does one kind of edit says so: it tells what it takes of each pool and what
//! leaves, and nothing of how many filters, masks and actions the state has. The laws here join that with how
//! the state's numbers go on (`live_counts` of `desk_needs`, and `actions_in_balance` of `line_actions` of
//! `desk_parts`). For each whole edit of `plain_edits` of `desk_parts` and of `desk_edits` there is a law
//! that asks for what the edit's clauses say of the pools, in their words, and for the way in which it was
//! found to be done. So whoever does an edit on a desk, as `plans` does, knows that the pools add up again
//! behind it.
//!
//! Laws alone: there is nothing to call at run time, so any thread may do anything with them.
//!
//! Not promised: which numbers are free, and that what left comes back.

mod filters;
mod plain;

pub use filters::{counted_after_adds, counted_after_removals, counted_after_replaces};
pub use plain::counted_after_plain_edits;

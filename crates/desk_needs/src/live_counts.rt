//! How what is in use changes with an edit.
//!
//! `live_of` says of a state alone how much of each pool it has in use: a block for each
//! filter, each mask and each live action, the rows of buckets and the slot of each mask, and the slot of
//! each action. Whoever keeps account of a pool, of what is free, what has left and what is in use, needs to
//! know how these numbers go on with an edit. The laws here say it by what an edit finds before it, as those
//! of `edit_needs` say what it needs: how many filters the masks have from which a filter goes and into
//! which one comes. How many actions there are after an edit of filters hangs on what its line names, and
//! isn't said here.
//!
//! Rows of buckets are summed over the masks in the order of their last filters, which an edit may turn. So
//! the laws rest on one of sums (`proofs/OfLiveCounts/Sums.antt`): sums over different numbers differ by
//! those numbers alone where what is summed differs.
//!
//! Not promised: which blocks, rows and slots these are, and when those that leave may be taken again.

mod apart;
mod filters;

pub use apart::{actions_apart_from_filters, filters_apart};
pub use filters::{counts_of_adds, counts_of_removals, counts_of_replaces};

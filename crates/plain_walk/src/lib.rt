//! A packet's whole walk over lists that stay as they are, as one loop.
//!
//! `PlainWalk::run` takes a frame through a hook of the lists, and its contract is the plain walk over the
//! state that they spell. It makes no visit that could be answered at another moment, so it goes over the
//! tables, masks and actions where they lie: no head is told, and nothing is named. Where edits may come
//! between two visits, `walk_steps` and `classify_walk` walk visit by visit.
//!
//! `chains` goes from table to table, and begins anew at a restart; `lookups` finds the filter of a table
//! that decides, and how many masks were looked at for it; `actions` runs a filter's list. What they hand on
//! is a `Course`: the frame as it is, the fields by which it is looked up, what ran, and the visits that are
//! left. A visit is no more here than a number counted down, one for each mask that is looked at and for each
//! action that runs.
//!
//! A frame is read where the caller has it, and is copied only once an action comes that changes its bytes.
//! Metadata is kept apart from them. The fields are taken once, and again only after such an action.
//!
//! Room is taken once, by `with_room`, and serves packet after packet; no other call takes memory. One thread
//! walks with a `PlainWalk` at a time; many may read the same lists by `&`.
//!
//! Not promised: how long a walk takes.
#![tactic(auto)]

mod actions;
mod chains;
mod course;
mod lookups;
mod walk;

pub use walk::PlainWalk;

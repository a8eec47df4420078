//! When the fates of a packet are had, and what kind of packet it is.
//!
//! `fate_search` finds the fates that a packet can have while a change is applied. Which of them the state
//! before the change gives, which the state after it, and which one some state between, is told here: a fate
//! that is neither can be one that every packet meets which comes at that time, or one that only a packet
//! meets which is on its way while several edits come (`when_of` of `walk_fate_laws`).
//!
//! A packet with one fate, all of whose ways were looked at, is steady, and costs no walk: its walk over the
//! one state is among the ways. For all others a walk is made over the state before and one over that after.
//! Only where some fate is neither are states between walked over, and of these only those at which
//! something changed that the walk before had asked for (`PointChanges` tells where): over the others the
//! walk is the same. It ends as soon as no fate is left that isn't found.
//!
//! # Who may call what
//!
//! Plain data, one thread at a time. Whoever tells of packet after packet keeps one `Times`; a call takes
//! memory only for a packet with more fates than any before it.
//!
//! Not promised: which of several states between gives a fate.
#![tactic(auto)]

mod deciding;
mod marking;
mod same_fate;
mod staying;
mod telling;
mod times;

pub use telling::tell_times;
pub use times::Times;
pub use walk_fate_laws::{Kind, When};

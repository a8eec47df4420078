//! How often each action of a run ran, and on how many bytes.
//!
//! A run's report has a counter for each action that was ever made, over all packets of all rounds.
//! `RunCounts` has a place for each serial, and adds up the executions of one walk after the other: a walk
//! costs what it ran, and no list of all executions is ever gone through again. Places are made as greater
//! serials come.
//!
//! No sum leaves its type: a walk runs 65,536 actions at most, each on a frame of 262,144 bytes at most, and
//! a run has about a million packets (`specs/Counting.antt`). That walks are so short is a law of their rules
//! (`short_walks`).
//!
//! Plain data, one thread at a time. `add` takes memory for a serial that is greater than all before it;
//! where that is refused nothing is promised of the counts.
#![tactic(auto)]

mod counts;
pub mod short_walks;

pub use counts::RunCounts;

//! The fates of a packet while a change is applied.
//!
//! `walk_fate_laws` says which fates a packet can have between two points, and that they are found by going
//! through its ways: at each visit each distinct answer once, at the least point that gives it. `search` goes
//! through them, and tells each fate with the points of the first way that has it, which are its least.
#![tactic(auto)]

mod answer_rooms;
mod asked;
mod branch_points;
mod branching;
mod fates;
mod least_points;
mod same_answers;
mod same_params;
mod searching;
mod turning;
mod ways;

pub use fates::Fates;
pub use searching::Searching;
pub use ways::{Looked, search};

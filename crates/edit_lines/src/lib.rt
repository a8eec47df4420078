//! Where accepted edits were read: plain names of lines, which traces tell.
//!
//! An accepted edit has a number in its journal, and was a line of some control's batch. Whoever keeps which edit
//! brought a filter or an action (`filter_origins`) and whoever prints it (`trace_lines`) speak of it in these
//! types, and neither needs the other.
//!
//! Plain data, copied freely, which any thread may have. Nothing is promised of the numbers: who makes them says
//! what they are.
#![tactic(auto)]

mod line;

pub use line::{Line, LinePlace, Origin};

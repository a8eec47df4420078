//! What a worker of a run does in a round: it draws packets and walks them.
//!
//! # One packet after the other
//!
//! The packets of a round are there for all its workers. Each worker draws a number, walks the packet of that
//! number at its own reader of the hook (`walks`, whose points keep the order that `points` shows), and keeps
//! what came of it (`logs`), until the numbers are past the packets (`work`). So a slow walk holds up nobody,
//! and who walks which packet is left to chance.
//!
//! # What is known of it
//!
//! A worker knows of itself alone. Its log has a row for each packet that it walked, in the order in which it
//! drew them, and the walks go forward: each has a floor that is no lower than anything that the reader had
//! seen (`IsWorked` in `specs/Worked.antt`). What the reader had seen at each walk begins what it has seen in
//! the end. And all numbers that it drew are those of its rows, with a last one past the packets. What logs
//! of several workers come to is said in `logs` of `lawful_runs`, and what their numbers come to by
//! `each_number_once` of `step_counts`. `put_together` of `logs` makes the round's outcomes of them.
//!
//! # Who may call what
//!
//! A `Worker`, its log and its claim seat belong to one thread, which they may move to; store, claims,
//! packets and gate are shared by `&`. Only the gate may wait. Where memory is refused a worker stops behind
//! the packet that it walked last, outside the hook; others may draw the rest, but that packet has no row.
//!
//! Not promised: how many packets a worker draws, and that it sees an edit at any time.
#![tactic(auto)]

pub mod logs;
pub mod points;
mod recording;
mod round_work;
pub mod walks;
mod worker;
mod working;

pub use round_work::RoundWork;
pub use worker::Worker;
pub use working::work;

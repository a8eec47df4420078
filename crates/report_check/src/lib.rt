//! Whether bytes are the report of a lawful run of a job, or the first line with which none goes on.
//!
//! A job has many lawful runs (`lawful_runs`), and so it has many lawful reports. `recheck` says of any bytes
//! whether they are one of these, or else which line is the first bad one: with the lines before it some
//! lawful report begins, and with it none does. That is its contract, and it speaks of nothing else.
//!
//! It never looks for a run. `report_laws` says which line may come next by what was told before, and so the
//! lines are judged one after the other: the text that has to stand there is made, and compared. Behind the
//! title each round tells its events (`events`), then its packets, and then comes its last line;
//! behind the rounds come the counters, the summary and `end`.
//!
//! Of a packet's line the worker and the points are read (`reading`), and the packet is walked again at these
//! points (`point_walks`): masks and actions as they stood there, by the journal's past, and the tables by
//! lists of the worker's own. A worker never walks behind what it saw, so its lists follow the journal once
//! through the whole report. What it has seen bounds its next walk.
//!
//! # Who may call what
//!
//! Plain data and one thread: `recheck` shares nothing, waits for nothing and keeps nothing. It goes over the
//! report once. Its memory is bounded by the job and by the longest line.
//!
//! Not promised: that memory suffices.
#![tactic(auto)]

mod check;
mod closing;
mod events;
mod law;
mod lines;
mod packets;
pub mod reading;
mod rechecking;
mod rounds;
mod walker;
mod walkers;

pub use check::Check;
pub use journal_replay::Replay;
pub use law::one_check;
pub use rechecking::{Replayed, recheck, replay};
pub use walker::Walker;

//! A job on threads: its rounds, one after the other.
//!
//! `run_job` runs each round of a job (`one_round`) over one hook, and keeps what happened in the record of
//! the run. Its clause says that the run is lawful, and that its journal is the desk's: whatever the
//! interleaving of threads was, each accepted edit stands exactly once in the journal, and each packet's walk
//! is one over the states of that journal.
//!
//! # Between two rounds
//!
//! No thread is alive then, and no reader is inside. So the desk is tidied, and what left can be given again:
//! no round begins at a desk that wasn't tidied, unless its epochs are over (`IsReadied`). Then each worker
//! learns what the desk has seen. That is why no walk of the next round has a point before the edits of the
//! rounds before it, and why the store's readers never have to look at each other. A worker keeps its reader
//! for the whole run, which keeps what it has seen.
//!
//! The record of the run has room for all rounds before the first one begins. So nothing is lost for want of
//! memory once a round has ended. Counters are made of the record's executions behind the last round.
//!
//! # Who may call what
//!
//! One thread calls this, with a handle by which it may start threads and wait. It owns hook, ear and tender.
//! Where memory is refused all threads are gone before the call returns, with hook and ear.
//!
//! Not promised: that memory suffices, and that a run ends (see `one_round`).
#![tactic(auto)]

mod counting;
mod course;
mod hooks;
mod one_round;
mod packets;
mod readying;
mod round_state;
mod rounds;
mod running;
mod workers;

pub use hooks::{Hooks, make_hooks};
pub use running::{run_job, run_job_heard};

//! The files that the generator makes: a batch of so many filters, a capture that meets each of them twelve
//! times, and a job of both.
//!
//! They are a workload of known outcome for anyone who wants to try or to measure: filter i takes 10.0.X.Y,
//! with X and Y the two bytes of i, and every fourth drops. The capture goes through twice as many addresses,
//! so that half of its packets meet no filter (`specs/Generated.antt`).
//!
//! Each call makes one file's content and keeps nothing. Any thread may call them. Not promised: that memory
//! suffices.
#![tactic(auto)]

mod batch;
mod job;
mod limits;
mod packets;

pub use batch::gen_batch;
pub use job::gen_job;
pub use limits::GEN_MAX;
pub use packets::gen_packets;

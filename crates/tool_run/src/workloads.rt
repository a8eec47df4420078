//! The job of a workload, as a run takes it, and the text of its run.
//!
//! `load_workload` has the job of `gen` in memory, with the batch and the capture that it names, so that
//! nothing has to be put and read again before it is run. Its names have no front: what a run comes to
//! depends on no name (`specs/Workloads.antt`). `closing_text` makes the lines of a run's report behind its
//! rounds, and `gen` writes no others.
//!
//! One thread calls this, and it keeps nothing between calls. Not promised: that memory suffices.
mod closing;
mod job;
mod loading;

pub(crate) use closing::closing_text;
pub use loading::load_workload;

//! What the command `gen` makes: a workload of known outcome, with the outcome.
//!
//! `gen_files` has the contents of a batch, a capture and a job. That job has the batch in one round and the
//! capture in the next, so no packet meets an edit on its way: what comes of it is the batch's run and each
//! packet's plain walk over the state that it leaves (`specs/OfGenerated/Generated.antt`). It is said so, and
//! knows of no thread. That each run of the job on threads comes to just this is a law of `quiet_jobs`;
//! putting the files and writing the text are left to the command.
//!
//! Each call keeps nothing. Any thread may call it. Not promised: that memory suffices.

mod workload;

pub use workload::{Generated, capture_of, few_commands};

//! Loads a job: the file that says it, and every batch and capture that it names.
//!
//! The commands that run a job and that judge a report of one both begin so, and both must mean the same job.
//! `HasJob` of `specs/Holdings.antt` says what that is as a relation over what the shelf holds: the bytes
//! under the job's name say this job, each name of a batch in it holds the bytes at its place, and so for
//! captures. `load_job` answers that job or why there is none, and `one_loading` states that at most one of
//! all answers fits what is held, so nothing is left to the order in which the code looks.
//!
//! A job names its files in an order: round by round, the batches of a round by rising control and then its
//! capture (`files_of` of `specs/Named.antt`). They are fetched in that order, each is checked as it comes,
//! and the first fault ends the loading. A file that is named twice is fetched and counted twice. Two limits
//! count over the whole job, in this order: the command that is one too many is told by the line of its
//! batch, a packet too many by its capture's name. A line of a batch that says nothing is no fault here: it
//! is an event of the run.
//!
//! `inputs` reads one file of a kind, and is there for commands that read no job as well.
//!
//! A name in a job is printed ASCII, and so it is text.
//!
//! One thread calls this. It starts none, waits for nobody, and keeps nothing between calls. Not promised:
//! that memory suffices, and what a shelf holds that doesn't tell it.
#![tactic(auto)]

mod files;
pub mod inputs;
mod job_file;
mod law;
mod loading;
mod names;

pub use law::one_loading;
pub use loading::load_job;
pub use names::text_of;

//! Reads a job file: which batches are applied and which captures are walked in which round, or the first
//! line at which the file fails to be a job.
//!
//! A job has exactly one spelling as a list of lists of words (`specs/Jobs.antt`), since its counts are
//! decimal numbers without a needless 0. So the grammar is this one function from jobs to lists of lines,
//! with the set of jobs that there are; it has no stages and no order of tests. `read_job` answers by it
//! alone: the job is the one that has these lines, and the bad line is the first such that no job's lines
//! begin with the lines up to it. `one_reading` states that bytes spell a job or have a first fault, never
//! both, and one at most of either, so nothing is left to chance.
//!
//! The code goes over the file line by line, with a draft of the job and a stage that says which lines may
//! follow. That no line is told too late rests on one fact about the stages: from each of them some lines
//! lead to a whole job. A capture ends its round, so behind it stands the same stage as before the first
//! round.
//!
//! Lines and words are cut by `tc_words`, as those of a batch file. Names are copied out of the file's bytes,
//! so a job outlives them. Nothing is kept between calls, so any thread may call any function.
//!
//! Not promised: that the files which a job names are there, and that memory suffices.
#![tactic(auto)]

mod batches;
mod captures;
mod counts;
mod draft;
mod fault;
mod job;
mod law;
mod read;
mod rounds;
mod steps;
mod words;

pub use fault::{JobFault, JobKind};
pub use job::{BatchName, CaptureName, Job, Round};
pub use law::one_reading;
pub use read::read_job;
pub use rounds::{BatchNames, Rounds};

//! Rehearses `tc` filter batches on captures: all that the program does, behind one call.
//!
//! `tool` does what the words of a command line say. What the words may be and what each status says is
//! `tool_words`; what a command does is `tool_run`, which has the promise of all that in
//! `specs/Promises.antt`. Here it is picked: `run_job` and `gen_job` run a job on threads over a shared hook
//! (`job_rounds`), one that files say and one that is made, and every other command is `tool_run`'s `obey`,
//! which starts no thread and calls nothing of the shared hook. It is given on for whoever may not wait.
//!
//! The program, `clsact_cli`, puts a process around this. Who puts something else around it brings a shelf
//! for files, a sink for lines, and a gate, which in use lets everything through.
//!
//! One thread calls all of this. `tool` alone starts others, for `run` and `gen`, and none is left when it
//! returns.
//!
//! Not promised: that memory suffices, that a run ends, and what a real file or terminal holds.
#![tactic(auto)]

mod commands;
mod gen_job;
#[cfg(test)]
mod run_cases;
mod run_job;
#[cfg(test)]
mod same;
#[cfg(test)]
mod tests;

pub use commands::tool;
pub use tool_run::obey;

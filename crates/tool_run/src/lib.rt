//! What the program does for a command, over files and a text that it knows by their traits alone.
//!
//! A run is a function of the words and of the files that they name. `obey` carries that as its contract, in
//! nine words that `specs/Promises.antt` says: each status has its cause, nothing is written where the input
//! is at fault, the bytes put and written are those that the definitions give, and what is fetched and put is
//! a front of the input and of the output, in the order of work, each name once.
//!
//! Each command has a module of its own, which reads its files in their order (`inputs` of `job_files`),
//! where the first fault ends it; `run_show`, `run_walk` and `run_recheck` work out all that one command asks
//! for, then put, then write; `run_trace` and `run_trace_report`, which are the two kinds of `trace`, and
//! `run_foresee` have each packet told and written by itself. How a job and a report are loaded, and the
//! line that judges them, is `judging`, for `recheck` and for `trace`. `text` writes line by line, so that a
//! text of a million lines is never held, and `packet_line` makes each packet's line of the one before, whose
//! number is counted up where it stands. What is put and written comes from `shown_batches` of `tc_report`,
//! `batch_walk`, `batch_trace`, `report_check`, `report_trace`, `change_fates` and `generated`. A walk's
//! output is put in pieces of its input, which therefore lives until then.
//!
//! What is said of reports and traces is imported through `report_trace`, and what a program needs beside of
//! jobs and their runs is passed on here, so that few crates stand right below each.
//!
//! The run of a job needs threads, and so `run` and `gen` stand in the program, beside this: `obey` asks that
//! the words are neither's. What they promise is said here all the same (`specs/Runs.antt`,
//! `specs/Delivered.antt`), and so is the rest that needs no thread. Of a run that is over `put_outputs` puts
//! the captures; `load_workload` has the job of `gen` in memory, and `deliver_workload` puts the files of a
//! workload and writes its text. That this text is that of plain walks, whatever the threads did, is the law
//! of `quiet_jobs`.
//!
//! It stands apart from the program's crate, since nothing here needs a process: tests call it with a shelf
//! and a sink of their own.
//!
//! One thread calls this. It starts none, waits for nobody, and keeps nothing between calls. Not promised:
//! that memory suffices, and what a shelf or a sink holds that doesn't tell it.
#![tactic(auto)]

pub mod generated;
mod input;
mod judging;
mod outputs;
mod packet_line;
mod quiet_jobs;
mod run_foresee;
mod run_gen;
mod run_recheck;
mod run_show;
mod run_trace;
mod run_trace_report;
mod run_walk;
mod serving;
mod text;
mod workloads;

pub use job_files::load_job;
pub use lawful_runs::LoadedJob;
pub use outputs::put_outputs;
pub use quiet_jobs::a_batch_then_a_capture;
pub use report_trace::{Check, recheck};
pub use run_gen::deliver_workload;
pub use run_report::{
    CounterLine, EventKind, OutcomeView, RoundRecord, RunRecord, summary_of, write_report,
};
pub use serving::{ended, obey};
pub use workloads::load_workload;

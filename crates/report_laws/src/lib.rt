//! A report determines its run.
//!
//! A lawful run's text is a lawful report. This crate says the reverse: two lawful runs of a job with the
//! same text are one run (`one_run_of_each_report`). A report shows neither the frames that walks leave nor
//! what ran in each walk, but both follow from what it shows, and so nothing of a record is lost in its text.
//!
//! Why: a text tells its lines, since each line has its one end at its last byte (`lines_of_reports`). And a
//! line leads to one stand (`one_stand`). Kinds of lines differ in their first two bytes. An event's line
//! tells its control, and so the command and its result on the state so far. A packet's line tells its worker
//! and its points, and its walk is a function of these. All other lines follow from what was told before. So
//! the lines of a report are the path of one run.
//!
//! Line by line, a smaller question is asked: which line may come next? A `Stand` (`specs/Stands.antt`) says
//! how far a report has come: before its first line, before a round, in a round with what it has told so far,
//! or behind the rounds with the lines that are left. `Takes` says of a stand and a line whether that line
//! may come there, and where the report then stands: a control's next command with its result on the state so
//! far (`specs/Begun.antt` says which events a round can have had), the next packet's walk at lawful points,
//! a round's first and last line, a counter. Each of these is judged by the job and by what was told before,
//! and by nothing that is told later. The lines of a lawful run may come one after the other, to the end
//! (`runs_are_paths`).
//!
//! Numbers are told apart by their decimals as far as those of 64 bits go. A loaded job has far fewer
//! commands, so no point comes near. That no two batches of a round are of one control is asked of the job as
//! well: with two, a line might be a command of either.
//!
//! No lawful run is longer than its job (`runs_are_short`), so a report can be written and its events and
//! packets counted. And each loaded job has a lawful run (`each_job_has_a_run`): the path without a line goes
//! on to an end as well.
//!
//! `line_cuts` cuts bytes into lines, and finds the end of a number. `whole_paths` says that each path goes
//! on to the end, and so where lines get stuck, which is the first bad line of a report; `next_lines` says
//! which line may come next, in words that whoever judges a report can compute.
//!
//! Laws only: there is nothing here to call at run time.
#![tactic(auto)]

mod laws;
pub mod line_cuts;
pub mod next_lines;
mod stands;
pub mod whole_paths;

pub use laws::{
    each_job_has_a_run, lines_of_reports, one_run_of_each_report, one_stand, runs_are_short,
};
pub use stands::runs_are_paths;

//! Which runs of a job are lawful, and which reports.
//!
//! A job says which batches and captures meet in which round. How they meet is left to threads: controls
//! apply the lines of their batches while workers walk packets. So a job has many runs, and this crate says
//! which of them there may be (`specs/Lawful.antt`). The events of a round are its controls' lines, each
//! control's in order, each with the result of its edit on the state before it (`specs/Events.antt`). The
//! accepted edits, in this order, are the journal, and a point names the state after so many of them. Each
//! packet's walk makes each visit at one point of the journal, at which the visited thing stood
//! (`specs/Outcomes.antt`). The points have four rules (`points` of `walk_rules`): the
//! head's is neither before the edits of earlier rounds nor before anything that its worker had seen
//! (`specs/Points.antt`), no other is before the head's, none is past the edits of the round, and for one
//! mask or one action they never fall. A counter is kept for each action that was ever made.
//!
//! The definitions compute nothing that a run would have to follow, and name no thread: they are judged by a
//! report and a job alone. `laws` says what follows for any lawful run: it has one journal, each line has its
//! result and each packet its walk in that journal, and no worker goes back. `cases` tells of small parts of
//! runs, and of one whole run with its report, whether they are lawful. `logs` leads from what workers hand
//! in to a lawful round, and from round to round.
//!
//! `LoadedJob` is a job with what its files hold, as plain data, which may go to any thread. Nothing else is
//! there at run time: the functions of `laws`, `cases` and `logs` do nothing, and any thread may call them.
//!
//! Not promised: that a run ends, that any two controls or workers really met, or any order in time between
//! threads that told each other nothing.
#![tactic(auto)]

mod cases;
mod laws;
mod loaded;
pub mod logs;

pub use cases::{worked_cases, worked_run_is_lawful};
pub use laws::{
    each_line_has_its_result, each_packet_is_walked, one_counter_each, one_journal,
    points_are_of_the_journal, reports_of_runs, walks_over_one_journal, workers_go_forward,
};
pub use loaded::{Captures, LoadedJob};

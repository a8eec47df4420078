//! What `trace` tells of a lawful report.
//!
//! A report tells of each packet at which points of the journal its walk was answered, and how it ended. Its
//! trace tells beside what the packet met: each visit of that walk, with its point and with the line of the
//! job's batches that brought what answered, and at the end how often each filter that was ever brought
//! decided. The text is the report with these lines between (`specs/Traced.antt`), and taking them away
//! leaves it; the visits that are told are those of the walks that make the run lawful (`laws`).
//!
//! Nothing is judged here: `report_check` has found the report lawful, and has kept the journal of its run
//! (`Replay`). `trace_report` goes over the report once more, reads each packet's worker and points from its
//! line, walks it again at these points, and writes packet by packet, so that no more than one packet's lines
//! are kept. The report's own lines are copied as they stand.
//!
//! What the commands call beside it of `batch_trace` and of `report_check` is passed on from here, and what
//! they say of these too (`specs/Passed.antt`).
//!
//! One thread calls this, and it keeps nothing between calls. Not promised: that memory suffices.
#![tactic(auto)]

mod known;
mod laws;
mod lines;
mod telling;
mod writing;

pub use batch_trace::{trace_batch, write_trace};
pub use laws::{nothing_else_is_told, one_trace, steps_are_lawful_visits};
pub use report_check::{Check, Replayed, recheck, replay};
pub use writing::trace_report;

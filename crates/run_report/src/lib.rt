//! What happened in a run, and the report that tells it.
//!
//! A run goes in rounds. In each round controls apply the lines of batches while workers walk the packets of
//! a capture. A `RunRecord` is what the run came to, as plain data: for each round what became of each
//! command line, in the order in which edits were accepted and lines refused, and how each packet's walk
//! ended, with the worker that walked it and the point of each visit; and for each action that was ever made
//! how often it ran. Whoever runs a job makes one, and whether it is lawful is said above this crate. The
//! lists in it are types that contracts see as lists, so that a record is plain data in a clause.
//!
//! `write_report` writes the text of a record, which is defined as a list of lines, `report_lines` in
//! `specs/Reports.antt`. An event's line has the number of edits that were accepted before it, with the edit
//! itself where it was accepted: so these numbers tell the state to which an edit was applied, and a point
//! names a state by the same number. A frame's line has its length, and not its bytes. The last line is
//! `end`, by which a report that was cut off is known.
//!
//! A report may be as long as what it tells of, so it is never held whole. Its lines are put on a page of
//! some 256 KiB, which is handed to the sink when it is full, and then begun again in the same memory
//! (`page`): few calls of the sink, and none for a line alone. Where packets' lines tell the same but for
//! their numbers, that is made once (`packet_tails`), and a number is counted up in its digits (`line_head`).
//! The line of an event and that of a packet can also be had alone, from what they show (`push_event_line`,
//! `push_packet_line`), for whoever compares a report line by line.
//!
//! A round has as many outcomes as packets. Whoever walks packets puts their outcomes into an `OutcomeList`,
//! which keeps frames, points and executions in three buffers that all share, and lends an outcome by its
//! row. The `Outcomes` of a round are several such lists with the place of each packet's outcome in them, so
//! that nothing is copied when a round ends. Contracts see both as the list of outcomes.
//!
//! Records are plain data, which may go to any thread. `write_report` keeps nothing, and may be called by any
//! thread that may read the record and owns the sink.
//!
//! Not promised: that memory suffices, that a record is one of a run that happened, how long a report is, and
//! in how many calls of the sink it is written.
#![tactic(auto)]

mod counters;
mod done;
mod event_lines;
mod events;
mod line_head;
mod outcome_list;
mod outcomes;
mod packet_lines;
mod packet_tails;
mod page;
mod pieces;
mod record;
mod reporting;
mod rounds;
mod summing;

pub use counters::{CounterLine, CounterLines};
pub use event_lines::push_event_line;
pub use events::{Event, EventKind, Events};
pub use outcome_list::OutcomeList;
pub use outcomes::{Outcome, OutcomePlace, OutcomeView, Outcomes};
pub use packet_lines::push_packet_line;
pub use record::RunRecord;
pub use reporting::write_report;
pub use rounds::{RoundRecord, RoundRecords};
pub use summing::summary_of;

//! Where lines that may come one after the other get stuck is the first bad line of a report.
//!
//! `report_laws` says which line may come next at each stand of a report, by what was told before, and that
//! the lines of a lawful run may come one after the other. This crate says the rest, so that whoever judges
//! a report never has to speak of runs: one line after the other is taken or not, and that decides.
//!
//! Each path goes on to the end (`ends_of_paths`): whatever the lines so far told, the controls can apply
//! what they have left, one control after the other, and a worker can walk the packets that are left, each
//! visit at the last edit of the round. So lines that may come one after the other begin a lawful report, and
//! where they come to the end they are the lines of a lawful run.
//!
//! From that follows what is to be shown of a report's bytes (`the_first_bad_line`): a path of all lines to
//! the end; or a path of some, and a line that may not come there; or a path of all lines to a stand that is
//! no end. In the last two the number of the line, or one more than the number of lines, is the least with
//! which no lawful report begins. Line numbers count from 1, and a last line without 0x0A counts.
//!
//! Laws only: there is nothing here to call at run time, so any thread may do anything with it.

mod laws;

pub use laws::{ends_of_paths, the_first_bad_line};

//! The change of a batch, and what the fates of its packets have to do with runs.
//!
//! A change is applied behind a batch, line by line, while packets come. `IsChanged` (`specs/Changes.antt`)
//! says what becomes of the lines of both, by the same relations that say it of a run's: there is one such
//! outcome (`some_change`, `one_change`), and with it one journal, whose states a packet can meet.
//!
//! The fates that a packet can have over these states (`CanHave` of `walk_fate_laws`) are those that runs
//! record. The job is the plainest one: a round in which one control applies the batch, and one in which it
//! applies the change while the packets come (`specs/Jobs.antt`). Whatever a lawful run of that job records of
//! a packet, the packet can have; and whatever it can have, some lawful run records, with one worker as with
//! eight (`fates_of_runs`). With as many workers as packets each choice of fates, one a packet, is that of one
//! run (`fates_together`); with fewer, what one packet meets may bind the next of its worker.
//!
//! Definitions and laws alone: there is nothing here to call at run time, so any thread may do anything with
//! it.
//!
//! Not promised: that a run has a given fate, or how likely one is.
#![tactic(auto)]

mod laws;

pub use laws::{fates_of_runs, fates_together, one_change, some_change};

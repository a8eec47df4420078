//! Jobs in use: rounds on threads, with edits and walks that meet at known places.
//!
//! The contract of `run_job` says that a run is a lawful one of its job, whatever threads did. What is added
//! here: that threads are there at all. A run's gate (`Order`) makes steps of controls and walks come one
//! after the other in a given order, in which a walk and an edit overlap, two walks are under way at the same
//! time, two controls take turns, or a walk holds an edit. What is then reported was worked out by hand
//! (`scripts`). Who ran controls and workers one after the other could not take these steps: the gate opens
//! by itself after a while, and the test fails. And there are jobs at random, with as many threads as a job
//! can have (`random`): each report is judged as one of a lawful run, and each counter is counted again.
//!
//! A lawful run may be a stale one: nothing is promised of when a walk sees an edit. So lines are also placed
//! before and behind each visit of a walk, in all ways (`placements`), and at random between the visits of
//! two walks (`random_placements`). Another gate (`Schedule`) has walks and lines take turns. What they lead
//! to is worked out by a plain twin: `twin` has the device, and `twin_walk` a packet's walk while it changes.
//!
//! # How it is tried
//!
//! All files of a job are held in memory (`jobs`), so a test runs as the program does: from a job's text to
//! the text of its report. What a test finds is the same whatever the schedule.
//!
//! These tests stand at the top, where only the program's own proof waits for theirs. There is nothing to
//! call.
//!
//! Not promised: anything of time.
mod dice;
mod jobs;
mod order;
mod placed;
mod placement_cases;
mod placements;
mod random;
mod random_jobs;
mod random_placements;
mod running;
mod schedule;
mod script;
mod scripts;
mod trouble;
mod twin;
mod twin_actions;
mod twin_lines;
mod twin_walk;

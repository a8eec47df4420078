//! What needs no store, in use: words, lines, captures, job files and reports with what they say, the files
//! and outputs that they lie in, and walks over plain lists.
//!
//! The contracts of the crates below say that bytes are read and written, and packets walked, by the
//! definitions in specs/. What is added here is that these are the ones meant. The tables were worked out by
//! hand from the rules of words, lines, captures, job files, workloads and reports, as docs/FORMATS.md has
//! them, and nothing was taken from what the program answers.
//!
//! - Files: `words` has lines, numbers and addresses; `captures` has captures that are cut at every length,
//!   have another header or a packet too long, are written again, and are kept in part; `jobs` has job files
//!   with the line of the first fault; `workloads` has one for four filters, and `reports` a report. No
//!   clause speaks of the texts of a status (`statuses`), nor of what a file of the system holds and which of
//!   them are faults (`outside`). And with memory at hand no call gives up.
//! - Batches: `batch_lines` has each line with the edit that it gives, as it is printed, or with its first
//!   bad word. `registry` asks an empty registry for an action by its name.
//! - Walks: `random` sends random frames through random batches, and compares a walk by visits and one in one
//!   loop with that of `twin`, which goes by the rules over filters, field by field, on a frame of its own
//!   (`plain_frame`). It shares no code with the walks but the readers of fields. One batch more is made so
//!   long that the visits of a walk run out. What lies below a walk has tables of its own: the names of
//!   fields (`names`), the fields of frames, whole and cut (`dissection`), tags that are put on, changed and
//!   taken off (`tags`), and hashes of keys with sizes of tables (`masks`).
//!
//! The crate stands apart from those that it tests, as a test beside their proofs would have them proved
//! twice. There is nothing to call.
#![tactic(auto)]

#[cfg(test)]
mod batch_lines;
#[cfg(test)]
mod batches;
#[cfg(test)]
mod captures;
#[cfg(test)]
mod dice;
#[cfg(test)]
mod dissection;
#[cfg(test)]
mod frames;
#[cfg(test)]
mod jobs;
#[cfg(test)]
mod masks;
#[cfg(test)]
mod names;
#[cfg(test)]
mod outside;
#[cfg(test)]
mod plain_frame;
#[cfg(test)]
mod random;
#[cfg(test)]
mod registry;
#[cfg(test)]
mod reports;
#[cfg(test)]
mod same;
#[cfg(test)]
mod statuses;
#[cfg(test)]
mod tags;
#[cfg(test)]
mod twin;
#[cfg(test)]
mod words;
#[cfg(test)]
mod workloads;

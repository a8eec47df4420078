//! The shared store and the live hook in use: threads that hand each other what they have seen, a desk that
//! edits, and a reader that walks meanwhile in a thread of its own.
//!
//! The contracts of the crates below say what each call answers. What is added here: that memory, where it is
//! there, is enough; that edits at random are answered as plain lists, kept apart, answer them (`random`);
//! that a reader that walks while such edits are made is told, at each visit, what plain lists at the visit's
//! point say (`meanwhile`); that edits between two given visits give a walk the points that were worked out
//! by hand (`scripts`); that a reader that stays inside holds edits up, by the answer that was worked out by
//! hand, and no longer than it stays (`holding`); and that an edit that found no memory changes nothing
//! (`wanting`).
//!
//! Below the hook: that the words of a block are the ones meant, which were written down by hand (`blocks`);
//! that a store, its writer and its readers get on in threads that are joined (`stores`), as do threads that
//! draw numbers and count (`counts`); that a store with the hook's law answers before any commit (`laws`),
//! and that a reader of a new hook enters, visits a head, leaves and learns (`readers`); and the rooms of a
//! writer of masks (`masks`).
//!
//! # How it is tried
//!
//! `Editor` is a desk with its store, `Recorder` a reader that writes down all that it is told, and `Line` a
//! line that was read. Their types say what the desk and the reader ask of their callers, so that the tests
//! need hardly a contract of their own. `meanwhile` has both at work at once, and goes through the journal
//! when both threads have ended. A script (`script`) has turns of the desk and of a `Player`: a reader that
//! goes inside, makes one visit (`Walker`) or leaves, each in a thread of its own that has ended before the
//! next turn. So what a test finds is the same whatever the schedule.
//!
//! The crate stands apart from those that it tests, as a test beside their proofs would have them proved
//! twice. There is nothing to call.
//!
//! Not promised: anything of time.
#![tactic(auto)]

#[cfg(test)]
mod blocks;
#[cfg(test)]
mod counts;
#[cfg(test)]
mod dice;
#[cfg(test)]
mod editor;
#[cfg(test)]
mod frames;
#[cfg(test)]
mod holding;
#[cfg(test)]
mod laws;
#[cfg(test)]
mod lines;
#[cfg(test)]
mod log;
#[cfg(test)]
mod masks;
#[cfg(test)]
mod meanwhile;
#[cfg(test)]
mod player;
#[cfg(test)]
mod random;
#[cfg(test)]
mod random_lines;
#[cfg(test)]
mod readers;
#[cfg(test)]
mod recorder;
#[cfg(test)]
mod same;
#[cfg(test)]
mod script;
#[cfg(test)]
mod scripts;
#[cfg(test)]
mod stores;
#[cfg(test)]
mod trouble;
#[cfg(test)]
mod walker;
#[cfg(test)]
mod wanting;

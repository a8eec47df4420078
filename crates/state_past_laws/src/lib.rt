//! What the past of a state's parts has to keep, edit by edit.
//!
//! Whoever judges a report asks for the filters, masks and actions of states that are long past, and keeps
//! for each of them what it became, with the point from which that held (`slot_pasts`). This crate says when
//! such pasts tell the states of a journal (`Tells`), and how they go on telling when the journal gets one
//! edit more (`pasts_are_extended`): a part that the edit leaves needs nothing, and to any other is put what
//! the state after the edit has there. So an edit costs what it changes, and no state is ever copied. A part
//! may be put twice for one edit, since both times it is the same.
//!
//! A slot is where a filter stands: the serial of its mask, and its key. Which slots an accepted edit changes
//! is said here (`edits_change_slots`): an added filter one; a replaced filter its own, or two where it gets
//! another mask or key; deleted filters theirs. The order in which slots are taken away is free
//! (`taken_slots`), so whoever keeps lists in another order than the state's rows may take theirs. Edits that
//! keep the filters change no slot (`kept_slots`). Which rows, masks and actions an edit changes stands in
//! `changes`.
//!
//! What stands in a slot is what a search of the mask's filters finds (`slots_answer_searches`).
//!
//! Laws only: there is nothing here to call at run time, so any thread may do anything with it.
#![tactic(auto)]

pub mod changes;
mod slots;
mod telling;

pub use slots::{edits_change_slots, kept_slots, slots_answer_searches, taken_slots};
pub use telling::pasts_are_extended;

//! The edits that a batch makes to the filters of the two hooks, and the plain state that they change.
//!
//! An `Edit` is what one batch line asks for, with every word of the line in it and nothing beside them: who
//! reads a line, who applies it and who prints it share this type. Which edits a line can say is `IsLine` in
//! `specs/Lines.antt`, by the ranges of their numbers alone, so that who applies edits need not know how they
//! are spelled.
//!
//! What an edit does is a definition here, and no code. The state (`specs/States.antt`) is a flat list of
//! filters, each with all that it stands under, and a list of actions: no table and no mask is kept apart
//! from its filters, so the state can't say one thing in two places. A step (`specs/Steps.antt`) is the first
//! refusal that applies, each by its own condition (`specs/Refusals.antt`), or the next state with a `Done`.
//! Whoever keeps tables, masks and filters in lists of its own is held to this state, whose order between
//! different masks means nothing.
//!
//! Edits are plain data, which may go to any thread. Only `ActionLines::push` takes memory.
//!
//! Not promised here: that any call does such a step.
#![tactic(auto)]

mod action_line;
mod edit;
mod limits;
mod refusal;

pub use action_line::{ActionLine, ActionLines};
pub use edit::{Edit, FilterLine};
pub use limits::{FILTERS_MAX, LINE_ACTIONS_MAX, MASKS_MAX, TABLES_MAX};
pub use refusal::{Done, Refusal};

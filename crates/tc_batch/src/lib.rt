//! Reads the lines of a batch file: the edit that a line asks for, or the first word at which no line can go
//! on.
//!
//! The grammar (`specs/Grammar.antt`) is a set of lists of words, with the edit that each gives. It has no
//! order of tests and no states: it says which words may follow one another, and leaves choices open. `line`
//! answers by that set alone. Its edit is the one that the grammar gives, and its bad word is the first w
//! such that no line at all has the first w words of this one. `one_line` states that a list of words has one
//! edit or one first bad word, so there is nothing left to chance.
//!
//! The code reads word by word, in a state that says how far the line has come. That no word is told too late
//! rests on one fact about the states: from each of them some words lead to a whole line. So a state is never
//! kept that only looks alive, and rules such as "replace needs pref and handle before flower" refuse the
//! word at which they break.
//!
//! A state holds what was read: a draft of the edit, and a stage. Each step writes the next one where they
//! stand, since they are too large to be handed on word by word. A field that stands twice is refused by its
//! name, not by its mask, since a mask of 0 leaves no trace in the edit.
//!
//! Words are read off the front of what is left of the line. So reading a line takes memory for its actions
//! alone. Nothing is kept between calls, so any thread may call any function.
//!
//! Not promised: that tc(8) takes each of these lines, or refuses the others at the same word. What an edit
//! does is not told here, and how edits are printed neither.
#![tactic(auto)]

mod action_keywords;
mod action_steps;
mod actions;
mod draft;
mod fault;
mod field_name;
mod field_values;
mod fields;
mod keywords;
mod kind_names;
mod line_steps;
mod marks;
mod numbers;
mod options;
mod reading;
mod stage;
mod steps;
mod tag;

pub use fault::LineFault;
pub use field_name::FieldName;
pub use kind_names::kind_name;
pub use reading::{is_command, line, one_line};

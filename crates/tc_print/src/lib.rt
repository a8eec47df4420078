//! Edits as batch lines: what `tc_batch` reads, the other way round.
//!
//! Many lines give one edit: options stand in any order, numbers have two forms and names their spellings.
//! One of them is chosen here by the edit alone. Each part that has a value is written out, also a value that
//! a line might leave out, as chain 0; the fields stand in the order of their table; and a field whose mask
//! is 0 does not stand at all. So edits that are equal are printed alike, and a line says all that its edit
//! holds.
//!
//! The line of an edit is a list of words, `edit_words` in `specs/EditWords.antt`, and its text is these
//! words with one space between. That it gives its edit again is proved in the grammar of `tc_batch` itself,
//! one rule after the other: where what follows may stand behind a rule, the printed words and what follows
//! may stand for the rule. So the printer and the reader share no code, and neither is right by the other's
//! leave.
//!
//! A line is made in one buffer, word by word. Its memory is all that is taken, and the only fault is that
//! there is none left.
//!
//! A crate that prints lines of its own takes the words from here: `push_word` and its kin put them behind a
//! line that the caller holds, and take nothing back where memory is refused on the way.
//!
//! Not promised: that a line is the shortest one, and how long it is. What is printed of an edit that no line
//! can say is not told, so `print_edit` asks for `IsLine`.
//!
//! Nothing is kept between calls, so any thread may call any function.
#![tactic(auto)]

mod actions;
mod controls;
mod edit;
mod fields;
mod laws;
mod options;
mod texts;

pub use actions::{push_action, push_params};
pub use controls::push_index;
pub use edit::{print_edit, push_qdisc, push_shared};
pub use fields::push_fields;
pub use laws::printed_lines_give_their_edits;
pub use options::{push_hook, push_options};
pub use texts::{push_handle_word, push_named, push_protocol_word, push_word};

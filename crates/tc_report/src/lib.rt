//! What a run tells of its state: the text that shows the lists, and the line that tells why a batch stopped.
//!
//! `show_text` writes lists out line by line: the qdisc if it is there, each shared action as the line that
//! makes it and a line with its counts, each filter as the line that adds it, and `end`. The text is defined
//! on the plain state, `show_of` in `specs/Show.antt`, and the lists give that of every state that they
//! spell. So two lists that spell one state are shown alike, to the byte, and a text tells nothing of how the
//! lists are kept. `end` is there so that a text that was cut off is known by it.
//!
//! Actions are shown by kind and then index, under which edits name them. Filters are shown on ingress first,
//! then by chain, pref and mask, and those of one mask as they were accepted: that is the order in which the
//! lists hold them, so nothing is sorted there. A filter names each of its actions by kind and index, since
//! the action's own line stands above.
//!
//! The words of a line are those of `tc_print`, which batch lines are printed with. All lines grow in one
//! buffer, one after the other, and their memory and that of the sorted actions is all that is taken.
//!
//! `push_refused` and `push_bad_line` put the line that tells why a batch stopped: how many edits were
//! accepted, the control and the line, and then the refusal by its name and what it says besides, or the word
//! that doesn't fit (`specs/Refusals.antt`). They put it at the end of a text that the caller holds, and take
//! no other memory.
//!
//! `shown_batches` joins the two: what `show` answers for the lines of a batch.
//!
//! `show_text` reads the lists by `&`, keeps nothing, and may be called by any thread that may read them.
//!
//! Not promised: that memory suffices, and how long a text is.
#![tactic(auto)]

mod refusals;
mod sheet;
mod show;
mod shown_actions;
pub mod shown_batches;
mod shown_filters;

pub use refusals::{push_bad_line, push_refused};
pub use show::show_text;

// Passed on: who stands above needs no other crate for it.
pub use batch_run::MadeAction;

//! Each accepted edit meets what the law of commits asks of one of its kind.
//!
//! The law of a hook (`hook_law`) knows no edits: for each kind of numbered commit it asks that the edit
//! which the commit carries changes this part of the state alone, and the rest not at all. `edit_effects`
//! says what an edit changes of a plain state. Here the two meet, in the law's own words at this project's
//! states: whoever builds the record of a commit takes what it says of the edit from here, field by field,
//! and adds what it knows of chains, slots and roots.
//!
//! The premise is the same everywhere, `IsAccepted` (`specs/OfEdits/Premises.antt`): the commits so far keep
//! the law, the edit is one that a line can say, and the step from the state that they have come to accepts
//! it. `accepted_edits` says that it may be made then, and that the states are sound. Edits that no walk can
//! see have a whole record at once, `unseen_edits`. An edit of an action sets one action. An edit of filters
//! changes one mask alone (`filter_added`, `filter_replaced`, `filter_removed`) or goes to the head of one
//! hook (`head_changed`), and `actions_of_filters` says what it does to actions.
//!
//! The law reads an action's index beside its parameters. `edit_effects` speaks of parameters alone, so
//! that no edit changes an index is shown here, once for all edits.
//!
//! Laws only: there is nothing here to call at run time, so any thread may do anything with it.
//!
//! Not promised: which tables the changed hook has afterwards, and what an action that a filter's line makes
//! looks like. Whoever commits these has them from the state that it has made, and compares.

mod filter_laws;
mod laws;

pub use filter_laws::{
    actions_of_filters, filter_added, filter_removed, filter_replaced, head_changed,
};
pub use laws::{
    accepted_edits, action_changed, action_deleted, action_made, first_edit, qdisc_edits,
    unseen_edits,
};

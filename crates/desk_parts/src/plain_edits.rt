//! Edits of the qdisc and of actions apart from filters, done on a whole desk.
//!
//! `ledgers` of `desk_actions` and `desk_actions` do these edits over parts of a desk, and say what becomes
//! of those parts. But any edit may follow any other, so the rest must be seen to be right too: the tables of
//! both hooks and the masks, which `IsDesk` of `desk_parts` ties to the commits. None of these edits touches
//! a filter. Each is one commit, to a root where no head, mask or bucket stands: the marker's, or that of a
//! slot of actions. So all that is known of tables and masks goes on. Each call here asks for a desk and
//! leaves one.
//!
//! The thread that has the store's writer calls, with an edit that was made ready before. A call refuses
//! nothing, takes no memory and doesn't wait.
//!
//! Not promised: that the pools have what an edit takes, which the caller sees to, by tidying or else.

mod changing;
mod deleting;
mod making;
mod marking;

pub use changing::change_action;
pub use deleting::delete_action;
pub use making::make_action;
pub use marking::mark_edit;

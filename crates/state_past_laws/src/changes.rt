//! What an edit changes of rows, masks and actions, for whoever keeps their past.
//!
//! Whoever follows the states of a journal edit by edit, and keeps apart what stood in each slot, under each
//! mask and as each action, has to know after an edit which of them to look at again. This module says which.
//! Some rows go and one may come (`rows_go_on`); what stands in a slot or under a mask follows from these
//! alone (`slots_go_on`, `masks_go_on`), so that nobody looks at more than the rows that an edit names. An
//! action that was given before is as it was, but for those that the rows that go have named, or the edit
//! itself (`actions_go_on`).
//!
//! Of the rows that go it is asked where they stood; of the masks whether one with their words is left in
//! their table; of the actions whether they are live. All of that a state in any order of its rows tells
//! (`order_hides_nothing`), so that lists that keep rows in an order of their own serve as well.
//!
//! A past that was brought up to the point behind an edit tells the longer journal (`pasts_go_on`).

mod pasts;
mod rows;
mod standing;

pub use pasts::pasts_go_on;
pub use rows::{actions_go_on, rows_go_on};
pub use standing::{masks_go_on, order_hides_nothing, slots_go_on};

//! The filter of a line, as it is stored.
//!
//! When the lists have done an edit, they answer with the filter's handle and with the serials of its
//! actions, in order. In a block a filter names each action by its serial and its slot. Here it is made of
//! the line and of that answer, with the slots at which `ActionPlaces` has the actions: those that were live
//! before, and those that were put for the edit. `names_of` tells these alone, also of filters of the lists.
//!
//! That it can be stored (its handle isn't 0, it has 16 actions at most, and their serials and slots are in
//! their ranges) follows from the state to which the edit leads, in which the filter stands: every state of
//! lawful edits is sound. `answered_filters_stand` says that it stands there, for each kind of edit.
//!
//! Any thread may call anything here; nothing takes memory or waits.
//!
//! Not promised: that the actions were put, which whoever commits has to see to before.

mod laws;
mod naming;

pub use laws::{answered_filters_stand, lines_of_filters_answer};
pub use naming::{names_of, stored_filter};

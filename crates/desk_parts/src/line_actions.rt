//! Actions of a filter's line, on a hook's live store: those that the line makes, and those that go with it.
//!
//! A filter names its actions by serial and slot, so each of them must have its slot and its record before
//! the filter can be seen. `put_new_actions` sees to those that the line makes: it puts them into slots that
//! nobody knows, by commits without a number, before the commit of the edit. Their stamp is the number that
//! the edit will have, so that whoever comes to them knows the edit.
//!
//! The lists have changed by then: an edit is done in the lists first, so that nothing can fail between two
//! commits. What is put is read off them. Each serial that the edit gave is live
//! (`proofs/OfLineActions/Living.antt`), and gets a slot and a block; those that were live before keep
//! theirs. What it leaves is `ArePut` (`specs/OfLineActions/Put.antt`), which has what the law asks of the
//! edit's own commit, and all places for the state that the edit leads to.
//!
//! Behind the commit of the edit `drop_dead_actions` lets the actions go that the old filters named and that
//! nobody holds any more: their slots and blocks leave the pools' use, to come back when no walk can have
//! them. What is to go is told by serials, and what goes by the lists, so a serial may be named more than
//! once, or be of an action that others hold. The serials that the old filters name are enough
//! (`actions_that_go`), and so many are fewer then (`actions_in_balance`).
//!
//! The thread that has the store's writer calls. That the pools have what is needed is the caller's to see
//! to; so no call refuses anything, takes memory or waits.

mod dropping;
mod laws;
mod putting;

pub use dropping::drop_dead_actions;
pub use laws::{actions_in_balance, actions_that_go, live_places, places_go_on};
pub use putting::put_new_actions;

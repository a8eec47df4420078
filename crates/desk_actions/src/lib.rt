//! Edits of actions apart from filters, on a hook's live store.
//!
//! An action keeps its slot as long as it is live, and its record is one block that the slot's root names. An
//! edit that makes an action takes a slot and a block out of the pools; one that changes an action takes a
//! block, and the old one leaves; one that deletes it names nobody's root, since no filter names the action,
//! and slot and block leave. Each is one numbered commit, so a walk finds the action as it was or as it is.
//!
//! How a record is written for a slot, and read from it, is told by `roots`.
//!
//! `ActionPlaces` knows where live actions stand: by its serial an action's slot, and by the slot the block.
//! Serials are never given twice, so no entry is ever looked for. What makes it right is `AreHere`
//! (`specs/Places.antt`), which each call asks for and leaves.
//!
//! The thread that has the store's writer calls. An edit was made ready before, and that the pools have what
//! it needs is the caller's to see to; so no call refuses anything, takes memory or waits.
//!
//! `ledgers` has the plain lists and the store's writer, kept together, on which all edits of a desk rest.
//!
//! Not promised: that what left is free again, which `tidying` of `desk_pools` sees to.
#![tactic(auto)]

mod changing;
mod deleting;
pub mod ledgers;
mod making;
mod naming;
mod places;
pub mod roots;

pub use changing::change;
pub use deleting::delete;
pub use making::make;
pub use places::ActionPlaces;

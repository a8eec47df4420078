//! Room for what a visit of a walk is told: the head of a hook, and the actions of a filter that was found.
//!
//! A walk asks its visits, each answer may be long, and no packet may take memory. So the walk makes a
//! `HeadRoom` and a `Hit` once, and lends them to each visit, which clears and fills them. Contracts see a
//! `HeadRoom` as the list of its tables beside the list of those that it was cleared of, and a `Hit` as the
//! list of its actions.
//!
//! What a `HeadRoom` was cleared of stands by until a table is put. One who answers many walks alike may
//! `recall` it and look whether it is what is to be told, which costs less than telling it again.
//!
//! Masks and actions have two names in one: the serial, which is the state's, and a slot, which says where
//! whoever answers keeps the thing. A walk hands slots back and never looks at them.
//!
//! One thread at a time fills or reads a room. Only `HeadRoom::with_room` takes memory. Room for 256 tables
//! of 16 masks each, and for 16 actions, is what the limits of a hook and of a filter ask for; a caller that
//! passes them is refused by the contracts.
#![tactic(auto)]

mod head_room;
mod hit;
mod limits;
mod names;
mod table_head;

pub use head_room::HeadRoom;
pub use hit::Hit;
pub use limits::{HEAD_MASKS, HEAD_TABLES, HIT_ACTIONS};
pub use names::{ActionName, MaskName};
pub use table_head::{MaskNames, TableHead};

//! All that the writer of a hook's store keeps, as one value, and what ties it to the store.
//!
//! A desk has the plain lists and the store's writer (`ledgers` of `desk_actions`), the pools of what may be
//! given (`desk_pools`), the places of live actions (`desk_actions`), the writer of masks, and the tables of
//! each hook (`desk_masks`). Each of these has its own fact over the commits, which says that it is right.
//! `IsDesk` (`specs/Desk.antt`) is all of them together: what holds between two edits. Each kind of edit asks
//! for it and leaves it, so any edit may follow any other.
//!
//! `Parts::new` makes them for a new store, where all is empty, and takes all the memory that they ever need
//! beside the lists'. `tidy` gives free what left, as `tidying` of `desk_pools` says, and leaves all else.
//!
//! They belong to the thread that has the store's writer.
//!
//! What an edit finds on them, and what needs no more than them, stands here too: the mask and the filter of
//! a line (`finding`), that filter as it is stored (`filter_names`), how an edit of filters is going to be
//! done and what it needs (`ways`), the actions that come and go with a line (`line_actions`), and the edits
//! apart from filters, whole (`plain_edits`).
//!
//! Not promised: that an edit finds free what it needs.
#![tactic(auto)]

pub mod filter_names;
pub mod finding;
pub mod gone_serials;
pub mod line_actions;
mod parts;
pub mod plain_edits;
mod shape;
mod tidying;
pub mod ways;

pub use parts::Parts;
pub use shape::HOOK_SHAPE;

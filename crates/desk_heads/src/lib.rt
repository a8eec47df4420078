//! Edits that give a hook its tables anew, on a hook's live store.
//!
//! A mask that comes or goes, or that is built anew elsewhere, changes what the root of its hook names: the
//! tables, each with its masks and their slots. The tables of a hook stand in one of two places. An edit puts
//! the new ones into the place that isn't active and makes one commit that names them, so a walk finds the
//! tables as they were or as they are. What the new tables name must stand before: so a mask is put whole at
//! a slot and in rows that nobody reads, by commits without a number that are stamped with the number of the
//! edit, and then the head's commit carries the edit.
//!
//! `open_mask` is for a filter that is put into a mask of its own, which is new, as its table may be. The
//! tables are told from the plain lists after the edit (`filter_lists`), and each mask has the slot where it
//! was built, or else the one that it had: the old table of the same serial stands near the place of the new
//! one, so it is looked for there first.
//!
//! `close_masks` is for a deletion with which a mask goes, or a whole table with its masks. Afterwards no
//! head names these, and nothing stands at their roots (`IsGone`), but the writer of masks still holds them.
//! `forget_mask` takes one out of it, and says that its slot, its rows and then its blocks may leave: it is
//! for the caller to go over those that went, which the old tables name. `give_tables` is the head's commit
//! alone, for edits that build several masks first.
//!
//! Blocks, rows and slots are handed in, and the pools are the caller's. A call says of all right pools that
//! have none of what was handed in that they are right afterwards, with the places turned.
//!
//! The thread that has the store's writer calls. No call takes memory: the room for the tables of a hook is
//! taken once, and the tables that were kept are the room for the next ones. So no call refuses anything, and
//! none waits.
//!
//! `head_commits` has the laws: masks that are prepared, and then the tables that name them, keep the hook's
//! law, commit by commit.
//!
//! Not promised: that anything of what is needed is free, nor that actions of the edit's line have been put;
//! both are the caller's to see to.
#![tactic(auto)]

mod closing;
mod forgetting;
mod giving;
pub mod head_commits;
pub mod moves;
mod opening;
mod slots;
mod telling;

pub use closing::close_masks;
pub use forgetting::{forget_mask, held_masks};
pub use giving::give_tables;
pub use opening::open_mask;

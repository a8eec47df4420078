//! What a desk keeps of the masks and tables of a hook, and that it is what the commits put there.
//!
//! The commits of a hook's store are told in the law's terms: heads name masks with their slots, records name
//! rows, buckets name filters. The thread that edits can't search the store for these. It has the writer of
//! masks (`mask_writer`), with the filters of each mask, and for each hook the tables as they are stored. So
//! two facts stand between edits. `HasMasks` (`specs/Masks.antt`): the masks that the writer holds are those
//! that heads name, at their slots, with the filters of the state in their order. `HasTables`
//! (`specs/Tables.antt`): the root of a hook names the tables that are kept, in the place that is active.
//!
//! Definitions, and laws about them: there is nothing here to call at run time, so any thread may do anything
//! with it.
//!
//! Beside these facts stand the laws that keep them and the calls that rest on those: what a head's chain
//! reads as (`head_chains`), the one commit of an edit in a mask that stands (`filter_commits`) and the calls
//! that make it (`filters`), and a mask that gets another number of buckets (`mask_resizes`, and `resizes`,
//! which lays it anew).
//!
//! Not promised: that any edit keeps these facts. The crates that commit show it.
#![tactic(auto)]

pub mod filter_commits;
pub mod filters;
pub mod head_chains;
mod hook_tables;
pub mod mask_resizes;
pub mod resizes;

pub use hook_tables::HookTables;

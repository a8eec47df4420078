//! Edits that move a filter to another mask or key, on a hook's live store.
//!
//! A filter that gets another key comes last in its mask, and one that gets another mask leaves its own. So
//! the masks that such an edit concerns are built anew: each is put whole at another slot and in other rows,
//! as the edit leaves it (`build_mask`). Nobody reads it there yet. Then one commit, which carries the edit,
//! gives the hook its tables, which name the masks at their new slots (`move_masks`): a walk finds all as it
//! was, or all as it is. The masks at the old slots are gone then, and `forget_mask` takes each
//! out of the writer of masks.
//!
//! In between the writer holds both, the masks that heads name and those that were built: `HoldsBuilt`
//! (`specs/OfMoves/Builds.antt`). The list of those that were built is one that clauses name; `move_masks`
//! takes it.
//!
//! Blocks, rows and slots are handed in, and the pools are the caller's. The thread that has the store's
//! writer calls. No call takes memory, and none waits.
//!
//! Not promised: that what is needed is free, nor that actions of the edit's line have been put; both are the
//! caller's to see to.
mod building;
mod laws;
mod moving;

pub use building::build_mask;
pub use laws::built_masks;
pub use moving::move_masks;

//! What an edit of one filter of a mask that stands does to the commits of a hook's store.
//!
//! Such an edit is one numbered commit to a bucket's root. It adds a filter in front of the bucket's chain,
//! takes one out, or puts one in another's place (`specs/Edits.antt` says what is known of each). The law of
//! the hook speaks of states, of regions and of slots that commits tell; the writer of masks speaks of masks
//! that it keeps, of filters as they are stored and of blocks. Here the one is led over to the other: where
//! the masks that are kept are those of the commits (`HasMasks`), the writer's commit meets what its kind of
//! commit has to meet. `proofs/` has what follows, for the crate that commits: the masks go on, a filter
//! keeps the slots of its actions, and the pools stay right where the blocks were taken out of them
//! (`specs/Blocks.antt`). Blocks of a bucket's chain are all different, since each tells the next one; so
//! those in front of a filter can leave once its chain is laid anew.
//!
//! Laws only: there is nothing here to call at run time, so any thread may do anything with it.
//!
//! Not promised: that a mask has the size for its filters afterwards, which is another commit's matter.

mod laws;

pub use laws::{additions_are_lawful, exchanges_are_lawful, removals_are_lawful};

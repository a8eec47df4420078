//! A mask of a hook's live store gets the number of buckets for its filters.
//!
//! After an edit a mask may have a filter more or one fewer than its number of buckets is for. Then it is
//! laid anew behind the edit's commit: into rows and blocks that were taken out of the pools, by commits
//! without a number, the mask's own last. A walk finds the old buckets or the new ones, with the same
//! filters.
//!
//! `refit` makes these commits with the writer of masks, and keeps what a desk knows: the law with each of
//! them, the masks that the writer holds, and that each mask has its number of buckets again. What is asked
//! beforehand is one record, `MayRefit` (`specs/OfResizes/Refit.antt`). A root may get a new chain only with
//! a later stamp, so nothing that was committed for the last edit may stand at the rows' roots or the mask's.
//!
//! The thread that has the store's writer calls. The call refuses nothing, takes no memory and doesn't wait.
//!
//! `fit` is the same, and then the rows and blocks that the mask had leave: rows first, since nothing stands
//! at their roots any more, and then the blocks, which these roots alone name.
//!
//! Not promised: that the size is another one than before, or that the pools have what is given. Both are
//! the caller's to see to.

mod refitting;

pub use refitting::{fit, refit};

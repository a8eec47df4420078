//! A mask that gets another number of buckets keeps the law of the hook.
//!
//! A mask whose filters have become more or fewer is laid whole into new rows: the writer commits the root of
//! each new bucket and then the mask's own (`mask_writer`). It asks that the store's law hold with each first
//! part of these commits, since a reader may look in between. Here that is shown for the law of the hook: as
//! long as the mask's own root names the old record, nothing stands at the new rows' roots; the last commit
//! makes them stand, with the same filters in other buckets.
//!
//! Laws only: there is nothing here to call at run time, so any thread may do anything with it.
//!
//! Not promised: that blocks and rows are there, which is the pools' matter; nor anything of a mask that
//! comes new with its head.

mod laws;

pub use laws::resizes_are_lawful;
